//! Algebras, frames and generators, each by its text.

ghost use Rattle.std.specs.Prelude.{IfOk};
ghost use Rattle.std.specs.List.{AllByRecursion};
ghost use Rattle.ua_table.specs.Algebras.{IsVector};

use std::alloc::{AllocError, Global};
use std::process::Abort;
use std::test::Fail;
use ua_table::{Algebra, Elem, Frame, Name, OpTable, Vectors};

/// Names of algebras. Behind each stand one algebra or two: a size, and the name, the arity and the values of each
/// operation. `sums` are those modulo 2 and modulo 3, `groups` those modulo 2 and modulo 4, and `cycles` three cycles of 7,
/// 11 and 13 elements, each moved by an operation of its own.
const TABLES: &str = "
    meet = 2: meet 2 0001
    sums = 2: plus 2 0110; 3: plus 2 012120201
    groups = 2: plus 2 0110; 4: plus 2 0123123023013012
    cycles = 31: a 1 1234560789abcdefghijklmnopqrstu, b 1 012345689abcdefgh7ijklmnopqrstu, c 1 0123456789abcdefghjklmnopqrstui";

/// The text of the algebras with this name.
fn tables(name: &str) -> &'static str {
    for line in TABLES.lines() {
        if let Some((key, text)) = line.trim().split_once(" = ") {
            if key == name {
                return text;
            }
        }
    }
    ""
}

/// The element of a digit, or of a letter for 10 and more.
fn element(b: u8) -> Elem {
    let zero = if b < b'a' { b'0' } else { b'a' - 10 };
    Elem::from(b.saturating_sub(zero))
}

pub(crate) fn elements(alloc: Global, digits: &str) -> Result<Vec<Elem>, AllocError> {
    let mut values = Vec::new(alloc);
    for b in digits.as_bytes() {
        values.push(element(*b))?;
    }
    Ok(values)
}

fn operation(alloc: Global, size: u32, text: &str) -> Result<OpTable, Fail> {
    let mut words = text.split(' ');
    let name = words.next().unwrap_or("");
    let arity = words.next().unwrap_or("").parse()?;
    let values = elements(alloc, words.next().unwrap_or(""))?;
    let name = Name::new(alloc, name.as_bytes())?;
    Ok(OpTable::new(name, size, arity, values)?)
}

fn operations(alloc: Global, size: u32, text: &str) -> Result<Vec<OpTable>, Fail> {
    let mut ops = Vec::new(alloc);
    for op in text.split(", ") {
        ops.push(operation(alloc, size, op)?)?;
    }
    Ok(ops)
}

fn algebra(alloc: Global, text: &str) -> Result<Algebra, Fail> {
    let (size, ops) = text.split_once(": ").ok_or("no size")?;
    let size = size.parse()?;
    let ops = operations(alloc, size, ops)?;
    Ok(Algebra::new(Name::new(alloc, b"A")?, size, ops)?)
}

/// The algebras with this name.
pub(crate) fn algebras(alloc: Global, name: &str) -> Result<Vec<Algebra>, Fail> {
    let mut algebras = Vec::new(alloc);
    for text in tables(name).split("; ") {
        algebras.push(algebra(alloc, text)?)?;
    }
    Ok(algebras)
}

/// The power of one algebra, or the product of two.
pub(crate) fn frame_of(alloc: Global, algebras: &[Algebra], width: u32) -> Result<Frame<'_>, Fail> {
    match algebras {
        [algebra] => Ok(Frame::power(algebra, width)?),
        [_, _] => Ok(Frame::mixed(algebras, [0, 1].to_vec(alloc)?)?),
        _ => Err("neither one algebra nor two".into()),
    }
}

/// The vectors of a text, each by its digits.
pub(crate) fn generators(
    rt: &impl Abort,
    alloc: Global,
    frame: &Frame,
    text: &str,
) -> Result<Vectors, Fail>
    ensures { IfOk result (λ gens. AllByRecursion (IsVector frame.now) gens.items) }
{
    let mut gens = Vectors::new(alloc, frame.width());
    for digits in text.split_whitespace() {
        let v = elements(alloc, digits)?;
        assert!(rt; gens.len() < 100 && v.len() == gens.width() as usize);
        assert!(rt; frame.admits(v.as_slice()));
        gens.add(v.as_slice())?;
    }
    Ok(gens)
}
