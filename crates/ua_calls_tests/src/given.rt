//! Algebras by their texts, elements by digits, and what calls ask for.

ghost use Rattle.std.specs.Prelude.{◌<◌, IsTrue};
ghost use Rattle.std.specs.List.{AllByRecursion};

use std::alloc::{AllocError, Global};
use std::test::Fail;
use ua_table::{Algebra, Elem, Name, OpTable};

/// The part of a text at this place; parts stand between semicolons.
pub(crate) fn part(text: &str, place: usize) -> &str {
    text.split("; ").nth(place).unwrap_or("").trim()
}

pub(crate) fn elements(alloc: Global, digits: &str) -> Result<Vec<Elem>, AllocError> {
    let mut values = Vec::new(alloc);
    for digit in digits.as_bytes() {
        values.push(Elem::from(digit.saturating_sub(b'0')))?;
    }
    Ok(values)
}

fn operation(alloc: Global, size: u32, text: &str) -> Result<OpTable, Fail> {
    let mut words = text.split(' ');
    let name = words.next().unwrap_or("");
    let arity = words.next().unwrap_or("").parse()?;
    let values = elements(alloc, words.next().unwrap_or(""))?;
    let name = Name::new(alloc, name.as_bytes())?;
    Ok(OpTable::new(name, size, arity, values)?)
}

fn operations(alloc: Global, size: u32, text: &str) -> Result<Vec<OpTable>, Fail> {
    let mut ops = Vec::new(alloc);
    for op in text.split(", ") {
        ops.push(operation(alloc, size, op)?)?;
    }
    Ok(ops)
}

/// The algebra of a text as `2: meet 2 0001, join 2 0111`: a size, and the name, the arity and the values of each
/// operation.
pub(crate) fn algebra(alloc: Global, text: &str) -> Result<Algebra, Fail> {
    let (size, ops) = text.split_once(": ").ok_or("no size")?;
    let size = size.parse()?;
    let ops = operations(alloc, size, ops)?;
    Ok(Algebra::new(Name::new(alloc, b"A")?, size, ops)?)
}

/// Whether all of the elements are below a size.
pub(crate) fn are_below(elements: &[Elem], size: u32) -> bool
    ensures { IsTrue result → AllByRecursion (λ x. x < size) elements.now }
{
    for x in elements {
        if size <= u32::from(*x) {
            return false;
        }
    }
    true
}
