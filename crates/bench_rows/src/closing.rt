//! A closure of vectors under addition modulo a size.

ghost use Rattle.std.specs.Prelude.{◌≡◌, ◌<◌, ◌≤◌, length, slice_index, IfOk, OnOk};
ghost use Rattle.std.specs.List.{AllByRecursion};
ghost use Rattle.ua_table.specs.Algebras.{IsVector, arities};

use std::alloc::{AllocError, Global};
use ua_rows::{Operations, Rows, Scratch};
use ua_table::limits::SIZE;
use ua_table::{Algebra, Elem, Frame, Name, OpTable};

/// The sums of all pairs of elements.
fn sums(alloc: Global, size: u32) -> Result<Vec<Elem>, AllocError> {
    let mut values = Vec::new(alloc);
    for x in 0..size {
        for y in 0..size {
            let sum = (u64::from(x) + u64::from(y)) % u64::from(size);
            values.push((sum % u64::from(SIZE)) as Elem)?;
        }
    }
    Ok(values)
}

/// The numbers below a size under addition, where a table holds so many.
pub(crate) fn group(alloc: Global, size: u32) -> Result<Option<Algebra>, AllocError> {
    if size > SIZE {
        return Ok(None);
    }
    let (Ok(of), Ok(plus)) = (Name::new(alloc, b"Z"), Name::new(alloc, b"plus")) else {
        return Err(AllocError);
    };
    let Ok(table) = OpTable::new(plus, size, 2, sums(alloc, size)?) else {
        return Ok(None);
    };
    let mut ops = Vec::new(alloc);
    ops.push(table)?;
    Ok(Algebra::new(of, size, ops).ok())
}

/// Enters a vector where it is new.
pub(crate) fn enter(rows: &mut Rows, frame: &Frame, v: &[Elem]) -> Result<(), AllocError>
    requires width { rows.old.width ≡ length frame.now }
    requires rows { AllByRecursion (IsVector frame.now) rows.old.items }
    ensures width { rows.new.width ≡ length frame.now }
    ensures rows { AllByRecursion (IsVector frame.now) rows.new.items }
{
    if v.len() != rows.width() as usize || !frame.admits(v) {
        return Ok(());
    }
    if rows.find(v).is_some() || rows.len() == u32::MAX {
        return Ok(());
    }
    rows.push(v)?;
    Ok(())
}

/// Enters the sum of two rows where it is new.
#[inline(always)]
fn enter_sum(
    operations: &Operations,
    rows: &mut Rows,
    x: u32,
    y: u32,
    out: &mut Scratch,
) -> Result<(), AllocError>
    requires binary { slice_index (arities operations.now) 0 ≡ 2 }
    requires some { 0 < length (arities operations.now) }
    requires first { x < length rows.old.items }
    requires second { y < length rows.old.items }
    requires width { rows.old.width ≡ length operations.now }
    requires rows { AllByRecursion (IsVector operations.now) rows.old.items }
    requires out { length out.old ≡ length operations.now }
    ensures width { rows.new.width ≡ length operations.now }
    ensures rows { AllByRecursion (IsVector operations.now) rows.new.items }
    ensures more { length rows.old.items ≤ length rows.new.items }
    ensures out { length out.new ≡ length operations.now }
{
    operations.apply(0, rows, &[x, y], out);
    if rows.find_scratch(out).is_some() || rows.len() == u32::MAX {
        return Ok(());
    }
    rows.push(out.as_slice())?;
    Ok(())
}

/// Enters the sums of a row and those up to it, both ways.
fn enter_sums(
    operations: &Operations,
    rows: &mut Rows,
    last: u32,
    out: &mut Scratch,
) -> Result<(), AllocError>
    requires binary { slice_index (arities operations.now) 0 ≡ 2 }
    requires some { 0 < length (arities operations.now) }
    requires last { last < length rows.old.items }
    requires width { rows.old.width ≡ length operations.now }
    requires rows { AllByRecursion (IsVector operations.now) rows.old.items }
    requires out { length out.old ≡ length operations.now }
    ensures width { rows.new.width ≡ length operations.now }
    ensures rows { AllByRecursion (IsVector operations.now) rows.new.items }
    ensures out { length out.new ≡ length operations.now }
{
    for other in 0..=last {
        enter_sum(operations, rows, last, other, out)?;
        enter_sum(operations, rows, other, last, out)?;
    }
    Ok(())
}

/// How many vectors so many generators make in this width, of which generator j has 1 at every so-manyth
/// coordinate from j on.
pub fn close_sums(
    alloc: Global,
    size: u32,
    generators: u32,
    width: u32,
) -> Result<u32, AllocError> {
    let Some(algebra) = group(alloc, size)? else {
        return Ok(0);
    };
    let Ok(frame) = Frame::power(&algebra, width) else {
        return Ok(0);
    };
    close(alloc, &frame, generators)
}

/// Generator j of so many.
pub(crate) fn generator(
    alloc: Global,
    width: u32,
    generators: u32,
    j: u32,
) -> Result<Vec<Elem>, AllocError>
    requires { 0 < generators }
{
    let mut v = Vec::new(alloc);
    for i in 0..width {
        v.push(Elem::from(i % generators == j))?;
    }
    Ok(v)
}

/// The closure of so many generators under operation 0, if that is binary.
fn close(alloc: Global, frame: &Frame, generators: u32) -> Result<u32, AllocError> {
    let shape = frame.shape(alloc)?;
    if shape.arities().len() == 0 || shape.arity(0) != 2 {
        return Ok(0);
    }
    let operations = Operations::new(alloc, frame)?;
    let mut rows = Rows::new(alloc, frame.width());
    let mut out = Scratch::new(alloc, frame.width())?;
    for j in 0..generators {
        let v = generator(alloc, frame.width(), generators, j)?;
        enter(&mut rows, frame, v.as_slice())?;
    }
    for last in 0..u32::MAX {
        if last >= rows.len() {
            break;
        }
        enter_sums(&operations, &mut rows, last, &mut out)?;
    }
    Ok(rows.len())
}
