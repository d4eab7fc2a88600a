//! Bases of rows of vectors, under their meets.

ghost use Rattle.std.specs.Prelude.{◌≡◌, IfOk, length};
ghost use Rattle.std.specs.List.{AllByRecursion};
ghost use Rattle.ua_table.specs.Algebras.{IsVector};
ghost use Rattle.ua_bases.specs.Steps.{AreRowsIn};

use std::alloc::Global;
use std::process::Abort;
use std::test::Fail;
use ua_bases::{Basis, Progress, advance, is_associative};
use ua_rows::{Operations, Rows, Scratch};
use ua_table::{Algebra, Elem, Frame, Name, OpTable};

/// The meet semilattice of two elements.
fn semilattice(alloc: Global) -> Result<Algebra, Fail> {
    let values = Vec::from_slice(alloc, &[0, 0, 0, 1])?;
    let mut ops = Vec::new(alloc);
    ops.push(OpTable::new(Name::new(alloc, b"meet")?, 2, 2, values)?)?;
    Ok(Algebra::new(Name::new(alloc, b"M")?, 2, ops)?)
}

/// Adds a vector of the frame to the rows.
fn add(rt: &impl Abort, frame: &Frame, rows: &mut Rows, v: &[Elem]) -> Result<(), Fail>
    requires { AreRowsIn frame.now rows.old }
    ensures { IfOk result (λ done. AreRowsIn frame.now rows.new) }
{
    assert!(rt; rows.len() < 100 && v.len() == rows.width() as usize);
    assert!(rt; frame.admits(v));
    assert!(rt; rows.find(v).is_none());
    rows.push(v)?;
    Ok(())
}

/// The vectors of the third power but for those before this number: a digit for each bit.
fn rows_from(rt: &impl Abort, alloc: Global, frame: &Frame, first: Elem) -> Result<Rows, Fail>
    ensures { IfOk result (AreRowsIn frame.now) }
{
    let mut rows = Rows::new(alloc, frame.width());
    for k in first..8 {
        add(rt, frame, &mut rows, &[k / 4 % 2, k / 2 % 2, k % 2])?;
    }
    Ok(rows)
}

/// How far a basis of the rows comes with so many steps, and how many bases it has then.
fn advanced(
    alloc: Global,
    frame: &Frame,
    rows: &Rows,
    steps: u32,
) -> Result<(Progress, usize), Fail>
    requires { AreRowsIn frame.now rows.now }
{
    if !is_associative(frame, 0) {
        return Err("not associative".into());
    }
    let operations = Operations::new(alloc, frame)?;
    let mut scratch = Scratch::new(alloc, frame.width())?;
    let mut basis = Basis::new(alloc);
    let progress = advance(&mut basis, &operations, 0, rows, &mut scratch, steps);
    Ok((progress, basis.len()))
}

/// How far a basis of the vectors from this number on comes.
fn meets<R: Abort>(
    rt: &R,
    alloc: Global,
    first: Elem,
    steps: u32,
) -> Result<(Progress, usize), Fail> {
    let algebra = semilattice(alloc)?;
    let frame = Frame::power(&algebra, 3)?;
    let rows = rows_from(rt, alloc, &frame, first)?;
    advanced(alloc, &frame, &rows, steps)
}

#[test]
fn vectors(rt: HostRuntime) -> Result<(), Fail> {
    // The vector of ones and the co-atoms, though zeros come first.
    let (progress, bases) = meets(&rt, rt.alloc(), 0, 1000)?;
    assert!(rt; matches!(progress, Progress::Complete));
    assert_eq!(rt; bases, 4);
    Ok(())
}

#[test]
fn few_steps(rt: HostRuntime) -> Result<(), Fail> {
    let (progress, _) = meets(&rt, rt.alloc(), 0, 20)?;
    assert!(rt; matches!(progress, Progress::Unfinished));
    Ok(())
}

#[test]
fn a_meet_that_is_no_row(rt: HostRuntime) -> Result<(), Fail> {
    // Zeros are left out.
    let (progress, _) = meets(&rt, rt.alloc(), 1, 1000)?;
    assert!(rt; matches!(progress, Progress::Absent(_)));
    Ok(())
}
