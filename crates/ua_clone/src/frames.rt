//! The power of an algebra with a coordinate for each point, and what generates there.

ghost use Rattle.std.specs.Prelude.{◌≡◌, ◌+◌, ◌<◌, ◌≤◌, ◌^◌, ◌++◌, length, map, replicate, IfOk, IfErr, OnOk};
ghost use Rattle.std.specs.List.{range_with_len};
ghost use Rattle.ua_table.specs.declared.limits.TheConstants.{SIZE, WIDTH, BUDGET};
ghost use Rattle.ua_close.specs.Answers.{IsCause};
ghost use Rattle.ua_clone.specs.Points.{points_of, ArePoints};
ghost use Rattle.ua_clone.specs.Frames.{point_power, variable_vector, point_generators};

use crate::kinds::CloneKind;
use crate::points::Points;
use std::alloc::{AllocError, Global};
use ua_close::{CloseError, power_within};
use ua_table::{Algebra, Elem, Frame, Vectors};

/// The power with a coordinate for each point, or why it is too wide for the variables and the elements to be
/// closed in it. It takes no memory.
pub(crate) fn power<'a>(
    a: &'a Algebra,
    k: u8,
    kind: CloneKind,
    points: &Points,
    budget: u32,
) -> Result<Frame<'a>, CloseError>
    requires points { ArePoints a.now.size k points.now }
    requires some { 1 ≤ budget }
    requires small { budget ≤ BUDGET }
    ensures frame { IfOk result (λ frame. frame ≡ point_power a.now (points_of a.now.size k points.now)) }
    ensures cause { IfErr result (IsCause (point_power a.now (points_of a.now.size k points.now)) (point_generators a.now k kind (points_of a.now.size k points.now)) budget) }
{
    // What this call ensures says that the algebra has an element.
    let _size = a.size();
    let gens = u32::from(k) + kind.elements(a);
    power_within(a, points.len() as u128, gens, budget)
}

/// Appends, for each of so many elements, the vector that is this element everywhere.
fn add_elements(alloc: Global, vectors: &mut Vectors, count: u32) -> Result<(), AllocError>
    requires small { count ≤ SIZE }
    requires room { length vectors.old.items + count < 2 ^ 32 }
    ensures { OnOk result (vectors.new.items ≡ vectors.old.items ++ map (replicate vectors.old.width) (range_with_len 0 count)) }
{
    let width = vectors.width() as usize;
    for c in 0..count {
        let row = vec![in alloc; c as Elem; width]?;
        vectors.add(row.as_slice())?;
    }
    Ok(())
}

/// For each variable, what the points give to it, as vectors of so many entries.
fn variables(
    alloc: Global,
    a: &Algebra,
    k: u8,
    points: &Points,
    width: u32,
) -> Result<Vectors, AllocError>
    requires points { ArePoints a.now.size k points.now }
    requires width { width ≡ length (points_of a.now.size k points.now) }
    requires narrow { width ≤ WIDTH }
    ensures width { IfOk result (λ vectors. vectors.width ≡ width) }
    ensures variables { IfOk result (λ vectors. vectors.items ≡ map (variable_vector (points_of a.now.size k points.now)) (range_with_len 0 k)) }
{
    let mut vectors = Vectors::new(alloc, width);
    for i in 0..k {
        let row = points.variable_row(alloc, a, k, i)?;
        vectors.add(row.as_slice())?;
    }
    Ok(vectors)
}

/// The vectors of the variables, and behind them those of the elements that may stand in a polynomial of the
/// kind.
pub(crate) fn generators(
    alloc: Global,
    a: &Algebra,
    k: u8,
    kind: CloneKind,
    points: &Points,
    width: u32,
) -> Result<Vectors, AllocError>
    requires points { ArePoints a.now.size k points.now }
    requires width { width ≡ length (points_of a.now.size k points.now) }
    requires narrow { width ≤ WIDTH }
    ensures { IfOk result (λ vectors. vectors.items ≡ point_generators a.now k kind (points_of a.now.size k points.now)) }
{
    let mut vectors = variables(alloc, a, k, points, width)?;
    add_elements(alloc, &mut vectors, kind.elements(a))?;
    Ok(vectors)
}
