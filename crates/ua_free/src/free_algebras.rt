//! Free algebras.

ghost use Rattle.std.specs.Prelude.{◌≡◌, ◌<◌, ◌≤◌, ◌^◌, IfOk, IfErr};
ghost use Rattle.std.specs.List.{AllByRecursion};
ghost use Rattle.ua_table.specs.declared.limits.TheConstants.{SIZE, WIDTH, VARIABLES, BUDGET};
ghost use Rattle.ua_table.specs.Algebras.{IsVector};
ghost use Rattle.ua_term.specs.Assignments.{projections, power_of_assignments};
ghost use Rattle.ua_close.specs.Answers.{IsCause};
ghost use Rattle.ua_free.specs.Permitted.{MayFree};

use std::alloc::{AllocError, Global};
use std::thread::Threads;
use ua_close::{CloseError, Closure, Gate, Run, close_set, power_within};
use ua_table::limits::{BUDGET, SIZE, VARIABLES, WIDTH};
use ua_table::{Algebra, Frame, Vectors};
use ua_term::{append_values, assignment_count};

/// The projections to all variables, as vectors of so many entries.
fn projections(alloc: Global, size: u32, variables: u8, width: u32) -> Result<Vectors, AllocError>
    requires some { 0 < size }
    requires small { size ≤ SIZE }
    requires width { width ≡ size ^ variables }
    requires narrow { width ≤ WIDTH }
    ensures { IfOk result (λ vectors. vectors.items ≡ projections size variables) }
{
    let mut vectors = Vectors::new(alloc, width);
    for variable in 0..variables {
        let mut row = Vec::with_capacity(alloc, width as usize)?;
        append_values(&mut row, size, variables, variable)?;
        vectors.add(row.as_slice())?;
    }
    Ok(vectors)
}

/// The power of an algebra with a coordinate for each assignment of elements to so many variables, and the
/// projections to variables 0, 1, .. in it, or why these are too wide to be closed. The assignments are in
/// lexicographic order. Nothing is allocated where they are too wide.
pub fn generators<'a>(
    alloc: Global,
    a: &'a Algebra,
    k: u8,
    budget: u32,
) -> Result<(Frame<'a>, Vectors), CloseError>
    requires variables { k ≤ VARIABLES }
    requires some { 1 ≤ budget }
    requires small { budget ≤ BUDGET }
    ensures frame { IfOk result (λ made. made.0 ≡ power_of_assignments a.now k) }
    ensures generators { IfOk result (λ made. made.1.items ≡ projections a.now.size k) }
    ensures admitted { IfOk result (λ made. AllByRecursion (IsVector made.0) made.1.items) }
    ensures cause { IfErr result (IsCause (power_of_assignments a.now k) (projections a.now.size k) budget) }
{
    let width = assignment_count(a.size(), k);
    let frame = power_within(a, width, u32::from(k), budget)?;
    let gens = projections(alloc, a.size(), k, frame.width())?;
    Ok((frame, gens))
}

/// The free algebra with so many generators, at most `limits::VARIABLES`, in the variety of the algebra (S.
/// Burris and H. P. Sankappanavar, A Course in Universal Algebra, chapter II, on free algebras): the
/// subuniverse that the projections generate in the power with a coordinate for each assignment of elements
/// to so many variables. Its members are the values of terms at all assignments.
///
/// The set is closed as `close_set` closes it.
pub fn free<R: Threads + Sync, G: Gate>(
    rt: &R,
    alloc: Global,
    a: &Algebra,
    k: u8,
    run: &Run<G>,
) -> Result<Closure, CloseError>
    requires { k ≤ VARIABLES }
    ensures permitted { MayFree a.now k run.now.budget run.now.workers result }
{
    let (frame, gens) = generators(alloc, a, k, run.budget)?;
    close_set(rt, alloc, &frame, &gens, run)
}
