//! The power in which the vectors of a kind's terms lie, and their generators.

ghost use Rattle.std.specs.Prelude.{◌≡◌, ◌≤◌, IfOk, IfErr};
ghost use Rattle.std.specs.List.{AllByRecursion};
ghost use Rattle.ua_table.specs.declared.limits.TheConstants.{BUDGET};
ghost use Rattle.ua_table.specs.Algebras.{IsVector};
ghost use Rattle.ua_close.specs.Answers.{IsCause};
ghost use Rattle.ua_identity.specs.Chains.{power_of, generators_of};

use std::alloc::Global;
use ua_close::{CloseError, power_within};
use ua_identity::{Kind, place_vectors, width_of};
use ua_table::{Algebra, Frame, Vectors};

/// The power of the algebra in which the vectors of the kind's terms lie, with the generators of these, or why
/// they are too wide to be closed. None of them is made where they are too wide.
pub(crate) fn generators<'a>(
    alloc: Global,
    a: &'a Algebra,
    kind: &Kind,
    budget: u32,
) -> Result<(Frame<'a>, Vectors), CloseError>
    requires some { 1 ≤ budget }
    requires small { budget ≤ BUDGET }
    ensures frame { IfOk result (λ made. made.0 ≡ power_of a.now kind.now) }
    ensures generators { IfOk result (λ made. made.1.items ≡ generators_of a.now kind.now) }
    ensures admitted { IfOk result (λ made. AllByRecursion (IsVector made.0) made.1.items) }
    ensures cause { IfErr result (IsCause (power_of a.now kind.now) (generators_of a.now kind.now) budget) }
{
    let places = kind.places();
    let width = width_of(a.size(), kind.patterns());
    let frame = power_within(a, width, u32::from(places), budget)?;
    let gens = place_vectors(alloc, a.size(), kind.patterns(), places, frame.width())?;
    Ok((frame, gens))
}
