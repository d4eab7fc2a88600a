//! The first subtrace of a cover.

ghost use Rattle.ua_lattice.specs.Lattices.{IsCover};
ghost use Rattle.ua_type.specs.Permitted.{MaySubtrace};

use crate::quotients::quotient_of;
use crate::searches::{Search, first_subtrace};
use std::alloc::Global;
use std::thread::Threads;
use ua_close::{CloseError, Gate, Run};
use ua_part::Part;
use ua_table::{Algebra, Elem};

/// The first subtrace of a cover, in the lexicographic order of pairs.
#[derive(Clone, Copy, Debug, PartialEq, Eq)]
pub enum Trace {
    /// Two blocks of the lower congruence, each by its least member.
    Pair(Elem, Elem),
    /// Some pair generates more pairs than the budget.
    Exceeds,
}

/// The first subtrace of the congruence beta/alpha in the quotient by alpha, where beta covers alpha.
///
/// A related pair (a,b) of different elements is a subtrace if each pair of different elements that it
/// generates, together with the constants, in the square of the algebra generates it. The criterion is this
/// project's own; it is made after the traces of minimal sets (D. Hobby and R. McKenzie, The Structure of
/// Finite Algebras, chapter 2).
pub fn subtrace<R: Threads + Sync, G: Gate>(
    rt: &R,
    alloc: Global,
    a: &Algebra,
    alpha: &Part,
    beta: &Part,
    run: &Run<G>,
) -> Result<Trace, CloseError>
    requires { IsCover a.now alpha.now beta.now }
    ensures permitted { MaySubtrace a.now alpha.now beta.now run.now.budget result }
{
    let made = quotient_of(alloc, a, alpha, beta)?;
    let Search::Found(pair) = first_subtrace(rt, alloc, &made.algebra, &made.theta, run)? else {
        return Ok(Trace::Exceeds);
    };
    let low = made.leaders[pair.low as usize];
    let high = made.leaders[pair.high as usize];
    Ok(Trace::Pair(low, high))
}
