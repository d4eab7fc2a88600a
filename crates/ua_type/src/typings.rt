//! The type of a cover.

ghost use Rattle.ua_lattice.specs.Lattices.{IsCover};
ghost use Rattle.ua_type.specs.Permitted.{MayType};

use crate::quotients::quotient_of;
use crate::searches::{Search, first_subtrace};
use crate::squares::type_of_subtrace;
use std::alloc::Global;
use std::thread::Threads;
use ua_close::{CloseError, Gate, Run};
use ua_part::Part;
use ua_table::{Algebra, Elem};

/// The type of a cover.
#[derive(Clone, Copy, Debug, PartialEq, Eq)]
pub enum Typed {
    /// Its number, 1 unary, 2 affine, 3 Boolean, 4 lattice and 5 semilattice, and the first subtrace, of two
    /// blocks, each by its least member.
    Found { number: u8, low: Elem, high: Elem },
    /// Some pair generates more pairs than the budget, or the first subtrace more squares.
    Exceeds,
}

/// The type of a cover, by what its first subtrace generates in the square and in the fourth power of the
/// quotient. It is the value of that criterion, which is this project's own, and nothing more; the names are
/// those of the types of tame congruence theory (D. Hobby and R. McKenzie, The Structure of Finite Algebras,
/// chapter 4).
pub fn type_of<R: Threads + Sync, G: Gate>(
    rt: &R,
    alloc: Global,
    a: &Algebra,
    alpha: &Part,
    beta: &Part,
    run: &Run<G>,
) -> Result<Typed, CloseError>
    requires { IsCover a.now alpha.now beta.now }
    ensures permitted { MayType a.now alpha.now beta.now run.now.budget result }
{
    let made = quotient_of(alloc, a, alpha, beta)?;
    let Search::Found(pair) = first_subtrace(rt, alloc, &made.algebra, &made.theta, run)? else {
        return Ok(Typed::Exceeds);
    };
    let low = made.leaders[pair.low as usize];
    let high = made.leaders[pair.high as usize];
    match type_of_subtrace(rt, alloc, &made.algebra, pair, run)? {
        None => Ok(Typed::Exceeds),
        Some(number) => Ok(Typed::Found { number, low, high }),
    }
}
