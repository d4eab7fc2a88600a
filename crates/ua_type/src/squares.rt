//! The type of a subtrace, by the squares that it generates.

ghost use Rattle.std.specs.Prelude.{ℕ, ◌<◌, ◌≤◌, ◌↔◌, [], ◌∷◌, Contains, IsTrue, replicate};
ghost use Rattle.ua_table.specs.declared.limits.TheConstants.{SIZE};
ghost use Rattle.ua_table.specs.Listings.{vectors_of, IsClosedListing};
ghost use Rattle.ua_type.specs.Subtraces.{Generates};
ghost use Rattle.ua_type.specs.Types.{square_generators, HasType};
ghost use Rattle.ua_type.specs.inner.Squares.{MayHaveType};

use crate::generators::square_generators;
use crate::known::SubtracePair;
use crate::signs::{Signs, type_number};
use std::alloc::Global;
use std::thread::Threads;
use ua_close::{CloseError, Closure, Gate, Listing, Run, close_set};
use ua_table::{Algebra, Elem, Frame};

/// Whether a listing has a square.
fn has_square(list: &Listing, square: [Elem; 4]) -> bool
    ensures { IsTrue result ↔ Contains (vectors_of list.now) square }
{
    list.find(&square).is_some()
}

/// Whether a listing has (x,y,y,z) for some z.
fn is_affine(list: &Listing, size: u32, x: Elem, y: Elem) -> bool
    requires { size ≤ SIZE }
    ensures { IsTrue result ↔ ((z : ℕ) × (z < size) × Contains (vectors_of list.now) (x ∷ y ∷ y ∷ z ∷ [])) }
{
    for z in 0..size {
        if has_square(list, [x, y, y, z as Elem]) {
            return true;
        }
    }
    false
}

/// The type of a subtrace, by the squares that it generates.
fn type_by(b: &Algebra, list: &Listing, pair: SubtracePair) -> u8
    requires first { pair.low < b.now.size }
    requires second { pair.high < b.now.size }
    requires swap { IsTrue pair.swap ↔ Generates b.now pair.low pair.high pair.high pair.low }
    requires closed { (budget : ℕ) × IsClosedListing (replicate 4 b.now) (square_generators b.now pair.low pair.high) budget list.now }
    ensures { HasType b.now pair.low pair.high result }
{
    let (x, y) = (pair.low, pair.high);
    let signs = Signs {
        swap: pair.swap,
        meet: has_square(list, [x, x, x, y]),
        join: has_square(list, [x, y, y, y]),
        affine: is_affine(list, b.size(), x, y),
    };
    type_number(signs)
}

/// The type of a subtrace, or None where it generates more squares than the budget.
pub fn type_of_subtrace<R: Threads + Sync, G: Gate>(
    rt: &R,
    alloc: Global,
    b: &Algebra,
    pair: SubtracePair,
    run: &Run<G>,
) -> Result<Option<u8>, CloseError>
    requires first { pair.low < b.now.size }
    requires second { pair.high < b.now.size }
    requires swap { IsTrue pair.swap ↔ Generates b.now pair.low pair.high pair.high pair.low }
    ensures { MayHaveType b.now run.now.budget pair.low pair.high result }
{
    let Ok(frame) = Frame::power(b, 4) else {
        unreachable!()
    };
    let gens = square_generators(alloc, b, pair.low, pair.high)?;
    match close_set(rt, alloc, &frame, &gens, run)? {
        Closure::Exceeds(_) => Ok(None),
        Closure::Closed(list) => Ok(Some(type_by(b, &list, pair))),
    }
}
