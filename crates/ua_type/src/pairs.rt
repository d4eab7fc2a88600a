//! Pairs of elements, and what they generate.

ghost use Rattle.std.specs.Prelude.{◌≡◌, ◌<◌, ◌↔◌, [], ◌∷◌, Contains, IsTrue, replicate};
ghost use Rattle.ua_table.specs.Listings.{vectors_of};
ghost use Rattle.ua_work.specs.Goals.{IsGoal};
ghost use Rattle.ua_close.specs.Permitted.{MayClose, MayReach};
ghost use Rattle.ua_type.specs.Subtraces.{pair_generators, IsBefore};

use crate::generators::pair_generators;
use std::alloc::Global;
use std::thread::Threads;
use ua_close::reaching::reach;
use ua_close::{CloseError, Closure, Gate, Goal, Listing, Reach, Run, close_set};
use ua_table::{Algebra, Elem, Frame};

/// Whether a listing has a pair.
pub fn has(list: &Listing, pair: (Elem, Elem)) -> bool
    ensures { IsTrue result ↔ Contains (vectors_of list.now) (pair.0 ∷ pair.1 ∷ []) }
{
    list.find(&[pair.0, pair.1]).is_some()
}

/// Whether two pairs are equal.
pub fn is_same(pair: (Elem, Elem), other: (Elem, Elem)) -> bool
    ensures { IsTrue result ↔ ((pair.0 ≡ other.0) × (pair.1 ≡ other.1)) }
{
    pair.0 == other.0 && pair.1 == other.1
}

/// Whether a pair stands before another in lexicographic order.
pub fn is_before(pair: (Elem, Elem), other: (Elem, Elem)) -> bool
    ensures { IsTrue result ↔ IsBefore pair.0 pair.1 other.0 other.1 }
{
    pair.0 < other.0 || pair.0 == other.0 && pair.1 < other.1
}

/// The pairs that a pair generates with the constants.
pub fn generated<R: Threads + Sync, G: Gate>(
    rt: &R,
    alloc: Global,
    b: &Algebra,
    x: Elem,
    y: Elem,
    run: &Run<G>,
) -> Result<Closure, CloseError>
    requires first { x < b.now.size }
    requires second { y < b.now.size }
    ensures { MayClose (replicate 2 b.now) (pair_generators b.now x y) run.now.budget run.now.workers result }
{
    let Ok(frame) = Frame::power(b, 2) else {
        unreachable!()
    };
    let gens = pair_generators(alloc, b, x, y)?;
    close_set(rt, alloc, &frame, &gens, run)
}

/// Closes the pairs that a pair generates until a goal is met.
pub fn sought<R: Threads + Sync, G: Gate>(
    rt: &R,
    alloc: Global,
    b: &Algebra,
    x: Elem,
    y: Elem,
    goal: &Goal,
    run: &Run<G>,
) -> Result<Reach, CloseError>
    requires first { x < b.now.size }
    requires second { y < b.now.size }
    requires goal { IsGoal (replicate 2 b.now) goal.now }
    ensures { MayReach (replicate 2 b.now) (pair_generators b.now x y) goal.now run.now.budget run.now.workers result }
{
    let Ok(frame) = Frame::power(b, 2) else {
        unreachable!()
    };
    let gens = pair_generators(alloc, b, x, y)?;
    reach(rt, alloc, &frame, &gens, goal, run)
}
