//! The search for the first subtrace of a congruence.

ghost use Rattle.std.specs.Prelude.{◌≡◌, ◌<◌, length, IfSome, IsOk};
ghost use Rattle.ua_prod.specs.Congruences.{IsCongruence};
ghost use Rattle.ua_type.specs.inner.Images.{RelatesTwo};
ghost use Rattle.ua_type.specs.inner.Outcomes.{MayTryRelated, AreVainBelow};
ghost use Rattle.ua_type.specs.Subtraces.{IsBefore};
ghost use Rattle.ua_type.specs.inner.Known.{IsKnown};
ghost use Rattle.ua_type.specs.inner.Searches.{MaySearch, MaySearchFrom};

use crate::known::{Known, SubtracePair};
use crate::trials::{Trial, try_pair};
use std::alloc::Global;
use std::thread::Threads;
use ua_close::{CloseError, Gate, Run};
use ua_part::Part;
use ua_table::{Algebra, Elem};

/// What a search for a subtrace comes to.
#[derive(Clone, Copy, Debug, PartialEq, Eq)]
pub enum Search {
    Found(SubtracePair),
    /// Some pair generates more pairs than the budget.
    Beyond,
}

/// The trial of a pair, where its elements are related and differ.
fn try_related<R: Threads + Sync, G: Gate>(
    rt: &R,
    alloc: Global,
    b: &Algebra,
    theta: &Part,
    known: &mut Known,
    pair: (Elem, Elem),
    run: &Run<G>,
) -> Result<Trial, CloseError>
    requires size { length theta.now ≡ b.now.size }
    requires first { pair.0 < b.now.size }
    requires second { pair.1 < b.now.size }
    requires congruence { IsCongruence b.now theta.now }
    requires known { IsKnown b.now theta.now run.now.budget known.old }
    requires before { IfSome known.old.least (λ l. ¬ IsBefore l.low l.high pair.0 pair.1) }
    ensures tried { MayTryRelated b.now theta.now run.now.budget pair result }
    ensures known { IsOk result → IsKnown b.now theta.now run.now.budget known.new }
{
    if pair.0 == pair.1 {
        return Ok(Trial::Vain);
    }
    if !theta.same(u32::from(pair.0), u32::from(pair.1)) {
        return Ok(Trial::Vain);
    }
    try_pair(rt, alloc, b, known, pair, run)
}

/// Tries the pairs of an element, where all pairs of lower elements were tried in vain.
fn search_from<R: Threads + Sync, G: Gate>(
    rt: &R,
    alloc: Global,
    b: &Algebra,
    theta: &Part,
    known: &mut Known,
    x: Elem,
    run: &Run<G>,
) -> Result<Option<Search>, CloseError>
    requires size { length theta.now ≡ b.now.size }
    requires element { x < b.now.size }
    requires congruence { IsCongruence b.now theta.now }
    requires before { AreVainBelow b.now theta.now run.now.budget x }
    requires known { IsKnown b.now theta.now run.now.budget known.old }
    ensures search { MaySearchFrom b.now theta.now run.now.budget x result }
    ensures known { IsOk result → IsKnown b.now theta.now run.now.budget known.new }
{
    let size = b.size();
    for y in 0..size {
        match try_related(rt, alloc, b, theta, known, (x, y as Elem), run)? {
            Trial::Vain => {}
            Trial::Beyond => return Ok(Some(Search::Beyond)),
            Trial::Found(swap) => {
                let found = SubtracePair {
                    low: x,
                    high: y as Elem,
                    swap,
                };
                return Ok(Some(Search::Found(found)));
            }
        }
    }
    Ok(None)
}

/// The first subtrace of a congruence that is not the identity, pairs in lexicographic order.
pub fn first_subtrace<R: Threads + Sync, G: Gate>(
    rt: &R,
    alloc: Global,
    b: &Algebra,
    theta: &Part,
    run: &Run<G>,
) -> Result<Search, CloseError>
    requires congruence { IsCongruence b.now theta.now }
    requires two { RelatesTwo theta.now }
    ensures { MaySearch b.now theta.now run.now.budget result }
{
    let size = b.size();
    let mut known = Known::new(alloc);
    for x in 0..size {
        if let Some(search) = search_from(rt, alloc, b, theta, &mut known, x as Elem, run)? {
            return Ok(search);
        }
    }
    unreachable!()
}
