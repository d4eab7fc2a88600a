//! The trial of a pair: whether each pair that it generates generates it.

ghost use Rattle.std.specs.Prelude.{◌≢◌, ℕ, ◌<◌, IfSome, IfNone, IsOk, Ok};
ghost use Rattle.ua_table.specs.Algebras.{FiniteAlgebra};
ghost use Rattle.ua_type.specs.Subtraces.{IsBefore};
ghost use Rattle.ua_type.specs.Trials.{ArePairsNarrow};
ghost use Rattle.ua_type.specs.inner.Outcomes.{MayTry};
ghost use Rattle.ua_type.specs.Known.{IsRight};
ghost use Rattle.ua_type.specs.inner.Known.{IsKept};
ghost use Rattle.ua_type.specs.inner.Descents.{IsDescent};

use crate::descents::{Descent, Sifted, descend, sift};
use crate::known::Known;
use crate::pairs::{generated, has, is_same};
use std::alloc::Global;
use std::thread::Threads;
use ua_close::{CloseError, Closure, Gate, Run};
use ua_table::{Algebra, Elem};

/// What comes of the trial of a pair.
#[derive(Clone, Copy, Debug, PartialEq, Eq)]
pub enum Trial {
    /// It is a subtrace, which generates its swap or not.
    Found(bool),
    /// It generates a pair that does not generate it.
    Vain,
    /// It generates more pairs than the budget.
    Beyond,
}

/// What is known of a pair before it is tried.
fn foreseen(known: &Known, pair: (Elem, Elem)) -> Option<Trial>
    requires before { IfSome known.now.least (λ l. ¬ IsBefore l.low l.high pair.0 pair.1) }
    ensures known { (b : FiniteAlgebra) (budget : ℕ) → IsRight b budget known.now → pair.0 ≢ pair.1 → IfSome result (λ t. MayTry b budget pair (Ok t)) }
    ensures before { IfNone result (IfSome known.now.least (λ l. IsBefore pair.0 pair.1 l.low l.high)) }
{
    let Some(least) = known.least else {
        return None;
    };
    if is_same(pair, (least.low, least.high)) {
        return Some(Trial::Found(least.swap));
    }
    if known.is_settled(pair) {
        return Some(Trial::Vain);
    }
    None
}

/// The trial of a pair, by the pairs that it generates.
fn tried<R: Threads + Sync, G: Gate>(
    rt: &R,
    alloc: Global,
    b: &Algebra,
    known: &mut Known,
    descent: Descent,
    run: &Run<G>,
) -> Result<Trial, CloseError>
    requires narrow { ArePairsNarrow b.now run.now.budget }
    requires right { IsRight b.now run.now.budget known.old }
    requires descent { IsDescent b.now run.now.budget descent }
    requires before { IfSome known.old.least (λ l. IsBefore descent.pair.0 descent.pair.1 l.low l.high) }
    ensures tried { MayTry b.now run.now.budget descent.pair result }
    ensures kept { IsOk result → IsKept b.now run.now.budget descent.pair.0 descent.pair.1 known.old known.new }
{
    let mut descent = descent;
    match sift(rt, alloc, b, known, &mut descent, run)? {
        Sifted::Minimal => {
            let (x, y) = descent.pair;
            return Ok(Trial::Found(has(&descent.list, (y, x))));
        }
        Sifted::Settled => known.settle(descent.above.as_slice())?,
        Sifted::Lacks { pair, list } => {
            descent.go_down(pair, list)?;
            descend(rt, alloc, b, known, descent, run)?;
        }
    }
    Ok(Trial::Vain)
}

/// The trial of a pair: it is a subtrace where each pair of different elements that it generates
/// generates it. What a pair generates is closed at most once in all trials of a search.
pub fn try_pair<R: Threads + Sync, G: Gate>(
    rt: &R,
    alloc: Global,
    b: &Algebra,
    known: &mut Known,
    pair: (Elem, Elem),
    run: &Run<G>,
) -> Result<Trial, CloseError>
    requires first { pair.0 < b.now.size }
    requires second { pair.1 < b.now.size }
    requires differ { pair.0 ≢ pair.1 }
    requires right { IsRight b.now run.now.budget known.old }
    requires before { IfSome known.old.least (λ l. ¬ IsBefore l.low l.high pair.0 pair.1) }
    ensures tried { MayTry b.now run.now.budget pair result }
    ensures kept { IsOk result → IsKept b.now run.now.budget pair.0 pair.1 known.old known.new }
{
    if let Some(trial) = foreseen(known, pair) {
        return Ok(trial);
    }
    match generated(rt, alloc, b, pair.0, pair.1, run)? {
        Closure::Exceeds(_) => Ok(Trial::Beyond),
        Closure::Closed(list) => tried(rt, alloc, b, known, Descent::new(alloc, pair, list)?, run),
    }
}
