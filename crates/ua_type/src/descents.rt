//! The pairs that a pair generates, asked in order whether they generate it, and the descent from a pair that
//! does not to those that it generates.

ghost use Rattle.std.specs.Prelude.{◌≡◌, ◌≢◌, ◌<◌, ◌++◌, [], ◌∷◌, length, slice_index, OnOk, IfOk};
ghost use Rattle.ua_type.specs.Trials.{HasMorePairs, ArePairsNarrow};
ghost use Rattle.ua_type.specs.Known.{IsRight};
ghost use Rattle.ua_type.specs.inner.Descents.{MayAsk, IsDescent, MaySift, MaySettle};

use crate::known::Known;
use crate::leads::{is_known, mark, marks_to};
use crate::marks::Marks;
use crate::pairs::sought;
use std::alloc::{AllocError, Global};
use std::thread::Threads;
use ua_close::{CloseError, Gate, Goal, Listing, Reach, Run};
use ua_table::{Algebra, Elem};

/// What comes of asking the pairs that a pair generates.
#[derive(Drop)]
pub enum Sifted {
    /// Each pair of different elements generates it.
    Minimal,
    /// One is settled.
    Settled,
    /// One does not generate it; what that one generates.
    Lacks { pair: (Elem, Elem), list: Listing },
}

/// A pair, what it generates, and pairs that generate it.
#[derive(Drop)]
pub struct Descent {
    pub pair: (Elem, Elem),
    pub list: Listing,
    pub above: Vec<(Elem, Elem)>,
}

impl Descent {
    /// A pair, and what it generates.
    pub fn new(alloc: Global, pair: (Elem, Elem), list: Listing) -> Result<Descent, AllocError>
        ensures pair { IfOk result (λ d. d.pair ≡ pair) }
        ensures list { IfOk result (λ d. d.list ≡ list) }
        ensures above { IfOk result (λ d. d.above.items ≡ pair ∷ []) }
    {
        let mut above = Vec::new(alloc);
        above.push(pair)?;
        Ok(Descent { pair, list, above })
    }

    /// One more pair that generates the pair.
    fn put_above(&mut self, pair: (Elem, Elem)) -> Result<(), AllocError>
        ensures pair { self.new.pair ≡ self.old.pair }
        ensures list { self.new.list ≡ self.old.list }
        ensures above { OnOk result (self.new.above.items ≡ self.old.above.items ++ pair ∷ []) }
    {
        self.above.push(pair)?;
        Ok(())
    }

    /// Goes down to a pair that this one generates, and to what that one generates.
    pub fn go_down(&mut self, pair: (Elem, Elem), list: Listing) -> Result<(), AllocError>
        ensures pair { OnOk result (self.new.pair ≡ pair) }
        ensures list { OnOk result (self.new.list ≡ list) }
        ensures above { OnOk result (self.new.above.items ≡ self.old.above.items ++ pair ∷ []) }
    {
        self.above.push(pair)?;
        self.pair = pair;
        self.list = list;
        Ok(())
    }
}

/// Asks the pair of a row, whose elements differ, whether it generates another pair: what it generates is closed until that
/// pair is found, within the budget. If it does not, this answers what it generates.
fn ask<R: Threads + Sync, G: Gate>(
    rt: &R,
    alloc: Global,
    b: &Algebra,
    row: &[Elem],
    pair: (Elem, Elem),
    run: &Run<G>,
) -> Result<Option<Listing>, CloseError>
    requires width { length row.now ≡ 2 }
    requires first { slice_index row.now 0 < b.now.size }
    requires second { slice_index row.now 1 < b.now.size }
    requires low { pair.0 < b.now.size }
    requires high { pair.1 < b.now.size }
    requires differ { slice_index row.now 0 ≢ slice_index row.now 1 }
    requires within { ¬ HasMorePairs b.now run.now.budget (slice_index row.now 0) (slice_index row.now 1) }
    ensures { MayAsk b.now run.now.budget row.now pair result }
{
    let goal = Goal::Target([pair.0, pair.1].to_vec(alloc)?);
    match sought(rt, alloc, b, row[0], row[1], &goal, run)? {
        Reach::Exceeds(_) => unreachable!(),
        Reach::Met(_) => Ok(None),
        Reach::Closed(list) => Ok(Some(list)),
    }
}

/// Asks the pairs that a pair generates, up to the first that does not generate it or is settled. Those that
/// do are put to the pairs that generate it. Those from which translations lead back to it are known to.
pub fn sift<R: Threads + Sync, G: Gate>(
    rt: &R,
    alloc: Global,
    b: &Algebra,
    known: &Known,
    descent: &mut Descent,
    run: &Run<G>,
) -> Result<Sifted, CloseError>
    requires right { IsRight b.now run.now.budget known.now }
    requires descent { IsDescent b.now run.now.budget descent.old }
    ensures { MaySift b.now run.now.budget known.now descent.old descent.new result }
{
    // What this call ensures says that the algebra is one.
    let _size = b.size();
    let mut marks = marks_to(alloc, b, descent.pair, &descent.list)?;
    for i in 0..descent.list.len() {
        let row = descent.list.row(i);
        let (c, d) = (row[0], row[1]);
        if c == d {
            continue;
        }
        if known.is_settled((c, d)) {
            return Ok(Sifted::Settled);
        }
        if !is_known(b, &marks, (c, d)) {
            match ask(rt, alloc, b, row, descent.pair, run)? {
                Some(list) => return Ok(Sifted::Lacks { pair: (c, d), list }),
                None => {}
            }
        }
        descent.put_above((c, d))?;
        mark(b, &mut marks, (c, d));
    }
    Ok(Sifted::Minimal)
}

/// Goes down from a pair to pairs that it generates and that do not generate it, to the end, where the pairs
/// that were met on the way are settled.
pub fn descend<R: Threads + Sync, G: Gate>(
    rt: &R,
    alloc: Global,
    b: &Algebra,
    known: &mut Known,
    descent: Descent,
    run: &Run<G>,
) -> Result<(), CloseError>
    requires narrow { ArePairsNarrow b.now run.now.budget }
    requires right { IsRight b.now run.now.budget known.old }
    requires descent { IsDescent b.now run.now.budget descent }
    ensures { MaySettle b.now run.now.budget descent.pair known.old known.new result }
{
    // What this call ensures says that the algebra is one.
    let _size = b.size();
    let mut descent = descent;
    // Each list has fewer pairs than the one before.
    for _ in 0..descent.list.len() {
        match sift(rt, alloc, b, known, &mut descent, run)? {
            Sifted::Lacks { pair, list } => descent.go_down(pair, list)?,
            Sifted::Settled => {
                known.settle(descent.above.as_slice())?;
                return Ok(());
            }
            Sifted::Minimal => {
                known.meet_all(&descent.list);
                known.settle(descent.above.as_slice())?;
                return Ok(());
            }
        }
    }
    Ok(())
}
