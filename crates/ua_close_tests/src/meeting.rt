//! Closures of many workers.

ghost use Rattle.std.specs.List.{AllByRecursion};
ghost use Rattle.ua_table.specs.Algebras.{IsVector};

use crate::asked::{Call, expect};
use crate::texts::put_vectors;
use std::alloc::Global;
use std::sync::atomic::{AtomicBool, Ordering};
use std::test::Fail;
use std::thread::{self, Threads};
use ua_close::{Closure, FreeGate, Gate, Listing, Run, close_set};
use ua_table::{Frame, Vectors};

/// A gate at which whoever begins slice 0 waits until slice 1 is begun.
#[derive(Drop)]
struct Meeting {
    begun: AtomicBool,
    met: AtomicBool,
}

impl Meeting {
    fn new() -> Meeting {
        Meeting {
            begun: AtomicBool::new(false),
            met: AtomicBool::new(false),
        }
    }

    /// Whether slice 1 was begun within ten million looks, behind each of which another thread
    /// may go on.
    fn waits(&self) -> bool {
        for _ in 0..10_000_000 {
            if self.begun.load(Ordering::SeqCst) {
                return true;
            }
            thread::yield_now();
        }
        false
    }
}

impl Gate for Meeting {
    fn before(&self, _worker: u32, slice: u64) {
        match slice {
            0 => self.met.store(self.waits(), Ordering::SeqCst),
            1 => self.begun.store(true, Ordering::SeqCst),
            _ => {}
        }
    }

    fn after(&self, _worker: u32, _slice: u64) {}
}

/// The listing of the closure, which is within the budget.
fn closed<R: Threads + Sync, G: Gate>(
    rt: &R,
    alloc: Global,
    frame: &Frame,
    gens: &Vectors,
    run: &Run<G>,
) -> Result<Listing, Fail>
    requires { AllByRecursion (IsVector frame.now) gens.now.items }
{
    match close_set(rt, alloc, frame, gens, run)? {
        Closure::Closed(list) => Ok(list),
        Closure::Exceeds(_) => Err("the closure exceeds".into()),
    }
}

/// Whether two workers met, and the rows that are listed.
pub(crate) fn put_meeting<R: Threads + Sync>(
    rt: &R,
    alloc: Global,
    frame: &Frame,
    gens: &Vectors,
    run: &Run<FreeGate>,
    text: &mut String,
) -> Result<(), Fail>
    requires { AllByRecursion (IsVector frame.now) gens.now.items }
{
    let meeting = Meeting::new();
    let run = Run::new(run.budget, run.workers, &meeting).ok_or("out of its limits")?;
    let list = closed(rt, alloc, frame, gens, &run)?;
    let met = meeting.met.load(Ordering::SeqCst);
    put_met(text, met, &list)
}

fn put_met(text: &mut String, met: bool, list: &Listing) -> Result<(), Fail> {
    text.push_str(if met { "met" } else { "alone" })?;
    put_vectors(text, list)?;
    Ok(())
}

/// A lone worker waits in vain; two or more meet, and list the same.
#[test]
fn workers_meet(rt: HostRuntime) -> Result<(), Fail> {
    let lone = "meet 3, 011 101 110 111, 10000 => alone 000 001 010 011 100 101 110 111";
    expect(&rt, rt.alloc(), &Call::Meeting, &[1], lone)?;
    let several = "meet 3, 011 101 110 111, 10000 => met 000 001 010 011 100 101 110 111";
    expect(&rt, rt.alloc(), &Call::Meeting, &[2, 16], several)
}

/// Whether two listings have the same vectors.
fn have_same_vectors(one: &Listing, other: &Listing) -> bool {
    one.len() == other.len() && (0..one.len()).all(|i| one.row(i) == other.row(i))
}

/// Whether so many workers list the same vectors.
fn list_same<R: Threads + Sync>(
    rt: &R,
    alloc: Global,
    frame: &Frame,
    gens: &Vectors,
    run: &Run<FreeGate>,
    list: &Listing,
) -> Result<bool, Fail>
    requires { AllByRecursion (IsVector frame.now) gens.now.items }
{
    let other = closed(rt, alloc, frame, gens, run)?;
    Ok(have_same_vectors(list, &other))
}

/// How often 2 and 16 workers list the same vectors, of 200 times.
fn count_same<R: Threads + Sync>(
    rt: &R,
    alloc: Global,
    frame: &Frame,
    gens: &Vectors,
    budget: u32,
    list: &Listing,
) -> Result<u32, Fail>
    requires { AllByRecursion (IsVector frame.now) gens.now.items }
{
    let mut same: u32 = 0;
    for turn in 0..200 {
        let workers = if turn % 4 == 0 { 2 } else { 16 };
        let run = Run::new(budget, workers, &FreeGate).ok_or("out of its limits")?;
        if list_same(rt, alloc, frame, gens, &run, list)? {
            same = same.wrapping_add(1);
        }
    }
    Ok(same)
}

fn put_counts(text: &mut String, rows: u32, same: u32) -> Result<(), Fail> {
    write!(text, "{rows} rows, {same} times")?;
    Ok(())
}

/// How many rows a lone worker lists, and how often more of them list the same.
pub(crate) fn put_often<R: Threads + Sync>(
    rt: &R,
    alloc: Global,
    frame: &Frame,
    gens: &Vectors,
    run: &Run<FreeGate>,
    text: &mut String,
) -> Result<(), Fail>
    requires { AllByRecursion (IsVector frame.now) gens.now.items }
{
    let list = closed(rt, alloc, frame, gens, run)?;
    let same = count_same(rt, alloc, frame, gens, run.budget, &list)?;
    put_counts(text, list.len(), same)
}

/// 1,001 rows from one.
#[test]
fn many_workers_often(rt: HostRuntime) -> Result<(), Fail> {
    let case = "cycles 3, 07i, 1001 => 1001 rows, 200 times";
    expect(&rt, rt.alloc(), &Call::Often, &[1], case)
}
