//! Closures with a goal, with 1, 2 and 16 workers.

ghost use Rattle.std.specs.List.{AllByRecursion};
ghost use Rattle.ua_table.specs.Algebras.{IsVector};
ghost use Rattle.ua_work.specs.Goals.{IsGoal};

use crate::asked::{ANY, Call, expect};
use crate::given::elements;
use crate::texts::put_rows;
use std::alloc::Global;
use std::process::Abort;
use std::test::Fail;
use std::thread::Threads;
use ua_close::reaching::reach;
use ua_close::{FreeGate, Goal, Listing, Reach, Run};
use ua_table::{Frame, Vectors};

fn answered(reach: Reach) -> (&'static str, Listing) {
    match reach {
        Reach::Closed(list) => ("closed", list),
        Reach::Exceeds(list) => ("exceeds", list),
        Reach::Met(list) => ("met", list),
    }
}

/// The answer to a goal, and its rows.
fn put_reached<R: Threads + Sync>(
    rt: &R,
    alloc: Global,
    frame: &Frame,
    gens: &Vectors,
    goal: &Goal,
    run: &Run<FreeGate>,
    text: &mut String,
) -> Result<(), Fail>
    requires admitted { AllByRecursion (IsVector frame.now) gens.now.items }
    requires goal { IsGoal frame.now goal.now }
{
    let (word, list) = answered(reach(rt, alloc, frame, gens, goal, run)?);
    text.push_str(word)?;
    put_rows(text, &list)?;
    Ok(())
}

/// The answer to the goal of the vector.
pub(crate) fn put_target<R: Threads + Abort + Sync>(
    rt: &R,
    alloc: Global,
    frame: &Frame,
    gens: &Vectors,
    run: &Run<FreeGate>,
    digits: &str,
    text: &mut String,
) -> Result<(), Fail>
    requires { AllByRecursion (IsVector frame.now) gens.now.items }
{
    let target = elements(alloc, digits)?;
    assert!(rt; frame.admits(target.as_slice()));
    let goal = Goal::Target(target);
    put_reached(rt, alloc, frame, gens, &goal, run, text)
}

/// The answer to the goal of a clash.
pub(crate) fn put_clash<R: Threads + Abort + Sync>(
    rt: &R,
    alloc: Global,
    frame: &Frame,
    gens: &Vectors,
    run: &Run<FreeGate>,
    text: &mut String,
) -> Result<(), Fail>
    requires { AllByRecursion (IsVector frame.now) gens.now.items }
{
    assert!(rt; frame.width() == 2);
    put_reached(rt, alloc, frame, gens, &Goal::Clash, run, text)
}

#[test]
fn targets(rt: HostRuntime) -> Result<(), Fail> {
    let cases = "
        meet 2, 01 10, 3, 00 => met, 00:2 02100, 01:0 g0, 10:1 g1
        meet 2, 01 10, 2, 00 => met, 00:2 02100, 01:0 g0, 10:1 g1
        meet 2, 01 10, 3, 11 => closed, 00:2 02100, 01:0 g0, 10:1 g1
        meet 2, 01 10, 2, 11 => exceeds, 00:2 02100, 01:0 g0, 10:1 g1
        meet 2, 01 10, 1, 10 => met, 01:0 g0, 10:1 g1
        meet 2, 01 10, 1, 01 => met, 01:0 g0";
    expect(&rt, rt.alloc(), &Call::Target, ANY, cases)
}

/// The pairs of a map of the group of order 2 into that of order 4, which is none.
#[test]
fn clashes(rt: HostRuntime) -> Result<(), Fail> {
    let cases = "
        groups 2, 11, 2 => met, 02:1 01100, 11:0 g0, 13:2 00100
        groups 2, 11, 3 => met, 02:1 01100, 11:0 g0, 13:2 00100
        groups 2, 11, 100 => met, 02:1 01100, 11:0 g0, 13:2 00100
        groups 2, 11, 1 => exceeds, 02:1 01100, 11:0 g0
        groups 2, 12, 2 => closed, 00:1 01100, 12:0 g0";
    expect(&rt, rt.alloc(), &Call::Clash, ANY, cases)
}

/// 77 rows from one, in which seven elements stand at coordinate 0.
#[test]
fn goals_among_many_rows(rt: HostRuntime) -> Result<(), Fail> {
    let clashes = "
        cycles 2, 07, 100 => met
        cycles 2, 07, 7 => met";
    expect(&rt, rt.alloc(), &Call::Clash, ANY, clashes)?;
    let targets = "
        cycles 2, 07, 77, 6h => met
        cycles 2, 07, 77, 6i => closed
        cycles 2, 07, 76, 6i => exceeds";
    expect(&rt, rt.alloc(), &Call::Target, ANY, targets)
}
