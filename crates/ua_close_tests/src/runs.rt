//! Runs of workers whose harvests are known.

ghost use Rattle.std.specs.Prelude.{◌≡◌, ◌<◌, suc, IfOk};
ghost use Rattle.std.specs.List.{AllByRecursion};
ghost use Rattle.ua_table.specs.Algebras.{IsVector};
ghost use Rattle.ua_table.specs.declared.limits.TheConstants.{WORKERS};
ghost use Rattle.ua_log.specs.Seats.{first_seat};
ghost use Rattle.ua_work.specs.Goals.{IsGoal};
ghost use Rattle.ua_work.specs.Harvests.{IsPlanOf};

use crate::asked::{Call, expect};
use crate::given::elements;
use std::alloc::Global;
use std::process::Abort;
use std::test::Fail;
use ua_log::{Board, Claim, Seat};
use ua_table::{Frame, FreeGate, Run, Vectors};
use ua_work::{Begun, End, Goal, Harvest, start, work};

/// The end and the count of the rows.
fn told(harvest: Harvest) -> (End, u32) {
    (harvest.end, harvest.rows.len())
}

/// An empty board for the closure, and its first seat.
fn started(
    rt: &impl Abort,
    alloc: Global,
    frame: &Frame,
    gens: &Vectors,
    budget: u32,
) -> Result<(Board, Seat), Fail>
    ensures plan { IfOk result (λ made. IsPlanOf frame.now gens.now.items made.0.plan) }
    ensures seat { IfOk result (λ made. made.1 ≡ first_seat made.0) }
{
    let shape = frame.shape(alloc)?;
    assert!(rt; 0 < budget && budget <= 1000);
    assert!(rt; shape.fits(gens.len(), budget));
    Ok(Board::start(alloc, &shape, gens.len(), budget)?)
}

/// How a lone worker ends.
fn ended(
    rt: &impl Abort,
    alloc: Global,
    frame: &Frame,
    gens: &Vectors,
    budget: u32,
    goal: &Goal,
) -> Result<(End, u32), Fail>
    requires admitted { AllByRecursion (IsVector frame.now) gens.now.items }
    requires goal { IsGoal frame.now goal.now }
{
    let (board, seat) = started(rt, alloc, frame, gens, budget)?;
    let harvest = match start(alloc, &board, seat, frame, gens, goal) {
        Begun::Going(seat) => work(alloc, &board, seat, frame, gens, goal, 0, &FreeGate),
        Begun::Ended(harvest) => harvest,
    };
    Ok(told(harvest))
}

fn put_ended(text: &mut String, end: End, count: u32) -> Result<(), Fail> {
    write!(text, "{end:?} {count}")?;
    Ok(())
}

/// The goal of the vector, or of none.
fn goal_of(rt: &impl Abort, alloc: Global, frame: &Frame, digits: &str) -> Result<Goal, Fail>
    ensures { IfOk result (IsGoal frame.now) }
{
    if digits.is_empty() {
        return Ok(Goal::Whole);
    }
    let target = elements(alloc, digits)?;
    assert!(rt; frame.admits(target.as_slice()));
    Ok(Goal::Target(target))
}

/// How a lone worker ends that looks for the vector, or for all, and how many rows it has.
pub(crate) fn put_end(
    rt: &impl Abort,
    alloc: Global,
    frame: &Frame,
    gens: &Vectors,
    run: &Run<FreeGate>,
    digits: &str,
    text: &mut String,
) -> Result<(), Fail>
    requires { AllByRecursion (IsVector frame.now) gens.now.items }
{
    let goal = goal_of(rt, alloc, frame, digits)?;
    let (end, count) = ended(rt, alloc, frame, gens, run.budget, &goal)?;
    put_ended(text, end, count)
}

/// What a second seat claims before it halts the board.
fn halt(board: &Board, first: &mut Seat) -> Claim
    requires home { first.old.home ≡ board.now }
    requires number { first.old.own.number ≡ 0 }
    requires few { first.old.made < WORKERS }
    ensures { first.new ≡ record first.old { made = suc first.old.made } }
{
    let mut second = board.split(first);
    let claim = board.claim(&mut second);
    board.halt(&mut second);
    claim
}

/// What a second seat claims before it halts the board, and how the worker of the first one then ends.
fn halted(
    rt: &impl Abort,
    alloc: Global,
    frame: &Frame,
    gens: &Vectors,
    budget: u32,
) -> Result<(Claim, (End, u32)), Fail>
    requires { AllByRecursion (IsVector frame.now) gens.now.items }
{
    let (board, seat) = started(rt, alloc, frame, gens, budget)?;
    let Begun::Going(mut first) = start(alloc, &board, seat, frame, gens, &Goal::Whole) else {
        return Err("it ended too early".into());
    };
    let claim = halt(&board, &mut first);
    let harvest = work(
        alloc,
        &board,
        first,
        frame,
        gens,
        &Goal::Whole,
        0,
        &FreeGate,
    );
    Ok((claim, told(harvest)))
}

fn put_claim(text: &mut String, claim: Claim) -> Result<(), Fail> {
    write!(text, "{claim:?} ")?;
    Ok(())
}

/// What a second seat claims, and how the first one's worker ends after it is halted.
pub(crate) fn put_halt(
    rt: &impl Abort,
    alloc: Global,
    frame: &Frame,
    gens: &Vectors,
    run: &Run<FreeGate>,
    text: &mut String,
) -> Result<(), Fail>
    requires { AllByRecursion (IsVector frame.now) gens.now.items }
{
    let (claim, (end, count)) = halted(rt, alloc, frame, gens, run.budget)?;
    put_claim(text, claim)?;
    put_ended(text, end, count)
}

#[test]
fn ends_of_a_lone_worker(rt: HostRuntime) -> Result<(), Fail> {
    let cases = "
        meet 2, 01 10, 100 => Left 3
        meet 2, 01 10, 2 => Beyond(Op { op: 0, args: [1, 0, 0, 0] }) 2
        meet 2, 01 10, 1 => Beyond(Gen { index: 1 }) 1
        meet 2, 01 10, 3, 00 => Reached 3
        meet 2, 01 10, 3, 11 => Left 3";
    expect(&rt, rt.alloc(), &Call::End, &[1], cases)
}

#[test]
fn halted_by_another(rt: HostRuntime) -> Result<(), Fail> {
    let case = "meet 2, 01 10, 100 => Unit(0) Halted 2";
    expect(&rt, rt.alloc(), &Call::Halt, &[1], case)
}
