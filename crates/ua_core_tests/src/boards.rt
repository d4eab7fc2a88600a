//! A board on one thread, and two threads that put a record at one place.

ghost use Rattle.std.specs.Prelude.{◌≡◌, ◌<◌, ◌≤◌, [], ◌∷◌, length, IfOk};
ghost use Rattle.ua_log.specs.Rule.{MayStand};
ghost use Rattle.ua_log.specs.Seats.{first_seat};
ghost use Rattle.ua_log.specs.Told.{PutTells, ClaimTells};

use std::alloc::Global;
use std::process::Abort;
use std::test::Fail;
use std::thread;
use std::thread::Threads;
use ua_log::{Board, Claim, Put, Seat};
use ua_table::{Origin, Shape};

const FIRST: Origin = Origin::Gen { index: 0 };

const SECOND: Origin = Origin::Gen { index: 1 };

const SQUARE: Origin = Origin::Op {
    op: 0,
    args: [0, 0, 0, 0],
};

/// A board with one binary operation and two generators, for ten records.
fn start(alloc: Global) -> Result<(Board, Seat), Fail>
    ensures board { IfOk result (λ made. made.0.plan ≡ record { shape = 2 ∷ []; gens = 2; budget = 10 }) }
    ensures seat { IfOk result (λ made. made.1 ≡ first_seat made.0) }
{
    let shape = Shape::new(vec![in alloc; 2u8]?);
    let made = Board::start(alloc, &shape, 2, 10)?;
    Ok(made)
}

/// Puts a record, and compares the answer.
fn puts(rt: &impl Abort, board: &Board, seat: &mut Seat, origin: Origin, wanted: Put)
    requires home { seat.old.home ≡ board.now }
    requires room { length seat.old.own.seen < board.now.plan.budget }
    requires stands { MayStand board.now.plan (length seat.old.own.seen) origin }
    ensures { PutTells board.now.plan origin seat.old wanted seat.new }
{
    let found = board.put(seat, origin);
    assert!(rt; found == wanted);
}

/// Claims a slice, and compares the answer.
fn claims(rt: &impl Abort, board: &Board, seat: &mut Seat, wanted: Claim)
    requires { seat.old.home ≡ board.now }
    ensures { ClaimTells board.now.plan seat.old wanted seat.new }
{
    let found = board.claim(seat);
    assert!(rt; found == wanted);
}

/// What the second of two seats recalls and sees, the numbers of the log and its records, where the two put and
/// claim in turn.
fn told_of_turns(
    rt: &impl Abort,
    alloc: Global,
) -> Result<(Origin, Option<Origin>, (u32, u64, bool), [Origin; 2]), Fail> {
    let (board, mut first) = start(alloc)?;
    puts(rt, &board, &mut first, FIRST, Put::Here(0));
    let mut second = board.split(&mut first);
    let recalled = board.recall(&mut second, 0);
    puts(rt, &board, &mut first, SECOND, Put::Here(1));
    puts(rt, &board, &mut second, SQUARE, Put::Taken(SECOND));
    let looked = board.look(&mut second);
    claims(rt, &board, &mut second, Claim::Unit(0));
    claims(rt, &board, &mut first, Claim::Unit(1));
    claims(rt, &board, &mut first, Claim::Unit(2));
    claims(rt, &board, &mut first, Claim::Unit(3));
    claims(rt, &board, &mut first, Claim::Idle(4));
    board.halt(&mut second);
    claims(rt, &board, &mut first, Claim::Halted);
    board.join(&mut first, second);
    let log = board.close(first);
    let numbers = (log.len(), log.claims(), log.halted());
    Ok((recalled, looked, numbers, [log.origin(0), log.origin(1)]))
}

#[test]
fn two_seats_in_turn(rt: HostRuntime) -> Result<(), Fail> {
    let (recalled, looked, numbers, records) = told_of_turns(&rt, rt.alloc())?;
    assert!(rt; recalled == FIRST && looked.is_none());
    assert!(rt; numbers == (2, 4, true) && records == [FIRST, SECOND]);
    Ok(())
}

/// Whether the slices of all records that a seat has seen are claimed: of none, of one whose slices are not, and where the
/// halt bit stands.
fn told_of_claimed(alloc: Global) -> Result<[bool; 3], Fail> {
    let (board, mut seat) = start(alloc)?;
    let none = board.are_claimed(&mut seat);
    board.put(&mut seat, FIRST);
    let one = board.are_claimed(&mut seat);
    board.halt(&mut seat);
    let halted = board.are_claimed(&mut seat);
    Ok([none, one, halted])
}

#[test]
fn slices_are_claimed(rt: HostRuntime) -> Result<(), Fail> {
    let told = told_of_claimed(rt.alloc())?;
    assert!(rt; told == [true, false, true]);
    Ok(())
}

/// What a seat sees where another has put a record since it was made.
fn told_of_a_look(alloc: Global) -> Result<Option<Origin>, Fail> {
    let (board, mut first) = start(alloc)?;
    let mut second = board.split(&mut first);
    board.put(&mut first, FIRST);
    Ok(board.look(&mut second))
}

#[test]
fn a_record_is_seen(rt: HostRuntime) -> Result<(), Fail> {
    let seen = told_of_a_look(rt.alloc())?;
    assert!(rt; seen == Some(FIRST));
    Ok(())
}

fn shared<T: Sync>() {}

fn handed_over<T: Send>() {}

/// What threads share, and what one hands to another.
#[test]
fn types_of_threads() {
    shared::<Board>();
    handed_over::<Board>();
    handed_over::<Seat>();
}

/// Two threads put different records at one place.
fn race<R: Threads + Sync>(rt: &R, board: &Board, one: &mut Seat, two: &mut Seat) -> (Put, Put)
    requires homes { (one.old.home ≡ board.now) × (two.old.home ≡ board.now) }
    requires room { (length one.old.own.seen < board.now.plan.budget) × (length two.old.own.seen < board.now.plan.budget) }
    requires gens { 1 < board.now.plan.gens }
    ensures one { PutTells board.now.plan (Origin.Gen 0) one.old result.0 one.new }
    ensures two { PutTells board.now.plan (Origin.Gen 1) two.old result.1 two.new }
{
    thread::join_mut(
        rt,
        &mut || board.put(one, FIRST),
        &mut || { board.put(two, SECOND) },
    )
}

/// What the two threads are answered on a board of their own.
fn told_of_race<R: Threads + Sync>(rt: &R, alloc: Global) -> Result<(Put, Put), Fail> {
    let (board, mut first) = start(alloc)?;
    let mut second = board.split(&mut first);
    Ok(race(rt, &board, &mut first, &mut second))
}

#[test]
fn one_place_one_record(rt: HostRuntime) -> Result<(), Fail> {
    let told = told_of_race(&rt, rt.alloc())?;
    let first = told == (Put::Here(0), Put::Taken(FIRST));
    let second = told == (Put::Taken(SECOND), Put::Here(0));
    assert!(rt; first || second, "{told:?}");
    Ok(())
}
