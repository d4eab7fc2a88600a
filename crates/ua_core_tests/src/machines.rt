//! Runs on powers of the semilattice with two elements.

ghost use Rattle.std.specs.Prelude.{◌<◌, ◌≤◌, ◌^◌, length, IfOk};
ghost use Rattle.std.specs.List.{AllByRecursion};
ghost use Rattle.ua_table.specs.declared.limits.TheConstants.{BUDGET};
ghost use Rattle.ua_table.specs.Algebras.{IsVector, arities};
ghost use Rattle.ua_table.specs.Numbering.{Fits};
ghost use Rattle.ua_core.specs.States.{task_of, IsStateOf};

use std::alloc::Global;
use std::process::Abort;
use std::test::Fail;
use ua_cases::{part, put_value_of, same};
use ua_core::EventKind::{Claim, Finish, Halt, Idle, Join, Know, Look, Put, Split};
use ua_core::{Event, EventKind, State, is_still, replay};
use ua_table::{Algebra, Elem, Frame, Name, OpTable, Origin, Vectors};

const MEET: EventKind = Put(Origin::Op {
    op: 0,
    args: [1, 0, 0, 0],
});

fn meet(alloc: Global) -> Result<OpTable, Fail> {
    let values = vec![in alloc; 0, 0, 0, 1]?;
    Ok(OpTable::new(Name::new(alloc, b"meet")?, 2, 2, values)?)
}

fn semilattice(alloc: Global) -> Result<Algebra, Fail> {
    let ops = vec![in alloc; meet(alloc)?]?;
    Ok(Algebra::new(Name::new(alloc, b"M")?, 2, ops)?)
}

/// The generators with this name.
fn vectors(name: &str) -> &'static [&'static [Elem]] {
    match name {
        "pairs" => &[&[0, 1], &[1, 0]],
        "zero" => &[&[0]],
        _ => &[&[0], &[1]],
    }
}

fn generators(
    rt: &impl Abort,
    alloc: Global,
    frame: &Frame,
    vectors: &[&[Elem]],
) -> Result<Vectors, Fail>
    ensures { IfOk result (λ gens. AllByRecursion (IsVector frame.now) gens.items) }
{
    let mut gens = Vectors::new(alloc, frame.width());
    for v in vectors {
        assert!(rt; gens.len() < 100);
        assert!(rt; frame.admits(v));
        assert!(rt; v.len() == gens.width() as usize);
        gens.add(v)?;
    }
    Ok(gens)
}

/// The event that a letter stands for.
fn kind(letter: u8) -> Option<EventKind> {
    match letter {
        b'f' => Some(Put(Origin::Gen { index: 0 })),
        b's' => Some(Put(Origin::Gen { index: 1 })),
        b'm' => Some(MEET),
        b'c' => Some(Claim),
        b'd' => Some(Finish),
        b'i' => Some(Idle),
        b'l' => Some(Look),
        b'k' => Some(Know),
        b'h' => Some(Halt),
        b'p' => Some(Split),
        b'a' => Some(Join(1)),
        b'b' => Some(Join(2)),
        _ => None,
    }
}

/// The events that a text stands for: those of the letters behind a digit are of that worker.
fn events(alloc: Global, text: &str) -> Result<Vec<Event>, Fail> {
    let mut events = Vec::new(alloc);
    let mut worker = 0;
    for letter in text.as_bytes() {
        match kind(*letter) {
            Some(kind) => events.push(Event { worker, kind })?,
            None => worker = u32::from(*letter).saturating_sub(48),
        }
    }
    Ok(events)
}

fn put_numbers(
    text: &mut String,
    rows: u32,
    claims: u64,
    halted: bool,
    still: bool,
) -> Result<(), Fail> {
    write!(text, "{rows} {claims} {halted} {still}")?;
    Ok(())
}

/// How many rows and claims a run has, whether it was halted, and whether its state is still.
fn put_state(
    alloc: Global,
    frame: &Frame,
    gens: &Vectors,
    state: &State,
    text: &mut String,
) -> Result<(), Fail>
    requires { IsStateOf (task_of frame.now gens.now.items state.now.budget) state.now }
{
    let still = is_still(alloc, state, frame, gens)?;
    put_numbers(
        text,
        state.rows().len(),
        state.claims(),
        state.halted(),
        still,
    )
}

/// What a replay ends with.
fn put_replay(
    alloc: Global,
    frame: &Frame,
    gens: &Vectors,
    budget: u32,
    events: &[Event],
    text: &mut String,
) -> Result<(), Fail>
    requires admitted { AllByRecursion (IsVector frame.now) gens.now.items }
    requires some { 0 < budget }
    requires low { budget ≤ BUDGET }
    requires fits { Fits (arities frame.now) (length gens.now.items) budget }
    requires few { length events.now < 2 ^ 32 }
{
    match replay(alloc, frame, gens, budget, events) {
        Ok(state) => put_state(alloc, frame, gens, &state, text),
        Err(error) => put_value_of(text, &error),
    }
}

/// Sees that all codes fit in a word.
fn expect_fit(
    rt: &impl Abort,
    alloc: Global,
    frame: &Frame,
    gens: &Vectors,
    budget: u32,
) -> Result<(), Fail>
    requires { budget ≤ BUDGET }
    ensures { IfOk result (λ _. Fits (arities frame.now) (length gens.now.items) budget) }
{
    let shape = frame.shape(alloc)?;
    assert!(rt; shape.fits(gens.len(), budget));
    Ok(())
}

/// What a replay ends with, where its numbers are within the limits.
fn put_outcome(
    rt: &impl Abort,
    alloc: Global,
    frame: &Frame,
    gens: &Vectors,
    budget: u32,
    events: &[Event],
    text: &mut String,
) -> Result<(), Fail>
    requires { AllByRecursion (IsVector frame.now) gens.now.items }
{
    assert!(rt; events.len() < 100 && 0 < budget && budget <= 1000);
    expect_fit(rt, alloc, frame, gens, budget)?;
    put_replay(alloc, frame, gens, budget, events, text)
}

/// What a run ends with that is given by a text as `2, pairs, 10, 0fsc`: the width of the power, the generators, the
/// budget and the events.
fn put_run(
    rt: &impl Abort,
    alloc: Global,
    frame: &Frame,
    asked: &str,
    text: &mut String,
) -> Result<(), Fail> {
    let budget = part(asked, 2).parse()?;
    let gens = generators(rt, alloc, frame, vectors(part(asked, 1)))?;
    let events = events(alloc, part(asked, 3))?;
    put_outcome(rt, alloc, frame, &gens, budget, events.as_slice(), text)
}

/// What a run of the semilattice ends with.
fn told(rt: &impl Abort, alloc: Global, asked: &str) -> Result<String, Fail> {
    let width = part(asked, 0).parse()?;
    let algebra = semilattice(alloc)?;
    let mut text = String::new(alloc);
    put_run(rt, alloc, &Frame::power(&algebra, width)?, asked, &mut text)?;
    Ok(text)
}

#[test]
fn runs_of_workers(rt: HostRuntime) -> Result<(), Fail> {
    let cases = "
        2, pairs, 10, 0fscdcdcmdcdcdcdi => 3 6 false true
        2, pairs, 10, 0fscdcdcdc => NotAllowed { at: 7 }
        1, zero, 2, 0fp1c0cdi1di0a => 1 2 false true
        1, zero, 2, 0fp1c0cdi1i0a => NotAllowed { at: 6 }
        1, both, 5, 0pp1f2ls1c2kh1d0ab => 2 1 true false
        1, both, 5, 0pp1f2ls1c => 2 1 false false";
    for line in cases.trim().lines() {
        let (asked, wanted) = line.trim().split_once(" => ").ok_or("no answer")?;
        let found = told(&rt, rt.alloc(), asked)?;
        same(asked, found.as_str(), wanted)?;
    }
    Ok(())
}
