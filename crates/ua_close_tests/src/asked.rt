//! Calls by their texts, with so many workers, and their answers as text.

ghost use Rattle.std.specs.List.{AllByRecursion};
ghost use Rattle.ua_table.specs.Algebras.{IsVector};

use crate::closures::put_listings;
use crate::given::{algebras, frame_of, generators};
use crate::meeting::{put_meeting, put_often};
use crate::reaches::{put_clash, put_target};
use crate::runs::{put_end, put_halt};
use std::alloc::Global;
use std::process::Abort;
use std::test::Fail;
use std::thread::Threads;
use ua_close::{FreeGate, Run};
use ua_table::{Algebra, Frame, Vectors};

/// The numbers of workers, for answers that do not depend on them.
pub(crate) const ANY: &[u32] = &[1, 2, 16];

/// Two workers and sixteen.
pub(crate) const SEVERAL: &[u32] = &[2, 16];

/// Which call is made.
pub(crate) enum Call {
    Listings,
    Target,
    Clash,
    End,
    Halt,
    Meeting,
    Often,
}

/// What a call is asked: of which algebras the coordinates are and how many, the generators, the budget, the
/// number of workers, and a vector where the call takes one.
#[derive(Drop)]
struct Asked<'t> {
    algebras: &'t str,
    width: u32,
    gens: &'t str,
    budget: u32,
    workers: u32,
    vector: &'t str,
}

/// Reads a text as `meet 2, 01 10, 3, 00`.
fn asked_by(text: &str, workers: u32) -> Result<Asked<'_>, Fail> {
    let mut parts = text.split(", ");
    let frame = parts.next().unwrap_or("");
    let gens = parts.next().unwrap_or("");
    let budget = parts.next().unwrap_or("");
    let vector = parts.next().unwrap_or("");
    let (algebras, width) = frame.split_once(' ').unwrap_or((frame, ""));
    Ok(Asked {
        algebras,
        width: width.parse()?,
        gens,
        budget: budget.parse()?,
        workers,
        vector,
    })
}

/// Makes the call, and puts its answer.
fn put_answer<R: Threads + Abort + Sync>(
    rt: &R,
    alloc: Global,
    call: &Call,
    frame: &Frame,
    gens: &Vectors,
    run: &Run<FreeGate>,
    vector: &str,
    text: &mut String,
) -> Result<(), Fail>
    requires { AllByRecursion (IsVector frame.now) gens.now.items }
{
    match call {
        Call::Listings => put_listings(rt, alloc, frame, gens, run, text),
        Call::Target => put_target(rt, alloc, frame, gens, run, vector, text),
        Call::Clash => put_clash(rt, alloc, frame, gens, run, text),
        Call::End => put_end(rt, alloc, frame, gens, run, vector, text),
        Call::Halt => put_halt(rt, alloc, frame, gens, run, text),
        Call::Meeting => put_meeting(rt, alloc, frame, gens, run, text),
        Call::Often => put_often(rt, alloc, frame, gens, run, text),
    }
}

/// Makes what the call is asked with, and then the call.
fn put_told<R: Threads + Abort + Sync>(
    rt: &R,
    alloc: Global,
    call: &Call,
    asked: &Asked,
    algebras: &[Algebra],
    text: &mut String,
) -> Result<(), Fail> {
    let frame = frame_of(alloc, algebras, asked.width)?;
    let run = Run::new(asked.budget, asked.workers, &FreeGate).ok_or("out of its limits")?;
    let gens = generators(rt, alloc, &frame, asked.gens)?;
    put_answer(rt, alloc, call, &frame, &gens, &run, asked.vector, text)
}

/// The answer to a call.
fn told<R: Threads + Abort + Sync>(
    rt: &R,
    alloc: Global,
    call: &Call,
    asked: &Asked,
) -> Result<String, Fail> {
    let algebras = algebras(alloc, asked.algebras)?;
    let mut text = String::new(alloc);
    put_told(rt, alloc, call, asked, algebras.as_slice(), &mut text)?;
    Ok(text)
}

/// What several workers answer alike, of an answer or of what is wanted: the rows of one are compared where they are
/// given.
fn alike<'t>(workers: u32, wanted: &str, text: &'t str) -> &'t str {
    if workers > 1 || !wanted.contains(", ") {
        text.split(", ").next().unwrap_or("")
    } else {
        text
    }
}

fn compare(rt: &impl Abort, text: &str, workers: u32, found: &str, wanted: &str) {
    assert_eq!(rt; found, wanted, "{text}, {workers} workers");
}

/// Compares what so many workers answer alike.
fn expect_of<R: Threads + Abort + Sync>(
    rt: &R,
    alloc: Global,
    call: &Call,
    workers: u32,
    (text, wanted): (&str, &str),
) -> Result<(), Fail> {
    let asked = asked_by(text, workers)?;
    let found = told(rt, alloc, call, &asked)?;
    let found = alike(workers, wanted, found.as_str());
    compare(rt, text, workers, found, alike(workers, wanted, wanted));
    Ok(())
}

/// Makes the call that each line begins with for each number of workers, and compares the answer with the rest
/// of the line.
pub(crate) fn expect<R: Threads + Abort + Sync>(
    rt: &R,
    alloc: Global,
    call: &Call,
    workers: &[u32],
    cases: &str,
) -> Result<(), Fail> {
    for line in cases.trim().lines() {
        let case = line.trim().split_once(" => ").ok_or("no answer")?;
        for count in workers {
            expect_of(rt, alloc, call, *count, case)?;
        }
    }
    Ok(())
}
