//! A batch of jobs, answered by a pool of workers.

ghost use Rattle.std.specs.Prelude.{◌≡◌, ◌<◌, ◌≤◌, ◌++◌, ℕ, [], length, suc, vec_len, IfOk, OnOk};
ghost use Rattle.std.specs.List.{AllByRecursion};
ghost use Rattle.std.specs.Thread.{IsSync};
ghost use Rattle.ua_table.specs.declared.limits.TheConstants.{WORKERS};
ghost use Rattle.ua_table.specs.Counting.{EachOnceBelow};
ghost use Rattle.ua_jobs.specs.declared.batches.TheConstants.{JOBS};
ghost use Rattle.ua_jobs.specs.declared.batches.Turn.{Turn};
ghost use Rattle.ua_jobs.specs.declared.serving.Served.{Served};
ghost use Rattle.ua_jobs.specs.Seats.{first_pass, with_view};
ghost use Rattle.ua_jobs.specs.Harvests.{AnswerEach, AreAnswers, IsAnswer, MayGive, numbered};
ghost use Rattle.ua_jobs.specs.inner.Batches.{IsUnused, IsPermittedHarvest, ArePermittedHarvests};

use crate::gathering::{gather, in_order};
use crate::jobs::Job;
use crate::queues::{JobPass, JobQueue};
use crate::serving::{Served, serve_with};
use std::alloc::{AllocError, Global};
use std::sync::Wait;
use std::thread::{self, Threads};
use ua_table::Gate;

/// How many jobs a batch has at most.
pub const JOBS: u32 = 64;

/// A worker's number and its pass.
#[derive(Drop)]
pub(crate) struct Turn {
    worker: u32,
    pass: JobPass,
}

/// Pushes the numbers of so many jobs in order, and answers those for which the queue had no room.
fn push_all<R: Wait>(
    rt: &R,
    alloc: Global,
    queue: &JobQueue,
    pass: &mut JobPass,
    jobs: u32,
) -> Result<Vec<u32>, AllocError>
    requires { pass.old ≡ first_pass queue.now jobs }
    ensures pass { OnOk result (pass.new ≡ with_view pass.old (record pass.old.own { pushed = pass.new.own.pushed })) }
    ensures numbers { IfOk result (λ kept. EachOnceBelow jobs (pass.new.own.pushed ++ kept.items)) }
{
    let mut kept = Vec::new(alloc);
    for number in 0..jobs {
        match queue.push(rt, pass, number) {
            Ok(()) => {}
            Err(back) => kept.push(back)?,
        }
    }
    Ok(kept)
}

/// The turns of so many workers, each with a pass of its own.
fn turns_of(
    alloc: Global,
    queue: &JobQueue,
    first: &mut JobPass,
    pool: u32,
) -> Result<Vec<Turn>, AllocError>
    requires home { first.old.queue ≡ queue.now }
    requires first { first.old.own.made ≡ 1 }
    ensures first { OnOk result (first.new ≡ with_view first.old (record first.old.own { made = suc pool })) }
    ensures turns { IfOk result (λ turns. AllByRecursion (λ (t : Turn). IsUnused first.old.queue first.old.own.jobs t.pass) turns.items) }
    ensures count { IfOk result (λ turns. length turns.items ≡ pool) }
{
    let mut turns = Vec::with_capacity(alloc, pool as usize)?;
    for worker in 0..pool {
        let pass = queue.split(first);
        turns.push(Turn { worker, pass })?;
    }
    Ok(turns)
}

/// The harvests of all turns, each in a thread of its own where the machine gives one.
fn run_turns<
    R: Threads + Wait + Sync,
    O: Send + Drop,
    G: Gate,
    F: Fn(u32) -> Result<O, AllocError> + Sync,
>(
    rt: &R,
    alloc: Global,
    queue: &JobQueue,
    turns: Vec<Turn>,
    jobs: u32,
    gate: &G,
    work: &F,
) -> Result<Vec<Served<O>>, AllocError>
    requires turns { AllByRecursion (λ (t : Turn). IsUnused queue.now jobs t.pass) turns.items }
    requires callable { (number : ℕ) → number < jobs → F.pre work.now number }
    ensures count { IfOk result (λ harvests. vec_len harvests ≡ vec_len turns) }
    ensures each { IfOk result (λ harvests. ArePermittedHarvests (MayGive F.post work.now) turns.items harvests.items) }
{
    thread::map_vec(
        rt,
        turns,
        &|turn: Turn|
            requires { (turn.pass.queue ≡ queue.now) × (turn.pass.own.taken ≡ []) × ((number : ℕ) → number < turn.pass.own.jobs → F.pre work.now number) }
            ensures { IsPermittedHarvest (MayGive F.post work.entry.now) turn.pass result }
        { serve_with(rt, alloc, queue, turn.pass, turn.worker, gate, work) },
    )
}

/// The answers of the work to the numbers below `count`, of which there may be `JOBS`, by `pool` workers
/// side by side, of which there may be `limits::WORKERS`. They stand in the order of the numbers.
///
/// A worker passes the gate before and after each call of the work, with its number. With no number no
/// queue is made. Where one of the workers wants memory there are no answers.
pub fn batch_with<
    R: Threads + Wait + Sync,
    O: Send + Drop,
    G: Gate,
    F: Fn(u32) -> Result<O, AllocError> + Sync,
>(rt: &R, alloc: Global, count: u32, pool: u32, gate: &G, work: &F) -> Result<Vec<O>, AllocError>
    requires few { count ≤ JOBS }
    requires some { 1 ≤ pool }
    requires pool { pool ≤ WORKERS }
    requires callable { (number : ℕ) → number < count → F.pre work.now number }
    ensures count { IfOk result (λ outs. length outs.items ≡ count) }
    ensures answers { IfOk result (λ outs. AreAnswers (MayGive F.post work.now) (numbered 0 outs.items)) }
{
    if count == 0 {
        return Ok(Vec::new(alloc));
    }
    let (queue, mut first) = JobQueue::start(alloc, count)?;
    let kept = push_all(rt, alloc, &queue, &mut first, count)?;
    let turns = turns_of(alloc, &queue, &mut first, pool)?;
    let harvests = run_turns(rt, alloc, &queue, turns, count, gate, work)?;
    let answers = gather(rt, alloc, &queue, first, harvests, &kept, pool, gate, work)?;
    in_order(alloc, answers)
}

/// Answers each of the jobs, as `batch_with`. The answers stand in the order of the jobs.
pub fn batch<R: Threads + Wait + Sync, J: Job, G: Gate>(
    rt: &R,
    alloc: Global,
    jobs: &[J],
    pool: u32,
    gate: &G,
) -> Result<Vec<J::Out>, AllocError>
    requires few { length jobs.now ≤ JOBS }
    requires some { 1 ≤ pool }
    requires pool { pool ≤ WORKERS }
    ensures { IfOk result (λ outs. AnswerEach J.permits jobs.now outs.items) }
{
    let work = |number: u32|
        requires { IsSync R.row × (number < length jobs.now) }
        ensures { IfOk result (IsAnswer J.permits jobs.entry.now number) }
    { jobs[number as usize].work(rt, alloc) };
    batch_with(rt, alloc, jobs.len() as u32, pool, gate, &work)
}
