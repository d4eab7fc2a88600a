//! One worker's run.

ghost use Rattle.std.specs.Prelude.{◌≡◌, ◌<◌, ℕ, [], length, IfOk};
ghost use Rattle.std.specs.Thread.{IsSync};
ghost use Rattle.ua_jobs.specs.Harvests.{AreAnswers, IsAnswer, IsHarvest, MayGive};

use crate::jobs::Job;
use crate::queues::{JobPass, JobQueue};
use std::alloc::{AllocError, Global};
use std::sync::Wait;
use std::thread::Threads;
use ua_table::Gate;

/// How a worker's run ended.
#[derive(Clone, Copy, Debug, PartialEq, Eq)]
pub enum ServeEnd {
    /// A pop found the queue empty.
    Empty,
    /// The last number taken may lack its answer.
    OutOfMemory,
}

/// What a worker has at the end of its run: its pass, and the answers to the jobs that it took, each with
/// the job's number.
#[derive(Drop)]
pub struct Served<O> {
    pub pass: JobPass,
    pub answers: Vec<(u32, O)>,
    pub end: ServeEnd,
}

/// The answer of the work to this number.
pub(crate) fn answer<O, G: Gate, F: Fn(u32) -> Result<O, AllocError>>(
    number: u32,
    worker: u32,
    gate: &G,
    work: &F,
) -> Result<O, AllocError>
    requires { F.pre work.now number }
    ensures { IfOk result (MayGive F.post work.now number) }
{
    gate.before(worker, u64::from(number));
    let out = work(number)?;
    gate.after(worker, u64::from(number));
    Ok(out)
}

/// One worker's run: it takes job numbers until it finds the queue empty, and calls the work with each.
///
/// It passes the gate before and after each job, with the job's number.
pub fn serve_with<R: Wait, O: Drop, G: Gate, F: Fn(u32) -> Result<O, AllocError>>(
    rt: &R,
    alloc: Global,
    queue: &JobQueue,
    mut pass: JobPass,
    worker: u32,
    gate: &G,
    work: &F,
) -> Served<O>
    requires home { pass.queue ≡ queue.now }
    requires fresh { pass.own.taken ≡ [] }
    requires callable { (number : ℕ) → number < pass.own.jobs → F.pre work.now number }
    ensures harvest { IsHarvest pass result }
    ensures answers { AreAnswers (MayGive F.post work.now) result.answers.items }
{
    let mut answers = Vec::new(alloc);
    for _ in rt.forever() {
        let Some(number) = queue.pop(rt, &mut pass) else {
            let end = ServeEnd::Empty;
            return Served { pass, answers, end };
        };
        let end = ServeEnd::OutOfMemory;
        let Ok(out) = answer(number, worker, gate, work) else {
            return Served { pass, answers, end };
        };
        let Ok(()) = answers.push((number, out)) else {
            return Served { pass, answers, end };
        };
    }
    unreachable!()
}

/// One worker's run, as `serve_with`, where each number is that of one of the jobs.
pub fn serve<R: Threads + Wait + Sync, J: Job, G: Gate>(
    rt: &R,
    alloc: Global,
    queue: &JobQueue,
    pass: JobPass,
    jobs: &[J],
    worker: u32,
    gate: &G,
) -> Served<J::Out>
    requires home { pass.queue ≡ queue.now }
    requires fresh { pass.own.taken ≡ [] }
    requires jobs { pass.own.jobs ≡ length jobs.now }
    ensures harvest { IsHarvest pass result }
    ensures answers { AreAnswers (IsAnswer J.permits jobs.now) result.answers.items }
{
    let work = |number: u32|
        requires { IsSync R.row × (number < length jobs.now) }
        ensures { IfOk result (IsAnswer J.permits jobs.entry.now number) }
    { jobs[number as usize].work(rt, alloc) };
    serve_with(rt, alloc, queue, pass, worker, gate, &work)
}
