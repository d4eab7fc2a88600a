//! What the harvests of all workers make together.

ghost use Rattle.std.specs.Prelude.{◌≡◌, ◌<◌, ◌+◌, ◌++◌, ℕ, [], length, map, IfOk, OnOk};
ghost use Rattle.std.specs.List.{AllByRecursion, flat_map};
ghost use Rattle.std.specs.List.Sorted.{IsPermutation};
ghost use Rattle.ua_table.specs.Counting.{EachOnceBelow, times, once_below};
ghost use Rattle.ua_jobs.specs.declared.serving.Served.{Served};
ghost use Rattle.ua_jobs.specs.declared.serving.ServeEnd.TheVariants as ends;
ghost use Rattle.ua_jobs.specs.Moves.{IsFirst};
ghost use Rattle.ua_jobs.specs.Rule.{taken_times};
ghost use Rattle.ua_jobs.specs.Seats.{with_view};
ghost use Rattle.ua_jobs.specs.Harvests.{AreAnswers, IsHarvest, MayGive, numbered, numbers_of};
ghost use Rattle.ua_jobs.specs.inner.Batches.{IsOtherHarvest, IsReady, joined_times};

use crate::queues::{JobPass, JobQueue};
use crate::serving::{ServeEnd, Served, answer, serve_with};
use std::alloc::{AllocError, Global};
use std::sync::Wait;
use ua_table::Gate;

/// Joins the passes of all workers to the first, and puts their answers together.
fn join_all<O: Drop>(
    alloc: Global,
    queue: &JobQueue,
    first: &mut JobPass,
    harvests: Vec<Served<O>>,
) -> Result<Vec<(u32, O)>, AllocError>
    requires home { first.old.queue ≡ queue.now }
    requires first { IsFirst first.old.own }
    requires none { first.old.own.joined ≡ [] }
    requires harvests { AllByRecursion (IsOtherHarvest queue.now first.old.own.jobs) harvests.items }
    ensures pass { OnOk result (first.new ≡ with_view first.old (record first.old.own { joined = first.new.own.joined })) }
    ensures count { OnOk result (length first.new.own.joined ≡ length harvests.items) }
    ensures answers { IfOk result (λ answers. answers.items ≡ flat_map (λ (s : Served O). s.answers.items) harvests.items) }
    ensures numbers { IfOk result (λ answers. (x : ℕ) → times x (numbers_of answers.items) ≡ joined_times x first.new.own) }
{
    let mut answers = Vec::new(alloc);
    let mut rest = harvests.into_iter();
    'harvests: while let Some(served) = rest.next() {
        let Served {
            pass,
            answers: mut own,
            end,
        } = served;
        let ServeEnd::Empty = end else {
            return Err(AllocError);
        };
        queue.join(first, pass);
        answers.append(&mut own)?;
    }
    Ok(answers)
}

/// The run of the first pass, which has joined all others: it does what was left in the queue.
///
/// Where memory does not run out, the numbers in the taken lists and those that were kept are those of all
/// jobs, each once.
fn serve_rest<R: Wait, O: Drop, G: Gate, F: Fn(u32) -> Result<O, AllocError>>(
    rt: &R,
    alloc: Global,
    queue: &JobQueue,
    first: JobPass,
    kept: &[u32],
    worker: u32,
    gate: &G,
    work: &F,
) -> Served<O>
    requires ready { IsReady queue.now first.own.jobs (length first.own.joined) first }
    requires numbers { EachOnceBelow first.own.jobs (first.own.pushed ++ kept.now) }
    requires callable { (number : ℕ) → number < first.own.jobs → F.pre work.now number }
    ensures harvest { IsHarvest first result }
    ensures answers { AreAnswers (MayGive F.post work.now) result.answers.items }
    ensures once { result.end ≡ ends.Empty → (x : ℕ) → taken_times x result.pass.own + times x kept.now ≡ once_below first.own.jobs x }
{
    serve_with(rt, alloc, queue, first, worker, gate, work)
}

/// The answers to the numbers that were kept, behind the others.
fn work_kept<O: Drop, G: Gate, F: Fn(u32) -> Result<O, AllocError>>(
    kept: &[u32],
    answers: &mut Vec<(u32, O)>,
    worker: u32,
    gate: &G,
    work: &F,
) -> Result<(), AllocError>
    requires callable { AllByRecursion (λ number. F.pre work.now number) kept.now }
    requires answers { AreAnswers (MayGive F.post work.now) answers.old.items }
    ensures answers { OnOk result (AreAnswers (MayGive F.post work.now) answers.new.items) }
    ensures numbers { OnOk result (numbers_of answers.new.items ≡ numbers_of answers.old.items ++ kept.now) }
{
    for number in kept {
        let out = answer(*number, worker, gate, work)?;
        answers.push((*number, out))?;
    }
    Ok(())
}

/// The answers to all jobs, each with the job's number: those of the workers, those to the jobs that were
/// left in the queue, and those to the jobs that were kept.
pub(crate) fn gather<R: Wait, O: Drop, G: Gate, F: Fn(u32) -> Result<O, AllocError>>(
    rt: &R,
    alloc: Global,
    queue: &JobQueue,
    mut first: JobPass,
    harvests: Vec<Served<O>>,
    kept: &[u32],
    worker: u32,
    gate: &G,
    work: &F,
) -> Result<Vec<(u32, O)>, AllocError>
    requires ready { IsReady queue.now first.own.jobs (length harvests.items) first }
    requires none { first.own.joined ≡ [] }
    requires numbers { EachOnceBelow first.own.jobs (first.own.pushed ++ kept.now) }
    requires harvests { AllByRecursion (IsOtherHarvest queue.now first.own.jobs) harvests.items }
    requires answers { AreAnswers (MayGive F.post work.now) (flat_map (λ (s : Served O). s.answers.items) harvests.items) }
    requires callable { (number : ℕ) → number < first.own.jobs → F.pre work.now number }
    ensures answers { IfOk result (λ answers. AreAnswers (MayGive F.post work.now) answers.items) }
    ensures once { IfOk result (λ answers. EachOnceBelow first.own.jobs (numbers_of answers.items)) }
{
    let mut answers = join_all(alloc, queue, &mut first, harvests)?;
    let served = serve_rest(rt, alloc, queue, first, kept, worker, gate, work);
    let Served {
        pass: _,
        answers: mut last,
        end,
    } = served;
    let ServeEnd::Empty = end else {
        return Err(AllocError);
    };
    answers.append(&mut last)?;
    work_kept(kept, &mut answers, worker, gate, work)?;
    Ok(answers)
}

/// The answers without their numbers.
fn outs_of<O: Drop>(alloc: Global, answers: Vec<(u32, O)>) -> Result<Vec<O>, AllocError>
    ensures { IfOk result (λ outs. outs.items ≡ map (λ (a : ℕ × O). a.1) answers.items) }
{
    let mut outs = Vec::with_capacity(alloc, answers.len())?;
    let mut rest = answers.into_iter();
    'answers: while let Some((_, out)) = rest.next() {
        outs.push(out)?;
    }
    Ok(outs)
}

/// The answers in the order of their numbers.
pub(crate) fn in_order<O: Drop>(
    alloc: Global,
    mut answers: Vec<(u32, O)>,
) -> Result<Vec<O>, AllocError>
    ensures order { (n : ℕ) → EachOnceBelow n (numbers_of answers.items) → IfOk result (λ outs. IsPermutation answers.items (numbered 0 outs.items)) }
    ensures count { (n : ℕ) → EachOnceBelow n (numbers_of answers.items) → IfOk result (λ outs. length outs.items ≡ n) }
{
    answers.sort_unstable_by_key(|answer| answer.0);
    outs_of(alloc, answers)
}
