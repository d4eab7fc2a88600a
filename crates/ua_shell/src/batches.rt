//! The items of a script, where commands are answered side by side.

ghost use Rattle.std.specs.Prelude.{◌<◌, ◌≤◌, length, map, IfOk, OnOk, OnErr};
ghost use Rattle.std.specs.List.{AllByRecursion};
ghost use Rattle.std.specs.Thread.{IsSync};
ghost use Rattle.std.specs.Io.KnownBytes.{Appends};
ghost use Rattle.ua_io.specs.Faults.{Rose, AppendsFront};
ghost use Rattle.ua_table.specs.declared.limits.TheConstants.{WORKERS};
ghost use Rattle.ua_jobs.specs.declared.batches.TheConstants.{JOBS};
ghost use Rattle.ua_jobs.specs.Harvests.{AnswerEach, IsAnswer};
ghost use Rattle.ua_reply.specs.Sessions.{bounds_of};
ghost use Rattle.ua_shell.specs.declared.hearing.Heard.{Heard};
ghost use Rattle.ua_shell.specs.Hearing.{Tells};
ghost use Rattle.ua_shell.specs.inner.Hearing.{IsReady, TellsAll, bytes_of};
ghost use Rattle.ua_shell.specs.inner.Outputs.{IsServed};
ghost use Rattle.ua_shell.specs.Served.{Serves};

use crate::hearing::{Heard, hear};
use crate::serve::{Served, serve};
use std::alloc::{AllocError, Global};
use std::sync::Wait;
use std::thread::Threads;
use ua_answer::answer_plain;
use ua_io::{Sink, WriteFault, write_all};
use ua_jobs::{JOBS, batch_with};
use ua_reply::{Context, Scope, Session};
use ua_script::Item;
use ua_table::{FreeGate, Gate, Run};

/// The reply to what was heard.
fn reply_to<R: Threads + Sync, G: Gate>(
    rt: &R,
    alloc: Global,
    heard: &Heard<'_>,
    run: &Run<G>,
    session: &Session<'_>,
) -> Result<Vec<u8>, AllocError>
    requires { IsReady session.now heard.now }
    ensures { IfOk result (λ v. Tells session.now (bounds_of run.now) heard.now v.items) }
{
    match heard {
        Heard::Said(reply) => Vec::from_slice(alloc, reply),
        Heard::Asked { known, command } => {
            let scope = Scope::new(session, *known);
            let context = Context {
                rt,
                alloc,
                session: &scope,
                run,
            };
            answer_plain(&context, command)
        }
    }
}

/// The replies to all that was heard, so many at a time side by side. They stand in the order of what was
/// heard.
fn replies_to<R: Threads + Wait + Sync, G: Gate>(
    rt: &R,
    alloc: Global,
    heard: &[Heard<'_>],
    run: &Run<G>,
    jobs: u32,
    session: &Session<'_>,
) -> Result<Vec<Vec<u8>>, AllocError>
    requires few { length heard.now ≤ JOBS }
    requires ready { AllByRecursion (IsReady session.now) heard.now }
    requires some { 1 ≤ jobs }
    requires pool { jobs ≤ WORKERS }
    ensures { IfOk result (λ replies. AnswerEach (Tells session.now (bounds_of run.now)) heard.now (map (λ v. v.items) replies.items)) }
{
    let work = |number: u32|
        requires { IsSync R.row × IsSync G.row × AllByRecursion (IsReady session.now) heard.now × (number < length heard.now) }
        ensures { IfOk result (IsAnswer (λ (h : Heard) v. Tells session.entry.now (bounds_of run.entry.now) h v.items) heard.entry.now number) }
    { reply_to(rt, alloc, &heard[number as usize], run, session) };
    batch_with(rt, alloc, heard.len() as u32, jobs, &FreeGate, &work)
}

/// Writes the replies in order, each as one piece, and nothing more after a fault.
fn write_replies<K: Sink>(sink: &mut K, replies: &[Vec<u8>]) -> Result<(), WriteFault>
    ensures whole { OnOk result (Appends (K.written sink.old) (K.written sink.new) (bytes_of (map (λ v. v.items) replies.now))) }
    ensures front { OnErr result (AppendsFront (K.written sink.old) (K.written sink.new) (bytes_of (map (λ v. v.items) replies.now))) }
    ensures cause { OnErr result (Rose (K.faults sink.old) (K.faults sink.new)) }
    ensures never_falls { K.faults sink.old ≤ K.faults sink.new }
{
    for reply in replies {
        write_all(sink, reply)?;
    }
    Ok(())
}

/// Answers all that was heard, so many at a time side by side, and writes the replies in order. Where memory
/// runs out nothing is written.
fn tell<R: Threads + Wait + Sync, K: Sink, G: Gate>(
    rt: &R,
    alloc: Global,
    heard: &[Heard<'_>],
    run: &Run<G>,
    jobs: u32,
    session: &Session<'_>,
    sink: &mut K,
) -> Served
    requires few { length heard.now ≤ JOBS }
    requires ready { AllByRecursion (IsReady session.now) heard.now }
    requires some { 1 ≤ jobs }
    requires pool { jobs ≤ WORKERS }
    ensures told { TellsAll K.written K.faults session.now (bounds_of run.now) heard.now sink.old sink.new result }
    ensures never_falls { K.faults sink.old ≤ K.faults sink.new }
{
    let Ok(replies) = replies_to(rt, alloc, heard, run, jobs, session) else {
        return Served::OutOfMemory;
    };
    match write_replies(sink, &replies) {
        Ok(()) => Served::Done,
        Err(WriteFault) => Served::WriteFault,
    }
}

/// Answers the commands in batches of at most `ua_jobs::JOBS`, of which `jobs` at a time side by side, each
/// in the session that the items before it leave.
///
/// The replies are written in order, each as one piece, and nothing more after a fault. Where a batch wants
/// memory nothing of it is written.
fn serve_batches<R: Threads + Wait + Sync, K: Sink, G: Gate>(
    rt: &R,
    alloc: Global,
    items: &[Item],
    run: &Run<G>,
    jobs: u32,
    sink: &mut K,
) -> Served
    requires served { AllByRecursion IsServed items.now }
    requires some { 1 ≤ jobs }
    requires pool { jobs ≤ WORKERS }
    ensures { Serves K.written K.faults (bounds_of run.now) items.now sink.old sink.new result }
{
    let mut session = Session::new(alloc);
    let mut heard = Vec::new(alloc);
    for item in items {
        let Ok(()) = hear(rt, alloc, item, run, &mut session, &mut heard) else {
            return Served::OutOfMemory;
        };
        if heard.len() >= JOBS as usize {
            let served = tell(rt, alloc, &heard, run, jobs, &session, sink);
            let Served::Done = served else {
                return served;
            };
            heard.clear();
        }
    }
    tell(rt, alloc, &heard, run, jobs, &session, sink)
}

/// Answers the commands one by one where there is one job, and else in batches.
pub fn serve_items<R: Threads + Wait + Sync, K: Sink, G: Gate>(
    rt: &R,
    alloc: Global,
    items: &[Item],
    run: &Run<G>,
    jobs: u32,
    sink: &mut K,
) -> Served
    requires served { AllByRecursion IsServed items.now }
    requires some { 1 ≤ jobs }
    requires pool { jobs ≤ WORKERS }
    ensures { Serves K.written K.faults (bounds_of run.now) items.now sink.old sink.new result }
{
    match jobs {
        1 => serve(rt, alloc, items, run, sink),
        _ => serve_batches(rt, alloc, items, run, jobs, sink),
    }
}
