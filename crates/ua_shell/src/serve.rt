//! The items of a script, one after another.

ghost use Rattle.std.specs.List.{AllByRecursion};
ghost use Rattle.ua_reply.specs.Sessions.{bounds_of};
ghost use Rattle.ua_shell.specs.inner.Outputs.{IsServed};
ghost use Rattle.ua_shell.specs.Served.{Serves};

use crate::hearing::{answer_now, introduce};
use std::alloc::Global;
use std::thread::Threads;
use ua_answer::Answered;
use ua_io::{Sink, write_all};
use ua_reply::Session;
use ua_script::Item;
use ua_table::{Gate, Run};

/// How the items of a script were served.
#[derive(Clone, Copy, Debug, PartialEq, Eq)]
pub enum Served {
    Done,
    WriteFault,
    OutOfMemory,
}

/// Answers each command in order. Each reply is written as one piece, and nothing more after a fault.
pub fn serve<R: Threads + Sync, K: Sink, G: Gate>(
    rt: &R,
    alloc: Global,
    items: &[Item],
    run: &Run<G>,
    sink: &mut K,
) -> Served
    requires { AllByRecursion IsServed items.now }
    ensures { Serves K.written K.faults (bounds_of run.now) items.now sink.old sink.new result }
{
    let mut session = Session::new(alloc);
    for item in items {
        match item {
            Item::Block(block) => {
                let Ok(()) = session.introduce(block) else {
                    return Served::OutOfMemory;
                };
            }
            Item::Command(command) => {
                let Ok(Answered { reply, made }) = answer_now(rt, alloc, command, run, &session)
                else {
                    return Served::OutOfMemory;
                };
                let Ok(()) = write_all(sink, &reply) else {
                    return Served::WriteFault;
                };
                let Ok(()) = introduce(&mut session, made) else {
                    return Served::OutOfMemory;
                };
            }
        }
    }
    Served::Done
}
