//! Commands that are heard in order, and answered side by side.

ghost use Rattle.std.specs.Prelude.{◌≡◌, IfOk, OnOk};
ghost use Rattle.ua_reply.specs.Sessions.{bounds_of};
ghost use Rattle.ua_answer.specs.Replies.{IsBuilt, Reply};
ghost use Rattle.ua_answer_algebras.specs.MakeCommand.{IsNamedRight, left_by};
ghost use Rattle.ua_shell.specs.inner.Hearing.{IsHeard, Hears};
ghost use Rattle.ua_shell.specs.inner.Outputs.{IsServed};

use std::alloc::{AllocError, Global};
use std::thread::Threads;
use ua_answer::{Answered, Made, answer};
use ua_reply::{Context, Scope, Session};
use ua_script::{Command, Item};
use ua_table::{Gate, Run};

/// What was heard of a command.
#[derive(Drop)]
pub(crate) enum Heard<'a> {
    /// What it was answered.
    Said(Vec<u8>),
    /// The command, which is yet to be answered, and how many blocks of the session it sees.
    Asked { known: usize, command: &'a Command },
}

/// The answer to a command that sees the whole session.
pub(crate) fn answer_now<'a, R: Threads + Sync, G: Gate>(
    rt: &R,
    alloc: Global,
    command: &'a Command,
    run: &Run<G>,
    session: &Session<'_>,
) -> Result<Answered<'a>, AllocError>
    requires { IsBuilt command.now }
    ensures reply { IfOk result (λ v. Reply session.now (bounds_of run.now) command.now v.reply.items (left_by session.now v.made)) }
    ensures named { IfOk result (λ v. IsNamedRight v.made) }
{
    let scope = Scope::new(session, session.len());
    let context = Context {
        rt,
        alloc,
        session: &scope,
        run,
    };
    answer(&context, command)
}

/// What a command made joins the session.
pub(crate) fn introduce<'a>(
    session: &mut Session<'a>,
    made: Option<Made<'a>>,
) -> Result<(), AllocError>
    requires { IsNamedRight made }
    ensures { OnOk result (session.new ≡ left_by session.old made.entry) }
{
    match made {
        Some(Made { name, algebra }) => session.introduce_made(name, algebra),
        None => Ok(()),
    }
}

/// What is heard of a command. A `make` is answered at once, and what it makes joins the session.
fn hear_command<'a, R: Threads + Sync, G: Gate>(
    rt: &R,
    alloc: Global,
    command: &'a Command,
    run: &Run<G>,
    session: &mut Session<'a>,
) -> Result<Heard<'a>, AllocError>
    requires { IsBuilt command.now }
    ensures { IfOk result (IsHeard (bounds_of run.now) command.now session.old session.new) }
{
    match command {
        Command::Make {
            place: _,
            name: _,
            what: _,
        } => {
            let Answered { reply, made } = answer_now(rt, alloc, command, run, session)?;
            introduce(session, made)?;
            Ok(Heard::Said(reply))
        }
        _ => Ok(Heard::Asked {
            known: session.len(),
            command,
        }),
    }
}

/// Hears an item, behind what was heard before it.
pub(crate) fn hear<'a, R: Threads + Sync, G: Gate>(
    rt: &R,
    alloc: Global,
    item: &'a Item,
    run: &Run<G>,
    session: &mut Session<'a>,
    heard: &mut Vec<Heard<'a>>,
) -> Result<(), AllocError>
    requires { IsServed item.now }
    ensures { OnOk result (Hears (bounds_of run.now) item.now session.old session.new heard.old.items heard.new.items) }
{
    match item {
        Item::Block(block) => session.introduce(block)?,
        Item::Command(command) => {
            let one = hear_command(rt, alloc, command, run, session)?;
            heard.push(one)?;
        }
    }
    Ok(())
}
