//! The command `con`.

ghost use Rattle.std.specs.Prelude.{◌≡◌, ◌++◌, IfOk, OnOk};
ghost use Rattle.ua_part.specs.Blocks.{partition_text};
ghost use Rattle.ua_reply.specs.Sessions.{run_bounds};
ghost use Rattle.ua_reply.specs.Texts.{lines, numbered, pair_text};
ghost use Rattle.ua_answer_congruences.specs.ConCommand.{lattice_text, ConReply};

use crate::texts::push_parts;
use std::alloc::{AllocError, Global};
use std::thread::Threads;
use ua_lattice::{Lattice, congruences};
use ua_part::{Part, push_number};
use ua_reply::{Context, Refusal, push_counted, push_listed, push_pair, push_part, refusal_reply};
use ua_script::Word;
use ua_table::Gate;

/// Appends each partition behind its number, on a line of its own.
fn push_numbered(out: &mut Vec<u8>, parts: &[Part]) -> Result<(), AllocError>
    ensures { OnOk result (out.new.items ≡ out.old.items ++ numbered partition_text 0 parts.now) }
{
    for i in 0..parts.len() {
        push_number(out, i as u128)?;
        out.push(b' ')?;
        push_part(out, &parts[i])?;
        out.push(b'\n')?;
    }
    Ok(())
}

/// Appends each pair, on a line of its own.
fn push_pairs(out: &mut Vec<u8>, pairs: &[(u32, u32)]) -> Result<(), AllocError>
    ensures { OnOk result (out.new.items ≡ out.old.items ++ lines pair_text pairs.now) }
{
    for pair in pairs {
        push_pair(out, *pair)?;
        out.push(b'\n')?;
    }
    Ok(())
}

/// The reply to a lattice.
fn lattice_reply(alloc: Global, budget: u32, lattice: &Lattice) -> Result<Vec<u8>, AllocError>
    ensures { IfOk result (λ v. v.items ≡ lattice_text budget lattice.now) }
{
    let mut out = Vec::new(alloc);
    match lattice {
        Lattice::Whole {
            list,
            covers,
            irreducibles,
        } => {
            push_counted(&mut out, b"congruences", list.len() as u128)?;
            push_numbered(&mut out, list.as_slice())?;
            push_counted(&mut out, b"covers", covers.len() as u128)?;
            push_pairs(&mut out, covers.as_slice())?;
            push_listed(&mut out, b"join irreducibles", irreducibles.as_slice())?;
        }
        Lattice::Exceeds(list) => {
            push_counted(&mut out, b"exceeds", u128::from(budget))?;
            push_parts(&mut out, list.as_slice())?;
        }
    }
    Ok(out)
}

/// The reply to `con`: its error, or the lattice of congruences.
pub fn answer_con<R: Threads + Sync, G: Gate>(
    context: &Context<R, G>,
    algebra: &Word,
) -> Result<Vec<u8>, AllocError>
    ensures { IfOk result (λ v. ConReply context.now.session.now (run_bounds context.now) algebra.now v.items) }
{
    let Some(known) = context.session.find(algebra.name.text()) else {
        return refusal_reply(context.alloc, Refusal::Unknown(algebra.place));
    };
    let lattice = congruences(context.rt, context.alloc, known.algebra(), context.run)?;
    lattice_reply(context.alloc, context.run.budget, &lattice)
}
