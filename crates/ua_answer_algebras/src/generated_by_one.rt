//! The command `ones`.

ghost use Rattle.std.specs.Prelude.{◌≡◌, ◌≤◌, ◌++◌, length, IfOk, OnOk};
ghost use Rattle.ua_sub.specs.Members.{contents};
ghost use Rattle.ua_answer_algebras.specs.OnesCommand.{sets_text, ones_text, OnesReply};

use std::alloc::{AllocError, Global};
use std::thread::Threads;
use ua_reply::{Context, Known, Refusal, push_counted, push_element, push_set, refusal_reply};
use ua_script::Word;
use ua_sub::ones;
use ua_table::{Elem, Gate};

/// Appends each set behind its element, on a line of its own.
fn push_sets(out: &mut Vec<u8>, known: &Known, sets: &[Vec<Elem>]) -> Result<(), AllocError>
    requires { length sets.now ≤ known.now.algebra.size }
    ensures { OnOk result (out.new.items ≡ out.old.items ++ sets_text known.now 0 (contents sets.now)) }
{
    // An element is below the size, which fits its type.
    let _size = known.algebra().size();
    for x in 0..sets.len() {
        push_element(out, known, x as Elem)?;
        out.push(b' ')?;
        push_set(out, known, &sets[x])?;
        out.push(b'\n')?;
    }
    Ok(())
}

/// How many elements there are, and what each generates.
fn ones_reply(alloc: Global, known: &Known, sets: &[Vec<Elem>]) -> Result<Vec<u8>, AllocError>
    requires { length sets.now ≤ known.now.algebra.size }
    ensures { IfOk result (λ v. v.items ≡ ones_text known.now (contents sets.now)) }
{
    let mut out = Vec::new(alloc);
    push_counted(&mut out, b"ones", sets.len() as u128)?;
    push_sets(&mut out, known, sets)?;
    Ok(out)
}

/// The reply to `ones`: its error, or what each element generates.
pub fn answer_ones<R: Threads + Sync, G: Gate>(
    context: &Context<R, G>,
    algebra: &Word,
) -> Result<Vec<u8>, AllocError>
    ensures { IfOk result (λ v. OnesReply context.now.session.now algebra.now v.items) }
{
    let Some(known) = context.session.find(algebra.name.text()) else {
        return refusal_reply(context.alloc, Refusal::Unknown(algebra.place));
    };
    let sets = ones(context.rt, context.alloc, known.algebra(), context.run)?;
    ones_reply(context.alloc, known, &sets)
}
