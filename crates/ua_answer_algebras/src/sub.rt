//! The command `sub`.

ghost use Rattle.std.specs.Prelude.{◌≡◌, ◌≤◌, length, IfOk};
ghost use Rattle.ua_table.specs.declared.limits.TheConstants.{SCRIPT};
ghost use Rattle.ua_reply.specs.Texts.{line, set_text};
ghost use Rattle.ua_answer_algebras.specs.SubCommand.{SubReply};

use std::alloc::{AllocError, Global};
use std::thread::Threads;
use ua_reply::{Context, Known, Refusal, elements, elements_in, push_set, refusal_reply};
use ua_script::{Items, Word};
use ua_sub::sub;
use ua_table::{Elem, Gate};

/// The line of a set of elements.
fn set_reply(alloc: Global, known: &Known, set: &[Elem]) -> Result<Vec<u8>, AllocError>
    ensures { IfOk result (λ v. v.items ≡ line (set_text known.now set.now)) }
{
    let mut out = Vec::new(alloc);
    push_set(&mut out, known, set)?;
    out.push(b'\n')?;
    Ok(out)
}

/// The reply to `sub`: the first of its errors, or the elements that these generate.
pub fn answer_sub<R: Threads + Sync, G: Gate>(
    context: &Context<R, G>,
    algebra: &Word,
    set: &Items,
) -> Result<Vec<u8>, AllocError>
    requires { length set.now.values ≤ SCRIPT }
    ensures { IfOk result (λ v. SubReply context.now.session.now algebra.now set.now v.items) }
{
    let alloc = context.alloc;
    let Some(known) = context.session.find(algebra.name.text()) else {
        return refusal_reply(alloc, Refusal::Unknown(algebra.place));
    };
    if let Some(refusal) = elements_in(known, set.values.as_slice()).refusal() {
        return refusal_reply(alloc, refusal);
    }
    let gens = elements(alloc, known, set)?;
    let members = sub(context.rt, alloc, known.algebra(), &gens, context.run)?;
    set_reply(alloc, known, &members)
}
