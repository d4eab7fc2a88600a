//! The command `cg`.

ghost use Rattle.std.specs.Prelude.{IfOk};
ghost use Rattle.ua_answer_congruences.specs.CgCommand.{CgReply};

use std::alloc::AllocError;
use std::thread::Threads;
use ua_cong::cg;
use ua_reply::{Context, Refusal, pairs, push_part, refusal_reply, vectors_in};
use ua_script::{Items, Word};
use ua_table::Gate;

/// The reply to `cg`: the first of its errors, or the congruence that the pairs generate.
pub fn answer_cg<R: Threads + Sync, G: Gate>(
    context: &Context<R, G>,
    algebra: &Word,
    vectors: &[Items],
) -> Result<Vec<u8>, AllocError>
    ensures { IfOk result (λ v. CgReply context.now.session.now algebra.now vectors.now v.items) }
{
    let Some(known) = context.session.find(algebra.name.text()) else {
        return refusal_reply(context.alloc, Refusal::Unknown(algebra.place));
    };
    if let Some(refusal) = vectors_in(known, 2, vectors).refusal() {
        return refusal_reply(context.alloc, refusal);
    }
    let pairs = pairs(context.alloc, known, vectors)?;
    let congruence = cg(context.alloc, known.algebra(), &pairs)?;
    let mut out = Vec::new(context.alloc);
    push_part(&mut out, &congruence)?;
    out.push(b'\n')?;
    Ok(out)
}
