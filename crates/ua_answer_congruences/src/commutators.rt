//! The command `comm`.

ghost use Rattle.std.specs.Prelude.{◌≡◌, Some, IfOk};
ghost use Rattle.ua_reply.specs.Sessions.{run_bounds};
ghost use Rattle.ua_reply.specs.Checks.{Passes};
ghost use Rattle.ua_reply.specs.Closures.{told};
ghost use Rattle.ua_reply.specs.Parts.{part_in};
ghost use Rattle.ua_answer_congruences.specs.CommCommand.{comm_text, CommAnswer, CommReply};

use crate::congruences::{Operand, congruence};
use std::alloc::{AllocError, Global};
use std::thread::Threads;
use ua_close::CloseError;
use ua_comm::{Comm, commutator};
use ua_reply::{
    Context, Known, Refusal, cause_reply, part_in, push_counted, push_part, refusal_reply,
};
use ua_script::{PartText, Word};
use ua_table::Gate;

/// The reply to a commutator, within the budget told.
fn comm_reply(
    alloc: Global,
    budget: u32,
    answer: &Result<Comm, CloseError>,
) -> Result<Vec<u8>, AllocError>
    ensures { IfOk result (λ v. told (comm_text budget) answer.now ≡ Some v.items) }
{
    let mut out = Vec::new(alloc);
    match answer {
        Ok(Comm::Whole(part)) => {
            push_part(&mut out, part)?;
            out.push(b'\n')?;
        }
        Ok(Comm::Exceeds) => push_counted(&mut out, b"exceeds", u128::from(budget))?,
        Err(cause) => return cause_reply(alloc, *cause),
    }
    Ok(out)
}

/// The reply where no operand fails.
fn comm_known<R: Threads + Sync, G: Gate>(
    context: &Context<R, G>,
    known: &Known,
    alpha: &PartText,
    beta: &PartText,
) -> Result<Vec<u8>, AllocError>
    requires alpha { Passes (part_in known.now alpha.now) }
    requires beta { Passes (part_in known.now beta.now) }
    ensures { IfOk result (λ v. CommAnswer known.now (run_bounds context.now) alpha.now beta.now v.items) }
{
    let alloc = context.alloc;
    let first = match congruence(alloc, known, alpha)? {
        Operand::Congruence(part) => part,
        Operand::Refused(reply) => return Ok(reply),
    };
    let second = match congruence(alloc, known, beta)? {
        Operand::Congruence(part) => part,
        Operand::Refused(reply) => return Ok(reply),
    };
    let answer = commutator(
        context.rt,
        alloc,
        known.algebra(),
        &first,
        &second,
        context.run,
    );
    comm_reply(alloc, context.run.budget, &answer)
}

/// The reply to `comm`: the first of its errors, or the commutator of the two congruences.
pub fn answer_comm<R: Threads + Sync, G: Gate>(
    context: &Context<R, G>,
    algebra: &Word,
    alpha: &PartText,
    beta: &PartText,
) -> Result<Vec<u8>, AllocError>
    ensures { IfOk result (λ v. CommReply context.now.session.now (run_bounds context.now) algebra.now alpha.now beta.now v.items) }
{
    let alloc = context.alloc;
    let Some(known) = context.session.find(algebra.name.text()) else {
        return refusal_reply(alloc, Refusal::Unknown(algebra.place));
    };
    let errors = part_in(alloc, known, alpha)?.and(part_in(alloc, known, beta)?);
    if let Some(refusal) = errors.refusal() {
        return refusal_reply(alloc, refusal);
    }
    comm_known(context, known, alpha, beta)
}
