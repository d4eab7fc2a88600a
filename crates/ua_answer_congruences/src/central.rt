//! The command `central`.

ghost use Rattle.std.specs.Prelude.{◌≡◌, ◌++◌, Some, IfOk, codes};
ghost use Rattle.ua_reply.specs.Sessions.{run_bounds};
ghost use Rattle.ua_reply.specs.Checks.{Passes};
ghost use Rattle.ua_reply.specs.Closures.{told};
ghost use Rattle.ua_reply.specs.Parts.{part_in};
ghost use Rattle.ua_reply.specs.Texts.{line, vector_text, steps_text};
ghost use Rattle.ua_answer_congruences.specs.CentralCommand.{central_text, CentralAnswer, CentralReply};

use crate::congruences::{Operand, congruence};
use std::alloc::{AllocError, Global};
use std::thread::Threads;
use ua_close::CloseError;
use ua_matrix::Central;
use ua_matrix::centralizing::central;
use ua_reply::{
    Context, Known, Refusal, cause_reply, part_in, push_counted, push_counted_steps, push_vector,
    refusal_reply,
};
use ua_script::{PartText, Word};
use ua_table::{Elem, Gate};
use ua_term::Steps;

/// The matrix that refutes it, and the steps to this one.
fn refuted_reply(
    alloc: Global,
    known: &Known,
    matrix: &[Elem],
    steps: &Steps,
) -> Result<Vec<u8>, AllocError>
    ensures { IfOk result (λ v. v.items ≡ line (codes "central no " ++ vector_text known.now matrix.now) ++ steps_text known.now steps.now) }
{
    let mut out = Vec::from_slice(alloc, b"central no ")?;
    push_vector(&mut out, known, matrix)?;
    out.push(b'\n')?;
    push_counted_steps(&mut out, known, steps)?;
    Ok(out)
}

/// The reply to whether the term condition holds, within the budget told.
fn central_reply(
    alloc: Global,
    known: &Known,
    budget: u32,
    answer: &Result<Central, CloseError>,
) -> Result<Vec<u8>, AllocError>
    ensures { IfOk result (λ v. told (central_text known.now budget) answer.now ≡ Some v.items) }
{
    match answer {
        Ok(Central::Yes) => Vec::from_slice(alloc, b"central yes\n"),
        Ok(Central::No { matrix, steps }) => refuted_reply(alloc, known, matrix, steps),
        Ok(Central::Exceeds) => {
            let mut out = Vec::new(alloc);
            push_counted(&mut out, b"exceeds", u128::from(budget))?;
            Ok(out)
        }
        Err(cause) => cause_reply(alloc, *cause),
    }
}

/// The reply where no operand fails.
fn central_known<R: Threads + Sync, G: Gate>(
    context: &Context<R, G>,
    known: &Known,
    alpha: &PartText,
    beta: &PartText,
    delta: &PartText,
) -> Result<Vec<u8>, AllocError>
    requires alpha { Passes (part_in known.now alpha.now) }
    requires beta { Passes (part_in known.now beta.now) }
    requires delta { Passes (part_in known.now delta.now) }
    ensures { IfOk result (λ v. CentralAnswer known.now (run_bounds context.now) alpha.now beta.now delta.now v.items) }
{
    let alloc = context.alloc;
    let first = match congruence(alloc, known, alpha)? {
        Operand::Congruence(part) => part,
        Operand::Refused(reply) => return Ok(reply),
    };
    let second = match congruence(alloc, known, beta)? {
        Operand::Congruence(part) => part,
        Operand::Refused(reply) => return Ok(reply),
    };
    let third = match congruence(alloc, known, delta)? {
        Operand::Congruence(part) => part,
        Operand::Refused(reply) => return Ok(reply),
    };
    let algebra = known.algebra();
    let answer = central(
        context.rt,
        alloc,
        algebra,
        &first,
        &second,
        &third,
        context.run,
    );
    central_reply(alloc, known, context.run.budget, &answer)
}

/// The reply to `central`: the first of its errors, or whether the first congruence centralizes the second
/// modulo the third.
pub fn answer_central<R: Threads + Sync, G: Gate>(
    context: &Context<R, G>,
    algebra: &Word,
    alpha: &PartText,
    beta: &PartText,
    delta: &PartText,
) -> Result<Vec<u8>, AllocError>
    ensures { IfOk result (λ v. CentralReply context.now.session.now (run_bounds context.now) algebra.now alpha.now beta.now delta.now v.items) }
{
    let alloc = context.alloc;
    let Some(known) = context.session.find(algebra.name.text()) else {
        return refusal_reply(alloc, Refusal::Unknown(algebra.place));
    };
    let errors = part_in(alloc, known, alpha)?
        .and(part_in(alloc, known, beta)?)
        .and(part_in(alloc, known, delta)?);
    if let Some(refusal) = errors.refusal() {
        return refusal_reply(alloc, refusal);
    }
    central_known(context, known, alpha, beta, delta)
}
