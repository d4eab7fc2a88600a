//! The command `member`.

ghost use Rattle.std.specs.Prelude.{◌≤◌, length, IfOk};
ghost use Rattle.ua_table.specs.declared.limits.TheConstants.{SCRIPT};
ghost use Rattle.ua_close.specs.Permitted.{MayMember};
ghost use Rattle.ua_reply.specs.Sessions.{run_bounds};
ghost use Rattle.ua_reply.specs.Checks.{Passes};
ghost use Rattle.ua_reply.specs.Operands.{values_of, vectors_of, power_of, positive, vector_in, vectors_in};
ghost use Rattle.ua_answer_algebras.specs.MemberCommand.{MemberReply};

use std::alloc::AllocError;
use std::thread::Threads;
use ua_close::{Answer, CloseError, member};
use ua_reply::{
    Context, Known, Refusal, member_reply, positive, power, refusal_reply, vector, vector_in,
    vectors, vectors_in,
};
use ua_script::{Items, Number, Word};
use ua_table::Gate;

/// What `member` answers in a power of the algebra.
fn membership<R: Threads + Sync, G: Gate>(
    context: &Context<R, G>,
    known: &Known,
    width: Number,
    gens: &[Items],
    target: &Items,
) -> Result<Answer, CloseError>
    requires width { Passes (positive width) }
    requires gens { Passes (vectors_in known.now width.value gens.now) }
    requires target { Passes (vector_in known.now width.value target.now) }
    requires few { length gens.now ≤ SCRIPT }
    ensures { MayMember (power_of known.now width.value) (vectors_of known.now gens.now) (values_of known.now target.now) context.now.run.now.budget context.now.run.now.workers result }
{
    let vectors = vectors(context.alloc, known, width.value, gens)?;
    let target = vector(context.alloc, known, width.value, target)?;
    let frame = power(known, width, &vectors, context.run.budget)?;
    member(
        context.rt,
        context.alloc,
        &frame,
        &vectors,
        &target,
        context.run,
    )
}

/// The reply to `member`: the first of its errors, or whether the target is generated.
pub fn answer_member<R: Threads + Sync, G: Gate>(
    context: &Context<R, G>,
    algebra: &Word,
    width: Number,
    gens: &[Items],
    target: &Items,
) -> Result<Vec<u8>, AllocError>
    requires { length gens.now ≤ SCRIPT }
    ensures { IfOk result (λ v. MemberReply context.now.session.now (run_bounds context.now) algebra.now width gens.now target.now v.items) }
{
    let Some(known) = context.session.find(algebra.name.text()) else {
        return refusal_reply(context.alloc, Refusal::Unknown(algebra.place));
    };
    let errors = positive(width)
        .and(vectors_in(known, width.value, gens))
        .and(vector_in(known, width.value, target));
    if let Some(refusal) = errors.refusal() {
        return refusal_reply(context.alloc, refusal);
    }
    let answer = membership(context, known, width, gens, target);
    member_reply(context.alloc, known, context.run.budget, &answer)
}
