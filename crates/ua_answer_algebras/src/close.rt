//! The command `close`.

ghost use Rattle.std.specs.Prelude.{◌≤◌, length, IfOk};
ghost use Rattle.ua_table.specs.declared.limits.TheConstants.{SCRIPT};
ghost use Rattle.ua_reply.specs.Sessions.{run_bounds};
ghost use Rattle.ua_reply.specs.Checks.{Passes};
ghost use Rattle.ua_reply.specs.Operands.{vectors_of, power_of, positive, vectors_in};
ghost use Rattle.ua_answer_algebras.specs.CloseCommand.{ClosureAnswer, CloseReply};

use crate::closing::closing;
use std::alloc::AllocError;
use std::thread::Threads;
use ua_reply::{
    Context, Known, Refusal, cause_reply, positive, power, refusal_reply, vectors, vectors_in,
};
use ua_script::{Items, Mode, Number, Word};
use ua_table::Gate;

/// The reply where no operand fails.
fn close_known<R: Threads + Sync, G: Gate>(
    context: &Context<R, G>,
    known: &Known,
    width: Number,
    gens: &[Items],
    mode: Mode,
) -> Result<Vec<u8>, AllocError>
    requires width { Passes (positive width) }
    requires gens { Passes (vectors_in known.now width.value gens.now) }
    requires few { length gens.now ≤ SCRIPT }
    ensures { IfOk result (λ v. ClosureAnswer known.now (run_bounds context.now) (power_of known.now width.value) (vectors_of known.now gens.now) mode v.items) }
{
    let vectors = vectors(context.alloc, known, width.value, gens)?;
    match power(known, width, &vectors, context.run.budget) {
        Ok(frame) => closing(context, known, &frame, &vectors, mode),
        Err(cause) => cause_reply(context.alloc, cause),
    }
}

/// The reply to `close`: the first of its errors, or the rows or their number.
pub fn answer_close<R: Threads + Sync, G: Gate>(
    context: &Context<R, G>,
    algebra: &Word,
    width: Number,
    gens: &[Items],
    mode: Mode,
) -> Result<Vec<u8>, AllocError>
    requires { length gens.now ≤ SCRIPT }
    ensures { IfOk result (λ v. CloseReply context.now.session.now (run_bounds context.now) algebra.now width gens.now mode v.items) }
{
    let Some(known) = context.session.find(algebra.name.text()) else {
        return refusal_reply(context.alloc, Refusal::Unknown(algebra.place));
    };
    let errors = positive(width).and(vectors_in(known, width.value, gens));
    if let Some(refusal) = errors.refusal() {
        return refusal_reply(context.alloc, refusal);
    }
    close_known(context, known, width, gens, mode)
}
