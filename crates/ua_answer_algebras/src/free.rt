//! The command `free`.

ghost use Rattle.std.specs.Prelude.{IfOk};
ghost use Rattle.ua_term.specs.Assignments.{projections, power_of_assignments};
ghost use Rattle.ua_reply.specs.Sessions.{run_bounds};
ghost use Rattle.ua_reply.specs.Checks.{Passes};
ghost use Rattle.ua_reply.specs.Operands.{variables_checks};
ghost use Rattle.ua_answer_algebras.specs.CloseCommand.{ClosureAnswer};
ghost use Rattle.ua_answer_algebras.specs.FreeCommand.{FreeReply};

use crate::closing::closing;
use std::alloc::AllocError;
use std::thread::Threads;
use ua_free::generators;
use ua_reply::{Context, Known, Refusal, cause_reply, refusal_reply, variables_in};
use ua_script::{Mode, Number, Word};
use ua_table::Gate;

/// The reply where the operand does not fail.
fn free_known<R: Threads + Sync, G: Gate>(
    context: &Context<R, G>,
    known: &Known,
    count: Number,
    mode: Mode,
) -> Result<Vec<u8>, AllocError>
    requires { Passes (variables_checks count) }
    ensures { let a = known.now.algebra in IfOk result (λ v. ClosureAnswer known.now (run_bounds context.now) (power_of_assignments a count.value) (projections a.size count.value) mode v.items) }
{
    let budget = context.run.budget;
    match generators(context.alloc, known.algebra(), count.value as u8, budget) {
        Ok((frame, gens)) => closing(context, known, &frame, &gens, mode),
        Err(cause) => cause_reply(context.alloc, cause),
    }
}

/// The reply to `free`: the first of its errors, or the rows or their number.
pub fn answer_free<R: Threads + Sync, G: Gate>(
    context: &Context<R, G>,
    algebra: &Word,
    count: Number,
    mode: Mode,
) -> Result<Vec<u8>, AllocError>
    ensures { IfOk result (λ v. FreeReply context.now.session.now (run_bounds context.now) algebra.now count mode v.items) }
{
    let Some(known) = context.session.find(algebra.name.text()) else {
        return refusal_reply(context.alloc, Refusal::Unknown(algebra.place));
    };
    if let Some(refusal) = variables_in(count).refusal() {
        return refusal_reply(context.alloc, refusal);
    }
    free_known(context, known, count, mode)
}
