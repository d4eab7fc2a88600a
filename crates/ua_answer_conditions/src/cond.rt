//! The commands `cond` and `nu`.

ghost use Rattle.std.specs.Prelude.{◌≡◌, IfOk};
ghost use Rattle.ua_cond.specs.Permitted.{MayDecide};
ghost use Rattle.ua_reply.specs.Sessions.{run_bounds};
ghost use Rattle.ua_reply.specs.Checks.{AreFirst, Passes};
ghost use Rattle.ua_identity.specs.Conditions.{near_unanimity};
ghost use Rattle.ua_answer_conditions.specs.CondCommand.{condition_of, nu_checks, CondReply, NuReply};

use std::alloc::{AllocError, Global};
use std::thread::Threads;
use ua_close::{Answer, CloseError};
use ua_cond::decide;
use ua_identity::Condition;
use ua_identity::limits::{NEAR_UNANIMITY, PLACES};
use ua_reply::{Context, FirstErrors, Known, Refusal, member_reply, refusal_reply};
use ua_script::{CondWord, Number, Word};
use ua_table::Gate;

/// The condition of this word.
fn condition(alloc: Global, name: CondWord) -> Result<Condition, AllocError>
    ensures { IfOk result (λ c. c ≡ condition_of name) }
{
    match name {
        CondWord::Maltsev => Condition::maltsev(alloc),
        CondWord::Majority => Condition::majority(alloc),
        CondWord::Minority => Condition::minority(alloc),
        CondWord::Pixley => Condition::pixley(alloc),
    }
}

/// Whether some term meets the condition of this word.
pub fn decide_named<R: Threads + Sync, G: Gate>(
    context: &Context<R, G>,
    known: &Known,
    name: CondWord,
) -> Result<Answer, CloseError>
    ensures { MayDecide known.now.algebra (condition_of name) context.now.run.now.budget context.now.run.now.workers result }
{
    let condition = condition(context.alloc, name)?;
    decide(
        context.rt,
        context.alloc,
        known.algebra(),
        &condition,
        context.run,
    )
}

/// The reply to `cond`: its error, or whether some term meets the condition.
pub fn answer_cond<R: Threads + Sync, G: Gate>(
    context: &Context<R, G>,
    algebra: &Word,
    name: CondWord,
) -> Result<Vec<u8>, AllocError>
    ensures { IfOk result (λ v. CondReply context.now.session.now (run_bounds context.now) algebra.now name v.items) }
{
    let Some(known) = context.session.find(algebra.name.text()) else {
        return refusal_reply(context.alloc, Refusal::Unknown(algebra.place));
    };
    let answer = decide_named(context, known, name);
    member_reply(context.alloc, known, context.run.budget, &answer)
}

/// Whether there are as many variables as a near-unanimity term may have.
pub fn variables_of(k: Number) -> FirstErrors
    ensures { AreFirst (nu_checks k) result }
{
    let mut errors = FirstErrors::none();
    if k.value < u32::from(NEAR_UNANIMITY) || k.value > u32::from(PLACES) {
        errors.range = Some(k.place);
    }
    errors
}

/// Whether there is a near-unanimity term in so many variables.
pub fn near_unanimous<R: Threads + Sync, G: Gate>(
    context: &Context<R, G>,
    known: &Known,
    k: Number,
) -> Result<Answer, CloseError>
    requires { Passes (nu_checks k) }
    ensures { MayDecide known.now.algebra (near_unanimity k.value) context.now.run.now.budget context.now.run.now.workers result }
{
    let condition = Condition::nu(context.alloc, k.value as u8)?;
    decide(
        context.rt,
        context.alloc,
        known.algebra(),
        &condition,
        context.run,
    )
}

/// The reply to `nu`: the first of its errors, or whether there is a near-unanimity term.
pub fn answer_nu<R: Threads + Sync, G: Gate>(
    context: &Context<R, G>,
    algebra: &Word,
    k: Number,
) -> Result<Vec<u8>, AllocError>
    ensures { IfOk result (λ v. NuReply context.now.session.now (run_bounds context.now) algebra.now k v.items) }
{
    let Some(known) = context.session.find(algebra.name.text()) else {
        return refusal_reply(context.alloc, Refusal::Unknown(algebra.place));
    };
    if let Some(refusal) = variables_of(k).refusal() {
        return refusal_reply(context.alloc, refusal);
    }
    let answer = near_unanimous(context, known, k);
    member_reply(context.alloc, known, context.run.budget, &answer)
}
