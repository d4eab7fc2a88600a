//! The command `condition`.

ghost use Rattle.std.specs.Prelude.{◌≡◌, ◌<◌, ◌≤◌, max, length, map, fold, IfOk};
ghost use Rattle.std.specs.List.{AllByRecursion};
ghost use Rattle.ua_cond.specs.Permitted.{MayDecide};
ghost use Rattle.ua_reply.specs.Sessions.{run_bounds};
ghost use Rattle.ua_reply.specs.Checks.{AreFirst, Passes, all_in};
ghost use Rattle.ua_answer_conditions.specs.ConditionCommand.{number_of, numbers_in, variables_in, identity_of, condition_of, arity_in, identity_in, condition_checks, ConditionReply};

use std::alloc::{AllocError, Global};
use std::thread::Threads;
use ua_close::{Answer, CloseError};
use ua_cond::decide_rule;
use ua_identity::limits::PLACES;
use ua_identity::{Condition, Identity};
use ua_reply::{Context, FirstErrors, Known, Refusal, member_reply, refusal_reply};
use ua_script::{IdentityText, Number, Variable, Word};
use ua_table::Gate;

/// A variable by number.
fn number_of(v: Variable) -> u8
    ensures number { result ≡ number_of v }
    ensures small { result < 4 }
{
    match v {
        Variable::X => 0,
        Variable::Y => 1,
        Variable::Z => 2,
        Variable::W => 3,
    }
}

/// Whether a term has from 1 to `limits::PLACES` places.
fn arity_in(arity: Number) -> FirstErrors
    ensures { AreFirst (arity_in arity) result }
{
    let mut errors = FirstErrors::none();
    if arity.value < 1 || arity.value > u32::from(PLACES) {
        errors.range = Some(arity.place);
    }
    errors
}

/// Whether an identity fills so many places.
fn identity_in(arity: Number, identity: &IdentityText) -> FirstErrors
    ensures { AreFirst (identity_in arity identity.now) result }
{
    let mut errors = FirstErrors::none();
    if identity.args.as_slice().len() != arity.value as usize {
        errors.shape = Some(identity.place);
    }
    errors
}

/// Whether each identity fills so many places.
fn identities_in(arity: Number, identities: &[IdentityText]) -> FirstErrors
    ensures { AreFirst (all_in (identity_in arity) identities.now) result }
{
    let mut errors = FirstErrors::none();
    for identity in identities {
        errors = errors.and(identity_in(arity, identity));
    }
    errors
}

/// The greatest of this number and the variables of an identity.
fn greatest_in(greatest: u8, identity: &IdentityText) -> u8
    requires { greatest < 4 }
    ensures greatest { result ≡ fold max greatest (numbers_in identity.now) }
    ensures small { result < 4 }
{
    let mut greatest = greatest.max(number_of(identity.value));
    for v in identity.args.as_slice() {
        greatest = greatest.max(number_of(*v));
    }
    greatest
}

/// One more than the greatest variable.
fn variables_in(identities: &[IdentityText]) -> u8
    ensures variables { result ≡ variables_in identities.now }
    ensures small { result ≤ 4 }
{
    let mut greatest = 0;
    for identity in identities {
        greatest = greatest_in(greatest, identity);
    }
    greatest + 1
}

/// The variables at the places, by number.
fn places_of(alloc: Global, args: &[Variable]) -> Result<Vec<u8>, AllocError>
    ensures { IfOk result (λ places. places.items ≡ map number_of args.now) }
{
    let mut places = Vec::new(alloc);
    for v in args {
        places.push(number_of(*v))?;
    }
    Ok(places)
}

/// An identity over so many variables.
fn identity_of(
    alloc: Global,
    variables: u8,
    identity: &IdentityText,
) -> Result<Identity, AllocError>
    requires few { variables ≤ 4 }
    requires named { AllByRecursion (λ v. v < variables) (numbers_in identity.now) }
    ensures { IfOk result (λ i. i ≡ identity_of variables identity.now) }
{
    let places = places_of(alloc, identity.args.as_slice())?;
    let Some(made) = Identity::new(variables, places, number_of(identity.value)) else {
        unreachable!()
    };
    Ok(made)
}

/// The condition that is written, which passes its checks.
fn condition_of(
    alloc: Global,
    arity: Number,
    identities: &[IdentityText],
) -> Result<Condition, AllocError>
    requires checks { Passes (condition_checks arity identities.now) }
    requires some { 0 < length identities.now }
    ensures { IfOk result (λ c. c ≡ condition_of arity identities.now) }
{
    let variables = variables_in(identities);
    let mut made = Vec::new(alloc);
    for identity in identities {
        made.push(identity_of(alloc, variables, identity)?)?;
    }
    let Some(condition) = Condition::new(arity.value as u8, made) else {
        unreachable!()
    };
    Ok(condition)
}

/// Whether some term meets the condition that is written.
fn decided<R: Threads + Sync, G: Gate>(
    context: &Context<R, G>,
    known: &Known,
    arity: Number,
    identities: &[IdentityText],
) -> Result<Answer, CloseError>
    requires checks { Passes (condition_checks arity identities.now) }
    requires some { 0 < length identities.now }
    ensures { MayDecide known.now.algebra (condition_of arity identities.now) context.now.run.now.budget context.now.run.now.workers result }
{
    let condition = condition_of(context.alloc, arity, identities)?;
    decide_rule(
        context.rt,
        context.alloc,
        known.algebra(),
        &condition,
        context.run,
    )
}

/// The reply to `condition`: the first of its errors, or whether some term meets the condition.
pub fn answer_condition<R: Threads + Sync, G: Gate>(
    context: &Context<R, G>,
    algebra: &Word,
    arity: Number,
    identities: &[IdentityText],
) -> Result<Vec<u8>, AllocError>
    requires { 0 < length identities.now }
    ensures { IfOk result (λ v. ConditionReply context.now.session.now (run_bounds context.now) algebra.now arity identities.now v.items) }
{
    let Some(known) = context.session.find(algebra.name.text()) else {
        return refusal_reply(context.alloc, Refusal::Unknown(algebra.place));
    };
    let errors = arity_in(arity).and(identities_in(arity, identities));
    if let Some(refusal) = errors.refusal() {
        return refusal_reply(context.alloc, refusal);
    }
    let answer = decided(context, known, arity, identities);
    member_reply(context.alloc, known, context.run.budget, &answer)
}
