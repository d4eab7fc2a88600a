//! Questions, the commands that `cert` may precede: what they are answered, with a certificate or by themselves.

ghost use Rattle.std.specs.Prelude.{◌≡◌, IfOk};
ghost use Rattle.ua_reply.specs.Sessions.{run_bounds};
ghost use Rattle.ua_reply.specs.Checks.{AreFirst, Passes};
ghost use Rattle.ua_cert.specs.declared.certs.CondName.{CondName};
ghost use Rattle.ua_answer_conditions.specs.CondCommand.{nu_checks};
ghost use Rattle.ua_answer.specs.Certificates.{CertifiedCondition};
ghost use Rattle.ua_answer.specs.inner.Questions.{HasFewVectors};
ghost use Rattle.ua_answer.specs.Questions.{algebra_of, question_checks, name_of, QuestionReply, Certified, CertReply, AskedReply};

use crate::certificates::{
    certified_chain, certified_closure, certified_condition, certified_membership,
};
use std::alloc::AllocError;
use std::thread::Threads;
use ua_answer_algebras::{answer_close, answer_member};
use ua_answer_conditions::{
    answer_chain, answer_cond, answer_nu, chain, decide_named, near_unanimous, variables_of,
};
use ua_cert::{ChainName, CondName};
use ua_chain::NamedKind;
use ua_reply::{
    Context, FirstErrors, Known, Refusal, positive, refusal_reply, vector_in, vectors_in,
};
use ua_script::{CondWord, Mode, Number, Provable, Word};
use ua_table::Gate;

/// The reply to a question by itself.
fn answer_question<R: Threads + Sync, G: Gate>(
    context: &Context<R, G>,
    what: &Provable,
    mode: Mode,
) -> Result<Vec<u8>, AllocError>
    requires { HasFewVectors what.now }
    ensures { IfOk result (λ v. QuestionReply context.now.session.now (run_bounds context.now) what.now mode v.items) }
{
    match what {
        Provable::Close {
            algebra,
            width,
            gens,
        } => answer_close(context, algebra, *width, gens.as_slice(), mode),
        Provable::Member {
            algebra,
            width,
            gens,
            target,
        } => answer_member(context, algebra, *width, gens.as_slice(), target),
        Provable::Cond { algebra, name } => answer_cond(context, algebra, *name),
        Provable::Nu { algebra, k } => answer_nu(context, algebra, *k),
        Provable::Jonsson { algebra } => answer_chain(context, algebra, NamedKind::Jonsson),
        Provable::Hm { algebra } => answer_chain(context, algebra, NamedKind::HagemannMitschke),
    }
}

/// The first error of a question, as the plain command tells it.
fn errors_of(known: &Known, what: &Provable) -> FirstErrors
    ensures { AreFirst (question_checks known.now what.now) result }
{
    match what {
        Provable::Close { width, gens, .. } => {
            positive(*width).and(vectors_in(known, width.value, gens.as_slice()))
        }
        Provable::Member {
            width,
            gens,
            target,
            ..
        } => positive(*width)
            .and(vectors_in(known, width.value, gens.as_slice()))
            .and(vector_in(known, width.value, target)),
        Provable::Nu { k, .. } => variables_of(*k),
        Provable::Cond { .. } | Provable::Jonsson { .. } | Provable::Hm { .. } => {
            FirstErrors::none()
        }
    }
}

/// The name of a condition in a certificate.
fn name_of(name: CondWord) -> CondName
    ensures { result ≡ name_of name }
{
    match name {
        CondWord::Maltsev => CondName::Maltsev,
        CondWord::Majority => CondName::Majority,
        CondWord::Minority => CondName::Minority,
        CondWord::Pixley => CondName::Pixley,
    }
}

/// The certificate of whether some term meets the condition of this word.
fn certified_named<R: Threads + Sync, G: Gate>(
    context: &Context<R, G>,
    known: &Known,
    name: CondWord,
) -> Result<Vec<u8>, AllocError>
    ensures { IfOk result (λ v. CertifiedCondition known.now (run_bounds context.now) (name_of name) 3 v.items) }
{
    let answer = decide_named(context, known, name);
    certified_condition(context, known, name_of(name), 3, answer)
}

/// The certificate of whether there is a near-unanimity term in so many variables.
fn certified_near_unanimity<R: Threads + Sync, G: Gate>(
    context: &Context<R, G>,
    known: &Known,
    k: Number,
) -> Result<Vec<u8>, AllocError>
    requires { Passes (nu_checks k) }
    ensures { IfOk result (λ v. CertifiedCondition known.now (run_bounds context.now) CondName.Nu k.value v.items) }
{
    let answer = near_unanimous(context, known, k);
    certified_condition(context, known, CondName::Nu, k.value, answer)
}

/// The certificate that a question asks for, where no operand fails.
fn certified_known<R: Threads + Sync, G: Gate>(
    context: &Context<R, G>,
    known: &Known,
    what: &Provable,
) -> Result<Vec<u8>, AllocError>
    requires few { HasFewVectors what.now }
    requires passed { Passes (question_checks known.now what.now) }
    ensures { IfOk result (λ v. Certified known.now (run_bounds context.now) what.now v.items) }
{
    match what {
        Provable::Close { width, gens, .. } => {
            certified_closure(context, known, *width, gens.as_slice())
        }
        Provable::Member {
            width,
            gens,
            target,
            ..
        } => certified_membership(context, known, *width, gens.as_slice(), target),
        Provable::Cond { name, .. } => certified_named(context, known, *name),
        Provable::Nu { k, .. } => certified_near_unanimity(context, known, *k),
        Provable::Jonsson { .. } => {
            let answer = chain(context, known, NamedKind::Jonsson);
            certified_chain(context, known, ChainName::Jonsson, answer)
        }
        Provable::Hm { .. } => {
            let answer = chain(context, known, NamedKind::HagemannMitschke);
            certified_chain(context, known, ChainName::Hm, answer)
        }
    }
}

/// The algebra that a question is about.
fn algebra_of(what: &Provable) -> &Word
    ensures { result.now ≡ algebra_of what.now }
{
    match what {
        Provable::Close { algebra, .. }
        | Provable::Member { algebra, .. }
        | Provable::Cond { algebra, .. }
        | Provable::Nu { algebra, .. }
        | Provable::Jonsson { algebra }
        | Provable::Hm { algebra } => algebra,
    }
}

/// The reply to a question behind `cert`: the first error of the question, or a certificate of its answer.
fn answer_cert<R: Threads + Sync, G: Gate>(
    context: &Context<R, G>,
    what: &Provable,
) -> Result<Vec<u8>, AllocError>
    requires { HasFewVectors what.now }
    ensures { IfOk result (λ v. CertReply context.now.session.now (run_bounds context.now) what.now v.items) }
{
    let algebra = algebra_of(what);
    let Some(known) = context.session.find(algebra.name.text()) else {
        return refusal_reply(context.alloc, Refusal::Unknown(algebra.place));
    };
    if let Some(refusal) = errors_of(known, what).refusal() {
        return refusal_reply(context.alloc, refusal);
    }
    certified_known(context, known, what)
}

/// The reply to a question, with or without `cert` before it.
pub fn answer_asked<R: Threads + Sync, G: Gate>(
    context: &Context<R, G>,
    what: &Provable,
    mode: Mode,
    cert: bool,
) -> Result<Vec<u8>, AllocError>
    requires { HasFewVectors what.now }
    ensures { IfOk result (λ v. AskedReply context.now.session.now (run_bounds context.now) what.now mode cert v.items) }
{
    if cert {
        answer_cert(context, what)
    } else {
        answer_question(context, what, mode)
    }
}
