//! Certificates of answers.

ghost use Rattle.std.specs.Prelude.{◌≡◌, ◌≤◌, true, length, IfOk};
ghost use Rattle.ua_table.specs.declared.limits.TheConstants.{SCRIPT};
ghost use Rattle.ua_chain.specs.Permitted.{MayChain};
ghost use Rattle.ua_cond.specs.Permitted.{MayDecide};
ghost use Rattle.ua_check.specs.Chains.{kind_of};
ghost use Rattle.ua_check.specs.Conditions.{condition_of, has_places};
ghost use Rattle.ua_reply.specs.Sessions.{run_bounds};
ghost use Rattle.ua_reply.specs.Checks.{Passes};
ghost use Rattle.ua_reply.specs.Operands.{positive, vector_in, vectors_in};
ghost use Rattle.ua_answer.specs.Certificates.{certificate_text, CertifiedClosure, CertifiedMembership, CertifiedCondition, CertifiedChain};

use std::alloc::{AllocError, Global};
use std::thread::Threads;
use ua_cert::{Cert, ChainName, CondName};
use ua_certify::{certify_chain, certify_closure, certify_condition, certify_membership};
use ua_chain::Chain;
use ua_close::{Answer, CloseError, close_set, member};
use ua_reply::{Context, Known, cause_reply, power, push_counted, vector, vectors};
use ua_script::{Items, Number};
use ua_table::Gate;

/// The line of a certificate, or that there are more members than the budget.
fn certificate_line(
    alloc: Global,
    budget: u32,
    certificate: Option<Cert>,
) -> Result<Vec<u8>, AllocError>
    ensures { IfOk result (λ v. v.items ≡ certificate_text budget certificate) }
{
    match certificate {
        None => {
            let mut out = Vec::new(alloc);
            push_counted(&mut out, b"exceeds", u128::from(budget))?;
            Ok(out)
        }
        Some(cert) => {
            let mut out = cert.write(alloc)?;
            out.push(b'\n')?;
            Ok(out)
        }
    }
}

/// The certificate of a closure in a power of the algebra.
pub fn certified_closure<R: Threads + Sync, G: Gate>(
    context: &Context<R, G>,
    known: &Known,
    width: Number,
    gens: &[Items],
) -> Result<Vec<u8>, AllocError>
    requires width { Passes (positive width) }
    requires gens { Passes (vectors_in known.now width.value gens.now) }
    requires few { length gens.now ≤ SCRIPT }
    ensures { IfOk result (λ v. CertifiedClosure known.now (run_bounds context.now) width gens.now v.items) }
{
    let alloc = context.alloc;
    let budget = context.run.budget;
    let vectors = vectors(alloc, known, width.value, gens)?;
    let frame = match power(known, width, &vectors, budget) {
        Ok(frame) => frame,
        Err(cause) => return cause_reply(alloc, cause),
    };
    // What this call ensures is that the power has so many coordinates.
    let _width = frame.width();
    let closure = match close_set(context.rt, alloc, &frame, &vectors, context.run) {
        Ok(closure) => closure,
        Err(cause) => return cause_reply(alloc, cause),
    };
    let algebra = known.algebra();
    let certificate = certify_closure(alloc, algebra, width.value, &vectors, &closure)?;
    certificate_line(alloc, budget, certificate)
}

/// The certificate of whether the target is generated in a power of the algebra.
pub fn certified_membership<R: Threads + Sync, G: Gate>(
    context: &Context<R, G>,
    known: &Known,
    width: Number,
    gens: &[Items],
    target: &Items,
) -> Result<Vec<u8>, AllocError>
    requires width { Passes (positive width) }
    requires gens { Passes (vectors_in known.now width.value gens.now) }
    requires target { Passes (vector_in known.now width.value target.now) }
    requires few { length gens.now ≤ SCRIPT }
    ensures { IfOk result (λ v. CertifiedMembership known.now (run_bounds context.now) width gens.now target.now v.items) }
{
    let alloc = context.alloc;
    let budget = context.run.budget;
    let vectors = vectors(alloc, known, width.value, gens)?;
    let entries = vector(alloc, known, width.value, target)?;
    let target = entries.as_slice();
    let frame = match power(known, width, &vectors, budget) {
        Ok(frame) => frame,
        Err(cause) => return cause_reply(alloc, cause),
    };
    let _width = frame.width();
    let answer = match member(context.rt, alloc, &frame, &vectors, target, context.run) {
        Ok(answer) => answer,
        Err(cause) => return cause_reply(alloc, cause),
    };
    let algebra = known.algebra();
    let certificate = certify_membership(alloc, algebra, width.value, &vectors, target, &answer)?;
    certificate_line(alloc, budget, certificate)
}

/// The certificate of whether some term with so many places meets the condition of this name, from the answer.
pub fn certified_condition<R: Threads + Sync, G: Gate>(
    context: &Context<R, G>,
    known: &Known,
    name: CondName,
    places: u32,
    answer: Result<Answer, CloseError>,
) -> Result<Vec<u8>, AllocError>
    requires places { has_places name places ≡ true }
    requires permitted { MayDecide known.now.algebra (condition_of name places) context.now.run.now.budget context.now.run.now.workers answer }
    ensures { IfOk result (λ v. CertifiedCondition known.now (run_bounds context.now) name places v.items) }
{
    let alloc = context.alloc;
    let answer = match answer {
        Ok(answer) => answer,
        Err(cause) => return cause_reply(alloc, cause),
    };
    let certificate = certify_condition(alloc, known.algebra(), name, places, &answer)?;
    certificate_line(alloc, context.run.budget, certificate)
}

/// The certificate of a least chain of this name, or of that there is none, from the answer.
pub fn certified_chain<R: Threads + Sync, G: Gate>(
    context: &Context<R, G>,
    known: &Known,
    name: ChainName,
    answer: Result<Chain, CloseError>,
) -> Result<Vec<u8>, AllocError>
    requires { MayChain known.now.algebra (kind_of name) context.now.run.now.budget context.now.run.now.workers answer }
    ensures { IfOk result (λ v. CertifiedChain known.now (run_bounds context.now) name v.items) }
{
    let alloc = context.alloc;
    let answer = match answer {
        Ok(answer) => answer,
        Err(cause) => return cause_reply(alloc, cause),
    };
    let certificate = certify_chain(alloc, known.algebra(), name, &answer)?;
    certificate_line(alloc, context.run.budget, certificate)
}
