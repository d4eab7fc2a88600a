//! Certificates that a term meets a condition, or that none does.

ghost use Rattle.std.specs.Prelude.{◌≡◌, ◌<◌, ◌≤◌, ◌^◌, length, IsOk, IfOk, IsTrue};
ghost use Rattle.std.specs.List.{AllByRecursion};
ghost use Rattle.ua_table.specs.declared.limits.TheConstants.{WIDTH};
ghost use Rattle.ua_table.specs.Algebras.{arities_of};
ghost use Rattle.ua_table.specs.Refusals.{refusal_if};
ghost use Rattle.ua_term.specs.Steps.{AreSteps, written_term};
ghost use Rattle.ua_identity.specs.Identities.{TermIdentity};
ghost use Rattle.ua_identity.specs.Conditions.{IsCondition};
ghost use Rattle.ua_flaws.specs.declared.flaws.Flaw.TheVariants as flaw;
ghost use Rattle.ua_flaws.specs.Flaws.{Tells};
ghost use Rattle.ua_check.specs.Conditions as conditions;

use crate::equations::identity_failure;
use std::alloc::{AllocError, Global};
use ua_cert::{CertStep, CondName};
use ua_flaws::frames::frame_of;
use ua_flaws::laws::{generated, written};
use ua_flaws::outside::outside;
use ua_flaws::steps::read_steps;
use ua_flaws::vectors::vectors;
use ua_flaws::{CheckError, Flaw, ListName};
use ua_identity::limits::{NEAR_UNANIMITY, PLACES};
use ua_identity::{Condition, laws};
use ua_table::limits::WIDTH;
use ua_table::{Algebra, Elem, Listed, Origin, Vectors};

/// Whether the terms of which the condition speaks may have so many places.
fn has_places(name: CondName, k: u32) -> bool
    ensures { result ≡ conditions.has_places name k }
{
    match name {
        CondName::Nu => k >= u32::from(NEAR_UNANIMITY) && k <= u32::from(PLACES),
        CondName::Maltsev | CondName::Majority | CondName::Minority | CondName::Pixley => k == 3,
    }
}

/// The condition of this name.
fn named(alloc: Global, name: CondName, k: u32) -> Result<Condition, AllocError>
    requires { IsTrue (conditions.has_places name k) }
    ensures { IfOk result (λ c. c ≡ conditions.condition_of name k) }
{
    match name {
        CondName::Maltsev => Condition::maltsev(alloc),
        CondName::Majority => Condition::majority(alloc),
        CondName::Minority => Condition::minority(alloc),
        CondName::Pixley => Condition::pixley(alloc),
        CondName::Nu => Condition::nu(alloc, k as u8),
    }
}

/// The condition of this name, where its terms may have so many places and its vectors are not too wide.
fn condition_of(alloc: Global, a: &Algebra, name: CondName, k: u32) -> Result<Condition, CheckError>
    ensures told { Tells (refusal_if (conditions.is_no_condition a.now name k) flaw.Width) result }
    ensures condition { IfOk result (λ c. c ≡ conditions.condition_of name k) }
{
    if !has_places(name, k) {
        return Err(CheckError::Flaw(Flaw::Width));
    }
    let condition = named(alloc, name, k)?;
    if condition.width(a) > u128::from(WIDTH) {
        return Err(CheckError::Flaw(Flaw::Width));
    }
    Ok(condition)
}

/// The first identity over x and y that fails of the term that the steps write, and where.
fn identities(
    a: &Algebra,
    condition: &Condition,
    steps: &[Origin],
    values: &mut [Elem],
) -> Result<(), CheckError>
    requires some { 0 < length steps.now }
    requires steps { AreSteps (arities_of a.now) condition.now.arity steps.now }
    requires room { length steps.now ≤ length values.old }
    requires few { length condition.now.identities < 2 ^ 32 }
    requires two { AllByRecursion (λ (i : TermIdentity). i.pattern.variables ≡ 2) condition.now.identities }
    ensures { Tells (conditions.identities_flaw a.now condition.now.identities (written_term (arities_of a.now) steps.now)) result }
{
    for (i, identity) in condition.identities().iter().enumerate() {
        let pattern = identity.pattern();
        let variables = pattern.variables();
        let failure = identity_failure(
            a,
            steps,
            variables,
            pattern.places(),
            identity.value(),
            values,
        );
        if let Some(xs) = failure {
            return Err(CheckError::Flaw(Flaw::Identity {
                at: i as u32,
                x: u32::from(xs[0]),
                y: u32::from(xs[1]),
            }));
        }
    }
    Ok(())
}

/// The first flaw of a certificate that a term meets a condition.
fn condition_flaws(
    alloc: Global,
    a: &Algebra,
    name: CondName,
    k: u32,
    steps: &[CertStep],
) -> Result<(), CheckError>
    requires { length steps.now < 2 ^ 32 }
    ensures { Tells (conditions.condition_flaw a.now name k steps.now) result }
{
    written();
    let condition = condition_of(alloc, a, name, k)?;
    if steps.is_empty() {
        return Err(CheckError::Flaw(Flaw::Width));
    }
    let steps = read_steps(alloc, a, k, None, steps)?;
    let mut values = vec![in alloc; 0; steps.len()]?;
    identities(a, &condition, steps.as_slice(), values.as_mut_slice())
}

/// Checks a certificate that a term meets a condition.
pub(crate) fn condition(
    alloc: Global,
    a: &Algebra,
    name: CondName,
    k: u32,
    steps: &Listed<CertStep>,
) -> Result<(), CheckError>
    requires { length steps.now < 2 ^ 32 }
    ensures told { Tells (conditions.condition_flaw a.now name k steps.now) result }
    ensures holds { IsOk result → conditions.WritesTerm a.now name k steps.now }
{
    written();
    condition_flaws(alloc, a, name, k, steps.as_slice())
}

/// The first flaw of a certificate that no term meets a condition.
fn no_condition_flaws(
    alloc: Global,
    a: &Algebra,
    name: CondName,
    k: u32,
    rows: &[Listed<u32>],
) -> Result<(), CheckError>
    requires { length rows.now < 2 ^ 32 }
    ensures told { Tells (conditions.no_condition_flaw a.now name k rows.now) result }
    ensures condition { IsOk result → IsCondition (conditions.condition_of name k) }
{
    laws::conditions();
    let condition = condition_of(alloc, a, name, k)?;
    // What this call ensures is that the condition is within the limits.
    let _arity = condition.arity();
    let width = condition.width(a) as u32;
    vectors(a.size(), width, ListName::Rows, rows)?;
    let frame = frame_of(a, width)?;
    let gens = condition.argument_vectors(alloc, a)?;
    let target = condition.value_row(alloc, a)?;
    outside(alloc, a, &frame, &gens, rows, target.as_slice())
}

/// Checks a certificate that no term meets a condition.
pub(crate) fn no_condition(
    alloc: Global,
    a: &Algebra,
    name: CondName,
    k: u32,
    rows: &Listed<Listed<u32>>,
) -> Result<(), CheckError>
    requires { length rows.now < 2 ^ 32 }
    ensures told { Tells (conditions.no_condition_flaw a.now name k rows.now) result }
    ensures holds { IsOk result → conditions.HasNoTerm a.now name k }
{
    generated();
    laws::conditions();
    // What this call ensures is that the algebra has an element.
    let _size = a.size();
    no_condition_flaws(alloc, a, name, k, rows.as_slice())
}
