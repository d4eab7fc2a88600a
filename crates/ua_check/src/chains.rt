//! Certificates that terms are a chain.

ghost use Rattle.std.specs.Prelude.{◌≡◌, ◌<◌, ◌≤◌, ◌^◌, ◌==◌, length, map, slice_index_or, List, [], ◌∷◌, ◌++◌, IsOk, IfOk, OnOk};
ghost use Rattle.std.specs.List.{AllByRecursion, list_any};
ghost use Rattle.ua_table.specs.Algebras.{arities_of};
ghost use Rattle.ua_table.specs.Refusals.{first_refusal};
ghost use Rattle.ua_term.specs.Steps.{AreSteps, written_term};
ghost use Rattle.ua_identity.specs.KindTables.{link_of};
ghost use Rattle.ua_cert.specs.declared.certs.CertStep.{CertStep};
ghost use Rattle.ua_flaws.specs.Steps.{origins_of};
ghost use Rattle.ua_flaws.specs.Flaws.{Tells};
ghost use Rattle.ua_check.specs.Chains as chains;
ghost use Rattle.ua_check.specs.inner.Chains.{AreStepsWithin};

use crate::equations::{Side, first_failure, identity_failure};
use std::alloc::{AllocError, Global};
use ua_cert::{CertStep, ChainName};
use ua_flaws::laws::written;
use ua_flaws::steps::read_steps;
use ua_flaws::{CheckError, Flaw};
use ua_identity::{Kind, PatternPair, width_of};
use ua_table::limits::WIDTH;
use ua_table::{Algebra, Elem, Listed, Origin};

/// (x,y,z).
const XYZ: [u8; 3] = [0, 1, 2];

/// The kind of chain of this name.
pub(crate) fn named(alloc: Global, name: ChainName) -> Result<Kind, AllocError>
    ensures { IfOk result (λ kind. kind ≡ chains.kind_of name) }
{
    match name {
        ChainName::Jonsson => Kind::jonsson(alloc),
        ChainName::Hm => Kind::hagemann_mitschke(alloc),
    }
}

/// Whether the term that the steps write is always what stands at this of its three places.
fn is_place(a: &Algebra, steps: &[Origin], place: u8, values: &mut [Elem]) -> bool
    requires some { 0 < length steps.now }
    requires steps { AreSteps (arities_of a.now) 3 steps.now }
    requires place { place < 3 }
    requires room { length steps.now ≤ length values.old }
    ensures { result ≡ chains.satisfies a.now (chains.place_identity 3 place) (written_term (arities_of a.now) steps.now) }
{
    identity_failure(a, steps, 3, &XYZ, place, values).is_none()
}

/// Whether the term that the steps write satisfies what each term of a chain does.
fn is_own(a: &Algebra, kind: &Kind, steps: &[Origin], values: &mut [Elem]) -> bool
    requires three { kind.now.places ≡ 3 }
    requires some { 0 < length steps.now }
    requires steps { AreSteps (arities_of a.now) 3 steps.now }
    requires room { length steps.now ≤ length values.old }
    ensures { result ≡ chains.satisfies_all a.now kind.now.own (written_term (arities_of a.now) steps.now) }
{
    match kind.own() {
        Some(m) => {
            let pattern = &kind.patterns()[m];
            let variables = pattern.variables();
            let value = pattern.variable(0);
            identity_failure(a, steps, variables, pattern.places(), value, values).is_none()
        }
        None => true,
    }
}

/// Whether term i of so many is as it should be by itself.
fn is_fit(
    a: &Algebra,
    kind: &Kind,
    steps: &[Origin],
    i: usize,
    count: usize,
    values: &mut [Elem],
) -> bool
    requires three { kind.now.places ≡ 3 }
    requires some { 0 < length steps.now }
    requires steps { AreSteps (arities_of a.now) 3 steps.now }
    requires place { i < count }
    requires room { length steps.now ≤ length values.old }
    ensures { result ≡ chains.is_fit a.now kind.now count i (written_term (arities_of a.now) steps.now) }
{
    is_own(a, kind, steps, values)
        && (i != 0 || is_place(a, steps, 0, values))
        && (i + 1 != count || is_place(a, steps, kind.places() - 1, values))
}

/// The patterns of the link behind term i.
fn link_at(kind: &Kind, i: usize) -> PatternPair
    ensures link { chains.link_at kind.now i ≡ link_of kind.now.patterns result }
    ensures first { result.first < length kind.now.patterns }
    ensures second { result.second < length kind.now.patterns }
{
    if i % 2 == 0 { kind.even() } else { kind.odd() }
}

/// Whether the term at an index is linked to the next.
fn are_linked(
    a: &Algebra,
    kind: &Kind,
    steps: &[Origin],
    next: &[Origin],
    i: usize,
    values: &mut [Elem],
) -> bool
    requires three { kind.now.places ≡ 3 }
    requires some { 0 < length steps.now }
    requires steps { AreSteps (arities_of a.now) 3 steps.now }
    requires room { length steps.now ≤ length values.old }
    requires next_some { 0 < length next.now }
    requires next_steps { AreSteps (arities_of a.now) 3 next.now }
    requires next_room { length next.now ≤ length values.old }
    ensures { result ≡ chains.are_linked a.now (chains.link_at kind.now i) (written_term (arities_of a.now) steps.now) (written_term (arities_of a.now) next.now) }
{
    let link = link_at(kind, i);
    let first = &kind.patterns()[link.first];
    let second = &kind.patterns()[link.second];
    let left = Side {
        steps,
        places: first.places(),
    };
    let right = Side {
        steps: next,
        places: second.places(),
    };
    let variables = usize::from(first.variables());
    first_failure(a, &left, &right, variables, [0; 4], 0, values).is_none()
}

/// Whether term i is as it should be by itself, and is linked to the next.
fn is_in_chain(
    a: &Algebra,
    kind: &Kind,
    terms: &[Listed<Origin>],
    i: usize,
    values: &mut [Elem],
) -> bool
    requires three { kind.now.places ≡ 3 }
    requires place { i < length terms.now }
    requires terms { AllByRecursion (AreStepsWithin a.now (length values.old)) terms.now }
    ensures { result ≡ chains.is_in_chain a.now kind.now (map (written_term (arities_of a.now)) terms.now) i (written_term (arities_of a.now) (slice_index_or terms.now i [])) }
{
    let steps = terms[i].as_slice();
    if !is_fit(a, kind, steps, i, terms.len(), values) {
        return false;
    }
    i + 1 == terms.len() || are_linked(a, kind, steps, terms[i + 1].as_slice(), i, values)
}

/// The first term that is not as it should be, by itself or with the next.
fn links(
    a: &Algebra,
    kind: &Kind,
    terms: &[Listed<Origin>],
    values: &mut [Elem],
) -> Result<(), CheckError>
    requires three { kind.now.places ≡ 3 }
    requires few { length terms.now < 2 ^ 32 }
    requires terms { AllByRecursion (AreStepsWithin a.now (length values.old)) terms.now }
    ensures { Tells (chains.links_flaw a.now kind.now (map (written_term (arities_of a.now)) terms.now)) result }
{
    for i in 0..terms.len() {
        if !is_in_chain(a, kind, terms, i, values) {
            return Err(CheckError::Flaw(Flaw::Link(i as u32)));
        }
    }
    Ok(())
}

/// What the steps of the terms are, or the first that is none.
fn read_terms(
    alloc: Global,
    a: &Algebra,
    terms: &[Listed<CertStep>],
) -> Result<Vec<Listed<Origin>>, CheckError>
    requires few { length terms.now < 2 ^ 32 }
    requires each { AllByRecursion (λ (steps : List CertStep). length steps < 2 ^ 32) terms.now }
    ensures told { Tells (chains.terms_flaw a.now 3 terms.now) result }
    ensures read { IfOk result (λ list. list.items ≡ map (origins_of a.now) terms.now) }
{
    let mut list = Vec::with_capacity(alloc, terms.len())?;
    for (i, steps) in terms.iter().enumerate() {
        let steps = read_steps(alloc, a, 3, Some(i as u32), steps.as_slice())?;
        keep(&mut list, steps)?;
    }
    Ok(list)
}

/// Appends the steps of a term.
fn keep(list: &mut Vec<Listed<Origin>>, steps: Vec<Origin>) -> Result<(), AllocError>
    ensures { OnOk result (list.new.items ≡ list.old.items ++ steps.items ∷ []) }
{
    list.push(Listed::new(steps))?;
    Ok(())
}

/// The most steps that a term has.
fn most_steps(terms: &[Listed<CertStep>]) -> usize
    ensures { AllByRecursion (λ (steps : List CertStep). length steps ≤ result) terms.now }
{
    let mut most = 0;
    for steps in terms {
        most = steps.as_slice().len().max(most);
    }
    most
}

/// Whether there is a term without steps.
fn has_bare_term(terms: &[Listed<CertStep>]) -> bool
    ensures { result ≡ list_any (λ (steps : List CertStep). length steps == 0) terms.now }
{
    terms.iter().any(|steps| steps.as_slice().is_empty())
}

/// Whether there are no terms, or no steps of one.
fn is_without_term(terms: &[Listed<CertStep>]) -> bool
    ensures { result ≡ chains.is_without_term terms.now }
{
    terms.is_empty() || has_bare_term(terms)
}

/// The first flaw of a certificate that terms are a chain.
fn chain_flaws(
    alloc: Global,
    a: &Algebra,
    kind: &Kind,
    terms: &[Listed<CertStep>],
) -> Result<(), CheckError>
    requires three { kind.now.places ≡ 3 }
    requires few { length terms.now < 2 ^ 32 }
    requires each { AllByRecursion (λ (steps : List CertStep). length steps < 2 ^ 32) terms.now }
    ensures { Tells (first_refusal (chains.chain_lines a.now kind.now terms.now)) result }
{
    written();
    let patterns = kind.patterns();
    if width_of(a.size(), patterns) > u128::from(WIDTH) || is_without_term(terms) {
        return Err(CheckError::Flaw(Flaw::Width));
    }
    let list = read_terms(alloc, a, terms)?;
    let mut values = vec![in alloc; 0; most_steps(terms)]?;
    links(a, kind, list.as_slice(), values.as_mut_slice())
}

/// Checks a certificate that terms are a chain.
pub(crate) fn chain(
    alloc: Global,
    a: &Algebra,
    name: ChainName,
    terms: &Listed<Listed<CertStep>>,
) -> Result<(), CheckError>
    requires few { length terms.now < 2 ^ 32 }
    requires each { AllByRecursion (λ (steps : List CertStep). length steps < 2 ^ 32) terms.now }
    ensures told { Tells (chains.chain_flaw a.now name terms.now) result }
    ensures holds { IsOk result → chains.WritesChain a.now name terms.now }
{
    written();
    let kind = named(alloc, name)?;
    chain_flaws(alloc, a, &kind, terms.as_slice())
}
