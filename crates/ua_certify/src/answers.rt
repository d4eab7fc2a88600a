//! The certificate of each answer that can be certified. It has in it what was asked and what was answered, so
//! nothing is searched for and nothing is checked again. An answer beyond the budget has none.

ghost use Rattle.std.specs.Prelude.{◌≡◌, ◌≤◌, ℕ, true, Ok, IfOk};
ghost use Rattle.ua_table.specs.Algebras.{AreVectorsOf, power};
ghost use Rattle.ua_table.specs.Frames.{IsWidth};
ghost use Rattle.ua_close.specs.Answers.{Answers};
ghost use Rattle.ua_cond.specs.Permitted.{MayDecide};
ghost use Rattle.ua_chain.specs.Permitted.{MayChain};
ghost use Rattle.ua_check.specs.Conditions.{condition_of, has_places};
ghost use Rattle.ua_check.specs.Chains.{kind_of};
ghost use Rattle.ua_certify.specs.Certified as certified;

use crate::parts::{numbers, ranks, row_steps, rows, vectors, written_steps, written_terms};
use std::alloc::{AllocError, Global};
use ua_cert::{Cert, ChainName, CondName};
use ua_chain::Chain;
use ua_check::laws as term_laws;
use ua_close::laws::kinds;
use ua_close::{Answer, Closure, Listing};
use ua_flaws::laws as vector_laws;
use ua_identity::laws::{conditions, named, patterns};
use ua_table::{Algebra, Elem, Listed, Vectors};

/// The certificate of a closed listing: its rows, with ranks and origins.
fn listed(
    alloc: Global,
    a: &Algebra,
    width: u32,
    gens: &Vectors,
    listing: &Listing,
) -> Result<Cert, AllocError>
    ensures { IfOk result (λ cert. cert ≡ certified.listing_certificate a.now width gens.now.items listing.now) }
{
    Ok(Cert::Listing {
        gens: vectors(alloc, gens)?,
        origins: row_steps(alloc, a, listing)?,
        ranks: ranks(alloc, listing)?,
        rows: rows(alloc, listing)?,
        width,
    })
}

/// The certificate of a closure in the power of the algebra of this width.
pub fn certify_closure(
    alloc: Global,
    a: &Algebra,
    width: u32,
    gens: &Vectors,
    closure: &Closure,
) -> Result<Option<Cert>, AllocError>
    ensures certificate { IfOk result (λ cert. cert ≡ certified.closure_certificate a.now width gens.now.items closure.now) }
    ensures flawless { (b : ℕ) → IsWidth width → AreVectorsOf (power a.now width) gens.now.items → Answers (power a.now width) gens.now.items b closure.now → IfOk result (certified.HasNoFlaw a.now) }
{
    vector_laws::flawless();
    kinds();
    // What this call ensures is that the algebra is one: its operations have different names.
    let _size = a.size();
    match closure {
        Closure::Closed(rows) => Ok(Some(listed(alloc, a, width, gens, rows)?)),
        Closure::Exceeds(_) => Ok(None),
    }
}

/// The certificate of an answer on a vector in the power of the algebra of this width.
pub fn certify_membership(
    alloc: Global,
    a: &Algebra,
    width: u32,
    gens: &Vectors,
    target: &[Elem],
    answer: &Answer,
) -> Result<Option<Cert>, AllocError>
    ensures certificate { IfOk result (λ cert. cert ≡ certified.member_certificate a.now width gens.now.items target.now answer.now) }
    ensures flawless { (b : ℕ) → IsWidth width → AreVectorsOf (power a.now width) gens.now.items → IfOk result (certified.HasNoFlawIfTold a.now width gens.now.items target.now b answer.now) }
{
    vector_laws::flawless();
    kinds();
    let _size = a.size();
    match answer {
        Answer::Yes(steps) => Ok(Some(Cert::Member {
            gens: vectors(alloc, gens)?,
            steps: written_steps(alloc, a, steps.list())?,
            target: numbers(alloc, target)?,
            width,
        })),
        Answer::No(list) => Ok(Some(Cert::NotMember {
            gens: vectors(alloc, gens)?,
            rows: rows(alloc, list)?,
            target: numbers(alloc, target)?,
            width,
        })),
        Answer::Exceeds(_) => Ok(None),
    }
}

/// The certificate of an answer on a condition on terms of k places.
pub fn certify_condition(
    alloc: Global,
    a: &Algebra,
    name: CondName,
    k: u32,
    answer: &Answer,
) -> Result<Option<Cert>, AllocError>
    ensures certificate { IfOk result (λ cert. cert ≡ certified.condition_certificate a.now name k answer.now) }
    ensures flawless { (b w : ℕ) → 1 ≤ b → has_places name k ≡ true → MayDecide a.now (condition_of name k) b w (Ok answer.now) → IfOk result (certified.HasNoFlaw a.now) }
{
    term_laws::flawless();
    kinds();
    patterns();
    conditions();
    named();
    let _size = a.size();
    match answer {
        Answer::Yes(steps) => {
            let steps = written_steps(alloc, a, steps.list())?;
            Ok(Some(Cert::Condition { name, k, steps }))
        }
        Answer::No(list) => {
            let rows = rows(alloc, list)?;
            Ok(Some(Cert::NoCondition { name, k, rows }))
        }
        Answer::Exceeds(_) => Ok(None),
    }
}

/// The certificate of an answer on chains.
pub fn certify_chain(
    alloc: Global,
    a: &Algebra,
    name: ChainName,
    answer: &Chain,
) -> Result<Option<Cert>, AllocError>
    ensures certificate { IfOk result (λ cert. cert ≡ certified.chain_certificate a.now name answer.now) }
    ensures flawless { (b w : ℕ) → 1 ≤ b → MayChain a.now (kind_of name) b w (Ok answer.now) → IfOk result (certified.HasNoFlaw a.now) }
{
    term_laws::flawless();
    kinds();
    patterns();
    let _size = a.size();
    match answer {
        Chain::Yes(terms) => {
            let terms = written_terms(alloc, a, terms.as_slice())?;
            Ok(Some(Cert::Chain { name, terms }))
        }
        Chain::No { list, even, odd } => Ok(Some(Cert::NoChain {
            name,
            rows: rows(alloc, list)?,
            even: Listed::new(Vec::from_slice(alloc, even.as_slice())?),
            odd: Listed::new(Vec::from_slice(alloc, odd.as_slice())?),
        })),
        Chain::Exceeds(_) => Ok(None),
    }
}
