//! Certificates of each kind, read from JSON objects.

ghost use Rattle.std.specs.Prelude.{ℕ, List};
ghost use Rattle.serde_json.specs.View.{view};
ghost use Rattle.ua_cert.specs.declared.certs.CertStep.{CertStep};
ghost use Rattle.ua_cert.specs.declared.certs.CondName.{CondName};
ghost use Rattle.ua_cert.specs.declared.certs.ChainName.{ChainName};
ghost use Rattle.ua_cert.specs.Reading.{Reading, mapped};
ghost use Rattle.ua_cert.specs.inner.Reading.{Reads};
ghost use Rattle.ua_cert.specs.Certificates as certificates;

use crate::certs::{Cert, CertStep, ChainName, CondName};
use crate::faults::FieldError;
use crate::fields::field;
use crate::kinds::Kind;
use crate::paths::both;
use serde_json::Value;
use std::alloc::Global;
use ua_table::Listed;

type Numbers = Listed<u32>;

type Vectors = Listed<Listed<u32>>;

type Steps = Listed<CertStep>;

/// The certificate of these fields.
fn member_with(
    read: Result<(Vectors, (Steps, (Numbers, u32))), FieldError>,
) -> Result<Cert, FieldError>
    ensures { (want : Reading (List (List ℕ) × (List CertStep × (List ℕ × ℕ)))) → Reads want read → Reads (mapped certificates.member_with want) result }
{
    let (gens, (steps, (target, width))) = read?;
    Ok(Cert::Member {
        gens,
        steps,
        target,
        width,
    })
}

fn member(alloc: Global, object: &Value) -> Result<Cert, FieldError>
    ensures { Reads (certificates.member_of (view object.now)) result }
{
    let gens = field(alloc, object, "gens");
    let steps = field(alloc, object, "steps");
    let target = field(alloc, object, "target");
    let width = field(alloc, object, "width");
    member_with(both(gens, both(steps, both(target, width))))
}

/// The certificate of these fields.
fn not_member_with(
    read: Result<(Vectors, (Vectors, (Numbers, u32))), FieldError>,
) -> Result<Cert, FieldError>
    ensures { (want : Reading (List (List ℕ) × (List (List ℕ) × (List ℕ × ℕ)))) → Reads want read → Reads (mapped certificates.not_member_with want) result }
{
    let (gens, (rows, (target, width))) = read?;
    Ok(Cert::NotMember {
        gens,
        rows,
        target,
        width,
    })
}

fn not_member(alloc: Global, object: &Value) -> Result<Cert, FieldError>
    ensures { Reads (certificates.not_member_of (view object.now)) result }
{
    let gens = field(alloc, object, "gens");
    let rows = field(alloc, object, "rows");
    let target = field(alloc, object, "target");
    let width = field(alloc, object, "width");
    not_member_with(both(gens, both(rows, both(target, width))))
}

/// The certificate of these fields.
fn listing_with(
    read: Result<(Vectors, (Steps, (Numbers, (Vectors, u32)))), FieldError>,
) -> Result<Cert, FieldError>
    ensures { (want : Reading (List (List ℕ) × (List CertStep × (List ℕ × (List (List ℕ) × ℕ))))) → Reads want read → Reads (mapped certificates.listing_with want) result }
{
    let (gens, (origins, (ranks, (rows, width)))) = read?;
    Ok(Cert::Listing {
        gens,
        origins,
        ranks,
        rows,
        width,
    })
}

fn listing(alloc: Global, object: &Value) -> Result<Cert, FieldError>
    ensures { Reads (certificates.listing_of (view object.now)) result }
{
    let gens = field(alloc, object, "gens");
    let origins = field(alloc, object, "origins");
    let ranks = field(alloc, object, "ranks");
    let rows = field(alloc, object, "rows");
    let width = field(alloc, object, "width");
    listing_with(both(gens, both(origins, both(ranks, both(rows, width)))))
}

/// The certificate of these fields.
fn condition_with(read: Result<(u32, (CondName, Steps)), FieldError>) -> Result<Cert, FieldError>
    ensures { (want : Reading (ℕ × (CondName × List CertStep))) → Reads want read → Reads (mapped certificates.condition_with want) result }
{
    let (k, (name, steps)) = read?;
    Ok(Cert::Condition { k, name, steps })
}

fn condition(alloc: Global, object: &Value) -> Result<Cert, FieldError>
    ensures { Reads (certificates.condition_of (view object.now)) result }
{
    let k = field(alloc, object, "k");
    let name = field(alloc, object, "name");
    let steps = field(alloc, object, "steps");
    condition_with(both(k, both(name, steps)))
}

/// The certificate of these fields.
fn no_condition_with(
    read: Result<(u32, (CondName, Vectors)), FieldError>,
) -> Result<Cert, FieldError>
    ensures { (want : Reading (ℕ × (CondName × List (List ℕ)))) → Reads want read → Reads (mapped certificates.no_condition_with want) result }
{
    let (k, (name, rows)) = read?;
    Ok(Cert::NoCondition { k, name, rows })
}

fn no_condition(alloc: Global, object: &Value) -> Result<Cert, FieldError>
    ensures { Reads (certificates.no_condition_of (view object.now)) result }
{
    let k = field(alloc, object, "k");
    let name = field(alloc, object, "name");
    let rows = field(alloc, object, "rows");
    no_condition_with(both(k, both(name, rows)))
}

/// The certificate of these fields.
fn chain_with(read: Result<(ChainName, Listed<Steps>), FieldError>) -> Result<Cert, FieldError>
    ensures { (want : Reading (ChainName × List (List CertStep))) → Reads want read → Reads (mapped certificates.chain_with want) result }
{
    let (name, terms) = read?;
    Ok(Cert::Chain { name, terms })
}

fn chain(alloc: Global, object: &Value) -> Result<Cert, FieldError>
    ensures { Reads (certificates.chain_of (view object.now)) result }
{
    let name = field(alloc, object, "name");
    let terms = field(alloc, object, "terms");
    chain_with(both(name, terms))
}

/// The certificate of these fields.
fn no_chain_with(
    read: Result<(Numbers, (ChainName, (Numbers, Vectors))), FieldError>,
) -> Result<Cert, FieldError>
    ensures { (want : Reading (List ℕ × (ChainName × (List ℕ × List (List ℕ))))) → Reads want read → Reads (mapped certificates.no_chain_with want) result }
{
    let (even, (name, (odd, rows))) = read?;
    Ok(Cert::NoChain {
        even,
        name,
        odd,
        rows,
    })
}

fn no_chain(alloc: Global, object: &Value) -> Result<Cert, FieldError>
    ensures { Reads (certificates.no_chain_of (view object.now)) result }
{
    let even = field(alloc, object, "even");
    let name = field(alloc, object, "name");
    let odd = field(alloc, object, "odd");
    let rows = field(alloc, object, "rows");
    no_chain_with(both(even, both(name, both(odd, rows))))
}

/// The certificate of this kind that the object is.
pub(crate) fn certificate(alloc: Global, kind: Kind, object: &Value) -> Result<Cert, FieldError>
    ensures { Reads (certificates.fields_of kind (view object.now)) result }
{
    match kind {
        Kind::Member => member(alloc, object),
        Kind::NotMember => not_member(alloc, object),
        Kind::Listing => listing(alloc, object),
        Kind::Condition => condition(alloc, object),
        Kind::NoCondition => no_condition(alloc, object),
        Kind::Chain => chain(alloc, object),
        Kind::NoChain => no_chain(alloc, object),
    }
}
