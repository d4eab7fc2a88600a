//! Certificates of each kind, written as JSON objects.

ghost use Rattle.std.specs.Prelude.{◌≡◌, Ok, IfOk, OnOk};
ghost use Rattle.serde_json.specs.Data.{put as with_member};
ghost use Rattle.serde_json.specs.View.{view, members_view};
ghost use Rattle.ua_cert.specs.declared.certs.Cert.TheVariants as cert;
ghost use Rattle.ua_cert.specs.Writing.{data_of};
ghost use Rattle.ua_cert.specs.inner.Writing.{IsReadBack};

use crate::certs::{Cert, CertStep, ChainName, CondName};
use crate::kinds::Kind;
use crate::writing::Writable;
use serde_json::{Map, Value};
use std::alloc::{AllocError, Global};
use ua_table::Listed;

type Numbers = Listed<u32>;

type Vectors = Listed<Listed<u32>>;

type Steps = Listed<CertStep>;

/// Puts the value of a field under its key.
fn put<T: Writable>(
    alloc: Global,
    object: &mut Map<String, Value>,
    key: &str,
    field: &T,
) -> Result<(), AllocError>
    ensures members { OnOk result (members_view object.new.entries ≡ with_member key.now (T.writes field.now) (members_view object.old.entries)) }
    ensures read_back { OnOk result (T.reads (T.writes field.now) ≡ Ok field.now) }
{
    let value = field.write(alloc)?;
    serde_json::put(object, alloc, key, value)
}

fn member(
    alloc: Global,
    gens: &Vectors,
    steps: &Steps,
    target: &Numbers,
    width: &u32,
) -> Result<Value, AllocError>
    ensures value { IfOk result (λ value. view value ≡ data_of (cert.Member gens.now steps.now target.now width.now)) }
    ensures read_back { IfOk result (λ _. IsReadBack (cert.Member gens.now steps.now target.now width.now)) }
{
    let mut object = Map::new(alloc);
    put(alloc, &mut object, "gens", gens)?;
    put(alloc, &mut object, "kind", &Kind::Member)?;
    put(alloc, &mut object, "steps", steps)?;
    put(alloc, &mut object, "target", target)?;
    put(alloc, &mut object, "width", width)?;
    Ok(Value::Object(object))
}

fn not_member(
    alloc: Global,
    gens: &Vectors,
    rows: &Vectors,
    target: &Numbers,
    width: &u32,
) -> Result<Value, AllocError>
    ensures value { IfOk result (λ value. view value ≡ data_of (cert.NotMember gens.now rows.now target.now width.now)) }
    ensures read_back { IfOk result (λ _. IsReadBack (cert.NotMember gens.now rows.now target.now width.now)) }
{
    let mut object = Map::new(alloc);
    put(alloc, &mut object, "gens", gens)?;
    put(alloc, &mut object, "kind", &Kind::NotMember)?;
    put(alloc, &mut object, "rows", rows)?;
    put(alloc, &mut object, "target", target)?;
    put(alloc, &mut object, "width", width)?;
    Ok(Value::Object(object))
}

fn listing(
    alloc: Global,
    gens: &Vectors,
    origins: &Steps,
    ranks: &Numbers,
    rows: &Vectors,
    width: &u32,
) -> Result<Value, AllocError>
    ensures value { IfOk result (λ value. view value ≡ data_of (cert.Listing gens.now origins.now ranks.now rows.now width.now)) }
    ensures read_back { IfOk result (λ _. IsReadBack (cert.Listing gens.now origins.now ranks.now rows.now width.now)) }
{
    let mut object = Map::new(alloc);
    put(alloc, &mut object, "gens", gens)?;
    put(alloc, &mut object, "kind", &Kind::Listing)?;
    put(alloc, &mut object, "origins", origins)?;
    put(alloc, &mut object, "ranks", ranks)?;
    put(alloc, &mut object, "rows", rows)?;
    put(alloc, &mut object, "width", width)?;
    Ok(Value::Object(object))
}

fn condition(alloc: Global, name: &CondName, k: &u32, steps: &Steps) -> Result<Value, AllocError>
    ensures value { IfOk result (λ value. view value ≡ data_of (cert.Condition name.now k.now steps.now)) }
    ensures read_back { IfOk result (λ _. IsReadBack (cert.Condition name.now k.now steps.now)) }
{
    let mut object = Map::new(alloc);
    put(alloc, &mut object, "k", k)?;
    put(alloc, &mut object, "kind", &Kind::Condition)?;
    put(alloc, &mut object, "name", name)?;
    put(alloc, &mut object, "steps", steps)?;
    Ok(Value::Object(object))
}

fn no_condition(
    alloc: Global,
    name: &CondName,
    k: &u32,
    rows: &Vectors,
) -> Result<Value, AllocError>
    ensures value { IfOk result (λ value. view value ≡ data_of (cert.NoCondition name.now k.now rows.now)) }
    ensures read_back { IfOk result (λ _. IsReadBack (cert.NoCondition name.now k.now rows.now)) }
{
    let mut object = Map::new(alloc);
    put(alloc, &mut object, "k", k)?;
    put(alloc, &mut object, "kind", &Kind::NoCondition)?;
    put(alloc, &mut object, "name", name)?;
    put(alloc, &mut object, "rows", rows)?;
    Ok(Value::Object(object))
}

fn chain(alloc: Global, name: &ChainName, terms: &Listed<Steps>) -> Result<Value, AllocError>
    ensures value { IfOk result (λ value. view value ≡ data_of (cert.Chain name.now terms.now)) }
    ensures read_back { IfOk result (λ _. IsReadBack (cert.Chain name.now terms.now)) }
{
    let mut object = Map::new(alloc);
    put(alloc, &mut object, "kind", &Kind::Chain)?;
    put(alloc, &mut object, "name", name)?;
    put(alloc, &mut object, "terms", terms)?;
    Ok(Value::Object(object))
}

fn no_chain(
    alloc: Global,
    name: &ChainName,
    rows: &Vectors,
    even: &Numbers,
    odd: &Numbers,
) -> Result<Value, AllocError>
    ensures value { IfOk result (λ value. view value ≡ data_of (cert.NoChain name.now rows.now even.now odd.now)) }
    ensures read_back { IfOk result (λ _. IsReadBack (cert.NoChain name.now rows.now even.now odd.now)) }
{
    let mut object = Map::new(alloc);
    put(alloc, &mut object, "even", even)?;
    put(alloc, &mut object, "kind", &Kind::NoChain)?;
    put(alloc, &mut object, "name", name)?;
    put(alloc, &mut object, "odd", odd)?;
    put(alloc, &mut object, "rows", rows)?;
    Ok(Value::Object(object))
}

/// The object that a certificate is written as.
pub(crate) fn object(alloc: Global, cert: &Cert) -> Result<Value, AllocError>
    ensures value { IfOk result (λ value. view value ≡ data_of cert.now) }
    ensures read_back { IfOk result (λ _. IsReadBack cert.now) }
{
    match cert {
        Cert::Member {
            gens,
            steps,
            target,
            width,
        } => member(alloc, gens, steps, target, width),
        Cert::NotMember {
            gens,
            rows,
            target,
            width,
        } => not_member(alloc, gens, rows, target, width),
        Cert::Listing {
            gens,
            origins,
            ranks,
            rows,
            width,
        } => listing(alloc, gens, origins, ranks, rows, width),
        Cert::Condition { name, k, steps } => condition(alloc, name, k, steps),
        Cert::NoCondition { name, k, rows } => no_condition(alloc, name, k, rows),
        Cert::Chain { name, terms } => chain(alloc, name, terms),
        Cert::NoChain {
            name,
            rows,
            even,
            odd,
        } => no_chain(alloc, name, rows, even, odd),
    }
}
