//! Certificates read from text.

ghost use Rattle.std.specs.Prelude.{◌≡◌, ◌⊎◌, ℕ, Some, Err, Vec, length, option_map, IfOk, IfErr, IsTrue};
ghost use Rattle.std.specs.List.{AllByRecursion};
ghost use Rattle.std.specs.Str.{IsUtf8};
ghost use Rattle.std.specs.declared.alloc.Global.{Global};
ghost use Rattle.serde_json.specs.View.{view, members_view};
ghost use Rattle.serde_json.specs.Read.{read as read_text};
ghost use Rattle.serde_json.specs.Errors.{IsMemory};
ghost use Rattle.ua_cert.specs.declared.faults.CertError.{CertError};
ghost use Rattle.ua_cert.specs.Lengths.{HasShortLists, HasListsBelow, IsShort};
ghost use Rattle.ua_cert.specs.Reading.{keys_of, first_unlike};
ghost use Rattle.ua_cert.specs.inner.Reading.{Reads};
ghost use Rattle.ua_cert.specs.Certificates as certificates;

use crate::certificates::certificate;
use crate::certs::{Cert, CertStep};
use crate::faults::{CertError, FieldError};
use crate::fields::{field, first_unlike, keys_of};
use crate::kinds::{Kind, keys_for};
use crate::reading::misshapen;
use serde_json::{Category, Error, Map, Value};
use std::alloc::{AllocError, Global};
use ua_table::Listed;

/// The first key that is missing or unknown, of a certificate of this kind.
fn unlike_key(
    alloc: Global,
    object: &Map<String, Value>,
    kind: Kind,
) -> Result<Option<Vec<u8>>, AllocError>
    ensures { IfOk result (λ key. option_map (λ (k : Vec ℕ Global). k.items) key ≡ first_unlike (certificates.keys_for kind) (keys_of (members_view object.now.entries))) }
{
    let keys = keys_of(alloc, object)?;
    first_unlike(alloc, keys_for(kind), keys.as_slice())
}

/// The certificate that a JSON value is.
fn of_value(alloc: Global, value: &Value) -> Result<Cert, FieldError>
    ensures { Reads (certificates.cert_of (view value.now)) result }
{
    let Some(object) = value.as_object() else {
        return Err(misshapen(alloc));
    };
    let kind: Kind = field(alloc, value, "kind")?;
    if let Some(key) = unlike_key(alloc, object, kind)? {
        return Err(FieldError::Shape(Listed::new(key)));
    }
    certificate(alloc, kind, value)
}

/// Whether a text is no JSON, or there was no memory to read it.
fn json_fault(error: &Error) -> CertError
    ensures { ((result ≡ CertError.Json) × ¬ IsMemory error.now) ⊎ (result ≡ CertError.OutOfMemory) }
{
    match error.classify() {
        Category::Memory => CertError::OutOfMemory,
        _ => CertError::Json,
    }
}

/// The JSON value that a text writes.
fn value_of(alloc: Global, bytes: &[u8]) -> Result<Value, CertError>
    ensures ok { IfOk result (λ value. IsUtf8 bytes.now × (read_text bytes.now ≡ Some (view value))) }
    ensures err { IfErr result (λ e. certificates.TellsCert bytes.now (Err e)) }
{
    match Value::from_slice(alloc, bytes) {
        Ok(value) => Ok(value),
        Err(error) => Err(json_fault(&error)),
    }
}

/// Whether the items of a list can be numbered in 32 bits.
fn is_short<T>(list: &Listed<T>) -> bool
    ensures { IsTrue result → IsShort list.now }
{
    list.as_slice().len() <= u32::MAX as usize
}

/// Whether the items of each list can be numbered in 32 bits.
fn are_short(lists: &Listed<Listed<CertStep>>) -> bool
    ensures { IsTrue result → AllByRecursion IsShort lists.now }
{
    lists.as_slice().iter().all(|list| is_short(list))
}

/// Whether the items of the lists that a check walks through can be numbered in 32 bits. A list that is longer
/// does not stand in a text that fits any memory.
fn has_short_lists(cert: &Cert) -> bool
    ensures { IsTrue result → HasShortLists cert.now }
{
    match cert {
        Cert::Member { gens, steps, .. } => is_short(gens) && is_short(steps),
        Cert::NotMember { gens, rows, .. } => is_short(gens) && is_short(rows),
        Cert::Listing {
            gens,
            origins,
            ranks,
            rows,
            ..
        } => is_short(gens) && is_short(origins) && is_short(ranks) && is_short(rows),
        Cert::Condition { steps, .. } => is_short(steps),
        Cert::NoCondition { rows, .. } => is_short(rows),
        Cert::Chain { terms, .. } => is_short(terms) && are_short(terms),
        Cert::NoChain {
            rows,
            even,
            odd,
            ..
        } => is_short(rows) && is_short(even) && is_short(odd),
    }
}

/// The certificate that a text writes in JSON, with exactly the keys of its kind, in any order. What fails first
/// is told: the JSON, the kind, a key that is missing or unknown, the kind of a value, the range of a number;
/// each by ascending keys. Of a key that stands twice the last is taken.
pub fn read(alloc: Global, bytes: &[u8]) -> Result<Cert, CertError>
    ensures told { certificates.TellsCert bytes.now result }
    ensures short { IfOk result HasShortLists }
    ensures fewer { IfOk result (HasListsBelow (length bytes.now)) }
{
    let value = value_of(alloc, bytes)?;
    let cert = of_value(alloc, &value)?;
    if !has_short_lists(&cert) {
        return Err(CertError::OutOfMemory);
    }
    Ok(cert)
}
