//! The fields of certificates, read from JSON objects.

ghost use Rattle.std.specs.Prelude.{◌≡◌, ℕ, Vec, map, option_map, string_bytes, IfOk};
ghost use Rattle.std.specs.declared.alloc.Global.{Global};
ghost use Rattle.std.specs.BTreeMap.{keys};
ghost use Rattle.serde_json.specs.View.{view};
ghost use Rattle.ua_cert.specs.Reading as reading;
ghost use Rattle.ua_cert.specs.inner.Reading.{Reads};

use crate::faults::FieldError;
use crate::paths::under;
use crate::reading::{Readable, misshapen};
use serde_json::{Map, Value};
use std::alloc::{AllocError, Global};
use std::cmp::Ordering;

/// What the field under a key is read as.
pub(crate) fn field<T: Readable + Drop>(
    alloc: Global,
    object: &Value,
    key: &str,
) -> Result<T, FieldError>
    ensures { Reads (reading.field T.reads key.now (view object.now)) result }
{
    let Some(value) = object.get(key) else {
        return under(alloc, key.as_bytes(), Err(misshapen(alloc)));
    };
    under(alloc, key.as_bytes(), T::read(alloc, value))
}

/// The keys of an object, in ascending order.
pub(crate) fn keys_of<'a>(
    alloc: Global,
    object: &'a Map<String, Value>,
) -> Result<Vec<&'a String>, AllocError>
    ensures { IfOk result (λ v. map (λ k. k.now) v.items ≡ keys object.now) }
{
    object.keys().collect(alloc)
}

/// The first key, in ascending order, that only one of two lists has.
pub(crate) fn first_unlike(
    alloc: Global,
    wanted: &[&str],
    keys: &[&String],
) -> Result<Option<Vec<u8>>, AllocError>
    ensures { IfOk result (λ key. option_map (λ (k : Vec ℕ Global). k.items) key ≡ reading.first_unlike (map (λ w. w.now) wanted.now) (map (λ k. string_bytes k.now) keys.now)) }
{
    match (wanted, keys) {
        ([], []) => Ok(None),
        ([], [key, ..]) => Ok(Some(Vec::from_slice(alloc, key.as_bytes())?)),
        ([key, ..], []) => Ok(Some(Vec::from_slice(alloc, key.as_bytes())?)),
        ([first, wanted @ ..], [second, keys @ ..]) => match first.cmp(&second.as_str()) {
            Ordering::Less => Ok(Some(Vec::from_slice(alloc, first.as_bytes())?)),
            Ordering::Equal => first_unlike(alloc, wanted, keys),
            Ordering::Greater => Ok(Some(Vec::from_slice(alloc, second.as_bytes())?)),
        },
    }
}
