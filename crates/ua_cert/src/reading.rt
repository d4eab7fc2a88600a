//! What stands in the fields of certificates, read from JSON values.

ghost use Rattle.std.specs.Prelude.{◌≡◌, ℕ, List, ◌+◌, ◌<◌, ◌^◌, [], ◌∷◌, ◌++◌, length, OnOk};
ghost use Rattle.serde_json.specs.Data.{Data};
ghost use Rattle.serde_json.specs.View.{view, items_view};
ghost use Rattle.ua_cert.specs.declared.certs.CertStep.{CertStep};
ghost use Rattle.ua_cert.specs.declared.faults.FieldError.{FieldError};
ghost use Rattle.ua_cert.specs.Reading as reading;
ghost use Rattle.ua_cert.specs.inner.Reading.{Reads};

use crate::certs::{CertStep, Text};
use crate::faults::FieldError;
use crate::paths::{both, index_path, under};
use serde_json::Value;
use std::alloc::{AllocError, Global};
use ua_table::Listed;

/// What can be read from a JSON value.
pub(crate) trait Readable: Sized {
    ghost reads: { Data → reading.Reading Self };

    fn read(alloc: Global, value: &Value) -> Result<Self, FieldError>
        ensures { Reads (reads (view value.now)) result };
}

/// A fault of shape here.
pub(crate) fn misshapen(alloc: Global) -> FieldError
    ensures { result ≡ FieldError.Shape [] }
{
    FieldError::Shape(Listed::new(Vec::new(alloc)))
}

impl Readable for u32 {
    ghost reads = { reading.number_of };

    fn read(alloc: Global, value: &Value) -> Result<u32, FieldError> {
        let Some(number) = value.as_number() else {
            return Err(misshapen(alloc));
        };
        match number.as_u64() {
            Some(n) if n <= u64::from(u32::MAX) => Ok(n as u32),
            _ => Err(FieldError::Range(Listed::new(Vec::new(alloc)))),
        }
    }
}

impl Readable for Text {
    ghost reads = { reading.text_of };

    fn read(alloc: Global, value: &Value) -> Result<Text, FieldError> {
        let Some(text) = value.as_str() else {
            return Err(misshapen(alloc));
        };
        Ok(Text::new(String::from_str(alloc, text)?))
    }
}

/// What the items of a list are read as, of which the first has this number.
fn items<T: Readable + Drop>(
    alloc: Global,
    values: &[Value],
    first: usize,
) -> Result<Listed<T>, FieldError>
    requires { first + length values.now < 2 ^ 64 }
    ensures { Reads (reading.items_from T.reads first (items_view values.now)) result }
{
    let mut list = Vec::new(alloc);
    let mut range: Option<Listed<u8>> = None;
    for (i, value) in values.iter().enumerate() {
        match item(alloc, value, first + i) {
            Ok(x) => keep(&mut list, x)?,
            Err(FieldError::Range(path)) => {
                if range.is_none() {
                    range = Some(path);
                }
            }
            Err(fault) => return Err(fault),
        }
    }
    match range {
        None => Ok(Listed::new(list)),
        Some(path) => Err(FieldError::Range(path)),
    }
}

/// What an item of a list is read as, at the path of its number.
fn item<T: Readable + Drop>(alloc: Global, value: &Value, i: usize) -> Result<T, FieldError>
    ensures { Reads (reading.under (reading.index_path i) (T.reads (view value.now))) result }
{
    let path = index_path(alloc, i)?;
    under(alloc, path.as_slice(), T::read(alloc, value))
}

/// Appends an item.
fn keep<T: Drop>(list: &mut Vec<T>, x: T) -> Result<(), AllocError>
    ensures { OnOk result (list.new.items ≡ list.old.items ++ x ∷ []) }
{
    list.push(x)?;
    Ok(())
}

impl<T: Readable + Drop> Readable for Listed<T> {
    ghost reads = { reading.list_of T.reads };

    fn read(alloc: Global, value: &Value) -> Result<Listed<T>, FieldError> {
        let Some(values) = value.as_array() else {
            return Err(misshapen(alloc));
        };
        items(alloc, values.as_slice(), 0)
    }
}

/// The text before the numbers of a step.
fn first_word(alloc: Global, value: &Value) -> Result<Text, FieldError>
    ensures { Reads (reading.under (reading.index_path 0) (reading.text_of (view value.now))) result }
{
    item(alloc, value, 0)
}

/// The step of a text and numbers.
fn step(read: Result<(Text, Listed<u32>), FieldError>) -> Result<CertStep, FieldError>
    ensures { (want : reading.Reading (List ℕ × List ℕ)) → Reads want read → Reads (reading.mapped reading.step want) result }
{
    let (word, args) = read?;
    Ok(CertStep { word, args })
}

/// What the items of a step are read as.
fn step_of(alloc: Global, values: &[Value]) -> Result<CertStep, FieldError>
    ensures { Reads (reading.step_from (items_view values.now)) result }
{
    match values {
        [] => Err(misshapen(alloc)),
        [first, rest @ ..] => {
            let word = first_word(alloc, first);
            let args = items(alloc, rest, 1);
            step(both(word, args))
        }
    }
}

impl Readable for CertStep {
    ghost reads = { reading.step_of };

    fn read(alloc: Global, value: &Value) -> Result<CertStep, FieldError> {
        let Some(values) = value.as_array() else {
            return Err(misshapen(alloc));
        };
        step_of(alloc, values.as_slice())
    }
}
