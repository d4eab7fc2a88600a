//! What stands in the fields of certificates, written as JSON values.

ghost use Rattle.std.specs.Prelude.{◌≡◌, [], ◌∷◌, ◌++◌, Ok, map, IfOk, OnOk};
ghost use Rattle.std.specs.List.{AllByRecursion};
ghost use Rattle.serde_json.specs.Data.{Data, string};
ghost use Rattle.serde_json.specs.View.{view};
ghost use Rattle.ua_cert.specs.Writing as writing;

use crate::certs::{CertStep, Text};
use crate::reading::Readable;
use serde_json::Value;
use std::alloc::{AllocError, Global};
use ua_table::Listed;

/// What can be written as a JSON value, from which it is read again.
pub(crate) trait Writable: Readable {
    ghost writes: { Self → Data };

    fn write(&self, alloc: Global) -> Result<Value, AllocError>
        ensures value { IfOk result (λ value. view value ≡ writes self.now) }
        ensures read_back { IfOk result (λ _. Self.reads (writes self.now) ≡ Ok self.now) };
}

impl Writable for u32 {
    ghost writes = { writing.number };

    fn write(&self, _alloc: Global) -> Result<Value, AllocError> {
        Ok(Value::from(*self))
    }
}

impl Writable for Text {
    ghost writes = { string };

    fn write(&self, alloc: Global) -> Result<Value, AllocError> {
        Value::try_from_str(alloc, self.as_str())
    }
}

/// Appends the value of an item.
fn add<T: Writable>(alloc: Global, values: &mut Vec<Value>, item: &T) -> Result<(), AllocError>
    ensures values { OnOk result (map view values.new.items ≡ map view values.old.items ++ T.writes item.now ∷ []) }
    ensures read_back { OnOk result (T.reads (T.writes item.now) ≡ Ok item.now) }
{
    values.push(item.write(alloc)?)?;
    Ok(())
}

/// Appends the values of items.
fn add_all<T: Writable>(
    alloc: Global,
    values: &mut Vec<Value>,
    items: &[T],
) -> Result<(), AllocError>
    ensures values { OnOk result (map view values.new.items ≡ map view values.old.items ++ map T.writes items.now) }
    ensures read_back { OnOk result (AllByRecursion (λ x. T.reads (T.writes x) ≡ Ok x) items.now) }
{
    for item in items {
        add(alloc, values, item)?;
    }
    Ok(())
}

impl<T: Writable + Drop> Writable for Listed<T> {
    ghost writes = { writing.list T.writes };

    fn write(&self, alloc: Global) -> Result<Value, AllocError> {
        let items = self.as_slice();
        let mut values = Vec::with_capacity(alloc, items.len())?;
        add_all(alloc, &mut values, items)?;
        Ok(Value::Array(values))
    }
}

impl Writable for CertStep {
    ghost writes = { writing.step };

    fn write(&self, alloc: Global) -> Result<Value, AllocError> {
        let mut values = Vec::new(alloc);
        add(alloc, &mut values, &self.word)?;
        add_all(alloc, &mut values, self.args.as_slice())?;
        Ok(Value::Array(values))
    }
}
