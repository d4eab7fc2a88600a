//! Names of conditions and of chains, read from JSON values and written.

ghost use Rattle.std.specs.Prelude.{◌≡◌};
ghost use Rattle.ua_cert.specs.declared.certs.CondName.{CondName};
ghost use Rattle.ua_cert.specs.declared.certs.ChainName.{ChainName};
ghost use Rattle.ua_cert.specs.Reading as reading;
ghost use Rattle.ua_cert.specs.inner.Reading.{Reads};
ghost use Rattle.ua_cert.specs.Writing as writing;

use crate::certs::{ChainName, CondName, Text};
use crate::faults::FieldError;
use crate::reading::{Readable, misshapen};
use crate::writing::Writable;
use serde_json::Value;
use std::alloc::{AllocError, Global};

/// The condition of this name.
fn condition(alloc: Global, name: &[u8]) -> Result<CondName, FieldError>
    ensures { Reads (reading.named reading.condition_names name.now) result }
{
    if name == b"maltsev".as_slice() {
        return Ok(CondName::Maltsev);
    }
    if name == b"majority".as_slice() {
        return Ok(CondName::Majority);
    }
    if name == b"minority".as_slice() {
        return Ok(CondName::Minority);
    }
    if name == b"pixley".as_slice() {
        return Ok(CondName::Pixley);
    }
    if name == b"nu".as_slice() {
        return Ok(CondName::Nu);
    }
    Err(misshapen(alloc))
}

/// The chains of this name.
fn chains(alloc: Global, name: &[u8]) -> Result<ChainName, FieldError>
    ensures { Reads (reading.named reading.chain_names name.now) result }
{
    if name == b"jonsson".as_slice() {
        return Ok(ChainName::Jonsson);
    }
    if name == b"hm".as_slice() {
        return Ok(ChainName::Hm);
    }
    Err(misshapen(alloc))
}

impl Readable for CondName {
    ghost reads = { reading.condition_name };

    fn read(alloc: Global, value: &Value) -> Result<CondName, FieldError> {
        let Some(name) = value.as_str() else {
            return Err(misshapen(alloc));
        };
        condition(alloc, name.as_bytes())
    }
}

impl Readable for ChainName {
    ghost reads = { reading.chain_name };

    fn read(alloc: Global, value: &Value) -> Result<ChainName, FieldError> {
        let Some(name) = value.as_str() else {
            return Err(misshapen(alloc));
        };
        chains(alloc, name.as_bytes())
    }
}

/// The name of a condition.
fn condition_text(name: CondName) -> &'static str
    ensures { result.now ≡ reading.condition_text name }
{
    match name {
        CondName::Maltsev => "maltsev",
        CondName::Majority => "majority",
        CondName::Minority => "minority",
        CondName::Pixley => "pixley",
        CondName::Nu => "nu",
    }
}

/// The name of a kind of chains.
fn chain_text(name: ChainName) -> &'static str
    ensures { result.now ≡ reading.chain_text name }
{
    match name {
        ChainName::Jonsson => "jonsson",
        ChainName::Hm => "hm",
    }
}

impl Writable for CondName {
    ghost writes = { writing.condition_name };

    fn write(&self, alloc: Global) -> Result<Value, AllocError> {
        Value::try_from_str(alloc, condition_text(*self))
    }
}

impl Writable for ChainName {
    ghost writes = { writing.chain_name };

    fn write(&self, alloc: Global) -> Result<Value, AllocError> {
        Value::try_from_str(alloc, chain_text(*self))
    }
}
