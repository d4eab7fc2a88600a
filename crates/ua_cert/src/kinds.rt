//! Kinds of certificates.

ghost use Rattle.std.specs.Prelude.{◌≡◌, map};
ghost use Rattle.ua_cert.specs.declared.kinds.Kind.{Kind};
ghost use Rattle.ua_cert.specs.Reading as reading;
ghost use Rattle.ua_cert.specs.inner.Reading.{Reads};
ghost use Rattle.ua_cert.specs.Certificates as certificates;
ghost use Rattle.ua_cert.specs.Writing as writing;

use crate::faults::FieldError;
use crate::reading::{Readable, misshapen};
use crate::writing::Writable;
use serde_json::Value;
use std::alloc::{AllocError, Global};

/// A kind of certificate.
#[derive(Clone, Copy)]
pub(crate) enum Kind {
    Member,
    NotMember,
    Listing,
    Condition,
    NoCondition,
    Chain,
    NoChain,
}

/// The kind of this name.
fn kind_named(alloc: Global, name: &[u8]) -> Result<Kind, FieldError>
    ensures { Reads (reading.named certificates.kind_names name.now) result }
{
    if name == b"member".as_slice() {
        return Ok(Kind::Member);
    }
    if name == b"not_member".as_slice() {
        return Ok(Kind::NotMember);
    }
    if name == b"listing".as_slice() {
        return Ok(Kind::Listing);
    }
    if name == b"condition".as_slice() {
        return Ok(Kind::Condition);
    }
    if name == b"no_condition".as_slice() {
        return Ok(Kind::NoCondition);
    }
    if name == b"chain".as_slice() {
        return Ok(Kind::Chain);
    }
    if name == b"no_chain".as_slice() {
        return Ok(Kind::NoChain);
    }
    Err(misshapen(alloc))
}

impl Readable for Kind {
    ghost reads = { certificates.kind_name };

    fn read(alloc: Global, value: &Value) -> Result<Kind, FieldError> {
        let Some(name) = value.as_str() else {
            return Err(misshapen(alloc));
        };
        kind_named(alloc, name.as_bytes())
    }
}

/// The name of a kind.
fn kind_text(kind: Kind) -> &'static str
    ensures { result.now ≡ certificates.kind_text kind }
{
    match kind {
        Kind::Member => "member",
        Kind::NotMember => "not_member",
        Kind::Listing => "listing",
        Kind::Condition => "condition",
        Kind::NoCondition => "no_condition",
        Kind::Chain => "chain",
        Kind::NoChain => "no_chain",
    }
}

impl Writable for Kind {
    ghost writes = { writing.kind_name };

    fn write(&self, alloc: Global) -> Result<Value, AllocError> {
        Value::try_from_str(alloc, kind_text(*self))
    }
}

/// The keys of a certificate of this kind, ascending.
pub(crate) fn keys_for(kind: Kind) -> &'static [&'static str]
    ensures { map (λ key. key.now) result.now ≡ certificates.keys_for kind }
{
    match kind {
        Kind::Member => &["gens", "kind", "steps", "target", "width"],
        Kind::NotMember => &["gens", "kind", "rows", "target", "width"],
        Kind::Listing => &["gens", "kind", "origins", "ranks", "rows", "width"],
        Kind::Condition => &["k", "kind", "name", "steps"],
        Kind::NoCondition => &["k", "kind", "name", "rows"],
        Kind::Chain => &["kind", "name", "terms"],
        Kind::NoChain => &["even", "kind", "name", "odd", "rows"],
    }
}
