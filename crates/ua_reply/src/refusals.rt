//! Why a command is refused, and what is said of it.

ghost use Rattle.std.specs.Prelude.{◌≡◌, ◌<◌, ◌++◌, Some, IfOk, OnOk};
ghost use Rattle.ua_reply.specs.Texts.{line, place_text};
ghost use Rattle.ua_reply.specs.Refusals.{refusal_text, IsClashOf, clash_text, congruence_text};

use crate::known::Known;
use crate::texts::{push_place, push_tuple};
use std::alloc::{AllocError, Global};
use ua_part::push_number;
use ua_prod::Clash;
use ua_table::OpTable;
use ua_text::Place;

/// Why a command is refused.
#[derive(Clone, Copy, Debug, PartialEq, Eq)]
pub enum Refusal {
    /// A name that the session lacks.
    Unknown(Place),
    /// A number that is out of its range.
    Range(Place),
    /// An operand of another shape than is needed.
    Shape(Place),
    /// An algebra of another signature than the one before it.
    Signature(Place),
    /// A command that would make an algebra without elements, or beyond the limits.
    Size(Place),
    /// A set with more records or cells than the limits, and how many.
    Wide { records: u128, cells: u128 },
}

/// A line that ends with a place.
fn place_reply(alloc: Global, head: &[u8], place: Place) -> Result<Vec<u8>, AllocError>
    ensures { IfOk result (λ v. v.items ≡ line (head.now ++ place_text place)) }
{
    let mut out = Vec::from_slice(alloc, head)?;
    push_place(&mut out, place)?;
    out.push(b'\n')?;
    Ok(out)
}

/// What a refused command is told.
pub fn refusal_reply(alloc: Global, refusal: Refusal) -> Result<Vec<u8>, AllocError>
    ensures { IfOk result (λ v. v.items ≡ refusal_text refusal) }
{
    match refusal {
        Refusal::Unknown(place) => place_reply(alloc, b"error unknown ", place),
        Refusal::Range(place) => place_reply(alloc, b"error range ", place),
        Refusal::Shape(place) => place_reply(alloc, b"error shape ", place),
        Refusal::Signature(place) => place_reply(alloc, b"error signature ", place),
        Refusal::Size(place) => place_reply(alloc, b"error size ", place),
        Refusal::Wide { records, cells } => {
            let mut out = Vec::from_slice(alloc, b"error wide ")?;
            push_number(&mut out, records)?;
            out.push(b' ')?;
            push_number(&mut out, cells)?;
            out.push(b'\n')?;
            Ok(out)
        }
    }
}

/// Appends an operation, and the two tuples of a clash by their numbers.
fn push_clash(out: &mut Vec<u8>, table: &OpTable, clash: &Clash) -> Result<(), AllocError>
    requires { clash.now.place < table.now.arity }
    ensures { OnOk result (out.new.items ≡ out.old.items ++ clash_text (Some table.now) clash.now) }
{
    let arity = usize::from(table.arity());
    let mut other = clash.args;
    other[usize::from(clash.place)] = clash.other;
    out.extend_from_slice(table.name().text())?;
    out.push(b' ')?;
    push_tuple(out, &clash.args[..arity])?;
    out.push(b' ')?;
    push_tuple(out, &other[..arity])
}

/// What is told of a partition that is no congruence: its first clash, with the tuples by numbers.
pub fn congruence_reply(
    alloc: Global,
    known: &Known,
    place: Place,
    clash: &Clash,
) -> Result<Vec<u8>, AllocError>
    requires { IsClashOf known.now.algebra clash.now }
    ensures { IfOk result (λ v. v.items ≡ congruence_text known.now place clash.now) }
{
    let mut out = Vec::from_slice(alloc, b"error congruence ")?;
    push_place(&mut out, place)?;
    out.push(b' ')?;
    push_clash(&mut out, known.algebra().op(clash.op), clash)?;
    out.push(b'\n')?;
    Ok(out)
}
