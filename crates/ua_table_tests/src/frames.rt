//! Powers and products of several algebras.

use crate::asked::{Call, digits, elements};
use crate::tables::operation;
use std::alloc::Global;
use std::test::Fail;
use ua_cases::{expect, number, part, put_flag, put_value_of};
use ua_table::{Algebra, Frame, FrameError, Name, OpTable};

/// Letters of algebras, each with its operation: unary on two and on five elements, binary on two, unary with another
/// name, and binary on three.
const TABLES: &str = "
    a = f, 2, 1, 0 0
    b = f, 5, 1, 0 0 0 0 0
    c = f, 2, 2, 0 0 0 0
    d = g, 2, 1, 0 0
    e = f, 3, 2, 0 0 0 0 0 0 0 0 0";

/// The operation of the algebra with this letter.
fn table(letter: u8) -> &'static str {
    for line in TABLES.lines() {
        if let Some((key, text)) = line.trim().split_once(" = ") {
            if key.as_bytes() == [letter].as_slice() {
                return text;
            }
        }
    }
    ""
}

/// The algebra with one operation.
fn algebra_of(alloc: Global, op: OpTable) -> Result<Algebra, Fail> {
    let size = op.size();
    let mut ops = Vec::new(alloc);
    ops.push(op)?;
    Ok(Algebra::new(Name::new(alloc, b"A")?, size, ops)?)
}

/// The algebra with this letter.
fn algebra(alloc: Global, letter: u8) -> Result<Algebra, Fail> {
    algebra_of(alloc, operation(alloc, table(letter))??)
}

/// The algebras with these letters.
fn algebras(alloc: Global, letters: &str) -> Result<Vec<Algebra>, Fail> {
    let mut algebras = Vec::new(alloc);
    for letter in letters.as_bytes() {
        algebras.push(algebra(alloc, *letter)?)?;
    }
    Ok(algebras)
}

/// The width of a frame, or why there is none.
fn put_frame(text: &mut String, made: Result<Frame, FrameError>) -> Result<(), Fail> {
    match made {
        Ok(frame) => put_value_of(text, &frame.width()),
        Err(error) => put_value_of(text, &error),
    }
}

/// The width of the power of an algebra, or why there is none.
pub(crate) fn put_power(alloc: Global, asked: &str, text: &mut String) -> Result<(), Fail> {
    let width = number(asked, 0)?;
    let algebra = algebra(alloc, b'e')?;
    put_frame(text, Frame::power(&algebra, width))
}

/// The product of algebras whose coordinates have these numbers, or why there is none.
fn product<'a>(
    alloc: Global,
    algebras: &'a [Algebra],
    coords: &str,
) -> Result<Result<Frame<'a>, FrameError>, Fail> {
    if algebras.len() >= 1 << 32 {
        return Err("too many".into());
    }
    Ok(Frame::mixed(algebras, digits(alloc, coords)?))
}

/// The width of the product of a text as `ab, 101`, or why there is none.
pub(crate) fn put_product(alloc: Global, asked: &str, text: &mut String) -> Result<(), Fail> {
    let algebras = algebras(alloc, part(asked, 0))?;
    let made = product(alloc, algebras.as_slice(), part(asked, 1))?;
    put_frame(text, made)
}

/// Whether the product of a text as `ab, 101, 4 1 0` admits the vector.
fn admits(alloc: Global, algebras: &[Algebra], asked: &str) -> Result<bool, Fail> {
    let v = elements(alloc, part(asked, 2))?;
    let frame = product(alloc, algebras, part(asked, 1))??;
    Ok(frame.admits(v.as_slice()))
}

/// Puts whether the product admits the vector.
pub(crate) fn put_admitted(alloc: Global, asked: &str, text: &mut String) -> Result<(), Fail> {
    let algebras = algebras(alloc, part(asked, 0))?;
    put_flag(text, admits(alloc, algebras.as_slice(), asked)?)
}

#[test]
fn powers(rt: HostRuntime) -> Result<(), Fail> {
    let cases = "
        0 => Width
        1 => 1
        67108864 => 67108864
        67108865 => Width";
    expect(rt.alloc(), &Call::Power, cases)
}

#[test]
fn vectors_of_products(rt: HostRuntime) -> Result<(), Fail> {
    let cases = "
        ab, 101, 4 1 0 => true
        ab, 101, 4 2 0 => false
        ab, 101, 5 1 0 => false
        ab, 101, 4 1 => false
        ab, 101, 4 1 0 0 => false";
    expect(rt.alloc(), &Call::Admits, cases)
}

#[test]
fn products_refused_in_order(rt: HostRuntime) -> Result<(), Fail> {
    let cases = "
        abcd, => Width
        abcd, 045 => Coordinate(1)
        , 0 => Coordinate(0)
        abcd, 01 => Signature(2)
        cd, 0 => Signature(1)
        ab, 01 => 2
        b, 0 => 1";
    expect(rt.alloc(), &Call::Product, cases)
}
