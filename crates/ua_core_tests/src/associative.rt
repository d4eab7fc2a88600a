//! Operations that are associative, and others.

use std::alloc::Global;
use std::test::Fail;
use ua_bases::{is_associative, is_associative_table};
use ua_cases::{Asked, expect, number, part, put_flag};
use ua_table::{Algebra, Elem, Frame, Name, OpTable};

/// Whether an operation is associative: by its table, or as the one with a number in a power of its algebra.
enum Call {
    Table,
    Power,
}

impl Asked for Call {
    fn put_answer(&self, alloc: Global, text: &str, answer: &mut String) -> Result<(), Fail> {
        let table = table(alloc, text)?;
        match self {
            Call::Table => put_flag(answer, is_associative_table(&table)),
            Call::Power => put_flag(answer, associates_in_power(alloc, table, number(text, 3)?)?),
        }
    }
}

fn elements(alloc: Global, digits: &str) -> Result<Vec<Elem>, Fail> {
    let mut values = Vec::new(alloc);
    for digit in digits.as_bytes() {
        values.push(Elem::from(digit.saturating_sub(b'0')))?;
    }
    Ok(values)
}

/// The operation of a text as `2, 2, 0001`: its size, its arity and its values.
fn table(alloc: Global, text: &str) -> Result<OpTable, Fail> {
    let arity = part(text, 1).parse()?;
    let values = elements(alloc, part(text, 2))?;
    Ok(OpTable::new(Name::new(alloc, b"times")?, number(text, 0)?, arity, values)?)
}

/// Whether an operation is known to be associative in a power of an algebra that has this one alone.
fn associates_in_power(alloc: Global, table: OpTable, op: u32) -> Result<bool, Fail> {
    let size = table.size();
    let mut ops = Vec::new(alloc);
    ops.push(table)?;
    let algebra = Algebra::new(Name::new(alloc, b"A")?, size, ops)?;
    let frame = Frame::power(&algebra, 3)?;
    Ok(is_associative(&frame, op))
}

#[test]
fn semigroups(rt: HostRuntime) -> Result<(), Fail> {
    // A meet, a sum modulo 2, the first argument, the second one, a constant, a sum modulo 3.
    let cases = "
        2, 2, 0001 => true
        2, 2, 0110 => true
        2, 2, 0011 => true
        2, 2, 0101 => true
        2, 2, 1111 => true
        3, 2, 012120201 => true
        1, 2, 0 => true";
    expect(rt.alloc(), &Call::Table, cases)
}

#[test]
fn others(rt: HostRuntime) -> Result<(), Fail> {
    // An implication, a stroke, a difference modulo 3, rock, paper and scissors, and one argument.
    let cases = "
        2, 2, 1101 => false
        2, 2, 1110 => false
        3, 2, 021102210 => false
        3, 2, 010112022 => false
        2, 1, 10 => false";
    expect(rt.alloc(), &Call::Table, cases)
}

#[test]
fn in_powers(rt: HostRuntime) -> Result<(), Fail> {
    let cases = "
        2, 2, 0001, 0 => true
        2, 2, 1101, 0 => false
        2, 2, 0001, 1 => false";
    expect(rt.alloc(), &Call::Power, cases)
}
