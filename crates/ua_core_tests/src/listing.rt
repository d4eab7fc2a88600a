//! Vectors pushed, found and read.

ghost use Rattle.std.specs.Prelude.{◌≡◌, IfOk};

use std::alloc::Global;
use std::process::Abort;
use std::test::Fail;
use ua_cases::number;
use ua_rows::Rows;
use ua_table::Elem;

/// The vector of a number: its digits, where this is the last one.
fn vector(alloc: Global, last: Elem, width: u32, number: u32) -> Result<Vec<Elem>, Fail> {
    let base = u32::from(last) + 1;
    let mut v = Vec::new(alloc);
    let mut rest = number;
    for _ in 0..width {
        v.push((rest % base) as Elem)?;
        rest /= base;
    }
    Ok(v)
}

/// The number of a new row, if the vector is not there yet.
fn entered(rows: &mut Rows, v: &[Elem]) -> Result<Option<u32>, Fail> {
    if v.len() != rows.width() as usize || rows.len() >= 1_000_000 || rows.find(v).is_some() {
        return Ok(None);
    }
    Ok(Some(rows.push(v)?))
}

/// Whether this row is read and found as this vector.
fn is_row(rows: &Rows, number: u32, v: &[Elem]) -> bool {
    number < rows.len()
        && v.len() == rows.width() as usize
        && rows.row(number) == v
        && rows.find(v) == Some(number)
}

/// Pushes the vector of a number.
fn expect_entered(
    rt: &impl Abort,
    alloc: Global,
    rows: &mut Rows,
    last: Elem,
    number: u32,
) -> Result<(), Fail> {
    let v = vector(alloc, last, rows.width(), number)?;
    let place = entered(rows, v.as_slice())?;
    assert_eq!(rt; place, Some(number));
    Ok(())
}

/// Reads and finds the vector of a number.
fn expect_row(
    rt: &impl Abort,
    alloc: Global,
    rows: &Rows,
    last: Elem,
    number: u32,
) -> Result<(), Fail> {
    let v = vector(alloc, last, rows.width(), number)?;
    let stands = is_row(rows, number, v.as_slice());
    assert!(rt; stands, "{number}");
    Ok(())
}

/// Pushes the vectors of the numbers below a count, and reads and finds each.
fn expect_listed(
    rt: &impl Abort,
    alloc: Global,
    last: Elem,
    width: u32,
    count: u32,
) -> Result<(), Fail> {
    let mut rows = Rows::new(alloc, width);
    for number in 0..count {
        expect_entered(rt, alloc, &mut rows, last, number)?;
    }
    for number in 0..count {
        expect_row(rt, alloc, &rows, last, number)?;
    }
    Ok(())
}

/// The same of a text as `250, 1, 251`: the last digit, the width, and how many vectors there are.
fn expect_listed_of(rt: &impl Abort, alloc: Global, asked: &str) -> Result<(), Fail> {
    let last = (number(asked, 0)? % 1000) as Elem;
    let width = number(asked, 1)?;
    let count = number(asked, 2)?;
    expect_listed(rt, alloc, last, width, count)
}

#[test]
fn many_rows_are_read_and_found(rt: HostRuntime) -> Result<(), Fail> {
    // A page of width 7 or 8 has 8,192 rows, of width 9 it has 4,096, then 128, and at last one.
    let cases = "
        250, 1, 251
        250, 7, 8200
        250, 8, 8200
        250, 9, 4100
        250, 512, 300
        250, 70000, 3";
    for line in cases.trim().lines() {
        expect_listed_of(&rt, rt.alloc(), line)?;
    }
    Ok(())
}

#[test]
fn rows_of_two_words_are_told_by_their_hashes(rt: HostRuntime) -> Result<(), Fail> {
    // All of them, or so many that the digits go up to the last one.
    let cases = "
        1, 5, 32
        2, 8, 6561
        6, 5, 16807
        14, 8, 20000
        15, 6, 20000
        16, 6, 20000";
    for line in cases.trim().lines() {
        expect_listed_of(&rt, rt.alloc(), line)?;
    }
    Ok(())
}

#[test]
fn a_million_rows_are_read_and_found(rt: HostRuntime) -> Result<(), Fail> {
    expect_listed(&rt, rt.alloc(), 250, 8, 1_000_000)
}

/// A list of two vectors of width 3.
fn two_vectors(alloc: Global) -> Result<Rows, Fail> {
    let mut rows = Rows::new(alloc, 3);
    rows.reserve()?;
    rows.push_reserved(&[4, 5, 6]);
    entered(&mut rows, &[4, 5, 7])?;
    Ok(rows)
}

/// Compares what is read in order with the two vectors.
fn expect_in_order(rt: &impl Abort, rows: &Rows) {
    let mut iter = rows.iter();
    let found = [iter.next(), iter.next(), iter.next()];
    let wanted = [Some([4, 5, 6].as_slice()), Some(&[4, 5, 7]), None];
    assert!(rt; found == wanted);
}

#[test]
fn rows_come_in_order(rt: HostRuntime) -> Result<(), Fail> {
    let rows = two_vectors(rt.alloc())?;
    expect_in_order(&rt, &rows);
    Ok(())
}

fn handed_over<T: Send>() {}

/// What one thread hands to another.
#[test]
fn types_of_threads() {
    handed_over::<Rows>();
}
