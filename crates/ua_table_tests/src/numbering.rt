//! Worked numbers of units, slices and codes.

ghost use Rattle.std.specs.Prelude.{◌≡◌, ◌<◌, ◌≤◌, ◌*◌, length, sum};
ghost use Rattle.ua_table.specs.Numbering.{IsShape};

use crate::asked::{Call, digits};
use std::alloc::Global;
use std::test::Fail;
use ua_cases::{expect, number, part, put_word};
use ua_table::limits::{ARITY, OPERATIONS};
use ua_table::{Origin, Shape, Slice, Unit};

/// Which call of a shape is made.
pub(crate) enum Numbering {
    Unit,
    Tuple,
    Bound,
    Slice,
    Rows,
    Code,
    Records,
}

/// The arities of a text as `21`, or as `4*64` where all are the same.
fn arities(alloc: Global, text: &str) -> Result<Vec<u8>, Fail> {
    match text.split_once('*') {
        Some((arity, times)) => Ok(vec![in alloc; arity.parse()?; times.parse()?]?),
        None => Ok(digits(alloc, text)?),
    }
}

/// The shape of operations with these arities.
fn shape(alloc: Global, arities: &[u8]) -> Result<Shape, Fail> {
    let mut list = Vec::new(alloc);
    for k in arities {
        if *k > ARITY || list.len() == OPERATIONS {
            return Err(Fail::from("no shape"));
        }
        list.push(*k)?;
    }
    Ok(Shape::new(list))
}

/// A unit and how many tuples it has, where it exists.
fn unit(shape: &Shape, u: u64) -> Option<(Unit, u64)> {
    if u / 1_000_000 < shape.units() {
        return Some((shape.unit_of(u), shape.unit_size(u)));
    }
    None
}

/// The tuple, where the unit and the number exist.
fn tuple(shape: &Shape, u: u64, t: u64) -> Option<[u32; 4]> {
    let mut out = [9; 4];
    if u / 1_000_000 < shape.units() && t < shape.unit_size(u) {
        shape.tuple_at(u, t, &mut out);
        return Some(out);
    }
    None
}

fn bound(shape: &Shape, rows: u32) -> Option<u64> {
    if rows <= 1_000_000 && shape.fits(0, rows) {
        return Some(shape.bound(rows));
    }
    None
}

fn slice(shape: &Shape, rows: u32, s: u64) -> Option<Slice> {
    if rows <= 1_000_000 && shape.fits(0, rows) && s < shape.bound(rows) {
        return Some(shape.slice_of(rows, s));
    }
    None
}

/// How many tuples the slices of the rows below this number have, claimed one after another.
fn tuples_of_rows(shape: &Shape, rows: u32) -> Option<u64> {
    if rows <= 1_000_000 && shape.fits(0, rows) {
        let mut mark = shape.first_mark();
        let mut count: u64 = 0;
        for s in 0..shape.bound(rows) {
            let mut tuples = shape.claimed_slice(rows, &mut mark, s).tuples;
            while let Some(_tuple) = tuples.next() {
                count = count.saturating_add(1);
            }
        }
        return Some(count);
    }
    None
}

/// The origin of a code, and the code that it packs to.
fn unpack(shape: &Shape, gens: u32, budget: u32, code: u64) -> Option<(Origin, u64)> {
    if budget > 0 && budget <= 1_000_000 && shape.fits(gens, budget) {
        return match shape.unpack(gens, budget, code) {
            None => None,
            Some(o) => Some((o, shape.pack(gens, budget, &o))),
        };
    }
    None
}

/// How many codes there are, and whether they fit in a word.
fn records(shape: &Shape, gens: u32, budget: u32) -> Option<(u128, bool)> {
    if budget <= 1_000_000 {
        return Some((shape.records(gens, budget), shape.fits(gens, budget)));
    }
    None
}

fn put_unit(text: &mut String, found: Option<(Unit, u64)>) -> Result<(), Fail> {
    let (unit, tuples) = found.ok_or("no unit")?;
    write!(text, "{unit:?} {tuples}")?;
    Ok(())
}

fn put_entries(text: &mut String, entries: &[u32]) -> Result<(), Fail> {
    write!(text, "{entries:?}")?;
    Ok(())
}

fn put_tuple(text: &mut String, found: Option<[u32; 4]>) -> Result<(), Fail> {
    match found {
        None => put_word(text, "none"),
        Some(entries) => put_entries(text, &entries),
    }
}

fn put_slice(text: &mut String, found: Option<Slice>) -> Result<(), Fail> {
    let slice = found.ok_or("no slice")?;
    write!(text, "{slice:?}")?;
    Ok(())
}

/// An origin, and the code that it packs to.
fn put_code(text: &mut String, found: Option<(Origin, u64)>) -> Result<(), Fail> {
    let Some((origin, code)) = found else {
        return put_word(text, "none");
    };
    write!(text, "{origin:?} {code}")?;
    Ok(())
}

fn put_records(text: &mut String, found: Option<(u128, bool)>) -> Result<(), Fail> {
    let (count, fits) = found.ok_or("no numbers")?;
    write!(text, "{count} {fits}")?;
    Ok(())
}

fn put_count(text: &mut String, found: Option<u64>) -> Result<(), Fail> {
    let count = found.ok_or("no count")?;
    write!(text, "{count}")?;
    Ok(())
}

/// The number of a text at this place, of up to 64 bits.
fn long(text: &str, place: usize) -> Result<u64, Fail> {
    Ok(part(text, place).parse()?)
}

/// The origin of the code of a text as `2, 2, 10, 13`, and the code that it packs to.
fn code(shape: &Shape, asked: &str) -> Result<Option<(Origin, u64)>, Fail> {
    let gens = number(asked, 1)?;
    let budget = number(asked, 2)?;
    Ok(unpack(shape, gens, budget, long(asked, 3)?))
}

/// Makes a call of a shape, and puts its answer.
fn put_of_shape(
    which: &Numbering,
    shape: &Shape,
    asked: &str,
    text: &mut String,
) -> Result<(), Fail> {
    match which {
        Numbering::Unit => put_unit(text, unit(shape, long(asked, 1)?)),
        Numbering::Tuple => put_tuple(text, tuple(shape, long(asked, 1)?, long(asked, 2)?)),
        Numbering::Bound => put_count(text, bound(shape, number(asked, 1)?)),
        Numbering::Slice => put_slice(text, slice(shape, number(asked, 1)?, long(asked, 2)?)),
        Numbering::Rows => put_count(text, tuples_of_rows(shape, number(asked, 1)?)),
        Numbering::Code => put_code(text, code(shape, asked)?),
        Numbering::Records => put_records(
            text,
            records(shape, number(asked, 1)?, number(asked, 2)?),
        ),
    }
}

/// The same of the shape whose arities a text begins with.
pub(crate) fn put_numbered(
    alloc: Global,
    which: &Numbering,
    asked: &str,
    text: &mut String,
) -> Result<(), Fail> {
    let arities = arities(alloc, part(asked, 0))?;
    let shape = shape(alloc, arities.as_slice())?;
    put_of_shape(which, &shape, asked, text)
}

#[test]
fn units(rt: HostRuntime) -> Result<(), Fail> {
    let cases = "
        21, 1 => Unit { row: 0, op: 0, place: 1 } 0
        21, 3 => Unit { row: 1, op: 0, place: 0 } 2
        21, 4 => Unit { row: 1, op: 0, place: 1 } 1
        21, 5 => Unit { row: 1, op: 1, place: 0 } 1
        4*64, 255999996 => Unit { row: 999999, op: 63, place: 0 } 1000000000000000000
        4*64, 255999999 => Unit { row: 999999, op: 63, place: 3 } 999997000002999999";
    expect(rt.alloc(), &Call::Numbering(Numbering::Unit), cases)
}

#[test]
fn tuples(rt: HostRuntime) -> Result<(), Fail> {
    let cases = "
        21, 1, 0 => none
        21, 3, 0 => [1, 0, 0, 0]
        21, 3, 1 => [1, 1, 0, 0]
        21, 4, 0 => [0, 1, 0, 0]
        21, 5, 0 => [1, 0, 0, 0]
        3, 7, 1 => [0, 2, 1, 0]
        3, 7, 2 => [0, 2, 2, 0]
        3, 7, 3 => [1, 2, 0, 0]
        3, 7, 6 => none
        4*64, 255999996, 999999999999999999 => [999999, 999999, 999999, 999999]";
    expect(rt.alloc(), &Call::Numbering(Numbering::Tuple), cases)
}

#[test]
fn counts_of_slices(rt: HostRuntime) -> Result<(), Fail> {
    let cases = "
        2, 0 => 0
        2, 4096 => 8192
        2, 4097 => 8195
        2013, 3000 => 6605333
        00, 3000 => 0
        1, 1000000 => 1000000";
    expect(rt.alloc(), &Call::Numbering(Numbering::Bound), cases)
}

#[test]
fn slices(rt: HostRuntime) -> Result<(), Fail> {
    let cases = "
        2, 4097, 8191 => Slice { unit: 8191, from: 0, to: 4095 }
        2, 4097, 8192 => Slice { unit: 8192, from: 0, to: 4096 }
        2, 4097, 8193 => Slice { unit: 8192, from: 4096, to: 4097 }
        2, 4097, 8194 => Slice { unit: 8193, from: 0, to: 4096 }";
    expect(rt.alloc(), &Call::Numbering(Numbering::Slice), cases)
}

#[test]
fn all_tuples_of_some_rows(rt: HostRuntime) -> Result<(), Fail> {
    let cases = "
        3, 70 => 343000
        2041, 12 => 20892";
    expect(rt.alloc(), &Call::Numbering(Numbering::Rows), cases)
}

/// The code of an origin is the one that it is unpacked from.
#[test]
fn codes(rt: HostRuntime) -> Result<(), Fail> {
    let cases = "
        2, 2, 10, 0 => none
        2, 2, 10, 2 => Gen { index: 1 } 2
        2, 2, 10, 13 => Op { op: 0, args: [1, 0, 0, 0] } 13
        2, 2, 10, 102 => Op { op: 0, args: [9, 9, 0, 0] } 102
        2, 2, 10, 103 => none
        210, 0, 10, 110 => Op { op: 1, args: [9, 0, 0, 0] } 110
        210, 0, 10, 111 => none
        210, 0, 10, 201 => Op { op: 2, args: [0, 0, 0, 0] } 201
        210, 0, 10, 202 => none
        4*64, 5, 19483, 9221536638103649349 => Op { op: 63, args: [19482, 19482, 19482, 19482] } 9221536638103649349
        4*64, 5, 19483, 9221536638103649350 => none";
    expect(rt.alloc(), &Call::Numbering(Numbering::Code), cases)
}

#[test]
fn numbers_of_codes(rt: HostRuntime) -> Result<(), Fail> {
    let cases = "
        , 4294967295, 1000000 => 4294967296 true
        2, 2, 10 => 103 true
        4, 0, 1000000 => 1000000000000000000000001 false
        4, 4294967295, 55108 => 9222710983167656192 true
        4, 0, 55109 => 9223380425197538162 false
        4*64, 0, 19483 => 9221536638103649345 true
        4*64, 0, 19484 => 9223430031652962305 false
        3*9, 4294967295, 1000000 => 9000000004294967296 true
        3*10, 0, 1000000 => 10000000000000000001 false";
    expect(rt.alloc(), &Call::Numbering(Numbering::Records), cases)
}
