//! Sums of vectors, which are told to be there.

ghost use Rattle.std.specs.Prelude.{◌≡◌, ◌+◌, ◌<◌, length, IfOk};
ghost use Rattle.ua_table.specs.Algebras.{arities};

use std::alloc::Global;
use std::process::Abort;
use std::test::Fail;
use ua_cases::number;
use ua_lanes::Lanes;
use ua_table::{Algebra, Elem, Frame, Name, OpTable, Shape};

/// The numbers below a size with the sums of two.
fn sums(alloc: Global, size: u32) -> Result<Algebra, Fail>
    requires some { 0 < size }
    requires small { size < 100 }
{
    let mut values = Vec::new(alloc);
    for number in 0..size * size {
        values.push(((number / size + number % size) % size) as Elem)?;
    }
    let sum = OpTable::new(Name::new(alloc, b"sum")?, size, 2, values)?;
    let mut ops = Vec::new(alloc);
    ops.push(sum)?;
    Ok(Algebra::new(Name::new(alloc, b"Z")?, size, ops)?)
}

/// The multiple of the vector 1, 2, 3, .. by a number, modulo a size.
fn multiple(alloc: Global, frame: &Frame, size: u32, number: u32) -> Result<Vec<Elem>, Fail>
    requires some { 0 < size }
    requires small { size < 100 }
{
    let mut v = Vec::new(alloc);
    for x in 0..frame.width() {
        v.push((u64::from(number) * u64::from(x + 1) % u64::from(size)) as Elem)?;
    }
    Ok(v)
}

/// Pushes so many of these multiples.
fn push_multiples(
    alloc: Global,
    lanes: &mut Lanes,
    frame: &Frame,
    size: u32,
    count: u32,
) -> Result<(), Fail>
    requires some { 0 < size }
    requires small { size < 100 }
    requires product { lanes.old.product ≡ frame.now }
    requires empty { length lanes.old.items ≡ 0 }
    ensures product { lanes.new.product ≡ frame.now }
    ensures all { IfOk result (λ _. length lanes.new.items ≡ count) }
{
    for number in 0..count {
        let v = multiple(alloc, frame, size, number)?;
        if !frame.admits(v.as_slice()) {
            return Err(Fail::from("no vector"));
        }
        lanes.reserve()?;
        lanes.push_reserved(v.as_slice());
    }
    Ok(())
}

/// How many sums of a vector with each of so many are known to be there, in either order.
fn count_known(rt: &impl Abort, lanes: &mut Lanes, shape: &Shape, row: u32, count: u32) -> u32
    requires shape { shape.now ≡ arities lanes.old.product }
    requires all { length lanes.old.items ≡ count }
    requires row { row < count }
{
    assert!(rt; !shape.arities().is_empty());
    assert!(rt; shape.arity(0) == 2);
    let mut known: u32 = 0;
    for number in 0..count {
        if number % 16 == 0 {
            let second = lanes.known(0, &[row, number, 0, 0], 1);
            let first = lanes.known(0, &[number, row, 0, 0], 0);
            known = known.wrapping_add(second.count_ones());
            known = known.wrapping_add(first.count_ones());
        }
    }
    known
}

/// Whether lanes tell of most sums of a vector with those that are there, and of none too many.
fn expect_most(
    rt: &impl Abort,
    alloc: Global,
    size: u32,
    width: u32,
    count: u32,
) -> Result<(), Fail>
    requires some { 0 < size }
    requires small { size < 100 }
    requires row { 0 < count }
{
    let algebra = sums(alloc, size)?;
    let frame = Frame::power(&algebra, width)?;
    let Some(mut lanes) = Lanes::new(alloc, &frame)? else {
        return Err(Fail::from("no lanes"));
    };
    push_multiples(alloc, &mut lanes, &frame, size, count)?;
    let shape = frame.shape(alloc)?;
    let known = count_known(rt, &mut lanes, &shape, count - 1, count);
    assert!(rt; known <= count.wrapping_mul(2));
    assert!(rt; known > count);
    Ok(())
}

/// The same of a text as `2, 5, 40`: the size, the width, and how many vectors there are.
fn expect_most_of(rt: &impl Abort, alloc: Global, asked: &str) -> Result<(), Fail> {
    let size = number(asked, 0)?;
    let width = number(asked, 1)?;
    let count = number(asked, 2)?;
    if size == 0 || size >= 100 || count == 0 {
        return Err("a number out of its limits".into());
    }
    expect_most(rt, alloc, size, width, count)
}

#[test]
fn most_sums_are_known(rt: HostRuntime) -> Result<(), Fail> {
    let cases = "
        2, 5, 40
        7, 16, 100
        16, 33, 45
        17, 5, 150
        33, 8, 90
        60, 64, 300
        64, 25, 200
        65, 25, 400";
    for line in cases.trim().lines() {
        expect_most_of(&rt, rt.alloc(), line)?;
    }
    Ok(())
}

/// Whether there are lanes for a power of the sums modulo a size.
fn has_lanes(alloc: Global, size: u32, width: u32) -> Result<bool, Fail>
    requires some { 0 < size }
    requires small { size < 100 }
{
    let algebra = sums(alloc, size)?;
    let frame = Frame::power(&algebra, width)?;
    Ok(Lanes::new(alloc, &frame)?.is_some())
}

#[test]
fn wide_frames_have_none(rt: HostRuntime) -> Result<(), Fail> {
    let narrow = has_lanes(rt.alloc(), 2, 4096)?;
    let wide = has_lanes(rt.alloc(), 2, 4097)?;
    let large = has_lanes(rt.alloc(), 20, 4097)?;
    assert!(rt; narrow && !wide && !large);
    Ok(())
}
