//! Operations whose values are sums.

ghost use Rattle.std.specs.Prelude.{◌≡◌, ◌<◌, length, slice_index, IfOk};
ghost use Rattle.std.specs.List.{AllByRecursion};
ghost use Rattle.ua_table.specs.Algebras.{IsVector, arities};

use std::alloc::Global;
use std::process::Abort;
use std::test::Fail;
use ua_rows::{Operations, Rows, Scratch, apply};
use ua_table::{Algebra, Elem, Frame, Name, OpTable};

/// The sum of so many numbers below a size, which are the digits of a number, and of how many they are.
fn sum_of(size: u32, arity: u8, number: u32) -> Elem
    requires some { 0 < size }
    requires small { size < 100 }
{
    let mut sum = u32::from(arity);
    let mut rest = number;
    for _ in 0..arity {
        sum = sum.wrapping_add(rest % size);
        rest /= size;
    }
    (sum % size) as Elem
}

/// These sums of all digits, in the order of their numbers.
fn sums_below(alloc: Global, size: u32, arity: u8) -> Result<Vec<Elem>, Fail>
    requires some { 0 < size }
    requires small { size < 100 }
{
    let count = size.checked_pow(u32::from(arity)).ok_or("too many")?;
    let mut values = Vec::new(alloc);
    for number in 0..count {
        values.push(sum_of(size, arity, number))?;
    }
    Ok(values)
}

/// The sum of so many numbers below a size and of how many they are, as an operation.
fn table(alloc: Global, size: u32, arity: u8) -> Result<OpTable, Fail>
    requires some { 0 < size }
    requires small { size < 100 }
{
    let values = sums_below(alloc, size, arity)?;
    let name = Name::new(alloc, &[b'a', b'b' + arity % 8])?;
    Ok(OpTable::new(name, size, arity, values)?)
}

/// The numbers below a size with such sums of none, one, two, three and four of them.
fn sums(alloc: Global, size: u32) -> Result<Algebra, Fail>
    requires some { 0 < size }
    requires small { size < 100 }
{
    let mut ops = Vec::new(alloc);
    for arity in 0..5u8 {
        ops.push(table(alloc, size, arity)?)?;
    }
    Ok(Algebra::new(Name::new(alloc, b"A")?, size, ops)?)
}

/// The coordinates of a frame through a step, modulo a size.
fn digits(alloc: Global, frame: &Frame, size: u32, step: u32) -> Result<Vec<Elem>, Fail>
    requires some { 0 < size }
    requires small { size < 100 }
    requires step { 0 < step }
{
    let mut v = Vec::new(alloc);
    for i in 0..frame.width() {
        v.push((i / step % size) as Elem)?;
    }
    Ok(v)
}

/// Enters a vector of the frame that is not there yet.
fn enter(frame: &Frame, rows: &mut Rows, v: &[Elem]) -> Result<(), Fail>
    requires rows { AllByRecursion (IsVector frame.now) rows.old.items }
    requires width { rows.old.width ≡ length frame.now }
    ensures rows { IfOk result (λ _. AllByRecursion (IsVector frame.now) rows.new.items) }
    ensures width { rows.new.width ≡ rows.old.width }
{
    if !frame.admits(v) || v.len() != rows.width() as usize || rows.len() >= 100 {
        return Err("no vector".into());
    }
    if rows.find(v).is_some() {
        return Err("it is there".into());
    }
    rows.push(v)?;
    Ok(())
}

/// Enters the coordinates of the frame through a step, modulo a size.
fn enter_digits(
    alloc: Global,
    frame: &Frame,
    size: u32,
    step: u32,
    rows: &mut Rows,
) -> Result<(), Fail>
    requires some { 0 < size }
    requires small { size < 100 }
    requires step { 0 < step }
    requires rows { AllByRecursion (IsVector frame.now) rows.old.items }
    requires width { rows.old.width ≡ length frame.now }
    ensures rows { IfOk result (λ _. AllByRecursion (IsVector frame.now) rows.new.items) }
    ensures width { rows.new.width ≡ rows.old.width }
{
    let v = digits(alloc, frame, size, step)?;
    enter(frame, rows, v.as_slice())
}

/// The coordinates of the frame modulo a size, and their quotients, as rows.
fn two_rows(alloc: Global, frame: &Frame, size: u32) -> Result<Rows, Fail>
    requires some { 0 < size }
    requires small { size < 100 }
    ensures rows { IfOk result (λ rows. AllByRecursion (IsVector frame.now) rows.items) }
    ensures width { IfOk result (λ rows. rows.width ≡ length frame.now) }
{
    let mut rows = Rows::new(alloc, frame.width());
    enter_digits(alloc, frame, size, 1, &mut rows)?;
    enter_digits(alloc, frame, size, size, &mut rows)?;
    Ok(rows)
}

/// The sum at a coordinate of some rows, of which row 0 has the coordinates modulo a size and row 1 their
/// quotients, and of how many they are.
fn sum_at(size: u32, i: u32, args: &[u32]) -> u32
    requires { 0 < size }
{
    let mut sum: u32 = 0;
    for a in args {
        let step = if *a == 0 { 1 } else { size };
        sum = sum.wrapping_add(1).wrapping_add(i / step % size);
    }
    sum
}

/// These sums at all coordinates.
fn sums_of(alloc: Global, frame: &Frame, size: u32, args: &[u32]) -> Result<Vec<Elem>, Fail>
    requires { 0 < size }
{
    let mut v = Vec::new(alloc);
    for i in 0..frame.width() {
        v.push((sum_at(size, i, args) % frame.size_at(i)) as Elem)?;
    }
    Ok(v)
}

/// Compares a vector with the sums.
fn expect(
    rt: &impl Abort,
    alloc: Global,
    frame: &Frame,
    size: u32,
    args: &[u32],
    found: &[Elem],
) -> Result<(), Fail>
    requires { 0 < size }
{
    let sums = sums_of(alloc, frame, size, args)?;
    assert!(rt; found == sums.as_slice());
    Ok(())
}

/// The operation that takes as many arguments as these.
fn operation(rt: &impl Abort, alloc: Global, frame: &Frame, args: &[u32]) -> Result<u32, Fail>
    ensures operation { IfOk result (λ op. op < length (arities frame.now)) }
    ensures arity { IfOk result (λ op. length args.now ≡ slice_index (arities frame.now) op) }
{
    let shape = frame.shape(alloc)?;
    assert!(rt; args.len() < shape.arities().len());
    let op = args.len() as u32;
    assert!(rt; args.len() == shape.arity(op) as usize);
    Ok(op)
}

/// Applies an operation without preparing it, and compares each entry with the sum.
fn expect_applied(
    rt: &impl Abort,
    alloc: Global,
    frame: &Frame,
    op: u32,
    rows: &Rows,
    args: &[u32],
    size: u32,
) -> Result<(), Fail>
    requires operation { op < length (arities frame.now) }
    requires arity { length args.now ≡ slice_index (arities frame.now) op }
    requires rows { AllByRecursion (IsVector frame.now) rows.now.items }
    requires named { AllByRecursion (λ a. a < length rows.now.items) args.now }
    requires some { 0 < size }
{
    let mut out = vec![in alloc; 0; frame.width() as usize]?;
    apply(frame, op, rows, args, out.as_mut_slice());
    expect(rt, alloc, frame, size, args, out.as_slice())
}

/// Applies an operation that is prepared, and compares each entry with the sum.
fn expect_prepared(
    rt: &impl Abort,
    alloc: Global,
    frame: &Frame,
    op: u32,
    rows: &Rows,
    args: &[u32],
    size: u32,
) -> Result<(), Fail>
    requires operation { op < length (arities frame.now) }
    requires arity { length args.now ≡ slice_index (arities frame.now) op }
    requires rows { AllByRecursion (IsVector frame.now) rows.now.items }
    requires named { AllByRecursion (λ a. a < length rows.now.items) args.now }
    requires some { 0 < size }
{
    let operations = Operations::new(alloc, frame)?;
    let mut scratch = Scratch::new(alloc, frame.width())?;
    operations.apply(op, rows, args, &mut scratch);
    expect(rt, alloc, frame, size, args, scratch.as_slice())
}

/// Applies an operation by both calls.
fn expect_sums(
    rt: &impl Abort,
    alloc: Global,
    frame: &Frame,
    rows: &Rows,
    args: &[u32],
    size: u32,
) -> Result<(), Fail>
    requires rows { AllByRecursion (IsVector frame.now) rows.now.items }
    requires named { AllByRecursion (λ a. a < length rows.now.items) args.now }
    requires some { 0 < size }
{
    let op = operation(rt, alloc, frame, args)?;
    expect_applied(rt, alloc, frame, op, rows, args, size)?;
    expect_prepared(rt, alloc, frame, op, rows, args, size)
}

/// Tries the sums of none to four of two rows.
fn expect_each(
    rt: &impl Abort,
    alloc: Global,
    frame: &Frame,
    rows: &Rows,
    size: u32,
) -> Result<(), Fail>
    requires rows { AllByRecursion (IsVector frame.now) rows.now.items }
    requires two { length rows.now.items ≡ 2 }
    requires some { 0 < size }
{
    expect_sums(rt, alloc, frame, rows, &[], size)?;
    expect_sums(rt, alloc, frame, rows, &[1], size)?;
    expect_sums(rt, alloc, frame, rows, &[0, 1], size)?;
    expect_sums(rt, alloc, frame, rows, &[0, 0, 1], size)?;
    expect_sums(rt, alloc, frame, rows, &[1, 1, 1, 0], size)
}

/// Tries the sums of none to four rows of a frame.
fn expect_all(rt: &impl Abort, alloc: Global, frame: &Frame, size: u32) -> Result<(), Fail>
    requires some { 0 < size }
    requires small { size < 100 }
{
    let rows = two_rows(alloc, frame, size)?;
    assert!(rt; rows.len() == 2);
    expect_each(rt, alloc, frame, &rows, size)
}

/// Tries the sums of rows of a power.
fn expect_power(rt: &impl Abort, alloc: Global, size: u32, width: u32) -> Result<(), Fail>
    requires some { 0 < size }
    requires small { size < 100 }
{
    let algebra = sums(alloc, size)?;
    expect_all(rt, alloc, &Frame::power(&algebra, width)?, size)
}

#[test]
fn powers(rt: HostRuntime) -> Result<(), Fail> {
    expect_power(&rt, rt.alloc(), 3, 9)?;
    expect_power(&rt, rt.alloc(), 20, 500)
}

/// The sums modulo 5 and modulo 7.
fn both_sums(alloc: Global) -> Result<Vec<Algebra>, Fail> {
    let mut algebras = Vec::new(alloc);
    algebras.push(sums(alloc, 5)?)?;
    algebras.push(sums(alloc, 7)?)?;
    Ok(algebras)
}

/// Tries the sums of rows of a product of two algebras.
fn expect_product(rt: &impl Abort, alloc: Global, algebras: &[Algebra]) -> Result<(), Fail> {
    assert!(rt; algebras.len() == 2);
    let coords = [0, 1, 1, 0, 0].to_vec(alloc)?;
    expect_all(rt, alloc, &Frame::mixed(algebras, coords)?, 4)
}

#[test]
fn two_algebras(rt: HostRuntime) -> Result<(), Fail> {
    let algebras = both_sums(rt.alloc())?;
    expect_product(&rt, rt.alloc(), algebras.as_slice())
}
