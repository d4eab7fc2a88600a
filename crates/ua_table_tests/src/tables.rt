//! Names, operations, algebras and lists of vectors.

ghost use Rattle.std.specs.Prelude.{◌≡◌, [], length, IfOk};

use crate::asked::{Call, elements};
use std::alloc::Global;
use std::test::Fail;
use ua_cases::{expect, number, part, put_bytes, put_value_of, put_word};
use ua_table::{Algebra, AlgebraError, Elem, Name, OpTable, TableError, Vectors};

/// The text of a name, or why there is none.
pub(crate) fn put_name(alloc: Global, asked: &str, text: &mut String) -> Result<(), Fail> {
    match Name::new(alloc, part(asked, 0).as_bytes()) {
        Ok(name) => put_bytes(text, name.text()),
        Err(error) => put_value_of(text, &error),
    }
}

/// The operation of a text as `f, 2, 1, 1 0`: its name, size, arity and values.
pub(crate) fn operation(alloc: Global, asked: &str) -> Result<Result<OpTable, TableError>, Fail> {
    let size = number(asked, 1)?;
    let arity = part(asked, 2).parse()?;
    let values = elements(alloc, part(asked, 3))?;
    let name = Name::new(alloc, part(asked, 0).as_bytes())?;
    Ok(OpTable::new(name, size, arity, values))
}

/// Why there is no such operation, if there is none.
pub(crate) fn put_operation(alloc: Global, asked: &str, text: &mut String) -> Result<(), Fail> {
    match operation(alloc, asked)? {
        Ok(_) => put_word(text, "made"),
        Err(error) => put_value_of(text, &error),
    }
}

/// The operation without arguments that is 0.
fn constant(alloc: Global, size: u32, name: &[u8]) -> Result<OpTable, Fail> {
    let name = Name::new(alloc, name)?;
    Ok(OpTable::new(name, size, 0, [0].to_vec(alloc)?)?)
}

/// Constants with these letters as names.
fn constants(alloc: Global, size: u32, letters: &str) -> Result<Vec<OpTable>, Fail> {
    let mut ops = Vec::new(alloc);
    for letter in letters.as_bytes() {
        ops.push(constant(alloc, size, &[*letter])?)?;
    }
    Ok(ops)
}

/// Why there is no algebra of this size, if there is none.
fn algebra_error(
    alloc: Global,
    size: u32,
    ops: Vec<OpTable>,
) -> Result<Option<AlgebraError>, Fail> {
    let name = Name::new(alloc, b"A")?;
    Ok(Algebra::new(name, size, ops).err())
}

/// Why there is no algebra of a text as `3, 2, ab`, which has its size, that of its operations, and their letters.
pub(crate) fn put_algebra(alloc: Global, asked: &str, text: &mut String) -> Result<(), Fail> {
    let size = number(asked, 0)?;
    let ops = constants(alloc, number(asked, 1)?, part(asked, 2))?;
    match algebra_error(alloc, size, ops)? {
        None => put_word(text, "made"),
        Some(error) => put_value_of(text, &error),
    }
}

/// The algebra of one element with two constants.
fn pointed(alloc: Global, first: &[u8], second: &[u8]) -> Result<Algebra, Fail> {
    let mut ops = Vec::new(alloc);
    ops.push(constant(alloc, 1, first)?)?;
    ops.push(constant(alloc, 1, second)?)?;
    Ok(Algebra::new(Name::new(alloc, b"A")?, 1, ops)?)
}

/// A copy of the algebra with the constants `zero` and `one`.
fn copied(alloc: Global) -> Result<Algebra, Fail> {
    let algebra = pointed(alloc, b"zero", b"one")?;
    Ok(algebra.copy(alloc)?)
}

/// The number of the constant with this name.
fn place(alloc: Global, name: &str) -> Result<Option<u32>, Fail> {
    let algebra = copied(alloc)?;
    Ok(algebra.find_op(name.as_bytes()))
}

/// Puts the number of the constant with this name.
pub(crate) fn put_place(alloc: Global, asked: &str, text: &mut String) -> Result<(), Fail> {
    match place(alloc, part(asked, 0))? {
        Some(place) => put_value_of(text, &place),
        None => put_word(text, "none"),
    }
}

/// Whether the algebra has the signature of the one with its constants turned round.
fn is_like_turned(alloc: Global) -> Result<bool, Fail> {
    let algebra = copied(alloc)?;
    let turned = pointed(alloc, b"one", b"zero")?;
    Ok(algebra.same_signature(&turned))
}

#[test]
fn names(rt: HostRuntime) -> Result<(), Fail> {
    let cases = "
        A => A
        z9_ => z9_
        x_1 => x_1
        gen => gen
        a23456789_123456789_123456789_12 => a23456789_123456789_123456789_12
        a23456789_123456789_123456789_123 => Form
        => Form
        9a => Form
        _a => Form
        a-b => Form
        a b => Form
        é => Form";
    expect(rt.alloc(), &Call::Name, cases)
}

#[test]
fn operations_refused_in_order(rt: HostRuntime) -> Result<(), Fail> {
    let cases = "
        f, 0, 9, => Size
        f, 1001, 0, 0 => Size
        f, 1000, 4, => Size
        f, 2, 25, => Size
        f, 255, 255, => Size
        f, 2, 24, => Arity
        f, 1, 255, => Arity
        gen, 2, 2, 0 0 2 => Length
        gen, 2, 2, 0 1 2 9 => Range(2)
        gen, 2, 1, 1 0 => Reserved
        x12, 2, 1, 1 0 => Reserved
        x, 2, 1, 1 0 => made
        x1y, 2, 1, 1 0 => made
        gens, 1000, 0, 999 => made";
    expect(rt.alloc(), &Call::Operation, cases)
}

/// The sum modulo 3.
fn plus(alloc: Global) -> Result<OpTable, Fail>
    ensures size { IfOk result (λ o. o.size ≡ 3) }
    ensures arity { IfOk result (λ o. o.arity ≡ 2) }
{
    let name = Name::new(alloc, b"plus")?;
    let values = [0, 1, 2, 1, 2, 0, 2, 0, 1].to_vec(alloc)?;
    Ok(OpTable::new(name, 3, 2, values)?)
}

/// The sums of 1 and 2, and of 2 and 0.
fn sums(alloc: Global) -> Result<(Elem, Elem), Fail> {
    let op = plus(alloc)?;
    Ok((op.value(&[1, 2]), op.value(&[2, 0])))
}

#[test]
fn values(rt: HostRuntime) -> Result<(), Fail> {
    let sums = sums(rt.alloc())?;
    assert_eq!(rt; sums, (0, 2));
    Ok(())
}

#[test]
fn algebras_refused_in_order(rt: HostRuntime) -> Result<(), Fail> {
    let cases = "
        0, 1, => Size
        1001, 1, => Size
        3, 2, ccccccccccccccccccccccccccccccccccccccccccccccccccccccccccccccccc => Size
        3, 3, ccccccccccccccccccccccccccccccccccccccccccccccccccccccccccccccccc => TooManyOps
        3, 3, abcba => DuplicateOp(3)
        3, 3, abc => made
        1000, 1, => made";
    expect(rt.alloc(), &Call::Algebra, cases)
}

/// An operation on 64 elements with as many values as all together may have.
fn largest(alloc: Global) -> Result<OpTable, Fail> {
    let values = vec![in alloc; 0; 16_777_216]?;
    Ok(OpTable::new(Name::new(alloc, b"b")?, 64, 4, values)?)
}

/// This operation, and one with one more value.
fn one_value_too_many(alloc: Global) -> Result<Vec<OpTable>, Fail> {
    let mut ops = constants(alloc, 64, "a")?;
    ops.push(largest(alloc)?)?;
    Ok(ops)
}

#[test]
fn more_values_than_the_limit(rt: HostRuntime) -> Result<(), Fail> {
    let ops = one_value_too_many(rt.alloc())?;
    let answer = algebra_error(rt.alloc(), 64, ops)?;
    assert_eq!(rt; answer, Some(AlgebraError::TooManyValues));
    Ok(())
}

#[test]
fn operations_of_an_algebra(rt: HostRuntime) -> Result<(), Fail> {
    let cases = "
        zero => 0
        one => 1
        on => none";
    expect(rt.alloc(), &Call::Find, cases)?;
    let like_turned = is_like_turned(rt.alloc())?;
    assert!(rt; !like_turned);
    Ok(())
}

/// Adds three vectors.
fn add_three(list: &mut Vectors) -> Result<(), Fail>
    requires width { list.old.width ≡ 2 }
    requires none { list.old.items ≡ [] }
    ensures three { IfOk result (λ _. length list.new.items ≡ 3) }
{
    list.add(&[0, 1])?;
    list.add(&[0, 1])?;
    list.add(&[4, 3])?;
    Ok(())
}

/// The last of three vectors.
fn last(alloc: Global) -> Result<Vec<Elem>, Fail> {
    let mut list = Vectors::new(alloc, 2);
    add_three(&mut list)?;
    Ok(list.get(2).to_vec(alloc)?)
}

#[test]
fn vectors(rt: HostRuntime) -> Result<(), Fail> {
    let last = last(rt.alloc())?;
    assert_eq!(rt; last.as_slice(), [4, 3].as_slice());
    Ok(())
}
