//! The polynomials that a yes writes, and their values.

ghost use Rattle.ua_clone.specs.Points.{ArePoints};
ghost use Rattle.ua_clone.specs.Polynomials.{IsPoly};

use crate::given::{algebra, elements, part};
use std::alloc::Global;
use std::process::Abort;
use std::test::Fail;
use std::thread::Threads;
use ua_cases::same;
use ua_clone::{CloneKind, Points, Poly, clone_member, laws, poly_value, to_poly};
use ua_close::{Answer, FreeGate, Run};
use ua_table::{Algebra, Elem, Vectors};

/// What is asked by a text as `2 terms`: so many variables, and terms or polynomials.
fn kind(text: &str) -> Result<(u8, CloneKind), Fail> {
    let (k, kind) = text.split_once(' ').ok_or("no kind")?;
    let kind = if kind == "terms" {
        CloneKind::TermOps
    } else {
        CloneKind::Polynomials
    };
    Ok((k.parse()?, kind))
}

/// The digits of a number in base n, the lowest first.
fn digits(alloc: Global, mut number: u32, n: u32, count: u32) -> Result<Vec<Elem>, Fail> {
    let mut values: Vec<Elem> = Vec::new(alloc);
    for _ in 0..count {
        values.push((number.checked_rem(n).unwrap_or(0) % 1000) as Elem)?;
        number = number.checked_div(n).unwrap_or(0);
    }
    Ok(values)
}

/// The assignment with this number.
fn assignment(alloc: Global, n: u32, k: u8, number: u32) -> Result<Vec<Elem>, Fail> {
    let mut args = digits(alloc, number, n, u32::from(k))?;
    args.reverse();
    Ok(args)
}

/// Whether the polynomial has these values at all assignments.
fn has_values(
    rt: &impl Abort,
    alloc: Global,
    a: &Algebra,
    p: &Poly,
    k: u8,
    values: &[Elem],
) -> Result<bool, Fail>
    requires { IsPoly a.now k p.now }
{
    for (number, value) in values.iter().enumerate() {
        let args = assignment(alloc, a.size(), k, (number % 1000) as u32)?;
        assert!(rt; args.len() == usize::from(k));
        assert!(rt; args.iter().all(|x| u32::from(*x) < a.size()));
        if poly_value(a, p, args.as_slice()) != *value {
            return Ok(false);
        }
    }
    Ok(true)
}

/// A polynomial as it is written for debugging, which has these values.
fn put_checked(
    rt: &impl Abort,
    alloc: Global,
    a: &Algebra,
    p: &Poly,
    k: u8,
    values: &[Elem],
    text: &mut String,
) -> Result<(), Fail>
    requires { IsPoly a.now k p.now }
{
    if !has_values(rt, alloc, a, p, k, values)? {
        return Err("it has other values".into());
    }
    write!(text, "{p:?}")?;
    Ok(())
}

/// The polynomial for a table of these values, or nothing where it has more nodes than the limit.
fn put_written<R: Threads + Abort + Sync>(
    rt: &R,
    alloc: Global,
    a: &Algebra,
    k: u8,
    kind: CloneKind,
    points: &Points,
    run: &Run<FreeGate>,
    limit: u32,
    values: &[Elem],
    text: &mut String,
) -> Result<(), Fail>
    requires { ArePoints a.now.size k points.now }
{
    let Ok(Answer::Yes(steps)) = clone_member(rt, alloc, a, k, kind, points, run) else {
        return Err("no polynomial".into());
    };
    let count = steps.list().len();
    assert!(rt; count > 0);
    laws::polynomials();
    // What this call ensures says that the algebra is small.
    let _size = a.size();
    match to_poly(alloc, &steps, k, (count - 1) as u32, limit)? {
        Some(p) => put_checked(rt, alloc, a, &p, k, values, text),
        None => Ok(()),
    }
}

/// The polynomial of a text as `2: meet 2 0001; 2 terms; 0001`, which ends with a table of all values.
fn polynomial<R: Threads + Abort + Sync>(
    rt: &R,
    alloc: Global,
    asked: &str,
    limit: u32,
) -> Result<String, Fail> {
    let a = algebra(alloc, part(asked, 0))?;
    let (k, kind) = kind(part(asked, 1))?;
    let table = part(asked, 2);
    let values = elements(alloc, table)?;
    let points = Points::Total(elements(alloc, table)?);
    assert!(rt; points.fit(&a, k));
    let run = Run::new(10_000, 1, &FreeGate).ok_or("a number out of its limits")?;
    let mut text = String::new(alloc);
    let values = values.as_slice();
    put_written(
        rt, alloc, &a, k, kind, &points, &run, limit, values, &mut text,
    )?;
    Ok(text)
}

/// Within three nodes; x + y modulo 2 has more than three in a Boolean algebra.
#[test]
fn polynomials_of_steps(rt: HostRuntime) -> Result<(), Fail> {
    let cases = "
        2: meet 2 0001; 2 terms; 0001 => Op(0, [Var(1), Var(0)])
        2: plus 2 0110; 1 polynomials; 10 => Op(0, [Const(1), Var(0)])
        2: meet 2 0001; 0 polynomials; 1 => Const(1)
        2: and 2 0001, or 2 0111, not 1 10; 2 terms; 0110 =>";
    for line in cases.trim().lines() {
        let (asked, wanted) = line.split_once(" =>").ok_or("no answer")?;
        let text = polynomial(&rt, rt.alloc(), asked.trim(), 3)?;
        same(line, text.as_str(), wanted.trim())?;
    }
    Ok(())
}

/// A polynomial of three variables has its values at all eight assignments.
#[test]
fn values_of_polynomials(rt: HostRuntime) -> Result<(), Fail> {
    let tables = "
        2: and 2 0001, or 2 0111, not 1 10; 3 terms; 00010111
        2: and 2 0001, or 2 0111, not 1 10; 3 polynomials; 00010111
        2: and 2 0001, or 2 0111, not 1 10; 3 terms; 01101001
        2: and 2 0001, or 2 0111, not 1 10; 3 polynomials; 01101001
        2: and 2 0001, or 2 0111, not 1 10; 3 terms; 10000001
        2: and 2 0001, or 2 0111, not 1 10; 3 polynomials; 10000001
        2: and 2 0001, or 2 0111, not 1 10; 3 terms; 11011000
        2: and 2 0001, or 2 0111, not 1 10; 3 polynomials; 11011000";
    for line in tables.trim().lines() {
        let text = polynomial(&rt, rt.alloc(), line.trim(), 10_000)?;
        assert!(rt; !text.is_empty(), "{line}");
    }
    Ok(())
}

/// The value 1 and the value 0 at 1.
fn both_values(alloc: Global) -> Result<Points, Fail> {
    let mut vectors = Vectors::new(alloc, 2);
    if vectors.width() != 2 {
        return Err("another width".into());
    }
    vectors.add(&[1, 1])?;
    vectors.add(&[1, 0])?;
    Ok(Points::Partial(vectors))
}

/// How many members there are where no polynomial in one variable over the semilattice agrees with the points.
fn members_without<R: Threads + Abort + Sync>(
    rt: &R,
    alloc: Global,
    points: &Points,
) -> Result<u32, Fail> {
    let a = algebra(alloc, "2: meet 2 0001")?;
    let run = Run::new(10_000, 1, &FreeGate).ok_or("a number out of its limits")?;
    assert!(rt; points.fit(&a, 1));
    match clone_member(rt, alloc, &a, 1, CloneKind::Polynomials, points, &run) {
        Ok(Answer::No(list)) => Ok(list.len()),
        _ => Err("a polynomial".into()),
    }
}

/// Points with the same arguments and different values, which no script may write: no polynomial agrees with both.
#[test]
fn arguments_that_stand_twice(rt: HostRuntime) -> Result<(), Fail> {
    let points = both_values(rt.alloc())?;
    let count = members_without(&rt, rt.alloc(), &points)?;
    assert_eq!(rt; count, 2);
    Ok(())
}
