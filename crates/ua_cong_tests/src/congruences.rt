//! Principal congruences of the symmetric group on three letters, and rows that are entered.

ghost use Rattle.std.specs.Prelude.{◌≤◌};
ghost use Rattle.ua_table.specs.declared.limits.TheConstants.{WORKERS};

use std::alloc::{AllocError, Global};
use std::test::Fail;
use std::thread::Threads;
use ua_cong::{distinct_principals, principals};
use ua_part::Part;
use ua_rows::Rows;
use ua_table::{Algebra, Elem, Name, OpTable};

/// The symmetric group on three letters: the rotations are 0, 1, 2.
fn group(alloc: Global) -> Result<Algebra, Fail> {
    let values = [
        0, 1, 2, 3, 4, 5, 1, 2, 0, 5, 3, 4, 2, 0, 1, 4, 5, 3, 3, 4, 5, 0, 1, 2, 4, 5, 3, 2, 0, 1,
        5, 3, 4, 1, 2, 0,
    ]
    .to_vec(alloc)?;
    let mut ops = Vec::new(alloc);
    ops.push(OpTable::new(Name::new(alloc, b"mul")?, 6, 2, values)?)?;
    Ok(Algebra::new(Name::new(alloc, b"S")?, 6, ops)?)
}

/// The congruence that a pair of elements of the group generates.
fn blocks(x: Elem, y: Elem) -> &'static [u8] {
    if (x < 3) == (y < 3) {
        b"|0 1 2|3 4 5|"
    } else {
        b"|0 1 2 3 4 5|"
    }
}

fn is_printed(alloc: Global, part: &Part, text: &[u8]) -> Result<bool, AllocError> {
    let printed = part.print(alloc)?;
    Ok(printed.as_slice() == text)
}

/// How many pairs are listed, and how many of them with the congruence that they generate.
fn pairs_listed<R: Threads + Sync>(
    rt: &R,
    alloc: Global,
    workers: u32,
) -> Result<(usize, usize), Fail>
    requires some { 1 ≤ workers }
    requires few { workers ≤ WORKERS }
{
    let list = principals(rt, alloc, &group(alloc)?, workers)?;
    let mut right: usize = 0;
    for (x, y, part) in &list {
        if is_printed(alloc, part, blocks(*x, *y))? {
            right = right.saturating_add(1);
        }
    }
    Ok((list.len(), right))
}

#[test]
fn principal(rt: HostRuntime) -> Result<(), Fail> {
    for workers in [1, 2, 16] {
        let told = pairs_listed(&rt, rt.alloc(), workers)?;
        assert_eq!(rt; told, (15, 15));
    }
    Ok(())
}

fn is_found(rows: &Rows, v: &[Elem]) -> bool {
    v.len() == rows.width() as usize && rows.find(v).is_some()
}

/// How many different congruences are listed with a bound, and whether the two of the group are among them.
fn different<R: Threads + Sync>(
    rt: &R,
    alloc: Global,
    workers: u32,
    bound: u32,
) -> Result<(u32, bool), Fail>
    requires some { 1 ≤ workers }
    requires few { workers ≤ WORKERS }
{
    let rows = distinct_principals(rt, alloc, &group(alloc)?, workers, bound)?;
    let both = is_found(&rows, &[0, 0, 0, 3, 3, 3]) && is_found(&rows, &[0; 6]);
    Ok((rows.len(), both))
}

/// Of the fifteen pairs there are two different principal congruences. With a bound of none the first is one more than
/// the bound.
#[test]
fn different_ones(rt: HostRuntime) -> Result<(), Fail> {
    for workers in [1, 2, 16] {
        let all = different(&rt, rt.alloc(), workers, 2)?;
        let first = different(&rt, rt.alloc(), workers, 0)?;
        assert_eq!(rt; (all, first), ((2, true), (1, false)));
    }
    Ok(())
}

/// The place of a vector that is entered, and how many rows there are then.
fn enter(rows: &mut Rows, v: &[Elem]) -> Result<(u32, u32), Fail> {
    if v.len() != rows.width() as usize || rows.len() >= 100 {
        return Err("no vector, or too many".into());
    }
    let place = rows.enter(v)?;
    Ok((place, rows.len()))
}

#[test]
fn entered(rt: HostRuntime) -> Result<(), Fail> {
    let mut rows = Rows::new(rt.alloc(), 3);
    let first = enter(&mut rows, &[0, 0, 2])?;
    let second = enter(&mut rows, &[0, 1, 1])?;
    let again = enter(&mut rows, &[0, 0, 2])?;
    assert_eq!(rt; [first, second, again], [(0, 1), (1, 2), (0, 2)]);
    Ok(())
}
