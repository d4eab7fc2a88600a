//! The first subtraces of single covers.

ghost use Rattle.std.specs.Prelude.{◌<◌, length};
ghost use Rattle.ua_lattice.specs.Lattices.{AreCovers};

use crate::given::{algebra, part};
use std::alloc::Global;
use std::test::Fail;
use std::thread::Threads;
use ua_cases::{put_word, same};
use ua_close::{FreeGate, Run};
use ua_lattice::{Lattice, congruences};
use ua_part::Part;
use ua_table::{Algebra, Elem};
use ua_type::{Trace, subtrace};

fn put_pair(text: &mut String, low: Elem, high: Elem) -> Result<(), Fail> {
    write!(text, "{low} {high}")?;
    Ok(())
}

/// The first subtrace of a cover, where it is found.
fn put_subtrace<R: Threads + Sync>(
    rt: &R,
    alloc: Global,
    a: &Algebra,
    list: &[Part],
    covers: &[(u32, u32)],
    k: usize,
    run: &Run<FreeGate>,
    text: &mut String,
) -> Result<(), Fail>
    requires covers { AreCovers a.now list.now covers.now }
    requires within { k < length covers.now }
{
    let (i, j) = covers[k];
    let (lower, upper) = (&list[i as usize], &list[j as usize]);
    match subtrace(rt, alloc, a, lower, upper, run)? {
        Trace::Pair(low, high) => put_pair(text, low, high),
        Trace::Exceeds => put_word(text, "exceeds"),
    }
}

/// That of the first cover of an algebra, in the order of the lattice.
fn put_first<R: Threads + Sync>(
    rt: &R,
    alloc: Global,
    a: &Algebra,
    run: &Run<FreeGate>,
    text: &mut String,
) -> Result<(), Fail> {
    let whole = Run::new(1_000, 1, &FreeGate).ok_or("a number out of its limits")?;
    let Lattice::Whole { list, covers, .. } = congruences(rt, alloc, a, &whole)? else {
        return Err("more congruences than the budget".into());
    };
    if covers.is_empty() {
        return Err("no cover".into());
    }
    put_subtrace(
        rt,
        alloc,
        a,
        list.as_slice(),
        covers.as_slice(),
        0,
        run,
        text,
    )
}

/// The first subtrace that is found within the budget of a text as `3: next 1 120; 6`, by two workers.
fn told<R: Threads + Sync>(rt: &R, alloc: Global, asked: &str) -> Result<String, Fail> {
    let a = algebra(alloc, part(asked, 0))?;
    let run = Run::new(part(asked, 1).parse()?, 2, &FreeGate).ok_or("a number out of its limits")?;
    let mut text = String::new(alloc);
    put_first(rt, alloc, &a, &run, &mut text)?;
    Ok(text)
}

/// The squares of the lattice of two elements are six, and its pairs three; those of the cycle are nine and six.
#[test]
fn budgets(rt: HostRuntime) -> Result<(), Fail> {
    let cases = "
        2: meet 2 0001, join 2 0111; 2 => exceeds
        2: meet 2 0001, join 2 0111; 3 => 0 1
        2: meet 2 0001, join 2 0111; 6 => 0 1
        3: next 1 120; 5 => exceeds
        3: next 1 120; 6 => 0 1
        3: next 1 120; 9 => 0 1";
    for line in cases.trim().lines() {
        let (asked, wanted) = line.trim().split_once(" => ").ok_or("no answer")?;
        let found = told(&rt, rt.alloc(), asked)?;
        same(line, found.as_str(), wanted)?;
    }
    Ok(())
}
