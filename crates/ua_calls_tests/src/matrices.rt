//! The matrices of congruences.

use crate::given::algebra;
use std::alloc::{AllocError, Global};
use std::test::Fail;
use std::thread::Threads;
use ua_cases::same;
use ua_close::{Closure, FreeGate, Listing, Run};
use ua_matrix::matrices;
use ua_part::Part;
use ua_prod::is_congruence;
use ua_table::{Algebra, Elem};

fn put_digits(text: &mut String, v: &[Elem]) -> Result<(), AllocError> {
    for x in v {
        text.push(char::from(b'0' + (*x % 10) as u8))?;
    }
    Ok(())
}

fn put_rows(text: &mut String, list: &Listing) -> Result<(), AllocError> {
    for i in 0..list.len() {
        text.push(' ')?;
        put_digits(text, list.row(i))?;
    }
    Ok(())
}

/// The matrices of a congruence with itself.
fn put_matrices<R: Threads + Sync>(
    rt: &R,
    alloc: Global,
    a: &Algebra,
    alpha: &Part,
    run: &Run<FreeGate>,
    text: &mut String,
) -> Result<(), Fail> {
    if alpha.size() != a.size() || is_congruence(a, alpha).is_some() {
        return Err("no congruence".into());
    }
    match matrices(rt, alloc, a, alpha, alpha, run)? {
        Closure::Closed(list) => Ok(put_rows(text, &list)?),
        Closure::Exceeds(_) => Err("more than the budget".into()),
    }
}

/// The matrices of the full congruence of the lattice of two elements, by so many workers.
fn told<R: Threads + Sync>(rt: &R, alloc: Global, workers: u32) -> Result<String, Fail> {
    let lattice = algebra(alloc, "2: meet 2 0001, join 2 0111")?;
    let full = Part::from_labels(alloc, &[0, 0])?;
    let run = Run::new(16, workers, &FreeGate).ok_or("a number out of its limits")?;
    let mut text = String::new(alloc);
    put_matrices(rt, alloc, &lattice, &full, &run, &mut text)?;
    Ok(text)
}

/// The full congruence of the lattice of two elements has all matrices, in order.
#[test]
fn all_matrices(rt: HostRuntime) -> Result<(), Fail> {
    let wanted = " 0000 0001 0010 0011 0100 0101 0110 0111 1000 1001 1010 1011 1100 1101 1110 1111";
    for workers in [1, 2, 16] {
        let text = told(&rt, rt.alloc(), workers)?;
        same("the matrices", text.as_str(), wanted)?;
    }
    Ok(())
}
