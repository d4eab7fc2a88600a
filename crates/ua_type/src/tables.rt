//! The types of all covers.

ghost use Rattle.std.specs.Prelude.{◌≡◌, [], ◌∷◌, ◌++◌, OnOk};
ghost use Rattle.ua_lattice.specs.Lattices.{AreCovers};
ghost use Rattle.ua_type.specs.inner.Tables.{MayTable};

use crate::typings::{Typed, type_of};
use std::alloc::{AllocError, Global};
use std::thread::Threads;
use ua_close::{CloseError, Gate, Run};
use ua_part::Part;
use ua_table::Algebra;

/// The types of all covers in the lattice of congruences.
#[derive(Drop, Debug)]
pub enum Types {
    /// For each cover, in the order of the lattice, the places of the lower and of the upper congruence in its
    /// list, and the type.
    Table(Vec<(u32, u32, Typed)>),
    /// One congruence more than the budget.
    Exceeds(Vec<Part>),
}

/// Appends a row.
fn push_row(rows: &mut Vec<(u32, u32, Typed)>, row: (u32, u32, Typed)) -> Result<(), AllocError>
    ensures { OnOk result (rows.new.items ≡ rows.old.items ++ row ∷ []) }
{
    rows.push(row)?;
    Ok(())
}

/// The types of these covers.
pub fn table_of<R: Threads + Sync, G: Gate>(
    rt: &R,
    alloc: Global,
    a: &Algebra,
    list: &[Part],
    covers: &[(u32, u32)],
    run: &Run<G>,
) -> Result<Vec<(u32, u32, Typed)>, CloseError>
    requires { AreCovers a.now list.now covers.now }
    ensures { MayTable a.now run.now.budget list.now covers.now result }
{
    let mut rows = Vec::with_capacity(alloc, covers.len())?;
    for k in 0..covers.len() {
        let (i, j) = covers[k];
        let (lower, upper) = (&list[i as usize], &list[j as usize]);
        let typed = type_of(rt, alloc, a, lower, upper, run)?;
        push_row(&mut rows, (i, j, typed))?;
    }
    Ok(rows)
}
