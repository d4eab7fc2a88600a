//! The call whose name differs from a type's in case alone.

ghost use Rattle.ua_type.specs.Permitted.{MayTypes};

use crate::tables::{Types, table_of};
use std::alloc::Global;
use std::thread::Threads;
use ua_close::{CloseError, Gate, Run};
use ua_lattice::{Lattice, congruences};
use ua_table::Algebra;

/// The types of all covers in the lattice of congruences, where there are no more congruences than the budget
/// of the run. Each set that is closed for a cover has the same budget.
pub fn types<R: Threads + Sync, G: Gate>(
    rt: &R,
    alloc: Global,
    a: &Algebra,
    run: &Run<G>,
) -> Result<Types, CloseError>
    ensures permitted { MayTypes a.now run.now.budget result }
{
    match congruences(rt, alloc, a, run)? {
        Lattice::Exceeds(list) => Ok(Types::Exceeds(list)),
        Lattice::Whole { list, covers, .. } => {
            let rows = table_of(rt, alloc, a, list.as_slice(), covers.as_slice(), run)?;
            Ok(Types::Table(rows))
        }
    }
}
