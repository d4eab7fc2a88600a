//! Commutators of congruences, within a budget.

ghost use Rattle.ua_prod.specs.Congruences.{IsCongruence};
ghost use Rattle.ua_comm.specs.Permitted.{MayCommute};

use crate::growth::{least_going, least_with};
use std::alloc::Global;
use std::thread::Threads;
use ua_close::{CloseError, Closure, Gate, Run};
use ua_matrix::{deciding_matrices, matrices};
use ua_part::Part;
use ua_table::Algebra;

/// The commutator of two congruences, if their matrices are within the budget.
#[derive(Drop, Debug)]
pub enum Comm {
    Whole(Part),
    /// There are more matrices than the budget.
    Exceeds,
}

/// The commutator [alpha, beta]: the least congruence modulo which alpha centralizes beta (R. Freese and R.
/// McKenzie, Commutator Theory for Congruence Modular Varieties, chapter 3). It is told by few matrices where
/// these decide; else all matrices of the two are closed, within the budget of the run.
pub fn commutator<R: Threads + Sync, G: Gate>(
    rt: &R,
    alloc: Global,
    a: &Algebra,
    alpha: &Part,
    beta: &Part,
    run: &Run<G>,
) -> Result<Comm, CloseError>
    requires alpha { IsCongruence a.now alpha.now }
    requires beta { IsCongruence a.now beta.now }
    ensures permitted { MayCommute a.now alpha.now beta.now run.now.budget result }
{
    if let Some(deciding) = deciding_matrices(alloc, a, alpha, beta, run.budget)? {
        return Ok(Comm::Whole(least_with(alloc, a, &deciding)?));
    }
    match matrices(rt, alloc, a, alpha, beta, run)? {
        Closure::Exceeds(_) => Ok(Comm::Exceeds),
        Closure::Closed(list) => Ok(Comm::Whole(least_going(alloc, a, &list)?)),
    }
}
