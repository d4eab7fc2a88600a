//! The call whose name differs from a type's in case alone.

ghost use Rattle.ua_prod.specs.Congruences.{IsCongruence};
ghost use Rattle.ua_matrix.specs.Permitted.{MayBeCentral};

use crate::centrality::{Central, judged, matrices};
use crate::failures::failing;
use crate::leading::deciding_matrices;
use std::alloc::Global;
use std::thread::Threads;
use ua_close::{CloseError, Closure, Gate, Run};
use ua_part::Part;
use ua_table::Algebra;

/// Whether alpha centralizes beta modulo delta: whether the term condition C(alpha, beta; delta) of R. Freese
/// and R. McKenzie (Commutator Theory for Congruence Modular Varieties, chapter 3) holds, over all terms. It
/// closes the matrices of alpha and beta, within the budget of the run, unless few of them tell that it does.
///
/// With one worker the matrix that refutes it is that of the least rank among those that do.
pub fn central<R: Threads + Sync, G: Gate>(
    rt: &R,
    alloc: Global,
    a: &Algebra,
    alpha: &Part,
    beta: &Part,
    delta: &Part,
    run: &Run<G>,
) -> Result<Central, CloseError>
    requires alpha { IsCongruence a.now alpha.now }
    requires beta { IsCongruence a.now beta.now }
    requires delta { IsCongruence a.now delta.now }
    ensures permitted { MayBeCentral a.now alpha.now beta.now delta.now run.now.budget run.now.workers result }
{
    if let Some(deciding) = deciding_matrices(alloc, a, alpha, beta, run.budget)? {
        if failing(&deciding, delta).is_none() {
            return Ok(Central::Yes);
        }
    }
    match matrices(rt, alloc, a, alpha, beta, run)? {
        Closure::Exceeds(_) => Ok(Central::Exceeds),
        Closure::Closed(list) => Ok(judged(alloc, a, alpha, beta, delta, &list)?),
    }
}
