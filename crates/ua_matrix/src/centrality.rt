//! The matrices of two congruences, and what all of them tell of centrality.

ghost use Rattle.std.specs.Prelude.{◌≡◌, ℕ, length, IfOk, replicate};
ghost use Rattle.std.specs.List.{AllByRecursion};
ghost use Rattle.ua_table.specs.Algebras.{Vector};
ghost use Rattle.ua_table.specs.Listings.{vectors_of, IsClosedListing};
ghost use Rattle.ua_prod.specs.Congruences.{IsCongruence};
ghost use Rattle.ua_close.specs.Answers.{rows_in};
ghost use Rattle.ua_close.specs.Permitted.{MayClose};
ghost use Rattle.ua_matrix.specs.Matrices.{matrix_generators, AreFour};
ghost use Rattle.ua_matrix.specs.inner.Answers.{IsJudged};

use crate::failures::first_failure;
use crate::generators::generating_matrices;
use std::alloc::{AllocError, Global};
use std::thread::Threads;
use ua_close::{CloseError, Closure, Gate, Listing, Run, close_set, laws, steps_for};
use ua_part::Part;
use ua_table::{Algebra, Elem, Frame, Vectors};
use ua_term::Steps;

/// Whether a congruence centralizes another modulo a third.
#[derive(Drop, Debug)]
pub enum Central {
    Yes,
    /// The last of the steps has the matrix as its value. Its first row, the first two entries, is in the third
    /// congruence, and its second is not.
    No { matrix: [Elem; 4], steps: Steps },
    /// There are more matrices than the budget.
    Exceeds,
}

/// The matrices of two congruences: what (u,u,v,v) for the pairs of the first and (u,v,u,v) for those of the
/// second generate in the fourth power, within the budget of the run.
pub fn matrices<R: Threads + Sync, G: Gate>(
    rt: &R,
    alloc: Global,
    a: &Algebra,
    alpha: &Part,
    beta: &Part,
    run: &Run<G>,
) -> Result<Closure, CloseError>
    requires alpha { IsCongruence a.now alpha.now }
    requires beta { IsCongruence a.now beta.now }
    ensures permitted { MayClose (replicate 4 a.now) (matrix_generators alpha.now beta.now) run.now.budget run.now.workers result }
    ensures four { IfOk result (λ closure. AllByRecursion (AreFour a.now.size) (vectors_of (rows_in closure))) }
{
    laws::kinds();
    let Ok(frame) = Frame::power(a, 4) else {
        unreachable!()
    };
    // What this call ensures says that a frame is a product.
    let _width = frame.width();
    let gens = generating_matrices(alloc, a, alpha, beta)?;
    close_set(rt, alloc, &frame, &gens, run)
}

/// The rows of a listing of matrices.
pub fn rows_of(alloc: Global, list: &Listing) -> Result<Vectors, AllocError>
    requires { AllByRecursion (λ (v : Vector). length v ≡ 4) (vectors_of list.now) }
    ensures { IfOk result (λ rows. rows.items ≡ vectors_of list.now) }
{
    let mut rows = Vectors::new(alloc, 4);
    for i in 0..list.len() {
        rows.add(list.row(i))?;
    }
    Ok(rows)
}

/// The entries of a row of four.
fn four(row: &[Elem]) -> [Elem; 4]
    requires { length row.now ≡ 4 }
    ensures { result ≡ row.now }
{
    [row[0], row[1], row[2], row[3]]
}

/// What a closed listing of the matrices tells.
pub(crate) fn judged(
    alloc: Global,
    a: &Algebra,
    alpha: &Part,
    beta: &Part,
    delta: &Part,
    list: &Listing,
) -> Result<Central, AllocError>
    requires alpha { IsCongruence a.now alpha.now }
    requires beta { IsCongruence a.now beta.now }
    requires delta { IsCongruence a.now delta.now }
    requires closed { (b : ℕ) × IsClosedListing (replicate 4 a.now) (matrix_generators alpha.now beta.now) b list.now }
    requires four { AllByRecursion (AreFour a.now.size) (vectors_of list.now) }
    ensures { IfOk result (IsJudged a.now alpha.now beta.now delta.now list.now) }
{
    let Some(i) = first_failure(list, delta) else {
        return Ok(Central::Yes);
    };
    let Ok(frame) = Frame::power(a, 4) else {
        unreachable!()
    };
    let gens = generating_matrices(alloc, a, alpha, beta)?;
    let steps = steps_for(alloc, &frame, &gens, list, i)?;
    let matrix = four(list.row(i));
    Ok(Central::No { matrix, steps })
}
