//! Whether some polynomial agrees with points.

ghost use Rattle.ua_clone.specs.Points.{points_of, ArePoints};
ghost use Rattle.ua_clone.specs.Permitted.{MayClone};

use crate::frames::{generators, power};
use crate::kinds::CloneKind;
use crate::points::Points;
use std::alloc::Global;
use std::thread::Threads;
use ua_close::{Answer, CloseError, Gate, Run, member};
use ua_table::Algebra;

/// Whether some operation in k variables of the clone of the algebra's terms, or of that of its polynomials,
/// agrees with the points (S. Burris and H. P. Sankappanavar, A Course in Universal Algebra, chapter II, on
/// terms and polynomials).
///
/// In the power with a coordinate for each point, in order, it closes what the points give to each variable,
/// and for polynomials then each element everywhere, within the budget of the run, until it finds the values.
/// A power that is too wide is refused before anything is allocated. The last of the steps of `Answer::Yes`
/// writes such a polynomial, in which generator i below k is variable i and generator k + c is the element c;
/// `to_poly` makes it. With `Answer::No` there is none. Beyond the budget the answer may be yes or
/// `Answer::Exceeds`, by which members are found first.
pub fn clone_member<R: Threads + Sync, G: Gate>(
    rt: &R,
    alloc: Global,
    a: &Algebra,
    k: u8,
    kind: CloneKind,
    points: &Points,
    run: &Run<G>,
) -> Result<Answer, CloseError>
    requires { ArePoints a.now.size k points.now }
    ensures permitted { MayClone a.now k kind (points_of a.now.size k points.now) run.now.budget run.now.workers result }
{
    // What this call ensures says that the algebra has an element.
    let _size = a.size();
    let frame = power(a, k, kind, points, run.budget)?;
    let gens = generators(alloc, a, k, kind, points, frame.width())?;
    let values = points.value_row(alloc, k)?;
    match member(rt, alloc, &frame, &gens, values.as_slice(), run)? {
        Answer::Yes(steps) => Ok(Answer::Yes(steps)),
        Answer::No(list) => Ok(Answer::No(list)),
        Answer::Exceeds(list) => Ok(Answer::Exceeds(list)),
    }
}
