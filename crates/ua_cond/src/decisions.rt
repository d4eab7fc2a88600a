//! Whether some term meets a condition.

ghost use Rattle.ua_cond.specs.Permitted.{MayDecide};

use crate::frames::power;
use std::alloc::Global;
use std::thread::Threads;
use ua_close::{Answer, CloseError, Gate, Run, member};
use ua_identity::{Condition, laws};
use ua_table::Algebra;

/// Whether some term of the algebra meets a condition, at every assignment of elements to variables: a Maltsev
/// condition of one term (S. Burris and H. P. Sankappanavar, A Course in Universal Algebra, chapter II, on
/// Maltsev conditions).
///
/// In the power with a coordinate for each identity and each assignment of its variables it closes what
/// stands at the places of the term, within the budget of the run, until it finds what the identities say that
/// the value is. A power that is too wide is refused before anything is allocated. The last of the steps of
/// `Answer::Yes` writes such a term, in which variable j is what stands at place j. With `Answer::No` there is
/// none. Beyond the budget the answer may be yes or `Answer::Exceeds`, by which members are found first.
pub fn decide<R: Threads + Sync, G: Gate>(
    rt: &R,
    alloc: Global,
    a: &Algebra,
    condition: &Condition,
    run: &Run<G>,
) -> Result<Answer, CloseError>
    ensures permitted { MayDecide a.now condition.now run.now.budget run.now.workers result }
{
    laws::conditions();
    // What this call ensures says that the algebra has an element.
    let _size = a.size();
    let frame = power(a, condition, run.budget)?;
    let arguments = condition.argument_vectors(alloc, a)?;
    let values = condition.value_row(alloc, a)?;
    match member(rt, alloc, &frame, &arguments, values.as_slice(), run)? {
        Answer::Yes(steps) => Ok(Answer::Yes(steps)),
        Answer::No(list) => Ok(Answer::No(list)),
        Answer::Exceeds(list) => Ok(Answer::Exceeds(list)),
    }
}

/// Whether some term of the algebra meets a condition that a user wrote, over up to `limits::LETTERS`
/// variables. One `decide` serves both kinds of conditions.
pub fn decide_rule<R: Threads + Sync, G: Gate>(
    rt: &R,
    alloc: Global,
    a: &Algebra,
    rule: &Condition,
    run: &Run<G>,
) -> Result<Answer, CloseError>
    ensures permitted { MayDecide a.now rule.now run.now.budget run.now.workers result }
{
    decide(rt, alloc, a, rule, run)
}
