//! Identities at every assignment of elements to their variables.

ghost use Rattle.std.specs.Prelude.{◌≡◌, ◌≤◌};
ghost use Rattle.ua_table.specs.declared.limits.TheConstants.{VARIABLES};
ghost use Rattle.ua_table.specs.Algebras.{arities_of};
ghost use Rattle.ua_table.specs.Terms.{IsTerm};
ghost use Rattle.ua_term.specs.Trees.{tree_of};
ghost use Rattle.ua_free.specs.Identities.{variables_of};
ghost use Rattle.ua_free.specs.Permitted.{MayHold};

use std::alloc::{AllocError, Global};
use thiserror::Error;
use ua_table::limits::{ASSIGNMENTS, VARIABLES};
use ua_table::{Algebra, Elem, next_tuple};
use ua_term::{Term, assignment_count, eval};

/// Why an identity was not tried.
#[derive(Clone, Copy, Debug, PartialEq, Eq, Error)]
pub enum HoldsError {
    /// There are so many assignments, which is more than `limits::ASSIGNMENTS`.
    #[error("there are too many assignments: {0}")]
    Wide(u128),
    #[error("out of memory")]
    OutOfMemory,
}

impl From<AllocError> for HoldsError {
    ghost use Rattle.std.specs.Prelude.{◌≡◌};
    ghost use Rattle.ua_free.specs.declared.identities.HoldsError.{HoldsError};

    ghost from_gives = { λ _ e. e ≡ HoldsError.OutOfMemory };

    fn from(_: AllocError) -> Self {
        HoldsError::OutOfMemory
    }
}

/// One more than the greatest variable of a term, or 0 where it has none.
fn variables_of(term: &Term) -> u8
    requires { variables_of (tree_of term.now) ≤ VARIABLES }
    ensures { result ≡ variables_of (tree_of term.now) }
{
    match term {
        Term::Var(i) => *i as u8 + 1,
        Term::Op(_, terms) => {
            let mut most: u8 = 0;
            for i in 0..terms.len() {
                most = most.max(variables_of(&terms[i]));
            }
            most
        }
    }
}

/// The first assignment at which the identity of two terms fails in the algebra, in lexicographic order, or
/// None where it holds at all of them (S. Burris and H. P. Sankappanavar, A Course in Universal Algebra,
/// chapter II, on identities).
///
/// It has one variable more than the greatest that occurs, so `x7` alone has eight. The time is that of two
/// evaluations for each assignment up to the answer, and the memory that of one assignment.
pub fn holds(
    alloc: Global,
    a: &Algebra,
    s: &Term,
    t: &Term,
) -> Result<Option<Vec<Elem>>, HoldsError>
    requires left { IsTerm (arities_of a.now) VARIABLES (tree_of s.now) }
    requires right { IsTerm (arities_of a.now) VARIABLES (tree_of t.now) }
    ensures permitted { MayHold a.now (tree_of s.now) (tree_of t.now) result }
{
    let variables = variables_of(s).max(variables_of(t));
    let count = assignment_count(a.size(), variables);
    if count > u128::from(ASSIGNMENTS) {
        return Err(HoldsError::Wide(count));
    }
    let mut xs = vec![in alloc; 0; usize::from(variables)]?;
    for _ in 0..count as u64 {
        if eval(a, s, xs.as_slice()) != eval(a, t, xs.as_slice()) {
            return Ok(Some(xs));
        }
        next_tuple(xs.as_mut_slice(), a.size());
    }
    Ok(None)
}
