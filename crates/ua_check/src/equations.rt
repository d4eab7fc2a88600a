//! Equations between terms that steps write, at every assignment of elements to their variables.

ghost use Rattle.std.specs.Prelude.{◌≡◌, ◌-◌, ◌<◌, ◌≤◌, ℕ, List, length, take};
ghost use Rattle.std.specs.List.{AllByRecursion};
ghost use Rattle.std.specs.Option.{option_map};
ghost use Rattle.ua_table.specs.Algebras.{arities_of};
ghost use Rattle.ua_term.specs.Steps.{AreSteps, written_term};
ghost use Rattle.ua_flaws.specs.inner.Firsts.{first_behind};
ghost use Rattle.ua_check.specs.Conditions.{identity_failure};
ghost use Rattle.ua_check.specs.Equations.{differ};
ghost use Rattle.ua_check.specs.inner.Equations.{variable_identity, IsSide};

use crate::values::value_of;
use ua_table::{Algebra, Elem, Origin};

/// One side of an equation: the term that the steps write, with a variable at each of its places.
#[derive(Clone, Copy)]
pub(crate) struct Side<'a> {
    pub(crate) steps: &'a [Origin],
    pub(crate) places: &'a [u8],
}

/// Whether the two sides differ at an assignment.
fn differ(a: &Algebra, left: &Side, right: &Side, xs: &[Elem], values: &mut [Elem]) -> bool
    requires left { IsSide a.now (length xs.now) (length values.old) left.now }
    requires right { IsSide a.now (length xs.now) (length values.old) right.now }
    requires elements { AllByRecursion (λ x. x < a.now.size) xs.now }
    ensures { result ≡ differ a.now left.now right.now xs.now }
{
    let first = value_of(a, left.steps, left.places, xs, values);
    let second = value_of(a, right.steps, right.places, xs, values);
    first != second
}

/// The first assignment, of which some elements are given, at which the two sides differ. The recursion is as
/// deep as there are variables.
pub(crate) fn first_failure(
    a: &Algebra,
    left: &Side,
    right: &Side,
    variables: usize,
    xs: [Elem; 4],
    filled: usize,
    values: &mut [Elem],
) -> Option<[Elem; 4]>
    requires few { variables ≤ 4 }
    requires filled { filled ≤ variables }
    requires four { length xs ≡ 4 }
    requires elements { AllByRecursion (λ x. x < a.now.size) (take filled xs) }
    requires left { IsSide a.now variables (length values.old) left.now }
    requires right { IsSide a.now variables (length values.old) right.now }
    ensures { option_map (λ (xs : List ℕ). take variables xs) result ≡ first_behind (differ a.now left.now right.now) a.now.size (take filled xs) (variables - filled) }
{
    if filled == variables {
        if differ(a, left, right, &xs[..variables], values) {
            return Some(xs);
        }
        return None;
    }
    let mut next = xs;
    for x in 0..a.size() {
        next[filled] = x as Elem;
        let found = first_failure(a, left, right, variables, next, filled + 1, values);
        if found.is_some() {
            return found;
        }
    }
    None
}

/// The first assignment at which the identity fails that the term that the steps write, with variables at its
/// places, is this variable.
pub(crate) fn identity_failure(
    a: &Algebra,
    steps: &[Origin],
    variables: u8,
    places: &[u8],
    value: u8,
    values: &mut [Elem],
) -> Option<[Elem; 4]>
    requires few { variables ≤ 4 }
    requires some { 0 < length steps.now }
    requires steps { AreSteps (arities_of a.now) (length places.now) steps.now }
    requires places { AllByRecursion (λ v. v < variables) places.now }
    requires value { value < variables }
    requires room { length steps.now ≤ length values.old }
    ensures { option_map (λ (xs : List ℕ). take variables xs) result ≡ identity_failure a.now (written_term (arities_of a.now) steps.now) (variable_identity variables places.now value) }
{
    let left = Side { steps, places };
    let right = Side {
        steps: &[Origin::Gen { index: 0 }],
        places: &[value],
    };
    first_failure(a, &left, &right, usize::from(variables), [0; 4], 0, values)
}
