//! The values of terms that steps write, at assignments.

ghost use Rattle.std.specs.Prelude.{◌≡◌, ◌<◌, ◌≤◌, length, map, slice_index};
ghost use Rattle.std.specs.List.{AllByRecursion};
ghost use Rattle.ua_table.specs.Algebras.{arities_of, value_at};
ghost use Rattle.ua_table.specs.Origins.{IsOrigin};
ghost use Rattle.ua_table.specs.Terms.{eval};
ghost use Rattle.ua_term.specs.Steps.{AreSteps, written_term};
ghost use Rattle.ua_check.specs.inner.Equations.{element_of};

use ua_table::{Algebra, Elem, Origin};

/// The value of an operation at some of the values before it.
fn applied(a: &Algebra, op: u32, args: &[u32], values: &[Elem]) -> Elem
    requires operation { op < length a.now.operations }
    requires arity { length args.now ≡ slice_index (arities_of a.now) op }
    requires named { AllByRecursion (λ x. x < length values.now) args.now }
    requires values { AllByRecursion (λ x. x < a.now.size) values.now }
    ensures value { result ≡ value_at a.now op (map (slice_index values.now) args.now) }
    ensures element { result < a.now.size }
{
    let table = a.op(op);
    let mut entries = [0; 4];
    for (j, x) in args.iter().enumerate() {
        entries[j] = values[*x as usize];
    }
    table.value(&entries[..args.len()])
}

/// The value of a step, where the values of those before it are given, and generator i is the variable at
/// place i.
fn step_value(a: &Algebra, places: &[u8], xs: &[Elem], values: &[Elem], step: &Origin) -> Elem
    requires step { IsOrigin (arities_of a.now) (length places.now) (length values.now) step.now }
    requires places { AllByRecursion (λ v. v < length xs.now) places.now }
    requires elements { AllByRecursion (λ x. x < a.now.size) xs.now }
    requires values { AllByRecursion (λ x. x < a.now.size) values.now }
    ensures value { result ≡ element_of a.now (map (slice_index xs.now) places.now) values.now step.now }
    ensures element { result < a.now.size }
{
    match step {
        Origin::Gen { index } => xs[usize::from(places[*index as usize])],
        Origin::Op { op, args } => {
            let arity = usize::from(a.op(*op).arity());
            applied(a, *op, &args[..arity], values)
        }
    }
}

/// The value of the term that steps write at an assignment, where a variable stands at each of its places.
/// The values of all steps are written to the front of `values`.
pub(crate) fn value_of(
    a: &Algebra,
    steps: &[Origin],
    places: &[u8],
    xs: &[Elem],
    values: &mut [Elem],
) -> Elem
    requires some { 0 < length steps.now }
    requires steps { AreSteps (arities_of a.now) (length places.now) steps.now }
    requires places { AllByRecursion (λ v. v < length xs.now) places.now }
    requires elements { AllByRecursion (λ x. x < a.now.size) xs.now }
    requires room { length steps.now ≤ length values.old }
    ensures value { result ≡ eval a.now (map (slice_index xs.now) places.now) (written_term (arities_of a.now) steps.now) }
{
    for (i, step) in steps.iter().enumerate() {
        let value = step_value(a, places, xs, &values[..i], step);
        values[i] = value;
    }
    values[steps.len() - 1]
}
