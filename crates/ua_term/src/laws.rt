//! Laws of assignments and of terms at them, for the proofs of the crates above: the function does nothing,
//! and its contract states them.

ghost use Rattle.std.specs.Prelude.{◌≡◌, ◌↔◌, ℕ, ◌^◌, List, length, Some, Contains, slice_get};
ghost use Rattle.ua_table.specs.Algebras.{FiniteAlgebra, arities_of, numeral};
ghost use Rattle.ua_table.specs.Terms.{Tree, IsTerm};
ghost use Rattle.ua_term.specs.Assignments.{IsAssignment, assignments, value_at_projections, term_operation};

/// The list of assignments has each of them, at the number whose digits are its elements. In the power with
/// a coordinate for each, a term at the projections has as its value the term's values at all assignments.
pub fn assignments()
    ensures count { (n variables : ℕ) → length (assignments n variables) ≡ n ^ variables }
    ensures each { (n variables : ℕ) (xs : List ℕ) → Contains (assignments n variables) xs ↔ IsAssignment n variables xs }
    ensures order { (n variables : ℕ) (xs : List ℕ) → IsAssignment n variables xs → slice_get (assignments n variables) (numeral n xs) ≡ Some xs }
    ensures values { (a : FiniteAlgebra) (variables : ℕ) (t : Tree) → IsTerm (arities_of a) variables t → value_at_projections a variables t ≡ term_operation a variables t }
{}
