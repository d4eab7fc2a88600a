//! Laws of free algebras and identities: each function does nothing, and its contract states them.

ghost use Rattle.std.specs.Prelude.{◌≡◌, ◌↔◌, ℕ, ◌<◌, ◌≤◌};
ghost use Rattle.ua_table.specs.Algebras.{Vector, FiniteAlgebra, IsAlgebra};
ghost use Rattle.ua_table.specs.Terms.{Tree};
ghost use Rattle.ua_table.specs.Generated.{Sg};
ghost use Rattle.ua_term.specs.Assignments.{projections, power_of_assignments, term_operation};
ghost use Rattle.ua_free.specs.Identities.{variables_in, Holds};
ghost use Rattle.ua_free.specs.Permitted.{MayFree, MayHold};
ghost use Rattle.ua_free.specs.declared.identities.HoldsError.{HoldsError};
ghost use Rattle.ua_close.specs.Permitted.{IsAnswerable};
ghost use Rattle.ua_close.specs.declared.close.CloseError.{CloseError};
ghost use Rattle.ua_table.specs.declared.limits.TheConstants.{VARIABLES};
ghost use Rattle.ua_free.specs.TermOperations.{IsTermOperation};

use std::alloc::Global;

/// The members of a free algebra are the values of terms in its variables at all assignments, and two terms
/// have the same values exactly where their identity holds (S. Burris and H. P. Sankappanavar, A Course in
/// Universal Algebra, chapter II, on free algebras).
pub fn members()
    ensures terms { (a : FiniteAlgebra) (k : ℕ) (v : Vector) → 0 < a.size → Sg (power_of_assignments a k) (projections a.size k) v ↔ IsTermOperation a k v }
    ensures identities { (a : FiniteAlgebra) (k : ℕ) (s t : Tree) → (term_operation a k s ≡ term_operation a k t) ↔ Holds a k s t }
{}

/// A free algebra is told, or that it has more members than the budget, or it is too wide.
pub fn free_algebras()
    ensures { (a : FiniteAlgebra) (k b w : ℕ) → IsAlgebra a → IsAnswerable (MayFree a k b w) CloseError.OutOfMemory }
{}

/// An identity in no more variables than their limit is told to hold, or to fail at an assignment, or it has too many
/// assignments. The allocator serves to speak of an answer in memory.
pub fn identities(_alloc: Global)
    ensures { (a : FiniteAlgebra) (s t : Tree) → variables_in s t ≤ VARIABLES → IsAnswerable (MayHold a s t) HoldsError.OutOfMemory }
{}
