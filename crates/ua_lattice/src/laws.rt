//! Laws of congruences and their joins: each function does nothing, and its contract states the laws.

ghost use Rattle.std.specs.Prelude.{ℕ, ◌≤◌, List, ◌++◌, length, Contains};
ghost use Rattle.ua_table.specs.Algebras.{FiniteAlgebra, IsAlgebra};
ghost use Rattle.ua_part.specs.Partitions.{Partition, IsPartition, IsJoin, identity_on};
ghost use Rattle.ua_prod.specs.Congruences.{IsCongruence};
ghost use Rattle.ua_cong.specs.Principals.{HasPrincipals};
ghost use Rattle.ua_lattice.specs.Answers.{HasLattice};
ghost use Rattle.ua_lattice.specs.Lattices.{HasCongruences, IsJoinClosed, IsJoinedWith, IsCongruenceList, IsExceedingList};
ghost use Rattle.ua_table.specs.declared.limits.TheConstants.{BUDGET};

use std::alloc::Global;

/// The join of congruences, as partitions, is a congruence; and a list of congruences that holds the
/// identity and all principal congruences, and is closed under joins, holds every congruence (S. Burris
/// and H. P. Sankappanavar, A Course in Universal Algebra, chapter II, on congruences).
pub fn joins()
    ensures congruence { (a : FiniteAlgebra) (p q r : Partition) → IsAlgebra a → IsCongruence a p → IsCongruence a q → IsJoin p q r → IsCongruence a r }
    ensures complete { (a : FiniteAlgebra) (list : List Partition) → Contains list (identity_on a.size) → HasPrincipals a list → IsJoinClosed list → HasCongruences a list }
{}

/// A list that is closed under joins stays so when it goes on with the joins of its members with one
/// partition more.
pub fn joined_with()
    ensures { (list more : List Partition) (p : Partition) → IsPartition p → IsJoinClosed list → IsJoinedWith list p more → IsJoinClosed (list ++ more) }
{}

/// An algebra with at most so many congruences has no list of one more: so an answer of one more than the
/// budget comes exactly where there are more.
pub fn whole_or_exceeding()
    ensures { (a : FiniteAlgebra) (budget : ℕ) (list more : List Partition) → IsCongruenceList a list → length list ≤ budget → ¬ IsExceedingList a budget more }
{}

/// All congruences of an algebra can be told, or one more than the budget. The allocator serves to speak of an
/// answer in memory.
pub fn answers(_alloc: Global)
    ensures { (a : FiniteAlgebra) (budget : ℕ) → IsAlgebra a → budget ≤ BUDGET → HasLattice a budget }
{}
