//! Laws of commutators and of series: each function does nothing, and its contract states them.

ghost use Rattle.std.specs.Prelude.{◌≡◌, ◌≢◌, ℕ, ◌<◌, ◌≤◌, List};
ghost use Rattle.ua_table.specs.Counting.{total};
ghost use Rattle.ua_table.specs.Algebras.{Vector, FiniteAlgebra, IsAlgebra};
ghost use Rattle.ua_part.specs.Partitions.{Partition, LiesBelow, identity_on};
ghost use Rattle.ua_prod.specs.Congruences.{IsCongruence};
ghost use Rattle.ua_matrix.specs.Matrices.{AreMatrices};
ghost use Rattle.ua_comm.specs.Commutators.{IsCommutator, HasCommutator};
ghost use Rattle.ua_comm.specs.Growths.{IsLeastGoing};
ghost use Rattle.ua_comm.specs.declared.members.Kind.{Kind};
ghost use Rattle.ua_comm.specs.Series.{IsSuccessor, IsBeginningWithin, last_member};
ghost use Rattle.ua_comm.specs.Permitted.{CanTellCommutator, CanTellSeries};
ghost use Rattle.ua_table.specs.declared.limits.TheConstants.{SIZE};

use std::alloc::Global;

/// The least congruence with which each of the generated matrices goes is the commutator. Two congruences
/// have exactly one, and it lies below both (R. Freese and R. McKenzie, Commutator Theory for Congruence
/// Modular Varieties, chapter 3).
pub fn commutators()
    ensures grown { (a : FiniteAlgebra) (alpha beta delta : Partition) (matrices : List Vector) → AreMatrices a alpha beta matrices → IsLeastGoing a matrices delta → IsCommutator a alpha beta delta }
    ensures exists { (a : FiniteAlgebra) (alpha beta : Partition) → IsAlgebra a → IsCongruence a alpha → IsCongruence a beta → HasCommutator a alpha beta }
    ensures one { (a : FiniteAlgebra) (alpha beta delta other : Partition) → IsCommutator a alpha beta delta → IsCommutator a alpha beta other → delta ≡ other }
    ensures first { (a : FiniteAlgebra) (alpha beta delta : Partition) → IsCongruence a alpha → IsCongruence a beta → IsCommutator a alpha beta delta → LiesBelow delta alpha }
    ensures second { (a : FiniteAlgebra) (alpha beta delta : Partition) → IsCongruence a alpha → IsCongruence a beta → IsCommutator a alpha beta delta → LiesBelow delta beta }
{}

/// The members of a series are congruences, and the entries of a successor, if it is another, have a greater
/// total, which is at most that of the identity. So a series ends.
pub fn descents()
    ensures congruence { (a : FiniteAlgebra) (kind : Kind) (budget : ℕ) (members : List Partition) → IsBeginningWithin a kind budget members → IsAlgebra a → IsCongruence a (last_member members) }
    ensures rises { (a : FiniteAlgebra) (kind : Kind) (d e : Partition) → IsAlgebra a → IsCongruence a d → IsSuccessor a kind d e → d ≢ e → total (λ x. x) d < total (λ x. x) e }
    ensures bounded { (a : FiniteAlgebra) (d : Partition) → IsCongruence a d → total (λ x. x) d ≤ total (λ x. x) (identity_on a.size) }
{}

/// A commutator and a series can be told otherwise than by want of memory. The allocator serves to speak of an
/// answer in memory.
pub fn answers(_alloc: Global)
    ensures commutator { (a : FiniteAlgebra) (alpha beta : Partition) (b : ℕ) → IsAlgebra a → IsCongruence a alpha → IsCongruence a beta → CanTellCommutator a alpha beta b }
    ensures series { (a : FiniteAlgebra) (kind : Kind) (b : ℕ) → IsAlgebra a → a.size ≤ SIZE → CanTellSeries a kind b }
{}
