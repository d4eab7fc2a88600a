//! Laws of the term condition: each function does nothing, and its contract states them.

ghost use Rattle.std.specs.Prelude.{ℕ, ◌↔◌, List};
ghost use Rattle.ua_table.specs.Algebras.{Vector, FiniteAlgebra, IsAlgebra};
ghost use Rattle.ua_part.specs.Partitions.{Partition};
ghost use Rattle.ua_prod.specs.Congruences.{IsCongruence};
ghost use Rattle.ua_matrix.specs.Centrality.{Centralizes};
ghost use Rattle.ua_matrix.specs.Matrices.{IsMatrix, AreMatrices, MatricesCentralize, AllGo, Fails};
ghost use Rattle.ua_matrix.specs.Deltas.{DeltasHoldMatrices, DeltasAreLeast, DeltasDecide, DeltasBoundMatrices};
ghost use Rattle.ua_matrix.specs.Permitted.{CanTellCentral};
ghost use Rattle.ua_matrix.specs.Worked.{MeetIsNotAbelian};

/// The generated matrices decide the term condition, over all terms and all markings of their variables
/// (R. Freese and R. McKenzie, Commutator Theory for Congruence Modular Varieties, chapter 3). A list of
/// exactly these matrices decides it row by row, and a matrix that fails refutes it. Two congruences
/// centralize one another modulo either of them.
pub fn term_condition()
    ensures matrices { (a : FiniteAlgebra) (alpha beta delta : Partition) → Centralizes a alpha beta delta ↔ MatricesCentralize a alpha beta delta }
    ensures list { (a : FiniteAlgebra) (alpha beta delta : Partition) (matrices : List Vector) → AreMatrices a alpha beta matrices → Centralizes a alpha beta delta ↔ AllGo delta matrices }
    ensures refuted { (a : FiniteAlgebra) (alpha beta delta : Partition) (m : Vector) → IsMatrix a alpha beta m → Fails delta m → ¬ Centralizes a alpha beta delta }
    ensures first { (a : FiniteAlgebra) (alpha beta : Partition) → IsCongruence a alpha → IsCongruence a beta → Centralizes a alpha beta alpha }
    ensures second { (a : FiniteAlgebra) (alpha beta : Partition) → IsCongruence a alpha → IsCongruence a beta → Centralizes a alpha beta beta }
{}

/// The matrices of two congruences lie in their Delta, which is the least partition of the second one's pairs that
/// relates the two rows of each matrix, so their transitive closure. A congruence centralizes another modulo a
/// third exactly where no block of Delta has a pair of the third and one outside. There are no more matrices than
/// pairs that Delta relates, which is the sum of the squares of the sizes of its blocks.
pub fn deltas()
    ensures holds { (a : FiniteAlgebra) (alpha beta : Partition) → DeltasHoldMatrices a alpha beta }
    ensures least { (a : FiniteAlgebra) (alpha beta : Partition) → DeltasAreLeast a alpha beta }
    ensures decides { (a : FiniteAlgebra) (alpha beta : Partition) → DeltasDecide a alpha beta }
    ensures few { (a : FiniteAlgebra) (alpha beta : Partition) → DeltasBoundMatrices a alpha beta }
{}

/// It can be told otherwise than by want of memory whether a congruence centralizes another modulo a third.
pub fn answers()
    ensures { (a : FiniteAlgebra) (alpha beta delta : Partition) (b w : ℕ) → IsAlgebra a → IsCongruence a alpha → IsCongruence a beta → IsCongruence a delta → CanTellCentral a alpha beta delta b w }
{}

/// Worked examples of the term condition.
pub fn examples()
    ensures { MeetIsNotAbelian }
{}
