//! Laws of clashes and of escapes: each function does nothing, and its contract states them.

ghost use Rattle.std.specs.Prelude.{◌≡◌, ◌⊎◌, ℕ, ◌<◌, List, length};
ghost use Rattle.std.specs.List.{AllByRecursion};
ghost use Rattle.ua_table.specs.Algebras.{FiniteAlgebra, IsAlgebra};
ghost use Rattle.ua_part.specs.Partitions.{Partition, IsPartition};
ghost use Rattle.ua_prod.specs.Congruences.{IsCongruence};
ghost use Rattle.ua_prod.specs.Clashes.{IsClash, HasFirstClash};
ghost use Rattle.ua_prod.specs.Escapes.{IsClosed, IsEscape, HasFirstEscape};
ghost use Rattle.ua_prod.specs.declared.clashes.Clash.{Clash};

/// A partition of the elements of an algebra is a congruence, or it has a first clash; a congruence has none.
pub fn clashes()
    ensures one { (a : FiniteAlgebra) (p : Partition) → IsAlgebra a → IsPartition p → length p ≡ a.size → IsCongruence a p ⊎ HasFirstClash a p }
    ensures none { (a : FiniteAlgebra) (p : Partition) (c : Clash) → IsCongruence a p → ¬ IsClash a p c }
{}

/// A set of elements of an algebra is closed under its operations, or it has a first escape; a closed set has none.
pub fn escapes()
    ensures one { (a : FiniteAlgebra) (set : List ℕ) → IsAlgebra a → AllByRecursion (λ x. x < a.size) set → IsClosed a set ⊎ HasFirstEscape a set }
    ensures none { (a : FiniteAlgebra) (set args : List ℕ) (f : ℕ) → IsClosed a set → ¬ IsEscape a set f args }
{}
