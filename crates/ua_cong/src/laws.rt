//! Laws of generated congruences: the function does nothing, and its contract states them.

ghost use Rattle.std.specs.Prelude.{ℕ, List};
ghost use Rattle.std.specs.List.{AllByRecursion};
ghost use Rattle.ua_table.specs.Algebras.{FiniteAlgebra, IsAlgebra};
ghost use Rattle.ua_cong.specs.Closings.{AreElements};
ghost use Rattle.ua_cong.specs.Generated.{HasCg};

/// Pairs of elements generate a congruence, the least one that relates them.
pub fn generated()
    ensures { (a : FiniteAlgebra) (pairs : List (ℕ × ℕ)) → IsAlgebra a → AllByRecursion (AreElements a) pairs → HasCg a pairs }
{}
