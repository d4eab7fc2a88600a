//! Laws of generated subalgebras and of maps: each function does nothing, and its contract states them.

ghost use Rattle.std.specs.Prelude.{◌≡◌, ℕ, List, length, Contains};
ghost use Rattle.std.specs.List.{AllByRecursion};
ghost use Rattle.ua_table.specs.Algebras.{FiniteAlgebra, Product, Vector, IsAlgebra};
ghost use Rattle.ua_table.specs.Generated.{HasMoreThan};
ghost use Rattle.ua_table.specs.Listings.{Row};
ghost use Rattle.ua_term.specs.Steps.{StepList};
ghost use Rattle.ua_sub.specs.Members.{AreMembers, HoldsValueAt, HasMembers, HasOnes};
ghost use Rattle.ua_sub.specs.Homs.{both, with_images, IsGraph, IsMap, IsMapOf, IsPairClash, IsExceedingGraph};
ghost use Rattle.ua_sub.specs.Extensions.{IsExtension};
ghost use Rattle.ua_sub.specs.Permitted.{CanTellMap, AreElements};

use ua_close::laws::memberships;

/// Elements generate some elements. What they generate holds them, lies in the algebra, and is closed under its
/// operations. So it is the universe of a subalgebra, where there is any.
pub fn members()
    ensures exist { (a : FiniteAlgebra) (gens : List ℕ) → IsAlgebra a → AreElements a gens → HasMembers a gens }
    ensures each_alone { (a : FiniteAlgebra) → IsAlgebra a → HasOnes a }
    ensures generators { (a : FiniteAlgebra) (gens members : List ℕ) → AreMembers a gens members → AllByRecursion (Contains members) gens }
    ensures below { (a : FiniteAlgebra) (gens members : List ℕ) → IsAlgebra a → AreElements a gens → AreMembers a gens members → AreElements a members }
    ensures closed { (a : FiniteAlgebra) (gens members : List ℕ) (f : ℕ) (args : List ℕ) → AreMembers a gens members → HoldsValueAt a members f args }
{}

/// Something is told, or the algebras or the width are refused. A map is told only where there are no more pairs than
/// the budget, a clash only where these are the graph of no function, and neither only where there are more. So within
/// the budget there is a map exactly where they are one, and else a clash.
pub fn answers()
    ensures told { (a b : FiniteAlgebra) (gens images : List ℕ) (n w : ℕ) → IsAlgebra a → IsAlgebra b → AreElements a gens → AreElements b images → CanTellMap a b gens images n w }
    ensures map { (p : Product) (gens : List Vector) (b : ℕ) (pairs : List (ℕ × ℕ)) → IsMap p gens b pairs → ¬ HasMoreThan p gens b }
    ensures exceeds { (p : Product) (gens : List Vector) (b : ℕ) (rows : List Row) → IsExceedingGraph p gens b rows → HasMoreThan p gens b }
    ensures clash { (p : Product) (gens : List Vector) (x y z : ℕ) (first second : StepList) → IsPairClash p gens x y z first second → ¬ IsGraph p gens }
{
    memberships();
}

/// A map that is told is a homomorphism of the subalgebra that the generators generate, and takes each of them to
/// its image. Where there is any such, the pairs are the graph of a function (S. Burris and H. P. Sankappanavar, A
/// Course in Universal Algebra, chapter II, on homomorphisms).
pub fn extensions()
    ensures map { (a b : FiniteAlgebra) (gens images : List ℕ) (n : ℕ) (pairs : List (ℕ × ℕ)) → length images ≡ length gens → IsMapOf a b gens images n pairs → IsExtension a b gens images pairs }
    ensures graph { (a b : FiniteAlgebra) (gens images : List ℕ) (pairs : List (ℕ × ℕ)) → IsExtension a b gens images pairs → IsGraph (both a b) (with_images gens images) }
{}
