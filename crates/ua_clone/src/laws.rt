//! Laws of polynomials that agree with points: each function does nothing, and its contract states them.

ghost use Rattle.std.specs.Prelude.{◌≡◌, ◌↔◌, ℕ, ◌<◌, ◌≤◌, List, length};
ghost use Rattle.ua_table.specs.Algebras.{FiniteAlgebra, IsAlgebra, IsVector, AreVectorsOf, arities_of};
ghost use Rattle.ua_table.specs.Terms.{Tree, IsTerm, eval};
ghost use Rattle.ua_term.specs.Steps.{StepList};
ghost use Rattle.ua_clone.specs.declared.kinds.CloneKind.{CloneKind};
ghost use Rattle.ua_clone.specs.declared.polynomials.Poly.{Poly};
ghost use Rattle.ua_clone.specs.Points.{Point, AreAllPoints};
ghost use Rattle.ua_clone.specs.Polynomials.{IsPolynomial, polynomial_value, IsAgreeing, HasPolynomial, named_elements};
ghost use Rattle.ua_clone.specs.Frames.{point_power, point_generators, wanted_values, HasValuesAt, GivesWanted, GenerateWanted};
ghost use Rattle.ua_clone.specs.Permitted.{WriteAgreeing, AgreesIfWritten, CanTellPolynomial};

/// In the power with a coordinate for each point, a term at the vectors of variables and elements has as its
/// value the polynomial's values at the points. So the vector of the wanted values is generated exactly where
/// some polynomial agrees with the points (S. Burris and H. P. Sankappanavar, A Course in Universal Algebra,
/// chapter II, on terms and polynomials). What `to_poly` makes of the last of the steps of a yes, where it is
/// not None, is a polynomial of the kind that agrees with the points. Where no element stands in a polynomial, its
/// value is that of a term.
pub fn polynomials()
    ensures values { (a : FiniteAlgebra) (k : ℕ) (kind : CloneKind) (ps : List Point) (t : Tree) → AreAllPoints a.size k ps → IsPolynomial a k kind t → HasValuesAt a k kind ps t }
    ensures written { (a : FiniteAlgebra) (k : ℕ) (kind : CloneKind) (ps : List Point) (t : Tree) → 0 < length ps → AreAllPoints a.size k ps → GivesWanted a k kind ps t ↔ IsAgreeing a k kind ps t }
    ensures member { (a : FiniteAlgebra) (k : ℕ) (kind : CloneKind) (ps : List Point) → 0 < length ps → AreAllPoints a.size k ps → GenerateWanted a k kind ps ↔ HasPolynomial a k kind ps }
    ensures generators { (a : FiniteAlgebra) (k : ℕ) (kind : CloneKind) (ps : List Point) → AreAllPoints a.size k ps → AreVectorsOf (point_power a ps) (point_generators a k kind ps) }
    ensures wanted { (a : FiniteAlgebra) (k : ℕ) (ps : List Point) → AreAllPoints a.size k ps → IsVector (point_power a ps) (wanted_values ps) }
    ensures made { (a : FiniteAlgebra) (k : ℕ) (kind : CloneKind) (ps : List Point) (s : StepList) (limit : ℕ) (p : Poly) → WriteAgreeing a k kind ps s → AgreesIfWritten a k kind ps s limit p }
    ensures terms { (a : FiniteAlgebra) (xs : List ℕ) (t : Tree) → IsTerm (arities_of a) (length xs) t → polynomial_value a xs t ≡ eval a xs t }
    ensures few { (kind : CloneKind) (n : ℕ) → named_elements kind n ≤ n }
{}

/// Whether some polynomial of the kind agrees with points can be told otherwise than by want of memory.
pub fn answers()
    ensures { (a : FiniteAlgebra) (k : ℕ) (kind : CloneKind) (ps : List Point) (b w : ℕ) → IsAlgebra a → 0 < length ps → AreAllPoints a.size k ps → CanTellPolynomial a k kind ps b w }
{}
