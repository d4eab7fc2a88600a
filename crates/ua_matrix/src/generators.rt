//! The matrices that generate those of two congruences.

ghost use Rattle.std.specs.Prelude.{◌≡◌, ◌+◌, ◌<◌, ◌≤◌, ◌*◌, ◌==◌, [], ◌∷◌, ◌++◌, length, map, slice_index, if◌then◌else◌, IfOk, OnOk};
ghost use Rattle.ua_table.specs.declared.limits.TheConstants.{SIZE};
ghost use Rattle.ua_part.specs.Pairs.{pairs_at, related_pairs};
ghost use Rattle.ua_prod.specs.Congruences.{IsCongruence};
ghost use Rattle.ua_matrix.specs.Matrices.{marked, matrix_of, matrix_generators};

use std::alloc::{AllocError, Global};
use ua_part::Part;
use ua_table::{Algebra, Elem, Vectors};

/// The matrix of a pair of alpha, whose rows are constant, or of one of beta, whose rows are equal.
fn matrix(is_alpha: bool, x: Elem, y: Elem) -> [Elem; 4]
    ensures { result ≡ matrix_of (marked is_alpha (x, y)) }
{
    if is_alpha { [x, x, y, y] } else { [x, y, x, y] }
}

/// Appends the matrix of a pair, if the two are in one block.
fn add_pair(
    gens: &mut Vectors,
    part: &Part,
    is_alpha: bool,
    x: u32,
    y: u32,
) -> Result<(), AllocError>
    requires few { length part.now ≤ SIZE }
    requires first { x < length part.now }
    requires second { y < length part.now }
    requires width { gens.old.width ≡ 4 }
    requires room { length gens.old.items < u32.MAX }
    ensures width { gens.new.width ≡ 4 }
    ensures length { length gens.new.items ≤ length gens.old.items + 1 }
    ensures items { OnOk result (gens.new.items ≡ gens.old.items ++ (if slice_index part.now y == slice_index part.now x then matrix_of (marked is_alpha (x, y)) ∷ [] else [])) }
{
    if !part.same(y, x) {
        return Ok(());
    }
    gens.add(&matrix(is_alpha, x as Elem, y as Elem))
}

/// Appends the matrices of the pairs of an element with the members of its block.
fn add_pairs_at(gens: &mut Vectors, part: &Part, is_alpha: bool, x: u32) -> Result<(), AllocError>
    requires few { length part.now ≤ SIZE }
    requires element { x < length part.now }
    requires width { gens.old.width ≡ 4 }
    requires room { length gens.old.items + length part.now ≤ u32.MAX }
    ensures width { gens.new.width ≡ 4 }
    ensures length { length gens.new.items ≤ length gens.old.items + length part.now }
    ensures items { OnOk result (gens.new.items ≡ gens.old.items ++ map matrix_of (map (marked is_alpha) (pairs_at part.now x))) }
{
    for y in 0..part.size() {
        add_pair(gens, part, is_alpha, x, y)?;
    }
    Ok(())
}

/// Appends the matrices of the pairs that a congruence relates.
fn add_pairs(gens: &mut Vectors, part: &Part, is_alpha: bool) -> Result<(), AllocError>
    requires few { length part.now ≤ SIZE }
    requires width { gens.old.width ≡ 4 }
    requires room { length gens.old.items + SIZE * SIZE ≤ u32.MAX }
    ensures width { gens.new.width ≡ 4 }
    ensures length { length gens.new.items ≤ length gens.old.items + SIZE * SIZE }
    ensures items { OnOk result (gens.new.items ≡ gens.old.items ++ map matrix_of (map (marked is_alpha) (related_pairs part.now))) }
{
    for x in 0..part.size() {
        add_pairs_at(gens, part, is_alpha, x)?;
    }
    Ok(())
}

/// The matrices (u,u,v,v) of the pairs of alpha, and then (u,v,u,v) of the pairs of beta, in lexicographic
/// order.
pub(crate) fn generating_matrices(
    alloc: Global,
    a: &Algebra,
    alpha: &Part,
    beta: &Part,
) -> Result<Vectors, AllocError>
    requires alpha { IsCongruence a.now alpha.now }
    requires beta { IsCongruence a.now beta.now }
    ensures width { IfOk result (λ gens. gens.width ≡ 4) }
    ensures items { IfOk result (λ gens. gens.items ≡ matrix_generators alpha.now beta.now) }
{
    // What this call ensures bounds the size.
    let _size = a.size();
    let mut gens = Vectors::new(alloc, 4);
    add_pairs(&mut gens, alpha, true)?;
    add_pairs(&mut gens, beta, false)?;
    Ok(gens)
}
