//! Few matrices that decide centrality, by the blocks of Delta.

ghost use Rattle.std.specs.Prelude.{◌≡◌, ◌+◌, ◌*◌, ◌<◌, ◌≤◌, ◌==◌, List, [], ◌∷◌, ◌++◌, length, map, replicate, slice_index, IfOk, OnOk, IfSome, IfNone, IsTrue};
ghost use Rattle.std.specs.List.{AllByRecursion, filter, range_with_len};
ghost use Rattle.ua_table.specs.declared.limits.TheConstants.{SIZE, BUDGET};
ghost use Rattle.ua_table.specs.Algebras.{Vector, Operation};
ghost use Rattle.ua_table.specs.Numbering.{greatest};
ghost use Rattle.ua_part.specs.Pairs.{pairs_at, related_pairs};
ghost use Rattle.ua_prod.specs.Congruences.{IsCongruence};
ghost use Rattle.ua_close.specs.Answers.{IsWide};
ghost use Rattle.ua_matrix.specs.Deltas.{matrix_of_rows};
ghost use Rattle.ua_matrix.specs.inner.Deltas.{leading_matrices};
ghost use Rattle.ua_matrix.specs.Squares.{AreDeciding};
ghost use Rattle.ua_matrix.specs.inner.Squares.{left_of, right_of};

use crate::deltas::{Delta, delta_of};
use crate::generators::generating_matrices;
use std::alloc::{AllocError, Global};
use ua_part::Part;
use ua_table::limits::CELLS;
use ua_table::{Algebra, Elem, OpTable, Vectors};

/// An algebra of so many elements has at most 4,096 matrices, which are closed in any case.
const FEW: u32 = 8;

fn greatest_arity(ops: &[OpTable]) -> u8
    ensures { result ≡ greatest (map (λ (o : Operation). o.arity) ops.now) }
{
    ops.iter().fold(0, |most, op| op.arity().max(most))
}

/// Whether a closure of so many matrices is not too wide.
fn is_narrow(a: &Algebra, gens: u32, budget: u32) -> bool
    requires { budget ≤ BUDGET }
    ensures { IsTrue result → (vectors : List Vector) → length vectors ≡ gens → ¬ IsWide (replicate 4 a.now) vectors budget }
{
    let ops = a.ops();
    let power = u128::from(budget).pow(u32::from(greatest_arity(ops)));
    let records = u128::from(gens) + 1 + ops.len() as u128 * power;
    records < 1 << 63 && u64::from(budget) * 4 <= CELLS
}

/// How many members the block of an element has.
fn block_len(part: &Part, x: u32) -> u32
    requires { x < length part.now }
    ensures count { result ≡ length (pairs_at part.now x) }
    ensures few { result ≤ length part.now }
{
    let mut count: u32 = 0;
    for y in 0..part.size() {
        if part.rep(y) == part.rep(x) {
            count += 1;
        }
    }
    count
}

/// How many pairs a partition relates: the sum of the squares of the sizes of its blocks.
fn related_count(part: &Part) -> u32
    requires { length part.now ≤ SIZE }
    ensures { result ≡ length (related_pairs part.now) }
{
    let mut count: u32 = 0;
    for x in 0..part.size() {
        count += block_len(part, x);
    }
    count
}

/// The matrix with the pairs at two places as its rows.
fn matrix_of_rows(size: u32, pairs: &[Elem], upper: Elem, lower: Elem) -> [Elem; 4]
    requires some { 0 < size }
    requires upper { upper < length pairs.now }
    requires lower { lower < length pairs.now }
    ensures { result ≡ matrix_of_rows (left_of size pairs.now) (right_of size pairs.now) upper lower }
{
    let first = u32::from(pairs[usize::from(upper)]);
    let second = u32::from(pairs[usize::from(lower)]);
    [
        (first / size) as Elem,
        (first % size) as Elem,
        (second / size) as Elem,
        (second % size) as Elem,
    ]
}

/// The matrices of each pair with the least of its block, one above the other both ways.
fn leading_matrices(alloc: Global, size: u32, delta: &Delta) -> Result<Vectors, AllocError>
    requires some { 0 < size }
    requires few { length delta.now.pairs.items ≤ SIZE }
    requires places { length delta.now.blocks ≡ length delta.now.pairs.items }
    ensures width { IfOk result (λ matrices. matrices.width ≡ 4) }
    ensures items { IfOk result (λ matrices. matrices.items ≡ leading_matrices (left_of size delta.now.pairs.items) (right_of size delta.now.pairs.items) delta.now.blocks) }
{
    let pairs = delta.pairs.as_slice();
    let mut matrices = Vectors::new(alloc, 4);
    for place in 0..delta.blocks.size() {
        let e = place as Elem;
        let leader = delta.blocks.rep(place) as Elem;
        matrices.add(&matrix_of_rows(size, pairs, leader, e))?;
        matrices.add(&matrix_of_rows(size, pairs, e, leader))?;
    }
    Ok(matrices)
}

/// Matrices that decide whether a congruence centralizes another, modulo any third, if few do: two for each
/// pair of the second. It answers none where the pairs of one block of Delta each, which bound the matrices,
/// are more than the budget, where the square of the algebra is beyond the limits, or where the algebra has
/// no more than eight elements.
pub fn deciding_matrices(
    alloc: Global,
    a: &Algebra,
    alpha: &Part,
    beta: &Part,
    budget: u32,
) -> Result<Option<Vectors>, AllocError>
    requires alpha { IsCongruence a.now alpha.now }
    requires beta { IsCongruence a.now beta.now }
    requires budget { budget ≤ BUDGET }
    ensures { IfOk result (λ found. IfSome found (λ matrices. AreDeciding a.now alpha.now beta.now budget matrices.items)) }
{
    if a.size() <= FEW {
        return Ok(None);
    }
    let gens = generating_matrices(alloc, a, alpha, beta)?;
    if !is_narrow(a, gens.len(), budget) {
        return Ok(None);
    }
    let Some(delta) = delta_of(alloc, a, alpha, beta)? else {
        return Ok(None);
    };
    if related_count(&delta.blocks) > budget {
        return Ok(None);
    }
    Ok(Some(leading_matrices(alloc, a.size(), &delta)?))
}
