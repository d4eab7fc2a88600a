//! Matrices that refute the term condition.

ghost use Rattle.std.specs.Prelude.{◌+◌, ◌<◌, ◌↔◌, [], length, slice_index_or, IsTrue, IfSome, IfNone};
ghost use Rattle.std.specs.List.{AllByRecursion};
ghost use Rattle.ua_table.specs.Listings.{vectors_of, ranks_of};
ghost use Rattle.ua_matrix.specs.Matrices.{AreFour, AllGo, Fails, IsFirstFailure};
ghost use Rattle.ua_matrix.specs.inner.Matrices.{IsFirstOfFront};

use ua_close::Listing;
use ua_part::Part;
use ua_table::{Elem, Vectors};

/// Whether the first row of a matrix is in delta, and the second is not.
pub fn fails(matrix: &[Elem], delta: &Part) -> bool
    requires { AreFour (length delta.now) matrix.now }
    ensures { IsTrue result ↔ Fails delta.now matrix.now }
{
    let first = delta.same(u32::from(matrix[0]), u32::from(matrix[1]));
    let second = delta.same(u32::from(matrix[2]), u32::from(matrix[3]));
    first && !second
}

/// The first matrix that fails with a congruence.
pub fn failing(matrices: &Vectors, delta: &Part) -> Option<u32>
    requires { AllByRecursion (AreFour (length delta.now)) matrices.now.items }
    ensures within { IfSome result (λ i. i < length matrices.now.items) }
    ensures some { IfSome result (λ i. Fails delta.now (slice_index_or matrices.now.items i [])) }
    ensures none { IfNone result (AllGo delta.now matrices.now.items) }
{
    for i in 0..matrices.len() {
        if fails(matrices.get(i), delta) {
            return Some(i);
        }
    }
    None
}

/// Of the first i matrices and the next, the one that fails and has the least rank, where this is the one
/// of the first i.
fn first_so_far(list: &Listing, delta: &Part, first: Option<u32>, i: u32) -> Option<u32>
    requires matrices { AllByRecursion (AreFour (length delta.now)) (vectors_of list.now) }
    requires place { i < length list.now }
    requires first { IsFirstOfFront delta.now (vectors_of list.now) (ranks_of list.now) i first }
    ensures { IsFirstOfFront delta.now (vectors_of list.now) (ranks_of list.now) (i + 1) result }
{
    if !fails(list.row(i), delta) {
        return first;
    }
    let Some(k) = first else {
        return Some(i);
    };
    let earlier = list.rank(k);
    let later = list.rank(i);
    if earlier <= later { Some(k) } else { Some(i) }
}

/// Of the matrices that fail, the one of the least rank.
pub(crate) fn first_failure(list: &Listing, delta: &Part) -> Option<u32>
    requires matrices { AllByRecursion (AreFour (length delta.now)) (vectors_of list.now) }
    ensures some { IfSome result (IsFirstFailure delta.now (vectors_of list.now) (ranks_of list.now)) }
    ensures none { IfNone result (AllGo delta.now (vectors_of list.now)) }
{
    let mut first = None;
    for i in 0..list.len() {
        first = first_so_far(list, delta, first, i);
    }
    first
}
