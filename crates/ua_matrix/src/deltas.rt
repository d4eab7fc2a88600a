//! The congruence Delta of two congruences, by whose blocks centrality is told without all matrices.

ghost use Rattle.std.specs.Prelude.{◌≡◌, ◌*◌, ◌<◌, ◌≤◌, ◌==◌, [], ◌∷◌, ◌++◌, length, slice_index, if◌then◌else◌, IfOk, OnOk, IfSome};
ghost use Rattle.std.specs.List.{AllByRecursion};
ghost use Rattle.std.specs.List.Sorted.{IsStrictlyIncreasing};
ghost use Rattle.ua_table.specs.declared.limits.TheConstants.{SIZE};
ghost use Rattle.ua_prod.specs.Congruences.{IsCongruence};
ghost use Rattle.ua_prod.specs.Constructions.{first_of, second_of, product_of};
ghost use Rattle.ua_matrix.specs.Deltas.{diagonal_pairs};
ghost use Rattle.ua_matrix.specs.Squares.{number_of};
ghost use Rattle.ua_matrix.specs.inner.Squares.{pairs_in, IsSubsquare, IsDeltaOf};

use std::alloc::{AllocError, Global};
use ua_cong::cg;
use ua_part::Part;
use ua_prod::{ProdError, place_among, product, subalgebra};
use ua_table::limits::SIZE;
use ua_table::{Algebra, Elem};

/// The congruence Delta of alpha and beta on the algebra of beta's pairs: the one that the pairs of (u,u) and
/// (v,v), u and v related by alpha, generate (R. Freese and R. McKenzie, Commutator Theory for Congruence
/// Modular Varieties, chapter 4).
#[derive(Drop)]
pub struct Delta {
    /// The numbers of beta's pairs in the square of the algebra, ascending.
    pub pairs: Vec<Elem>,
    /// The blocks of their places.
    pub blocks: Part,
}

/// Appends the number of a pair, if the partition relates the two.
fn push_pair(pairs: &mut Vec<Elem>, part: &Part, size: u32, pair: u32) -> Result<(), AllocError>
    requires size { size ≡ length part.now }
    requires few { size * size ≤ SIZE }
    requires pair { pair < size * size }
    requires some { 0 < size }
    ensures { OnOk result (pairs.new.items ≡ pairs.old.items ++ (if slice_index part.now (first_of size pair) == slice_index part.now (second_of size pair) then pair ∷ [] else [])) }
{
    if !part.same(pair / size, pair % size) {
        return Ok(());
    }
    pairs.push(pair as Elem)?;
    Ok(())
}

/// The numbers, in the square, of the pairs that a congruence relates, ascending.
fn pairs_in(alloc: Global, part: &Part) -> Result<Vec<Elem>, AllocError>
    requires some { 0 < length part.now }
    requires few { length part.now * length part.now ≤ SIZE }
    ensures { IfOk result (λ pairs. pairs.items ≡ pairs_in part.now) }
{
    let size = part.size();
    let mut pairs = Vec::new(alloc);
    for pair in 0..size * size {
        push_pair(&mut pairs, part, size, pair)?;
    }
    Ok(pairs)
}

/// The square of an algebra, if it is within the limits.
fn square_of(alloc: Global, a: &Algebra) -> Result<Option<Algebra>, AllocError>
    ensures { IfOk result (λ made. IfSome made (λ square. square ≡ product_of a.now.name a.now a.now)) }
{
    match product(alloc, a.name().copy(alloc)?, a, a) {
        Ok(square) => Ok(Some(square)),
        Err(ProdError::OutOfMemory) => Err(AllocError),
        Err(ProdError::Size) => Ok(None),
        Err(ProdError::Signature) => unreachable!(),
        Err(ProdError::NotClosed { .. }) => unreachable!(),
        Err(ProdError::NotCongruence(_)) => unreachable!(),
    }
}

/// The subalgebra of the square on these pairs, if the square is within the limits. That the pairs are closed
/// is tested.
fn subsquare(alloc: Global, a: &Algebra, pairs: &[Elem]) -> Result<Option<Algebra>, AllocError>
    requires increasing { IsStrictlyIncreasing pairs.now }
    requires range { AllByRecursion (λ k. k < a.now.size * a.now.size) pairs.now }
    ensures { IfOk result (λ made. IfSome made (IsSubsquare a.now pairs.now)) }
{
    let Some(square) = square_of(alloc, a)? else {
        return Ok(None);
    };
    // What this call ensures says that the square is an algebra.
    let _size = square.size();
    match subalgebra(alloc, a.name().copy(alloc)?, &square, pairs) {
        Ok(b) => {
            // What this call ensures says that the subalgebra is one.
            let _members = b.size();
            Ok(Some(b))
        }
        Err(ProdError::OutOfMemory) => Err(AllocError),
        Err(_) => Ok(None),
    }
}

/// The place of the pair (u,u) among the pairs.
fn diagonal(size: u32, pairs: &[Elem], u: u32) -> Elem
    requires element { u < size }
    requires few { size * size ≤ SIZE }
    requires places { length pairs.now ≤ SIZE }
    ensures { result ≡ number_of size pairs.now u u }
{
    place_among(pairs, (u * size + u) as Elem)
}

/// The places of (u,u) and of (v,v), v the least member of u's block, for each element u.
fn diagonal_pairs(
    alloc: Global,
    alpha: &Part,
    pairs: &[Elem],
) -> Result<Vec<(Elem, Elem)>, AllocError>
    requires few { length alpha.now * length alpha.now ≤ SIZE }
    requires places { length pairs.now ≤ SIZE }
    ensures { IfOk result (λ gens. gens.items ≡ diagonal_pairs (number_of (length alpha.now) pairs.now) alpha.now) }
{
    let size = alpha.size();
    let mut gens = Vec::with_capacity(alloc, size as usize)?;
    for u in 0..size {
        let first = diagonal(size, pairs, u);
        let second = diagonal(size, pairs, alpha.rep(u));
        gens.push((first, second))?;
    }
    Ok(gens)
}

/// The congruence Delta of two congruences, where the square of the algebra is within the limits.
pub fn delta_of(
    alloc: Global,
    a: &Algebra,
    alpha: &Part,
    beta: &Part,
) -> Result<Option<Delta>, AllocError>
    requires alpha { IsCongruence a.now alpha.now }
    requires beta { IsCongruence a.now beta.now }
    ensures { IfOk result (λ delta. IfSome delta (IsDeltaOf a.now alpha.now beta.now)) }
{
    let size = a.size();
    if size * size > SIZE {
        return Ok(None);
    }
    let pairs = pairs_in(alloc, beta)?;
    let Some(b) = subsquare(alloc, a, pairs.as_slice())? else {
        return Ok(None);
    };
    let gens = diagonal_pairs(alloc, alpha, pairs.as_slice())?;
    let blocks = cg(alloc, &b, gens.as_slice())?;
    Ok(Some(Delta { pairs, blocks }))
}
