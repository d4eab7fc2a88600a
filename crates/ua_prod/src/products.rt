//! Products of two algebras.

ghost use Rattle.std.specs.Prelude.{◌≡◌, ◌*◌, ◌^◌, ◌<◌, ◌≤◌, map, IfOk};
ghost use Rattle.std.specs.List.{range_with_len};
ghost use Rattle.ua_table.specs.declared.limits.TheConstants.{SIZE, VALUES};
ghost use Rattle.ua_table.specs.Algebras.{arities_of, signature};
ghost use Rattle.ua_prod.specs.Constructions.{first_of, second_of, paired, side_by_side};
ghost use Rattle.ua_prod.specs.Sizes.{values_needed};
ghost use Rattle.ua_prod.specs.Permitted.{MayProduct};

use crate::errors::ProdError;
use crate::sizes::is_too_large;
use crate::tuples::tuple_numbers;
use std::alloc::{AllocError, Global};
use ua_table::{Algebra, Elem, Name, OpTable};

/// Of each pair of elements, in the order of the numbers of pairs, the first and the second.
#[derive(Drop)]
struct Pairs {
    firsts: Vec<Elem>,
    seconds: Vec<Elem>,
}

/// The pairs of an element of the one size and one of the other.
fn pairs_of(alloc: Global, first: u32, second: u32) -> Result<Pairs, AllocError>
    requires some { 0 < second }
    requires few { first * second ≤ SIZE }
    ensures firsts { IfOk result (λ pairs. pairs.firsts.items ≡ map (first_of second) (range_with_len 0 (first * second))) }
    ensures seconds { IfOk result (λ pairs. pairs.seconds.items ≡ map (second_of second) (range_with_len 0 (first * second))) }
{
    let mut firsts = Vec::new(alloc);
    let mut seconds = Vec::new(alloc);
    for pair in 0..first * second {
        firsts.push((pair / second) as Elem)?;
        seconds.push((pair % second) as Elem)?;
    }
    Ok(Pairs { firsts, seconds })
}

/// The values of two operations side by side, at all tuples of pairs.
fn values_paired(
    alloc: Global,
    o: &OpTable,
    p: &OpTable,
    pairs: &Pairs,
) -> Result<Vec<Elem>, AllocError>
    requires arity { o.now.arity ≡ p.now.arity }
    requires few { o.now.size * p.now.size ≤ SIZE }
    requires firsts { pairs.now.firsts.items ≡ map (first_of p.now.size) (range_with_len 0 (o.now.size * p.now.size)) }
    requires seconds { pairs.now.seconds.items ≡ map (second_of p.now.size) (range_with_len 0 (o.now.size * p.now.size)) }
    ensures { IfOk result (λ v. v.items ≡ (paired o.now p.now).values) }
{
    let size = p.size();
    let lefts = tuple_numbers(alloc, o.size(), pairs.firsts.as_slice(), o.arity())?;
    let rights = tuple_numbers(alloc, size, pairs.seconds.as_slice(), p.arity())?;
    let mut values = Vec::with_capacity(alloc, lefts.len())?;
    for i in 0..lefts.len() {
        let left = o.values()[lefts[i] as usize];
        let right = p.values()[rights[i] as usize];
        values.push((u32::from(left) * size + u32::from(right)) as Elem)?;
    }
    Ok(values)
}

/// Two operations side by side.
fn table_paired(
    alloc: Global,
    o: &OpTable,
    p: &OpTable,
    pairs: &Pairs,
) -> Result<OpTable, AllocError>
    requires arity { o.now.arity ≡ p.now.arity }
    requires few { o.now.size * p.now.size ≤ SIZE }
    requires values { (o.now.size * p.now.size) ^ o.now.arity ≤ VALUES }
    requires firsts { pairs.now.firsts.items ≡ map (first_of p.now.size) (range_with_len 0 (o.now.size * p.now.size)) }
    requires seconds { pairs.now.seconds.items ≡ map (second_of p.now.size) (range_with_len 0 (o.now.size * p.now.size)) }
    ensures { IfOk result (λ made. made ≡ paired o.now p.now) }
{
    let values = values_paired(alloc, o, p, pairs)?;
    let name = o.name().copy(alloc)?;
    let Ok(made) = OpTable::new(name, o.size() * p.size(), o.arity(), values) else {
        unreachable!();
    };
    Ok(made)
}

/// The operations of two algebras of one signature side by side.
fn tables_paired(alloc: Global, a: &Algebra, b: &Algebra) -> Result<Vec<OpTable>, AllocError>
    requires signature { signature a.now ≡ signature b.now }
    requires few { a.now.size * b.now.size ≤ SIZE }
    requires values { values_needed (a.now.size * b.now.size) (arities_of a.now) ≤ VALUES }
    ensures { IfOk result (λ tables. tables.items ≡ side_by_side a.now.operations b.now.operations) }
{
    let pairs = pairs_of(alloc, a.size(), b.size())?;
    let mut tables = Vec::with_capacity(alloc, a.ops().len())?;
    for f in 0..a.ops().len() as u32 {
        tables.push(table_paired(alloc, a.op(f), b.op(f), &pairs)?)?;
    }
    Ok(tables)
}

/// The arities of the operations, in order.
fn arities_of(alloc: Global, a: &Algebra) -> Result<Vec<u8>, AllocError>
    ensures { IfOk result (λ arities. arities.items ≡ arities_of a.now) }
{
    a.ops().iter().map(|op| op.arity()).collect(alloc)
}

/// The product of two algebras (S. Burris and H. P. Sankappanavar, A Course in Universal Algebra, II.7):
/// the pair of x and y has the number x times the size of b, and y. It is refused where the signatures
/// differ (`Signature`), and else where the product is beyond the limits (`Size`).
pub fn product(alloc: Global, name: Name, a: &Algebra, b: &Algebra) -> Result<Algebra, ProdError>
    ensures { MayProduct name a.now b.now result }
{
    if !a.same_signature(b) {
        return Err(ProdError::Signature);
    }
    let size = a.size() * b.size();
    let arities = arities_of(alloc, a)?;
    if is_too_large(size, arities.as_slice()) {
        return Err(ProdError::Size);
    }
    let tables = tables_paired(alloc, a, b)?;
    let Ok(made) = Algebra::new(name, size, tables) else {
        unreachable!();
    };
    Ok(made)
}
