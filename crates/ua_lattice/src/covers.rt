//! Which congruences of a list cover which.

ghost use Rattle.std.specs.Prelude.{◌≡◌, ◌<◌, ◌≤◌, ◌^◌, ◌++◌, length, IfOk, OnOk};
ghost use Rattle.std.specs.List.{AllByRecursion};
ghost use Rattle.std.specs.List.Sorted.{IsStrictlyIncreasing};
ghost use Rattle.ua_part.specs.Partitions.{Partition, IsPartition};
ghost use Rattle.ua_lattice.specs.Lattices.{IsCongruenceList, AreCovers, at};
ghost use Rattle.ua_lattice.specs.inner.Joins.{HasJoins, IsSpannedLattice};
ghost use Rattle.ua_lattice.specs.inner.Places.{AreOrdered, AreJoinPushed, AreJoinPlaces, pairs_from};
ghost use Rattle.ua_table.specs.declared.limits.TheConstants.{SIZE};

use crate::joiner::{Joiner, lies_below};
use crate::least::keep_least;
use std::alloc::{AllocError, Global};
use ua_part::Part;
use ua_rows::Rows;
use ua_table::Algebra;

/// The partitions as rows.
fn rows_of(alloc: Global, joiner: &mut Joiner, size: u32, list: &[Part]) -> Result<Rows, AllocError>
    requires list { AreOrdered list.now }
    requires sizes { AllByRecursion (λ (p : Partition). length p ≡ size) list.now }
    requires count { length list.now < 2 ^ 32 }
    requires joiner { length joiner.old.row.items ≡ size }
    requires few { size ≤ SIZE }
    ensures joiner { length joiner.new.row.items ≡ length joiner.old.row.items }
    ensures width { IfOk result (λ rows. rows.width ≡ size) }
    ensures rows { IfOk result (λ rows. rows.items ≡ list.now) }
{
    let mut rows = Rows::new(alloc, size);
    for i in 0..list.len() {
        joiner.copy(&list[i]);
        rows.push(joiner.row.as_slice())?;
    }
    Ok(rows)
}

/// Notes the place of the join of row i with a generator, unless that lies below the row.
fn push_join(
    rows: &Rows,
    joiner: &mut Joiner,
    i: u32,
    generator: &Part,
    places: &mut Vec<u32>,
) -> Result<(), AllocError>
    requires named { i < length rows.now.items }
    requires partition { IsPartition (at rows.now.items i) }
    requires joins { HasJoins rows.now.items generator.now rows.now.items }
    requires width { rows.now.width ≡ length generator.now }
    requires joiner { length joiner.old.row.items ≡ length generator.now }
    requires few { length generator.now ≤ SIZE }
    ensures joiner { length joiner.new.row.items ≡ length joiner.old.row.items }
    ensures pushed { OnOk result (AreJoinPushed rows.now.items i generator.now places.old.items places.new.items) }
{
    let row = rows.row(i);
    if lies_below(generator, row) {
        return Ok(());
    }
    joiner.join(row, generator);
    let Some(place) = rows.find(joiner.row.as_slice()) else {
        unreachable!();
    };
    places.push(place)?;
    Ok(())
}

/// The places of the joins of row i with the generators that do not lie below it, ascending.
fn joins_above(
    rows: &Rows,
    joiner: &mut Joiner,
    i: u32,
    generators: &[Part],
    places: &mut Vec<u32>,
) -> Result<(), AllocError>
    requires named { i < length rows.now.items }
    requires partition { IsPartition (at rows.now.items i) }
    requires joins { AllByRecursion (λ q. HasJoins rows.now.items q rows.now.items) generators.now }
    requires sizes { AllByRecursion (λ (q : Partition). length q ≡ rows.now.width) generators.now }
    requires joiner { length joiner.old.row.items ≡ rows.now.width }
    requires few { rows.now.width ≤ SIZE }
    ensures joiner { length joiner.new.row.items ≡ length joiner.old.row.items }
    ensures places { OnOk result (AreJoinPlaces rows.now.items generators.now i places.new.items) }
    ensures in_order { OnOk result (IsStrictlyIncreasing places.new.items) }
{
    places.clear();
    for k in 0..generators.len() {
        push_join(rows, joiner, i, &generators[k], places)?;
    }
    places.sort_unstable();
    places.dedup();
    Ok(())
}

/// Appends the pairs of a place with each of others.
fn push_pairs(covers: &mut Vec<(u32, u32)>, i: u32, places: &[u32]) -> Result<(), AllocError>
    ensures { OnOk result (covers.new.items ≡ covers.old.items ++ pairs_from i places.now) }
{
    for k in 0..places.len() {
        covers.push((i, places[k]))?;
    }
    Ok(())
}

/// The pairs of places of which the second covers the first, ascending, in a list of all congruences that
/// some of them span.
pub fn covers_of(
    alloc: Global,
    joiner: &mut Joiner,
    algebra: &Algebra,
    list: &[Part],
    generators: &[Part],
) -> Result<Vec<(u32, u32)>, AllocError>
    requires list { IsCongruenceList algebra.now list.now }
    requires spanned { IsSpannedLattice algebra.now generators.now list.now }
    requires count { length list.now < 2 ^ 32 }
    requires joiner { length joiner.old.row.items ≡ algebra.now.size }
    ensures { IfOk result (λ covers. AreCovers algebra.now list.now covers.items) }
{
    let rows = rows_of(alloc, joiner, algebra.size(), list)?;
    let mut covers = Vec::new(alloc);
    let mut places = Vec::new(alloc);
    let mut least = Vec::new(alloc);
    for i in 0..rows.len() {
        joins_above(&rows, joiner, i, generators, &mut places)?;
        keep_least(list, places.as_slice(), &mut least)?;
        push_pairs(&mut covers, i, least.as_slice())?;
    }
    Ok(covers)
}
