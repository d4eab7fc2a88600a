//! The joins of some congruences, each once.

ghost use Rattle.std.specs.Prelude.{◌≡◌, ◌+◌, ◌<◌, ◌≤◌, [], ◌∷◌, length, slice_index_or, Contains, IfOk, OnOk, IsTrue, IsFalse};
ghost use Rattle.std.specs.List.{AllByRecursion};
ghost use Rattle.ua_part.specs.Partitions.{IsPartition, identity_on};
ghost use Rattle.ua_prod.specs.Congruences.{IsCongruence};
ghost use Rattle.ua_lattice.specs.inner.Joins.{IsJoinEntered, GoesOnWithJoins, HasJoins, IsSpannedLattice, AreAmong};
ghost use Rattle.ua_lattice.specs.inner.Searches.{HasFound};
ghost use Rattle.ua_table.specs.declared.limits.TheConstants.{SIZE};

use crate::joiner::{Joiner, lies_below};
use std::alloc::{AllocError, Global};
use ua_part::Part;
use ua_rows::Rows;
use ua_table::Algebra;

/// Congruences that are found as joins, as rows, and those by which they were found.
#[derive(Drop)]
pub struct Found {
    pub rows: Rows,
    pub generators: Vec<Part>,
}

/// Where to look for congruences, and how many may be found.
#[derive(Drop)]
pub struct Search<'a> {
    pub algebra: &'a Algebra,
    pub budget: u32,
}

/// Enters the join of row i with a partition, unless it is there.
fn enter_join(rows: &mut Rows, joiner: &mut Joiner, i: u32, part: &Part) -> Result<(), AllocError>
    requires named { i < length rows.old.items }
    requires room { length rows.old.items < u32.MAX }
    requires partition { IsPartition (slice_index_or rows.old.items i []) }
    requires width { rows.old.width ≡ length part.now }
    requires joiner { length joiner.old.row.items ≡ length part.now }
    requires few { length part.now ≤ SIZE }
    ensures width { rows.new.width ≡ rows.old.width }
    ensures joiner { length joiner.new.row.items ≡ length joiner.old.row.items }
    ensures entered { OnOk result (IsJoinEntered rows.old.items (slice_index_or rows.old.items i []) part.now rows.new.items) }
{
    let row = rows.row(i);
    if lies_below(part, row) {
        return Ok(());
    }
    joiner.join(row, part);
    rows.enter(joiner.row.as_slice())?;
    Ok(())
}

/// Enters the joins of all rows with a partition. False where there are more rows than the budget then.
fn enter_joins(
    rows: &mut Rows,
    joiner: &mut Joiner,
    part: &Part,
    budget: u32,
) -> Result<bool, AllocError>
    requires within { length rows.old.items ≤ budget }
    requires room { budget < u32.MAX }
    requires partitions { AllByRecursion IsPartition rows.old.items }
    requires width { rows.old.width ≡ length part.now }
    requires joiner { length joiner.old.row.items ≡ length part.now }
    requires few { length part.now ≤ SIZE }
    ensures width { rows.new.width ≡ rows.old.width }
    ensures joiner { length joiner.new.row.items ≡ length joiner.old.row.items }
    ensures joins { OnOk result (GoesOnWithJoins rows.old.items part.now rows.new.items) }
    ensures all { IfOk result (λ whole. IsTrue whole → HasJoins rows.old.items part.now rows.new.items) }
    ensures within { IfOk result (λ whole. IsTrue whole → length rows.new.items ≤ budget) }
    ensures exceeds { IfOk result (λ whole. IsFalse whole → length rows.new.items ≡ budget + 1) }
{
    for i in 0..rows.len() {
        enter_join(rows, joiner, i, part)?;
        if rows.len() > budget {
            return Ok(false);
        }
    }
    Ok(true)
}

/// Makes a congruence a generator, unless it is found already. False where there are more congruences
/// than the budget then.
fn take_in(
    alloc: Global,
    search: &Search,
    found: &mut Found,
    joiner: &mut Joiner,
    part: &Part,
) -> Result<bool, AllocError>
    requires congruence { IsCongruence search.now.algebra.now part.now }
    requires found { HasFound search.now found.old joiner.old }
    ensures congruences { OnOk result (AllByRecursion (IsCongruence search.now.algebra.now) found.new.rows.items) }
    ensures found { IfOk result (λ whole. IsTrue whole → HasFound search.now found.new joiner.new) }
    ensures kept { IfOk result (λ whole. IsTrue whole → AreAmong found.old.rows.items found.new.rows.items) }
    ensures there { IfOk result (λ whole. IsTrue whole → Contains found.new.rows.items part.now) }
    ensures exceeds { IfOk result (λ whole. IsFalse whole → length found.new.rows.items ≡ search.now.budget + 1) }
{
    joiner.copy(part);
    if found.rows.find(joiner.row.as_slice()).is_some() {
        return Ok(true);
    }
    found.generators.push(part.copy(alloc)?)?;
    let whole = enter_joins(&mut found.rows, joiner, part, search.budget)?;
    Ok(whole)
}

/// Enters the joins of congruences. False where there are more than the budget.
pub fn take_in_all(
    alloc: Global,
    search: &Search,
    found: &mut Found,
    joiner: &mut Joiner,
    parts: &[Part],
) -> Result<bool, AllocError>
    requires parts { AllByRecursion (IsCongruence search.now.algebra.now) parts.now }
    requires found { HasFound search.now found.old joiner.old }
    ensures congruences { OnOk result (AllByRecursion (IsCongruence search.now.algebra.now) found.new.rows.items) }
    ensures found { IfOk result (λ whole. IsTrue whole → HasFound search.now found.new joiner.new) }
    ensures there { IfOk result (λ whole. IsTrue whole → AreAmong parts.now found.new.rows.items) }
    ensures exceeds { IfOk result (λ whole. IsFalse whole → length found.new.rows.items ≡ search.now.budget + 1) }
{
    for i in 0..parts.len() {
        if !take_in(alloc, search, found, joiner, &parts[i])? {
            return Ok(false);
        }
    }
    Ok(true)
}

/// The identity alone, which no congruence generates.
pub fn identity_found(
    alloc: Global,
    algebra: &Algebra,
    joiner: &mut Joiner,
) -> Result<Found, AllocError>
    requires { length joiner.old.row.items ≡ algebra.now.size }
    ensures joiner { length joiner.new.row.items ≡ length joiner.old.row.items }
    ensures width { IfOk result (λ found. found.rows.width ≡ algebra.now.size) }
    ensures one { IfOk result (λ found. found.rows.items ≡ identity_on algebra.now.size ∷ []) }
    ensures found { IfOk result (λ found. IsSpannedLattice algebra.now found.generators.items found.rows.items) }
{
    let mut rows = Rows::new(alloc, algebra.size());
    joiner.copy(&Part::identity(alloc, algebra.size())?);
    rows.push(joiner.row.as_slice())?;
    Ok(Found {
        rows,
        generators: Vec::new(alloc),
    })
}
