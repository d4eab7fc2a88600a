//! The rows of records in the order of their vectors.

ghost use Rattle.std.specs.Prelude.{◌≡◌, ◌<◌, ◌^◌, length, map, IfOk};
ghost use Rattle.ua_table.specs.Counting.{EachOnceBelow};
ghost use Rattle.ua_table.specs.Orders.{rows_of};
ghost use Rattle.ua_listing.specs.Rankings.{IsRanking, ArePositions};
ghost use Rattle.ua_listing.specs.inner.Rankings.{ranks_of_rows, places_of};
ghost use Rattle.ua_listing.specs.inner.Leasts.{AreByHeight};

use crate::records::Records;
use std::alloc::{AllocError, Global};
use ua_table::Elem;

/// A row with its rank, ordered by its vector.
#[derive(Drop, Debug, PartialEq, Eq, PartialOrd, Ord)]
struct RankedRow<'a> {
    vector: &'a [Elem],
    rank: u32,
}

/// The rows with their ranks, in order.
fn in_order<'a>(alloc: Global, records: &'a Records) -> Result<Vec<RankedRow<'a>>, AllocError>
    ensures ranking { IfOk result (λ rows. IsRanking (rows_of records.now) (ranks_of_rows rows.items)) }
    ensures count { length records.now < 2 ^ 32 }
{
    let mut rows = Vec::with_capacity(alloc, records.len() as usize)?;
    for rank in 0..records.len() {
        rows.push(RankedRow {
            vector: records.row(rank),
            rank,
        })?;
    }
    rows.sort()?;
    Ok(rows)
}

fn ranks_of(alloc: Global, rows: &[RankedRow]) -> Result<Vec<u32>, AllocError>
    ensures { IfOk result (λ ranks. ranks.items ≡ ranks_of_rows rows.now) }
{
    rows.iter().map(|row| row.rank).collect(alloc)
}

/// The ranks of all rows, in the order of their vectors.
pub(crate) fn ranks_in_order(alloc: Global, records: &Records) -> Result<Vec<u32>, AllocError>
    ensures ranking { IfOk result (λ ranks. IsRanking (rows_of records.now) ranks.items) }
    ensures count { length records.now < 2 ^ 32 }
{
    let rows = in_order(alloc, records)?;
    ranks_of(alloc, rows.as_slice())
}

/// The position of each rank.
pub(crate) fn positions_of(alloc: Global, ranks: &[u32]) -> Result<Vec<u32>, AllocError>
    requires ranks { EachOnceBelow (length ranks.now) ranks.now }
    requires count { length ranks.now < 2 ^ 32 }
    ensures { IfOk result (λ positions. ArePositions ranks.now positions.items) }
{
    let mut positions = vec![in alloc; 0; ranks.len()]?;
    for (i, rank) in ranks.iter().enumerate() {
        positions[*rank as usize] = i as u32;
    }
    Ok(positions)
}

/// A row by its height, ordered by height and then by position.
#[derive(Drop, Debug, PartialEq, Eq, PartialOrd, Ord)]
struct HighRow {
    height: u32,
    place: u32,
}

/// The rows with their heights, in order.
fn high_rows(alloc: Global, heights: &[u32]) -> Result<Vec<HighRow>, AllocError>
    requires { length heights.now < 2 ^ 32 }
    ensures { IfOk result (λ rows. AreByHeight heights.now (places_of rows.items)) }
{
    let mut rows = Vec::with_capacity(alloc, heights.len())?;
    for (place, height) in heights.iter().enumerate() {
        rows.push(HighRow {
            height: *height,
            place: place as u32,
        })?;
    }
    rows.sort()?;
    Ok(rows)
}

/// The positions of all rows, by height and then by position.
pub(crate) fn by_height(alloc: Global, heights: &[u32]) -> Result<Vec<u32>, AllocError>
    requires { length heights.now < 2 ^ 32 }
    ensures { IfOk result (λ places. AreByHeight heights.now places.items) }
{
    let rows = high_rows(alloc, heights)?;
    rows.iter().map(|row| row.place).collect(alloc)
}
