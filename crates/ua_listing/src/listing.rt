//! Listings of a generated subuniverse.

ghost use Rattle.std.specs.Prelude.{◌≡◌, ◌<◌, ◌≤◌, ◌^◌, ◌++◌, length, map, take, drop, slice_get, slice_index, Some, IfOk, IfSome, IfNone, Contains};
ghost use Rattle.std.specs.List.{AllByRecursion, zip};
ghost use Rattle.ua_table.specs.Algebras.{Vector, IsIncreasing};
ghost use Rattle.ua_table.specs.Counting.{EachOnceBelow};
ghost use Rattle.ua_table.specs.Listings.{vectors_of, ranks_of};
ghost use Rattle.ua_table.specs.Orders.{Record, rows_of};
ghost use Rattle.ua_rows.specs.RowLists.{rows_at};
ghost use Rattle.ua_listing.specs.Rankings.{ArePositions};
ghost use Rattle.ua_listing.specs.Arrangements.{origins_of, by_position, listed, IsIndex, IsOriginOver, IsArranged};
ghost use Rattle.ua_listing.specs.inner.Arrangements.{origins_at};

use crate::records::Records;
use crate::sorting::{positions_of, ranks_in_order};
use std::alloc::{AllocError, Global};
use std::marker::Model;
use ua_rows::Rows;
use ua_table::{Elem, Origin, Shape};

/// The order of the rows of records.
#[derive(Drop, Debug)]
struct Index {
    /// The ranks, in the order of the vectors.
    ranks: Vec<u32>,
    /// The position of each rank.
    positions: Vec<u32>,
    /// The origins, in the order of the vectors.
    origins: Vec<Origin>,
}

/// Rows in order of their vectors, each with its rank and its origin, which names rows by position.
#[derive(Drop, Debug)]
pub struct Listing {
    /// The vectors by rank.
    rows: Rows,
    index: Index,
}

impl Model for Listing {
    ghost use Rattle.std.specs.Prelude.{List};
    ghost use Rattle.ua_table.specs.Listings.{Row};

    ghost Value = { List Row };

    ghost use Rattle.ua_listing.specs.Arrangements.{listed, IsIndex};

    ghost view = { λ a. listed a.rows.items a.index.ranks.items a.index.origins.items };

    ghost invariant = { λ a. IsIndex a.rows.items a.index.ranks.items a.index.positions.items a.index.origins.items };
}

/// The positions of the first arguments, which are ranks, and the other arguments as they are.
pub(crate) fn moved_arguments(positions: &[u32], args: [u32; 4], count: u8) -> [u32; 4]
    requires few { count ≤ 4 }
    requires named { AllByRecursion (λ a. a < length positions.now) (take count args) }
    ensures { result ≡ map (λ a. slice_index positions.now a) (take count args) ++ drop count args }
{
    let mut moved = args;
    for place in 0..usize::from(count) {
        moved[place] = positions[args[place] as usize];
    }
    moved
}

/// An origin with what stands at its arguments in place of them, as positions in place of ranks.
pub fn moved(shape: &Shape, positions: &[u32], origin: Origin) -> Origin
    requires { IsOriginOver shape.now (length positions.now) origin }
    ensures { result ≡ by_position shape.now positions.now origin }
{
    match origin {
        Origin::Gen { index } => Origin::Gen { index },
        Origin::Op { op, args } => Origin::Op {
            op,
            args: moved_arguments(positions, args, shape.arity(op)),
        },
    }
}

/// The origins of the rows of these ranks, with positions in place of ranks.
fn moved_origins(
    alloc: Global,
    shape: &Shape,
    records: &Records,
    ranks: &[u32],
    positions: &[u32],
) -> Result<Vec<Origin>, AllocError>
    requires origins { AllByRecursion (λ (r : Record). IsOriginOver shape.now (length positions.now) r.1) records.now }
    requires ranks { AllByRecursion (λ r. r < length records.now) ranks.now }
    ensures { IfOk result (λ origins. origins.items ≡ origins_at shape.now positions.now records.now ranks.now) }
{
    let mut origins = Vec::with_capacity(alloc, ranks.len())?;
    for rank in ranks {
        origins.push(moved(shape, positions, records.origin(*rank)))?;
    }
    Ok(origins)
}

/// The order of the rows of records, and their origins by position.
fn index_of(alloc: Global, shape: &Shape, records: &Records) -> Result<Index, AllocError>
    requires { AllByRecursion (λ (r : Record). IsOriginOver shape.now (length records.now) r.1) records.now }
    ensures index { IfOk result (λ index. IsIndex (rows_of records.now) index.ranks.items index.positions.items index.origins.items) }
    ensures arranged { IfOk result (λ index. IsArranged shape.now records.now (listed (rows_of records.now) index.ranks.items index.origins.items)) }
{
    let ranks = ranks_in_order(alloc, records)?;
    let positions = positions_of(alloc, ranks.as_slice())?;
    let origins = moved_origins(
        alloc,
        shape,
        records,
        ranks.as_slice(),
        positions.as_slice(),
    )?;
    Ok(Index {
        ranks,
        positions,
        origins,
    })
}

/// The listing of different rows by rank, with an origin for each, which names rows by rank.
pub fn listing_of(
    alloc: Global,
    shape: &Shape,
    rows: Rows,
    origins: Vec<Origin>,
) -> Result<Listing, AllocError>
    requires count { length origins.items ≡ length rows.items }
    requires origins { AllByRecursion (λ (r : Record). IsOriginOver shape.now (length rows.items) r.1) (zip rows.items origins.items) }
    ensures { IfOk result (IsArranged shape.now (zip rows.items origins.items)) }
{
    let records = Records::new(rows, origins);
    let index = index_of(alloc, shape, &records)?;
    Ok(Listing {
        rows: records.into_rows(),
        index,
    })
}

impl Listing {
    /// How many rows there are.
    pub fn len(&self) -> u32
        ensures { result ≡ length self.now }
    {
        self.rows.len()
    }

    /// The vector of row i, counted from 0 in the order of the vectors.
    pub fn row(&self, i: u32) -> &[Elem]
        requires { i < length self.now }
        ensures { slice_get (vectors_of self.now) i ≡ Some result.now }
    {
        self.rows.row(self.index.ranks[i as usize])
    }

    /// The rank of row i: how many rows were found before it.
    pub fn rank(&self, i: u32) -> u32
        requires { i < length self.now }
        ensures { slice_get (ranks_of self.now) i ≡ Some result }
    {
        self.index.ranks[i as usize]
    }

    /// The row of a rank.
    pub fn position(&self, rank: u32) -> u32
        requires { rank < length self.now }
        ensures { slice_get (ranks_of self.now) result ≡ Some rank }
    {
        self.index.positions[rank as usize]
    }

    /// The origin of row i.
    pub fn origin(&self, i: u32) -> Origin
        requires { i < length self.now }
        ensures { slice_get (origins_of self.now) i ≡ Some result }
    {
        self.index.origins[i as usize]
    }

    /// The row that is this vector, by one look-up.
    pub fn find(&self, v: &[Elem]) -> Option<u32>
        ensures found { IfSome result (λ i. slice_get (vectors_of self.now) i ≡ Some v.now) }
        ensures absent { IfNone result (¬ Contains (vectors_of self.now) v.now) }
    {
        if v.len() != self.rows.width() as usize {
            return None;
        }
        let rank = self.rows.find(v)?;
        Some(self.index.positions[rank as usize])
    }

    /// The rows at these different positions, in their order.
    pub(crate) fn rows_at(
        &self,
        alloc: Global,
        width: u32,
        places: &[u32],
    ) -> Result<Rows, AllocError>
        requires widths { AllByRecursion (λ (v : Vector). length v ≡ width) (vectors_of self.now) }
        requires increasing { IsIncreasing (vectors_of self.now) }
        requires places { EachOnceBelow (length self.now) places.now }
        requires few { length places.now < 2 ^ 32 }
        ensures width { IfOk result (λ rows. rows.width ≡ width) }
        ensures rows { IfOk result (λ rows. rows.items ≡ rows_at (vectors_of self.now) places.now) }
    {
        let mut rows = Rows::new(alloc, width);
        for place in places {
            rows.push(self.row(*place))?;
        }
        Ok(rows)
    }

    /// The listing of the same vectors whose ranks go by these positions, with these origins.
    pub(crate) fn rearranged(
        &self,
        alloc: Global,
        width: u32,
        places: &[u32],
        origins: Vec<Origin>,
    ) -> Result<Listing, AllocError>
        requires widths { AllByRecursion (λ (v : Vector). length v ≡ width) (vectors_of self.now) }
        requires increasing { IsIncreasing (vectors_of self.now) }
        requires places { EachOnceBelow (length self.now) places.now }
        requires all { length places.now ≡ length self.now }
        requires few { length places.now < 2 ^ 32 }
        requires count { length origins.items ≡ length self.now }
        ensures vectors { IfOk result (λ list. vectors_of list ≡ vectors_of self.now) }
        ensures ranks { IfOk result (λ list. ArePositions places.now (ranks_of list)) }
        ensures origins { IfOk result (λ list. origins_of list ≡ origins.items) }
    {
        let rows = self.rows_at(alloc, width, places)?;
        let ranks = positions_of(alloc, places)?;
        let positions = places.to_vec(alloc)?;
        Ok(Listing {
            rows,
            index: Index {
                ranks,
                positions,
                origins,
            },
        })
    }
}
