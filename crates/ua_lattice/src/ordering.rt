//! Partitions in order: by number of blocks downwards, and then by entries.

ghost use Rattle.std.specs.Prelude.{◌≡◌, IfOk};
ghost use Rattle.std.specs.List.{AllByRecursion};
ghost use Rattle.ua_rows.specs.RowLists.{IsRowList};
ghost use Rattle.ua_part.specs.Partitions.{IsPart};
ghost use Rattle.ua_part.specs.Blocks.{block_count};
ghost use Rattle.ua_lattice.specs.inner.Ordering.{IsCounted, partitions_of, IsArranged};

use std::alloc::{AllocError, Global};
use std::cmp::Reverse;
use ua_part::Part;
use ua_rows::Rows;

/// The least member of each element's block, ordered by the number of blocks.
#[derive(Drop, Debug, PartialEq, Eq, PartialOrd, Ord)]
struct Counted {
    blocks: Reverse<u32>,
    leaders: Vec<u32>,
}

/// The partition with the number of its blocks.
fn with_count(part: Part) -> Counted
    ensures leaders { result.leaders.items ≡ part }
    ensures blocks { result.blocks.0 ≡ block_count part }
{
    let blocks = Reverse(part.blocks());
    Counted {
        blocks,
        leaders: part.into_leaders(),
    }
}

/// The partitions of the rows, each with the number of its blocks.
fn with_counts(alloc: Global, rows: &Rows) -> Result<Vec<Counted>, AllocError>
    requires { AllByRecursion IsPart rows.now.items }
    ensures partitions { IfOk result (λ list. partitions_of list.items ≡ rows.now.items) }
    ensures counts { IfOk result (λ list. AllByRecursion IsCounted list.items) }
    ensures rows { IsRowList rows.now.width rows.now.items }
{
    let mut list = Vec::with_capacity(alloc, rows.len() as usize)?;
    for i in 0..rows.len() {
        list.push(with_count(Part::from_row(alloc, rows.row(i))?))?;
    }
    Ok(list)
}

/// The partitions alone.
fn without_counts(alloc: Global, list: Vec<Counted>) -> Result<Vec<Part>, AllocError>
    requires { AllByRecursion IsPart (partitions_of list.items) }
    ensures { IfOk result (λ parts. parts.items ≡ partitions_of list.items) }
{
    let mut parts = Vec::with_capacity(alloc, list.len())?;
    let mut rest = list.into_iter();
    'list: while let Some(next) = rest.next() {
        let Counted { blocks: _, leaders } = next;
        parts.push(Part::from_leaders(leaders))?;
    }
    Ok(parts)
}

/// The partitions of the rows, in order.
pub fn in_order(alloc: Global, rows: &Rows) -> Result<Vec<Part>, AllocError>
    requires { AllByRecursion IsPart rows.now.items }
    ensures { IfOk result (λ list. IsArranged rows.now.items list.items) }
{
    let mut list = with_counts(alloc, rows)?;
    list.sort()?;
    without_counts(alloc, list)
}
