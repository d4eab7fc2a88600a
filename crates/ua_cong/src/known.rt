//! Principal congruences that are known.

ghost use Rattle.std.specs.Prelude.{◌≡◌, ◌+◌, ◌<◌, ◌≤◌, ◌^◌, [], length, IfOk, OnOk};
ghost use Rattle.ua_table.specs.Algebras.{FiniteAlgebra};
ghost use Rattle.ua_table.specs.declared.limits.TheConstants.{SIZE};
ghost use Rattle.ua_cong.specs.Closings.{AreElements, IsPrincipal};
ghost use Rattle.ua_cong.specs.Known.{IsKnown};
ghost use Rattle.ua_cong.specs.inner.Known.{IsPlaceOf, AreKept};
ghost use Rattle.ua_cong.specs.inner.Principals.{HasPrincipal};

use std::alloc::{AllocError, Global};
use ua_rows::Rows;
use ua_table::{Algebra, Elem};

/// The principal congruences of some pairs of elements: each different one once, as a row, and for each
/// pair, by its rank, the place of its own. Where a pair's is not known, two equal elements stand there.
#[derive(Drop)]
pub struct Known {
    pub pairs: Vec<(Elem, Elem, u32)>,
    pub rows: Rows,
    /// How many blocks each row has. It serves to choose among them alone.
    pub blocks: Vec<u32>,
}

/// The place of a pair of elements, the first the lower, among all such pairs in lexicographic order.
pub fn rank(size: usize, x: usize, y: usize) -> usize
    requires size { size < 2 ^ 16 }
    requires order { x < y }
    requires within { y < size }
{
    x * (2 * size - x - 1) / 2 + y - x - 1
}

impl Known {
    /// None, of an algebra of this size, and no room to learn of pairs. It takes no memory.
    pub fn new(alloc: Global, size: u32) -> Known
        ensures rows { result.rows.items ≡ [] }
        ensures known { (a : FiniteAlgebra) → a.size ≡ size → IsKnown a result }
    {
        Known {
            pairs: Vec::new(alloc),
            rows: Rows::new(alloc, size),
            blocks: Vec::new(alloc),
        }
    }

    /// None, of an algebra of this size, with room for each pair.
    pub fn with_room(alloc: Global, size: u32) -> Result<Known, AllocError>
        requires { size ≤ SIZE }
        ensures rows { IfOk result (λ known. known.rows.items ≡ []) }
        ensures known { IfOk result (λ known. (a : FiniteAlgebra) → a.size ≡ size → IsKnown a known) }
    {
        let size_of_all = size as usize;
        let pairs = vec![in alloc; (0, 0, 0); size_of_all * size_of_all / 2]?;
        Ok(Known {
            pairs,
            rows: Rows::new(alloc, size),
            blocks: Vec::new(alloc),
        })
    }

    /// How many blocks the row at a place has.
    pub fn blocks_at(&self, place: u32) -> u32 {
        self.blocks.get(place as usize).copied().unwrap_or(u32::MAX)
    }
}

/// How many blocks a partition has, given by the least member of each member's block.
fn count_blocks(row: &[Elem]) -> u32 {
    let mut blocks: u32 = 0;
    for k in 0..row.len() {
        if usize::from(row[k]) == k {
            blocks = blocks.saturating_add(1);
        }
    }
    blocks
}

/// Notes how many blocks the row at a place has, if it is new.
fn note_blocks(blocks: &mut Vec<u32>, place: u32, row: &[Elem]) -> Result<(), AllocError> {
    if blocks.len() <= place as usize {
        blocks.push(count_blocks(row))?;
    }
    Ok(())
}

/// Notes the place of a pair's principal congruence, where there is room.
pub fn note(_algebra: &Algebra, known: &mut Known, first: Elem, second: Elem, place: u32)
    requires known { IsKnown _algebra.now known.old }
    requires elements { AreElements _algebra.now (first, second) }
    requires place { IsPlaceOf _algebra.now known.old first second place }
    ensures known { IsKnown _algebra.now known.new }
    ensures rows { known.new.rows.items ≡ known.old.rows.items }
{
    if first >= second {
        return;
    }
    let at = rank(_algebra.size() as usize, first as usize, second as usize);
    if at < known.pairs.len() {
        known.pairs[at] = (first, second, place);
    }
}

/// Takes in the principal congruence of a pair.
pub fn learn(
    _algebra: &Algebra,
    known: &mut Known,
    first: Elem,
    second: Elem,
    row: &[Elem],
) -> Result<(), AllocError>
    requires known { IsKnown _algebra.now known.old }
    requires elements { AreElements _algebra.now (first, second) }
    requires principal { IsPrincipal _algebra.now (first, second, row.now) }
    requires room { length known.old.rows.items < u32.MAX }
    ensures few { length known.new.rows.items ≤ length known.old.rows.items + 1 }
    ensures known { OnOk result (IsKnown _algebra.now known.new) }
    ensures kept { OnOk result (AreKept known.old.rows.items known.new.rows.items) }
    ensures there { OnOk result (HasPrincipal _algebra.now known.new.rows.items (first, second)) }
{
    let place = known.rows.enter(row)?;
    note(_algebra, known, first, second, place);
    note_blocks(&mut known.blocks, place, row)?;
    Ok(())
}
