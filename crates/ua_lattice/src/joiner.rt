//! Joins of partitions that are rows of elements: the least member of each element's block.

ghost use Rattle.std.specs.Prelude.{◌≡◌, ◌≤◌, ◌<◌, ◌↔◌, length, vec_len, IfOk, IsTrue};
ghost use Rattle.ua_part.specs.Partitions.{IsPartition, LiesBelow, IsJoin};
ghost use Rattle.ua_table.specs.declared.limits.TheConstants.{SIZE};

use std::alloc::{AllocError, Global};
use ua_part::{DisjointSets, Part};
use ua_table::Elem;

/// Room to make joins in, one after another, without memory.
#[derive(Drop)]
pub struct Joiner {
    sets: DisjointSets,
    pub row: Vec<Elem>,
    ghost sized: { vec_len row ≡ length sets },
}

impl Joiner {
    /// Room for partitions of so many elements.
    pub fn new(alloc: Global, size: u32) -> Result<Joiner, AllocError>
        ensures { IfOk result (λ joiner. length joiner.row.items ≡ size) }
    {
        let sets = DisjointSets::new(alloc, size)?;
        let row = vec![in alloc; 0; size as usize]?;
        Ok(Joiner { sets, row })
    }

    /// Makes the row a partition.
    pub fn copy(&mut self, part: &Part)
        requires size { length part.now ≡ length self.old.row.items }
        requires few { length part.now ≤ SIZE }
        ensures { self.new.row.items ≡ part.now }
    {
        part.write_row(self.row.as_mut_slice());
    }

    /// Makes the row the join of two partitions.
    pub fn join(&mut self, row: &[Elem], part: &Part)
        requires partition { IsPartition row.now }
        requires row { length row.now ≡ length self.old.row.items }
        requires part { length part.now ≡ length self.old.row.items }
        requires few { length part.now ≤ SIZE }
        ensures size { length self.new.row.items ≡ length self.old.row.items }
        ensures join { IsJoin row.now part.now self.new.row.items }
    {
        self.sets.assign(row);
        self.sets.unite_blocks(part);
        self.sets.write_row(self.row.as_mut_slice());
    }
}

/// Whether what the partition relates, the row relates.
pub fn lies_below(part: &Part, row: &[Elem]) -> bool
    requires { length part.now ≡ length row.now }
    ensures { IsTrue result ↔ LiesBelow part.now row.now }
{
    for a in 0..part.size() {
        if row[a as usize] != row[part.rep(a) as usize] {
            return false;
        }
    }
    true
}
