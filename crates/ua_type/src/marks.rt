//! Marks on pairs of elements.

ghost use Rattle.std.specs.Prelude.{◌≡◌, ◌*◌, ◌<◌, ◌^◌, length, replicate, set, slice_index_or, true, false, IfOk};
ghost use Rattle.ua_prod.specs.Constructions.{pair_number};

use std::alloc::{AllocError, Global};
use ua_table::Elem;

/// For each pair of elements, by its number in the square of the algebra, whether it is marked.
#[derive(Drop)]
pub struct Marks {
    size: usize,
    marked: Vec<bool>,
    ghost small: { size < 2 ^ 16 },
    ghost square: { length marked.items ≡ size * size },
}

/// The number of a pair in the square of a set of so many elements.
fn number_of(size: usize, pair: (Elem, Elem)) -> usize
    requires small { size < 2 ^ 16 }
    requires first { pair.0 < size }
    requires second { pair.1 < size }
    ensures number { result ≡ pair_number size pair.0 pair.1 }
    ensures within { result < size * size }
{
    pair.0 as usize * size + pair.1 as usize
}

impl Marks {
    /// No mark, for the pairs of so many elements.
    pub fn new(alloc: Global, size: usize) -> Result<Marks, AllocError>
        requires { size < 2 ^ 16 }
        ensures size { IfOk result (λ marks. marks.size ≡ size) }
        ensures none { IfOk result (λ marks. marks.marked.items ≡ replicate (size * size) false) }
    {
        let marked = vec![in alloc; false; size * size]?;
        Ok(Marks { size, marked })
    }

    /// Whether a pair is marked.
    pub fn has(&self, pair: (Elem, Elem)) -> bool
        requires first { pair.0 < self.now.size }
        requires second { pair.1 < self.now.size }
        ensures { result ≡ slice_index_or self.now.marked.items (pair_number self.now.size pair.0 pair.1) false }
    {
        self.marked[number_of(self.size, pair)]
    }

    /// Marks a pair.
    pub fn put(&mut self, pair: (Elem, Elem))
        requires first { pair.0 < self.old.size }
        requires second { pair.1 < self.old.size }
        ensures size { self.new.size ≡ self.old.size }
        ensures marked { self.new.marked.items ≡ set self.old.marked.items (pair_number self.old.size pair.0 pair.1) true }
    {
        let number = number_of(self.size, pair);
        self.marked[number] = true;
    }
}
