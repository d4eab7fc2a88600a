//! The rows of a listing as they are reached, by ascending height.

ghost use Rattle.std.specs.Prelude.{◌≡◌, ◌<◌, ◌↔◌, ◌++◌, [], ◌∷◌, length, replicate, set, slice_get, Some, true, false, IfOk, OnOk, IsTrue};
ghost use Rattle.ua_table.specs.Origins.{origin_value};
ghost use Rattle.ua_listing.specs.inner.Searches.{IsNamed, IsBefore, IsTop, IsRowTable, IsSearchOf, MayVisitIn, HasReachedIn};

use std::alloc::{AllocError, Global};
use ua_rows::{Operations, Rows};
use ua_table::{Origin, Shape, Vectors};

/// The rows of a listing by position, and what gives them.
#[derive(Drop)]
pub(crate) struct Table<'a> {
    pub(crate) shape: Shape,
    pub(crate) operations: Operations<'a>,
    pub(crate) gens: &'a Vectors,
    pub(crate) rows: Rows,
}

/// What is known of the rows of a listing, by position: which are reached, and of these the height and the
/// first origin so far that gives the row at it.
#[derive(Drop, Debug)]
pub(crate) struct Search {
    /// The positions of the rows that are reached, by ascending height.
    pub(crate) order: Vec<u32>,
    pub(crate) reached: Vec<bool>,
    pub(crate) heights: Vec<u32>,
    pub(crate) origins: Vec<Origin>,
}

/// Whether an origin comes before another of its kind: generators by index, and operations by number and
/// then by their arguments.
fn is_before(shape: &Shape, o: &Origin, other: &Origin) -> bool
    requires { IsNamed shape.now o.now }
    ensures { IsTrue result ↔ IsBefore shape.now o.now other.now }
{
    match (o, other) {
        (Origin::Gen { index }, Origin::Gen { index: i }) => index < i,
        (
            Origin::Op { op, args },
            Origin::Op {
                op: f,
                args: others,
            },
        ) => {
            if op != f {
                return op < f;
            }
            let arity = usize::from(shape.arity(*op));
            args[..arity].cmp(&others[..arity]).is_lt()
        }
        _ => false,
    }
}

impl Search {
    /// So many rows, of which none is reached.
    pub(crate) fn new(alloc: Global, count: u32) -> Result<Search, AllocError>
        ensures order { IfOk result (λ search. search.order.items ≡ []) }
        ensures reached { IfOk result (λ search. search.reached.items ≡ replicate count false) }
        ensures heights { IfOk result (λ search. length search.heights.items ≡ count) }
        ensures origins { IfOk result (λ search. length search.origins.items ≡ count) }
    {
        let count = count as usize;
        Ok(Search {
            order: Vec::new(alloc),
            reached: vec![in alloc; false; count]?,
            heights: vec![in alloc; 0; count]?,
            origins: vec![in alloc; Origin::Gen { index: 0 }; count]?,
        })
    }

    /// Enters a row that was not reached.
    fn enter(&mut self, q: u32, height: u32, origin: Origin) -> Result<(), AllocError>
        requires reached { q < length self.old.reached.items }
        requires heights { q < length self.old.heights.items }
        requires origins { q < length self.old.origins.items }
        ensures order { OnOk result (self.new.order.items ≡ self.old.order.items ++ q ∷ []) }
        ensures reached { OnOk result (self.new.reached.items ≡ set self.old.reached.items q true) }
        ensures heights { OnOk result (self.new.heights.items ≡ set self.old.heights.items q height) }
        ensures origins { OnOk result (self.new.origins.items ≡ set self.old.origins.items q origin) }
    {
        self.order.push(q)?;
        self.reached[q as usize] = true;
        self.heights[q as usize] = height;
        self.origins[q as usize] = origin;
        Ok(())
    }

    /// Reaches a row by an origin that gives it at this height, which is no less than that of each row
    /// reached before.
    pub(crate) fn reach(
        &mut self,
        table: &Table,
        q: u32,
        height: u32,
        origin: Origin,
    ) -> Result<(), AllocError>
        requires table { IsRowTable table.now }
        requires search { IsSearchOf table.now self.old }
        requires top { IsTop self.old height }
        requires origin { MayVisitIn table.now self.old height origin }
        requires row { slice_get table.now.rows.items q ≡ Some (origin_value table.now.operations table.now.gens.now.items table.now.rows.items origin) }
        ensures { OnOk result (HasReachedIn table.now self.old self.new height origin) }
    {
        if !self.reached[q as usize] {
            return self.enter(q, height, origin);
        }
        if self.heights[q as usize] == height
            && is_before(&table.shape, &origin, &self.origins[q as usize])
        {
            self.origins[q as usize] = origin;
        }
        Ok(())
    }
}
