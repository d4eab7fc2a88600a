//! The least listing of a generated subuniverse.

ghost use Rattle.std.specs.Prelude.{◌≡◌, ◌+◌, ◌<◌, ◌≤◌, ℕ, suc, length, IfOk, OnOk};
ghost use Rattle.std.specs.List.{AllByRecursion};
ghost use Rattle.ua_table.specs.declared.origins.Origin.TheVariants.{Op};
ghost use Rattle.ua_table.specs.Algebras.{IsVector, arities};
ghost use Rattle.ua_table.specs.Counting.{numbers_below};
ghost use Rattle.ua_table.specs.Listings.{vectors_of, IsClosedListing};
ghost use Rattle.ua_table.specs.Numbering.{IsShape};
ghost use Rattle.ua_table.specs.Orders.{IsLeast};
ghost use Rattle.ua_table.specs.Slices.{bound, IsMark};
ghost use Rattle.ua_listing.specs.Leasts.{IsClosedWithin};
ghost use Rattle.ua_listing.specs.inner.Searches.{height_number, IsNearTop, IsTop, ReachesMore, IsRowTable, IsSearchOf, MayVisitIn, HasReachedIn, GoesOnTo, GeneratorsVisitedIn, ConstantsVisitedIn, SliceVisitedIn, SlicesVisitedIn, IsWholeSearch};

use crate::listing::{Listing, moved_arguments};
use crate::searches::{Search, Table};
use crate::sorting::by_height;
use std::alloc::{AllocError, Global};
use ua_rows::{Operations, Scratch};
use ua_table::{Claimed, Frame, Mark, Origin, Vectors};

/// The positions of so many rows, in order.
fn all_places(alloc: Global, count: u32) -> Result<Vec<u32>, AllocError>
    ensures { IfOk result (λ places. places.items ≡ numbers_below count) }
{
    let mut places = Vec::with_capacity(alloc, count as usize)?;
    for i in 0..count {
        places.push(i)?;
    }
    Ok(places)
}

/// The table of a listing.
fn table_of<'a>(
    alloc: Global,
    frame: &'a Frame<'a>,
    gens: &'a Vectors,
    list: &Listing,
) -> Result<Table<'a>, AllocError>
    requires admitted { AllByRecursion (IsVector frame.now) gens.now.items }
    requires closed { IsClosedWithin frame.now gens.now.items list.now }
    ensures table { IfOk result IsRowTable }
    ensures operations { IfOk result (λ table. table.operations ≡ frame.now) }
    ensures gens { IfOk result (λ table. table.gens.now ≡ gens.now) }
    ensures rows { IfOk result (λ table. table.rows.items ≡ vectors_of list.now) }
{
    let places = all_places(alloc, list.len())?;
    Ok(Table {
        shape: frame.shape(alloc)?,
        operations: Operations::new(alloc, frame)?,
        gens,
        rows: list.rows_at(alloc, frame.width(), places.as_slice())?,
    })
}

/// Reaches the row that an operation gives at rows.
fn visit(
    table: &Table,
    scratch: &mut Scratch,
    search: &mut Search,
    op: u32,
    args: [u32; 4],
    height: u32,
) -> Result<(), AllocError>
    requires table { IsRowTable table.now }
    requires width { length scratch.old ≡ length table.now.operations }
    requires search { IsSearchOf table.now search.old }
    requires top { IsTop search.old height }
    requires origin { MayVisitIn table.now search.old height (Op op args) }
    ensures width { length scratch.new ≡ length table.now.operations }
    ensures reached { OnOk result (HasReachedIn table.now search.old search.new height (Op op args)) }
{
    let arity = usize::from(table.shape.arity(op));
    table
        .operations
        .apply(op, &table.rows, &args[..arity], scratch);
    match table.rows.find_scratch(scratch) {
        Some(q) => search.reach(table, q, height, Origin::Op { op, args }),
        None => Ok(()),
    }
}

/// Reaches the generators.
fn visit_generators(table: &Table, search: &mut Search) -> Result<(), AllocError>
    requires table { IsRowTable table.now }
    requires search { IsSearchOf table.now search.old }
    requires top { IsTop search.old 0 }
    ensures goes_on { OnOk result (GoesOnTo table.now search.old search.new 0) }
    ensures visited { OnOk result (GeneratorsVisitedIn table.now search.new) }
{
    for index in 0..table.gens.len() {
        if let Some(q) = table.rows.find(table.gens.get(index)) {
            search.reach(table, q, 0, Origin::Gen { index })?;
        }
    }
    Ok(())
}

/// Reaches the constants.
fn visit_constants(
    table: &Table,
    scratch: &mut Scratch,
    search: &mut Search,
) -> Result<(), AllocError>
    requires table { IsRowTable table.now }
    requires width { length scratch.old ≡ length table.now.operations }
    requires search { IsSearchOf table.now search.old }
    requires top { IsTop search.old 1 }
    ensures width { length scratch.new ≡ length table.now.operations }
    ensures goes_on { OnOk result (GoesOnTo table.now search.old search.new 1) }
    ensures visited { OnOk result (ConstantsVisitedIn table.now search.new) }
{
    for (op, arity) in table.shape.arities().iter().enumerate() {
        if *arity == 0 {
            visit(table, scratch, search, op as u32, [0; 4], 1)?;
        }
    }
    Ok(())
}

/// Reaches the rows that the tuples of a slice give, where its tuples are of rows in the order in which
/// they were reached.
fn visit_slice(
    table: &Table,
    scratch: &mut Scratch,
    search: &mut Search,
    mark: &mut Mark,
    m: u32,
    s: u64,
    height: u32,
) -> Result<(), AllocError>
    requires table { IsRowTable table.now }
    requires width { length scratch.old ≡ length table.now.operations }
    requires search { IsSearchOf table.now search.old }
    requires row { m < length search.old.order.items }
    requires after { bound table.now.shape m ≤ s }
    requires below { s < bound table.now.shape (m + 1) }
    requires mark { IsMark table.now.shape mark.old }
    requires earlier { mark.old.first ≤ s }
    requires height { height ≡ suc (height_number search.old m) }
    requires top { IsTop search.old height }
    ensures width { length scratch.new ≡ length table.now.operations }
    ensures mark { IsMark table.now.shape mark.new }
    ensures earlier { mark.new.first ≤ s }
    ensures goes_on { OnOk result (GoesOnTo table.now search.old search.new height) }
    ensures visited { OnOk result (SliceVisitedIn table.now search.new s) }
{
    let Claimed { op, mut tuples } = table.shape.claimed_slice(m + 1, mark, s);
    let arity = table.shape.arity(op);
    while let Some(tuple) = tuples.next() {
        let args = moved_arguments(search.order.as_slice(), tuple, arity);
        visit(table, scratch, search, op, args, height)?;
    }
    Ok(())
}

/// Reaches the rows that operations give at the row that was reached as number m and at those before it.
/// The answer is the number of the next slice.
fn visit_row(
    table: &Table,
    scratch: &mut Scratch,
    search: &mut Search,
    mark: &mut Mark,
    m: u32,
    from: u64,
) -> Result<u64, AllocError>
    requires table { IsRowTable table.now }
    requires width { length scratch.old ≡ length table.now.operations }
    requires search { IsSearchOf table.now search.old }
    requires row { m < length search.old.order.items }
    requires near { IsNearTop search.old m }
    requires from { from ≡ bound table.now.shape m }
    requires mark { IsMark table.now.shape mark.old }
    requires earlier { mark.old.first ≤ from }
    requires visited { SlicesVisitedIn table.now search.old from }
    ensures width { length scratch.new ≡ length table.now.operations }
    ensures mark { IsMark table.now.shape mark.new }
    ensures earlier { IfOk result (λ to. mark.new.first ≤ to) }
    ensures to { IfOk result (λ to. to ≡ bound table.now.shape (m + 1)) }
    ensures goes_on { OnOk result (GoesOnTo table.now search.old search.new (suc (height_number search.old m))) }
    ensures visited { OnOk result (SlicesVisitedIn table.now search.new (bound table.now.shape (m + 1))) }
{
    let height = search.heights[search.order[m as usize] as usize] + 1;
    let to = table.shape.bound_step(m, from);
    for s in from..to {
        visit_slice(table, scratch, search, mark, m, s, height)?;
    }
    Ok(to)
}

/// Reaches the rows that operations give at rows that are reached, until there are no more.
fn visit_rows(table: &Table, scratch: &mut Scratch, search: &mut Search) -> Result<(), AllocError>
    requires table { IsRowTable table.now }
    requires width { length scratch.old ≡ length table.now.operations }
    requires search { IsSearchOf table.now search.old }
    requires top { IsTop search.old 1 }
    ensures search { OnOk result (IsSearchOf table.now search.new) }
    ensures later { OnOk result (ReachesMore (arities table.now.operations) search.old search.new) }
    ensures visited { OnOk result (SlicesVisitedIn table.now search.new (bound table.now.shape (length search.new.order.items))) }
{
    let mut mark = table.shape.first_mark();
    let mut s = 0;
    let mut m = 0;
    while m < search.order.len() {
        s = visit_row(table, scratch, search, &mut mark, m as u32, s)?;
        m += 1;
    }
    Ok(())
}

/// The height and the first origin of each row.
fn search_of(
    alloc: Global,
    frame: &Frame,
    gens: &Vectors,
    list: &Listing,
) -> Result<Search, AllocError>
    requires admitted { AllByRecursion (IsVector frame.now) gens.now.items }
    requires closed { IsClosedWithin frame.now gens.now.items list.now }
    ensures search { IfOk result (IsWholeSearch frame.now gens.now.items (vectors_of list.now)) }
    ensures shape { IfOk result (λ _. IsShape (arities frame.now)) }
{
    let table = table_of(alloc, frame, gens, list)?;
    let mut scratch = Scratch::new(alloc, frame.width())?;
    let mut search = Search::new(alloc, list.len())?;
    visit_generators(&table, &mut search)?;
    visit_constants(&table, &mut scratch, &mut search)?;
    visit_rows(&table, &mut scratch, &mut search)?;
    Ok(search)
}

/// The listing of the same rows by height and then by position. The height of a row is the least height of
/// a term with that value, where a generator has height 0, a constant 1, and another application one more
/// than its highest argument. Each row has the first origin, by index, or by operation and then by the
/// positions of the arguments, that gives it at its height. The time is that of all tuples of rows, of each
/// operation, times the width.
pub fn least(
    alloc: Global,
    frame: &Frame,
    gens: &Vectors,
    list: &Listing,
) -> Result<Listing, AllocError>
    requires admitted { AllByRecursion (IsVector frame.now) gens.now.items }
    requires closed { IsClosedWithin frame.now gens.now.items list.now }
    ensures { IfOk result (λ least. (b : ℕ) → IsClosedListing frame.now gens.now.items b list.now → IsLeast frame.now gens.now.items b least) }
{
    let search = search_of(alloc, frame, gens, list)?;
    let places = by_height(alloc, search.heights.as_slice())?;
    list.rearranged(alloc, frame.width(), places.as_slice(), search.origins)
}
