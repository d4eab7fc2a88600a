//! The rows of a closed listing that may stand in a chain, and the links between them.

ghost use Rattle.std.specs.Prelude.{◌≡◌, ◌↔◌, ◌+◌, ◌<◌, ◌≤◌, ℕ, length, slice_get, IfOk, Some};
ghost use Rattle.std.specs.List.{AllByRecursion};
ghost use Rattle.ua_table.specs.Algebras.{Vector};
ghost use Rattle.ua_table.specs.Listings.{vectors_of};
ghost use Rattle.ua_climb.specs.Ladders.{IsAllowed};
ghost use Rattle.ua_table.specs.declared.limits.TheConstants.{SIZE, WIDTH};
ghost use Rattle.ua_identity.specs.Patterns.{all_fillings};
ghost use Rattle.ua_chain.specs.inner.Classes.{entries_at};
ghost use Rattle.ua_identity.specs.KindTables.{pattern_at};
ghost use Rattle.ua_chain.specs.inner.RowsOf.{AreOwnRows, AreLinksAt, HaveWidth};

use crate::classes::links_by;
use std::alloc::{AllocError, Global};
use ua_climb::Links;
use ua_close::Listing;
use ua_identity::{CoordinateRange, Kind, PatternPair};
use ua_table::Elem;

/// Which rows have these values at a part.
fn rows_with(
    alloc: Global,
    list: &Listing,
    part: CoordinateRange,
    values: &[Elem],
) -> Result<Vec<bool>, AllocError>
    requires order { part.from ≤ part.to }
    requires within { AllByRecursion (λ (v : Vector). part.to ≤ length v) (vectors_of list.now) }
    ensures count { IfOk result (λ allowed. length allowed.items ≡ length list.now) }
    ensures rows { IfOk result (λ allowed. (i : ℕ) (v : Vector) → slice_get (vectors_of list.now) i ≡ Some v → IsAllowed allowed.items i ↔ (entries_at part v ≡ values.now)) }
{
    let mut allowed = Vec::with_capacity(alloc, list.len() as usize)?;
    for i in 0..list.len() {
        let entries = &list.row(i)[part.from as usize..part.to as usize];
        allowed.push(entries == values)?;
    }
    Ok(allowed)
}

/// Which rows have what each term of the kind has.
pub(crate) fn own_rows(
    alloc: Global,
    size: u32,
    kind: &Kind,
    list: &Listing,
) -> Result<Vec<bool>, AllocError>
    requires some { 0 < size }
    requires small { size ≤ SIZE }
    requires narrow { length (all_fillings size kind.now.patterns) ≤ WIDTH }
    requires widths { HaveWidth size kind.now.patterns (vectors_of list.now) }
    ensures { IfOk result (λ allowed. AreOwnRows size kind.now (vectors_of list.now) allowed.items) }
{
    match kind.own() {
        None => vec![in alloc; true; list.len() as usize],
        Some(m) => {
            let values = kind.own_values(alloc, size)?;
            rows_with(alloc, list, kind.part(size, m), values.as_slice())
        }
    }
}

/// The links between rows at a pair of patterns.
pub(crate) fn links_at(
    alloc: Global,
    size: u32,
    kind: &Kind,
    pair: PatternPair,
    list: &Listing,
) -> Result<Links, AllocError>
    requires small { size ≤ SIZE }
    requires narrow { length (all_fillings size kind.now.patterns) ≤ WIDTH }
    requires widths { HaveWidth size kind.now.patterns (vectors_of list.now) }
    requires first { pair.first < length kind.now.patterns }
    requires second { pair.second < length kind.now.patterns }
    requires same { (pattern_at kind.now.patterns pair.first).variables ≡ (pattern_at kind.now.patterns pair.second).variables }
    requires room { length list.now + length list.now < u32.MAX }
    ensures { IfOk result (AreLinksAt size kind.now.patterns pair (vectors_of list.now)) }
{
    let first = kind.part(size, pair.first);
    let second = kind.part(size, pair.second);
    links_by(alloc, list, first, second)
}
