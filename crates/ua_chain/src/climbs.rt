//! The search over the rows of a closed listing.

ghost use Rattle.std.specs.Prelude.{◌≡◌, ◌↔◌, ◌⊎◌, ◌<◌, ◌≤◌, ℕ, Bool, List, true, length, slice_index_or, IfOk, false};
ghost use Rattle.ua_table.specs.declared.limits.TheConstants.{SIZE, WIDTH, BUDGET};
ghost use Rattle.ua_table.specs.Listings.{vectors_of};
ghost use Rattle.ua_climb.specs.Ladders.{IsAllowed};
ghost use Rattle.ua_identity.specs.Patterns.{all_fillings};
ghost use Rattle.ua_chain.specs.inner.RowsOf.{AreOwnRows, HaveWidth};
ghost use Rattle.ua_chain.specs.inner.ClimbsIn.{IsClimbIn};

use crate::rows::{links_at, own_rows};
use std::alloc::{AllocError, Global};
use ua_climb::{Climb, least_climb};
use ua_close::Listing;
use ua_identity::Kind;

/// A least climb over the rows from the start to the end, or the rows that climbs lead to.
pub(crate) fn climb_in(
    alloc: Global,
    size: u32,
    kind: &Kind,
    list: &Listing,
    start: u32,
    end: u32,
) -> Result<Climb, AllocError>
    requires some { 0 < size }
    requires small { size ≤ SIZE }
    requires narrow { length (all_fillings size kind.now.patterns) ≤ WIDTH }
    requires widths { HaveWidth size kind.now.patterns (vectors_of list.now) }
    requires few { length list.now ≤ BUDGET }
    requires start { (allowed : List Bool) → AreOwnRows size kind.now (vectors_of list.now) allowed → IsAllowed allowed start }
    requires end { end < length list.now }
    ensures { IfOk result (IsClimbIn size kind.now (vectors_of list.now) start end) }
{
    // What this call ensures makes the links' patterns alike.
    let _places = kind.places();
    let allowed = own_rows(alloc, size, kind, list)?;
    let even = links_at(alloc, size, kind, kind.even(), list)?;
    let odd = links_at(alloc, size, kind, kind.odd(), list)?;
    least_climb(alloc, allowed.as_slice(), &even, &odd, start, end)
}

/// Which places are marked in either list.
pub(crate) fn either(alloc: Global, left: &[bool], right: &[bool]) -> Result<Vec<bool>, AllocError>
    requires { length left.now ≡ length right.now }
    ensures count { IfOk result (λ marks. length marks.items ≡ length left.now) }
    ensures marks { IfOk result (λ marks. (i : ℕ) → (slice_index_or marks.items i false ≡ true) ↔ ((slice_index_or left.now i false ≡ true) ⊎ (slice_index_or right.now i false ≡ true))) }
{
    let mut marks = Vec::with_capacity(alloc, left.len())?;
    for i in 0..left.len() {
        marks.push(left[i] || right[i])?;
    }
    Ok(marks)
}
