//! The principal congruence of a pair, by those that are known.

ghost use Rattle.std.specs.Prelude.{◌≡◌, ◌+◌, ◌<◌, ◌≤◌, [], length, slice_index_or, IfOk, IfSome, OnOk};
ghost use Rattle.ua_table.specs.declared.limits.TheConstants.{SIZE};
ghost use Rattle.ua_cong.specs.Closings.{AreElements, IsPrincipal};
ghost use Rattle.ua_cong.specs.Extensions.{IsCgAbove};
ghost use Rattle.ua_cong.specs.Known.{IsKnown};
ghost use Rattle.ua_cong.specs.inner.Known.{IsPlaceOf, AreKept};
ghost use Rattle.ua_cong.specs.inner.Principals.{HasPrincipal};

use crate::closing::{cg_sets, place_of, sets_above};
use crate::hints::hint;
use crate::known::{Known, learn, note};
use crate::moves::Move;
use std::alloc::{AllocError, Global};
use ua_part::{DisjointSets, Part};
use ua_table::{Algebra, Elem};

/// The least members of the blocks, as a row.
fn row_of(alloc: Global, sets: &mut DisjointSets) -> Result<Vec<Elem>, AllocError>
    requires { length sets.old ≤ SIZE }
    ensures { IfOk result (λ row. row.items ≡ sets.old) }
{
    let mut row = vec![in alloc; 0; sets.size() as usize]?;
    sets.write_row(row.as_mut_slice());
    Ok(row)
}

/// The least congruence above a known one that relates two elements, as a row.
fn row_above(
    alloc: Global,
    a: &Algebra,
    known: &Known,
    place: u32,
    first: Elem,
    second: Elem,
) -> Result<Vec<Elem>, AllocError>
    requires known { IsKnown a.now known.now }
    requires elements { AreElements a.now (first, second) }
    requires place { place < length known.now.rows.items }
    ensures { IfOk result (λ row. IsCgAbove a.now (slice_index_or known.now.rows.items place []) first second row.items) }
{
    // The size of an algebra is within its limit.
    let _size = a.size();
    let part = Part::from_row(alloc, known.rows.row(place))?;
    let mut sets = sets_above(alloc, a, part, first, second, known)?;
    row_of(alloc, &mut sets)
}

/// The place of the principal congruence of a pair, where a hint is it.
fn settled_place(a: &Algebra, known: &Known, first: Elem, second: Elem, along: Move) -> Option<u32>
    requires known { IsKnown a.now known.now }
    requires elements { AreElements a.now (first, second) }
    ensures { IfSome result (IsPlaceOf a.now known.now first second) }
{
    let place = hint(a, known, first, second, along)?;
    let row = known.rows.row(place);
    if row[usize::from(first)] != row[usize::from(second)] {
        return None;
    }
    Some(place)
}

/// The principal congruence of a pair, as a row, from a hint on, where there is one.
fn principal_row(
    alloc: Global,
    a: &Algebra,
    known: &Known,
    first: Elem,
    second: Elem,
    along: Option<Move>,
) -> Result<Vec<Elem>, AllocError>
    requires known { IsKnown a.now known.now }
    requires elements { AreElements a.now (first, second) }
    ensures { IfOk result (λ row. IsPrincipal a.now (first, second, row.items)) }
{
    if let Some(along) = along {
        if let Some(place) = hint(a, known, first, second, along) {
            return row_above(alloc, a, known, place, first, second);
        }
    }
    // The size of an algebra is within its limit.
    let _size = a.size();
    let mut sets = cg_sets(alloc, a, &[(first, second)], known)?;
    row_of(alloc, &mut sets)
}

/// Finds the principal congruence of a pair, unless it is known. A translation that takes the pair to one whose
/// principal congruence is known saves time, and none where it is that of the pair.
pub fn settle(
    alloc: Global,
    a: &Algebra,
    known: &mut Known,
    first: Elem,
    second: Elem,
    along: Option<Move>,
) -> Result<(), AllocError>
    requires known { IsKnown a.now known.old }
    requires elements { AreElements a.now (first, second) }
    requires room { length known.old.rows.items < u32.MAX }
    ensures few { length known.new.rows.items ≤ length known.old.rows.items + 1 }
    ensures known { OnOk result (IsKnown a.now known.new) }
    ensures kept { OnOk result (AreKept known.old.rows.items known.new.rows.items) }
    ensures there { OnOk result (HasPrincipal a.now known.new.rows.items (first, second)) }
{
    if place_of(a, known, first, second).is_some() {
        return Ok(());
    }
    if let Some(along) = along {
        if let Some(place) = settled_place(a, known, first, second, along) {
            note(a, known, first, second, place);
            return Ok(());
        }
    }
    let row = principal_row(alloc, a, known, first, second, along)?;
    learn(a, known, first, second, row.as_slice())
}
