//! A known principal congruence that lies below that of a pair.

ghost use Rattle.std.specs.Prelude.{◌<◌, length, slice_index, IfSome};
ghost use Rattle.ua_table.specs.Algebras.{arities_of};
ghost use Rattle.ua_cong.specs.Closings.{AreElements};
ghost use Rattle.ua_cong.specs.inner.Hints.{IsHint, IsNext};
ghost use Rattle.ua_cong.specs.Known.{IsKnown};

use crate::closing::place_of;
use crate::known::Known;
use crate::moves::Move;
use ua_prod::Translations;
use ua_table::{Algebra, Elem};

/// The pair to which a translation along a place of an operation takes a pair, if there is this translation.
fn translated_along(a: &Algebra, x: Elem, y: Elem, along: Move) -> Option<(Elem, Elem)>
    requires elements { AreElements a.now (x, y) }
    requires operation { along.op < length (arities_of a.now) }
    requires place { along.place < slice_index (arities_of a.now) along.op }
    ensures { IfSome result (IsNext a.now x y) }
{
    let translations = Translations::new(a.op(along.op), along.place);
    let front = along.front;
    if front >= translations.fronts() {
        return None;
    }
    let first = translations.row(front, x);
    let second = translations.row(front, y);
    let back = along.back;
    if back >= first.len() {
        return None;
    }
    Some((first[back], second[back]))
}

/// The pair to which a translation takes a pair, if there is this translation.
fn translated(a: &Algebra, x: Elem, y: Elem, along: Move) -> Option<(Elem, Elem)>
    requires { AreElements a.now (x, y) }
    ensures { IfSome result (IsNext a.now x y) }
{
    if along.op as usize >= a.ops().len() {
        return None;
    }
    if along.place >= a.op(along.op).arity() {
        return None;
    }
    translated_along(a, x, y, along)
}

/// The place of the principal congruence of the pair to which a translation takes a pair, if it is known: it lies
/// below that of the pair.
pub fn hint(a: &Algebra, known: &Known, x: Elem, y: Elem, along: Move) -> Option<u32>
    requires known { IsKnown a.now known.now }
    requires elements { AreElements a.now (x, y) }
    ensures { IfSome result (IsHint a.now known.now x y) }
{
    let (u, v) = translated(a, x, y, along)?;
    place_of(a, known, u, v)
}
