//! Subalgebras.

ghost use Rattle.std.specs.Prelude.{◌≡◌, ◌<◌, ◌≤◌, ◌==◌, length, map, position, IfOk, IfSome};
ghost use Rattle.std.specs.List.{AllByRecursion, range_with_len};
ghost use Rattle.std.specs.List.Sorted.{IsStrictlyIncreasing};
ghost use Rattle.ua_table.specs.declared.limits.TheConstants.{SIZE};
ghost use Rattle.ua_prod.specs.Constructions.{place_among};
ghost use Rattle.ua_prod.specs.Permitted.{MaySub};

use crate::errors::ProdError;
use crate::escapes::first_escape;
use crate::renumbering::{Renumbering, renumbered};
use std::alloc::{AllocError, Global};
use ua_table::{Algebra, Elem, Name};

/// The place of an element among the members, if it is one.
fn position_of(members: &[Elem], x: Elem) -> Option<usize>
    ensures place { result ≡ position (λ m. m == x) members.now }
    ensures within { IfSome result (λ place. place < length members.now) }
{
    members.iter().position(|m| *m == x)
}

/// The place of an element among the members, or 0 where it is none.
pub fn place_among(members: &[Elem], x: Elem) -> Elem
    requires { length members.now ≤ SIZE }
    ensures { result ≡ place_among members.now x }
{
    position_of(members, x).unwrap_or(0) as Elem
}

/// The members of a set, and for each element its place among them.
fn by_members(alloc: Global, size: u32, set: &[Elem]) -> Result<Renumbering, AllocError>
    requires small { size ≤ SIZE }
    requires few { length set.now ≤ size }
    ensures members { IfOk result (λ r. r.members.items ≡ set.now) }
    ensures numbers { IfOk result (λ r. r.numbers.items ≡ map (place_among set.now) (range_with_len 0 size)) }
{
    let members = Vec::from_slice(alloc, set)?;
    let mut numbers = Vec::with_capacity(alloc, size as usize)?;
    for x in 0..size {
        numbers.push(place_among(set, x as Elem))?;
    }
    Ok(Renumbering { members, numbers })
}

/// The subalgebra on a set, whose members are numbered in ascending order (S. Burris and
/// H. P. Sankappanavar, A Course in Universal Algebra, II.2). It is refused where the set has no member
/// (`Size`), and else where the set is not closed (`NotClosed`).
pub fn subalgebra(
    alloc: Global,
    name: Name,
    a: &Algebra,
    set: &[Elem],
) -> Result<Algebra, ProdError>
    requires increasing { IsStrictlyIncreasing set.now }
    requires range { AllByRecursion (λ x. x < a.now.size) set.now }
    ensures { MaySub name a.now set.now result }
{
    if set.is_empty() {
        return Err(ProdError::Size);
    }
    let renumbering = by_members(alloc, a.size(), set)?;
    if let Some(escape) = first_escape(alloc, a, &renumbering)? {
        let args = escape.args;
        return Err(ProdError::NotClosed {
            op: escape.op,
            args,
        });
    }
    Ok(renumbered(alloc, name, a, &renumbering)?)
}
