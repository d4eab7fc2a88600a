//! Whether a set of elements is closed under the operations, and the first escape where it is not.

ghost use Rattle.std.specs.Prelude.{◌≡◌, ◌<◌, ◌↔◌, length, map, Contains, IsTrue, IfOk, IfSome, IfNone};
ghost use Rattle.std.specs.List.{AllByRecursion, range_with_len};
ghost use Rattle.std.specs.List.Sorted.{IsStrictlyIncreasing};
ghost use Rattle.ua_prod.specs.Constructions.{place_among};
ghost use Rattle.ua_prod.specs.Escapes.{IsClosed, IsFirstEscape};
ghost use Rattle.ua_prod.specs.inner.Searches.{Keeps, IsFirstEscapeOf};

use crate::renumbering::Renumbering;
use crate::tuples::{arguments, tuple_numbers};
use std::alloc::{AllocError, Global};
use ua_table::{Algebra, Elem, OpTable};

/// An operation with arguments, 0 past the arity, that it takes from the members of a set to what is
/// none.
#[derive(Clone, Copy)]
pub struct Escape {
    pub op: u32,
    pub args: [Elem; 4],
}

/// Whether an element is a member. One that is none has the number of the first member.
fn is_member(renumbering: &Renumbering, x: Elem) -> bool
    requires some { 0 < length renumbering.now.members.items }
    requires element { x < length renumbering.now.numbers.items }
    requires numbers { renumbering.now.numbers.items ≡ map (place_among renumbering.now.members.items) (range_with_len 0 (length renumbering.now.numbers.items)) }
    ensures { IsTrue result ↔ Contains renumbering.now.members.items x }
{
    let number = renumbering.numbers[x as usize];
    renumbering.members[number as usize] == x
}

/// The first arguments that the operation takes from the members to what is none.
fn first_escape_of(
    alloc: Global,
    table: &OpTable,
    renumbering: &Renumbering,
) -> Result<Option<[Elem; 4]>, AllocError>
    requires some { 0 < length renumbering.now.members.items }
    requires increasing { IsStrictlyIncreasing renumbering.now.members.items }
    requires members { AllByRecursion (λ x. x < table.now.size) renumbering.now.members.items }
    requires count { length renumbering.now.numbers.items ≡ table.now.size }
    requires numbers { renumbering.now.numbers.items ≡ map (place_among renumbering.now.members.items) (range_with_len 0 (length renumbering.now.numbers.items)) }
    ensures none { IfOk result (λ r. IfNone r (Keeps table.now renumbering.now.members.items)) }
    ensures some { IfOk result (λ r. IfSome r (IsFirstEscapeOf table.now renumbering.now.members.items)) }
{
    let members = renumbering.members.as_slice();
    let numbers = tuple_numbers(alloc, table.size(), members, table.arity())?;
    for i in 0..numbers.len() {
        let number = numbers[i] as usize;
        if !is_member(renumbering, table.values()[number]) {
            return Ok(Some(arguments(table, number)));
        }
    }
    Ok(None)
}

/// The first escape from the members, in the order of operations and then of arguments.
pub fn first_escape(
    alloc: Global,
    a: &Algebra,
    renumbering: &Renumbering,
) -> Result<Option<Escape>, AllocError>
    requires some { 0 < length renumbering.now.members.items }
    requires increasing { IsStrictlyIncreasing renumbering.now.members.items }
    requires members { AllByRecursion (λ x. x < a.now.size) renumbering.now.members.items }
    requires count { length renumbering.now.numbers.items ≡ a.now.size }
    requires numbers { renumbering.now.numbers.items ≡ map (place_among renumbering.now.members.items) (range_with_len 0 (length renumbering.now.numbers.items)) }
    ensures none { IfOk result (λ r. IfNone r (IsClosed a.now renumbering.now.members.items)) }
    ensures some { IfOk result (λ r. IfSome r (λ escape. IsFirstEscape a.now renumbering.now.members.items escape.op escape.args)) }
{
    for op in 0..a.ops().len() as u32 {
        if let Some(args) = first_escape_of(alloc, a.op(op), renumbering)? {
            return Ok(Some(Escape { op, args }));
        }
    }
    Ok(None)
}
