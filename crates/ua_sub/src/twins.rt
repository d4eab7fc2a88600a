//! Elements that generate the same as an earlier one, found without closing what they generate.

ghost use Rattle.std.specs.Prelude.{◌<◌, ◌≤◌, [], length, Contains, slice_index_or, IfOk, IfSome, OnOk, IsTrue};
ghost use Rattle.std.specs.List.{AllByRecursion};
ghost use Rattle.ua_table.specs.Algebras.{arities_of};
ghost use Rattle.ua_sub.specs.Members.{contents};
ghost use Rattle.ua_sub.specs.inner.Twins.{IsFound, IsTwin, AreFound, HasGrown};

use std::alloc::{AllocError, Global};
use ua_table::{Algebra, Elem};

/// How many values a search looks at, times the square of the size: enough for the pairs of eight operations, and
/// few beside the closure of an element where operations take more.
const LOOKS: u64 = 8;

/// Which earlier element generates the same as an element, where what each earlier one generates is listed.
#[derive(Drop)]
pub struct Question<'a> {
    pub algebra: &'a Algebra,
    pub lists: &'a [Vec<Elem>],
    pub element: Elem,
}

/// What the element is found to generate, in the order in which it was found, an element of these that is found to
/// generate the element, and how many values are still looked at.
#[derive(Drop)]
struct Found {
    members: Vec<Elem>,
    is_member: Vec<bool>,
    twin: Option<Elem>,
    left: u64,
}

/// Whether the search ends.
fn is_over(found: &Found) -> bool {
    found.twin.is_some() || found.left == 0
}

/// Whether what another element generates is listed, and has the element.
fn is_listed(question: &Question, y: Elem) -> bool
    ensures listed { IsTrue result → y < length question.now.lists.now }
    ensures contained { IsTrue result → Contains (slice_index_or (contents question.now.lists.now) y []) question.now.element }
{
    let place = y as usize;
    if place >= question.lists.len() {
        return false;
    }
    let list = question.lists[place].as_slice();
    list.binary_search(&question.element).is_ok()
}

/// Takes in an element that is generated.
fn take_in(question: &Question, found: &mut Found, y: Elem) -> Result<(), AllocError>
    requires generated { IsFound question.now y }
    requires found { AreFound question.now found.old }
    ensures { OnOk result (HasGrown question.now found.old found.new) }
{
    if found.is_member[y as usize] {
        return Ok(());
    }
    found.is_member[y as usize] = true;
    found.members.push(y)?;
    if is_listed(question, y) {
        found.twin = Some(y);
    }
    Ok(())
}

/// Moves on to the next places below a bound, where one of them stays. It answers whether there are any.
fn advance(places: &mut [usize; 4], arity: u8, fixed: u8, bound: usize) -> bool
    requires arity { arity ≤ 4 }
    requires below { AllByRecursion (λ p. p < bound) places.old }
    ensures below { AllByRecursion (λ p. p < bound) places.new }
{
    for place in 0..arity {
        let i = place as usize;
        if place != fixed && places[i] + 1 < bound {
            places[i] += 1;
            return true;
        }
        if place != fixed {
            places[i] = 0;
        }
    }
    false
}

/// The members at these places.
fn members_at(members: &[Elem], places: &[usize; 4]) -> [Elem; 4]
    requires { AllByRecursion (λ p. p < length members.now) places.now }
    ensures { AllByRecursion (Contains members.now) result }
{
    [
        members[places[0]],
        members[places[1]],
        members[places[2]],
        members[places[3]],
    ]
}

/// Takes in the value of an operation at these of the members.
fn take_value(
    question: &Question,
    found: &mut Found,
    op: u32,
    places: &[usize; 4],
) -> Result<(), AllocError>
    requires operation { op < length (arities_of question.now.algebra.now) }
    requires places { AllByRecursion (λ p. p < length found.old.members.items) places.now }
    requires found { AreFound question.now found.old }
    ensures { OnOk result (HasGrown question.now found.old found.new) }
{
    let table = question.algebra.op(op);
    let args = members_at(found.members.as_slice(), places);
    let value = table.value(&args[..table.arity() as usize]);
    take_in(question, found, value)
}

/// Takes in the values of an operation at a member with itself and those before it, where the member stands at
/// one place. It ends where the search does.
fn take_along(
    question: &Question,
    found: &mut Found,
    op: u32,
    fixed: u8,
    last: usize,
) -> Result<(), AllocError>
    requires operation { op < length (arities_of question.now.algebra.now) }
    requires place { fixed < 4 }
    requires last { last < length found.old.members.items }
    requires found { AreFound question.now found.old }
    ensures { OnOk result (HasGrown question.now found.old found.new) }
{
    let arity = question.algebra.op(op).arity();
    let mut places = [0; 4];
    places[fixed as usize] = last;
    for _ in 0..(last + 1).saturating_pow(u32::from(arity)) {
        take_value(question, found, op, &places)?;
        found.left = found.left.saturating_sub(1);
        if is_over(found) || !advance(&mut places, arity, fixed, last + 1) {
            return Ok(());
        }
    }
    Ok(())
}

/// Takes in the values of an operation at a member with itself and those before it.
fn take_by(question: &Question, found: &mut Found, op: u32, last: usize) -> Result<(), AllocError>
    requires operation { op < length (arities_of question.now.algebra.now) }
    requires last { last < length found.old.members.items }
    requires found { AreFound question.now found.old }
    ensures { OnOk result (HasGrown question.now found.old found.new) }
{
    // A constant has no place, and is taken in once.
    for fixed in 0..question.algebra.op(op).arity().max(1) {
        take_along(question, found, op, fixed, last)?;
    }
    Ok(())
}

/// Takes in the values of all operations at a member with itself and those before it.
fn take_all(question: &Question, found: &mut Found, last: usize) -> Result<(), AllocError>
    requires last { last < length found.old.members.items }
    requires found { AreFound question.now found.old }
    ensures { OnOk result (HasGrown question.now found.old found.new) }
{
    for op in 0..question.algebra.ops().len() as u32 {
        take_by(question, found, op, last)?;
    }
    Ok(())
}

/// The element alone.
fn first_found(alloc: Global, question: &Question) -> Result<Found, AllocError>
    requires element { question.now.element < question.now.algebra.now.size }
    ensures { IfOk result (AreFound question.now) }
{
    let size = question.algebra.size();
    let mut found = Found {
        members: Vec::new(alloc),
        is_member: vec![in alloc; false; size as usize]?,
        twin: None,
        left: u64::from(size).saturating_pow(2).saturating_mul(LOOKS),
    };
    take_in(question, &mut found, question.element)?;
    Ok(found)
}

/// A listed element that generates the same as the element, if one turns up soon on the way to all that the
/// element generates.
pub fn twin(alloc: Global, question: &Question) -> Result<Option<Elem>, AllocError>
    requires element { question.now.element < question.now.algebra.now.size }
    ensures { IfOk result (λ found. IfSome found (IsTwin question.now)) }
{
    let mut found = first_found(alloc, question)?;
    for last in 0..question.algebra.size() as usize {
        if is_over(&found) || last >= found.members.len() {
            return Ok(found.twin);
        }
        take_all(question, &mut found, last)?;
    }
    Ok(found.twin)
}
