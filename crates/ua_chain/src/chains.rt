//! Least chains of terms.

ghost use Rattle.std.specs.Prelude.{◌≡◌, ◌-◌, ◌<◌, ◌≤◌, ◌^◌, ℕ, length, IfOk, slice_get, Some};
ghost use Rattle.std.specs.List.{AllByRecursion};
ghost use Rattle.ua_table.specs.declared.limits.TheConstants.{BUDGET};
ghost use Rattle.ua_table.specs.Listings.{IsListing, IsClosedListing};
ghost use Rattle.ua_table.specs.Orders.{IsSerialListing};
ghost use Rattle.ua_term.specs.Steps.{StepList};
ghost use Rattle.ua_chain.specs.Answers.{TellsChain, IsSerialChain};
ghost use Rattle.ua_chain.specs.inner.Closures.{AreStepsAt, AreMarkedNumbers, AreEvenNumbers, AreOddNumbers, generator_step};
ghost use Rattle.ua_identity.specs.Chains.{power_of, generators_of};

use crate::climbs::{climb_in, either};
use std::alloc::{AllocError, Global};
use ua_climb::Climb;
use ua_close::{Listing, steps_for};
use ua_identity::Kind;
use ua_table::{Algebra, Frame, Origin, Vectors};
use ua_term::Steps;

/// What is answered when a least chain is asked for.
#[derive(Drop, Debug)]
pub enum Chain {
    /// The terms of a chain of least length, each in steps: the first is generator 0 and, where there are more,
    /// the last the generator at which chains of the kind end.
    Yes(Vec<Steps>),
    /// The vectors of all terms, where there is no chain, and the positions of the rows that beginnings of
    /// chains reach at even and at odd indices, ascending. Where the kind does not tell these apart, all are
    /// among the even ones.
    No {
        list: Listing,
        even: Vec<u32>,
        odd: Vec<u32>,
    },
    /// One more of the vectors than the budget.
    Exceeds(Listing),
}

/// The one step that is generator j.
fn generator_steps(
    alloc: Global,
    frame: &Frame,
    gens: &Vectors,
    j: u32,
) -> Result<Steps, AllocError>
    requires { j < length gens.now.items }
    ensures { IfOk result (λ steps. steps ≡ generator_step frame.now gens.now.items j) }
{
    let shape = frame.shape(alloc)?;
    let steps = vec![in alloc; Origin::Gen { index: j }]?;
    let Ok(steps) = Steps::new(steps, &shape, gens.len()) else {
        unreachable!()
    };
    Ok(steps)
}

/// The steps of term k of a chain whose rows are these: the first is generator 0, and the last the last
/// generator.
fn term_steps(
    alloc: Global,
    frame: &Frame,
    gens: &Vectors,
    list: &Listing,
    rows: &[u32],
    k: usize,
) -> Result<Steps, AllocError>
    requires gens { 0 < length gens.now.items }
    requires index { k < length rows.now }
    requires rows { AllByRecursion (λ i. i < length list.now) rows.now }
    requires listing { IsListing frame.now gens.now.items list.now }
    ensures { IfOk result (AreStepsAt frame.now gens.now.items list.now rows.now (length gens.now.items - 1) k) }
{
    if k == 0 {
        generator_steps(alloc, frame, gens, 0)
    } else if k + 1 == rows.len() {
        generator_steps(alloc, frame, gens, gens.len() - 1)
    } else {
        steps_for(alloc, frame, gens, list, rows[k])
    }
}

/// The steps of the terms of a chain whose rows are these.
fn chain_steps(
    alloc: Global,
    frame: &Frame,
    gens: &Vectors,
    list: &Listing,
    rows: &[u32],
) -> Result<Vec<Steps>, AllocError>
    requires gens { 0 < length gens.now.items }
    requires rows { AllByRecursion (λ i. i < length list.now) rows.now }
    requires listing { IsListing frame.now gens.now.items list.now }
    ensures count { IfOk result (λ steps. length steps.items ≡ length rows.now) }
    ensures steps { IfOk result (λ steps. (j : ℕ) (s : StepList) → slice_get steps.items j ≡ Some s → AreStepsAt frame.now gens.now.items list.now rows.now (length gens.now.items - 1) j s) }
{
    let mut steps = Vec::with_capacity(alloc, rows.len())?;
    for k in 0..rows.len() {
        steps.push(term_steps(alloc, frame, gens, list, rows, k)?)?;
    }
    Ok(steps)
}

/// The numbers that are marked, ascending.
fn marked_numbers(alloc: Global, marks: &[bool]) -> Result<Vec<u32>, AllocError>
    requires { length marks.now < 2 ^ 32 }
    ensures { IfOk result (λ numbers. AreMarkedNumbers marks.now numbers.items) }
{
    let mut numbers = Vec::new(alloc);
    for (i, marked) in marks.iter().enumerate() {
        if *marked {
            numbers.push(i as u32)?;
        }
    }
    Ok(numbers)
}

/// The numbers that are told among the even ones.
fn even_numbers(
    alloc: Global,
    by_parity: bool,
    at_even: &[bool],
    at_odd: &[bool],
) -> Result<Vec<u32>, AllocError>
    requires same { length at_even.now ≡ length at_odd.now }
    requires few { length at_even.now < 2 ^ 32 }
    ensures { IfOk result (λ numbers. AreEvenNumbers by_parity at_even.now at_odd.now numbers.items) }
{
    if by_parity {
        marked_numbers(alloc, at_even)
    } else {
        let marks = either(alloc, at_even, at_odd)?;
        marked_numbers(alloc, marks.as_slice())
    }
}

/// The numbers that are told among the odd ones.
fn odd_numbers(alloc: Global, by_parity: bool, at_odd: &[bool]) -> Result<Vec<u32>, AllocError>
    requires { length at_odd.now < 2 ^ 32 }
    ensures { IfOk result (λ numbers. AreOddNumbers by_parity at_odd.now numbers.items) }
{
    if by_parity {
        marked_numbers(alloc, at_odd)
    } else {
        Ok(Vec::new(alloc))
    }
}

/// What a closed listing of the terms' vectors tells.
pub(crate) fn chain_in(
    alloc: Global,
    a: &Algebra,
    kind: &Kind,
    frame: &Frame,
    gens: &Vectors,
    list: Listing,
) -> Result<Chain, AllocError>
    requires frame { frame.now ≡ power_of a.now kind.now }
    requires generators { gens.now.items ≡ generators_of a.now kind.now }
    requires closed { (b : ℕ) × (b ≤ BUDGET) × IsClosedListing frame.now gens.now.items b list }
    ensures chain { IfOk result (λ chain. (b : ℕ) → IsClosedListing frame.now gens.now.items b list → TellsChain a.now kind.now b chain) }
    ensures serial { IfOk result (λ chain. (b : ℕ) → IsClosedListing frame.now gens.now.items b list → IsSerialListing frame.now gens.now.items list → IsSerialChain a.now kind.now b chain) }
{
    // What these calls ensure says that the parts of the kind fit together, and that the frame is narrow.
    let (_places, _width) = (kind.places(), frame.width());
    let size = a.size();
    let Some(start) = list.find(gens.get(0)) else {
        unreachable!()
    };
    let Some(end) = list.find(gens.get(gens.len() - 1)) else {
        unreachable!()
    };
    match climb_in(alloc, size, kind, &list, start, end)? {
        Climb::Rows(rows) => {
            let steps = chain_steps(alloc, frame, gens, &list, rows.as_slice())?;
            Ok(Chain::Yes(steps))
        }
        Climb::Reached { at_even, at_odd } => {
            let even = even_numbers(
                alloc,
                kind.by_parity(),
                at_even.as_slice(),
                at_odd.as_slice(),
            )?;
            let odd = odd_numbers(alloc, kind.by_parity(), at_odd.as_slice())?;
            Ok(Chain::No { list, even, odd })
        }
    }
}
