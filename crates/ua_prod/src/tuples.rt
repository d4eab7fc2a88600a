//! The numbers of tuples.

ghost use Rattle.std.specs.Prelude.{◌≡◌, ◌+◌, ◌*◌, ◌^◌, ◌<◌, ◌≤◌, ◌++◌, length, map, IfOk, OnOk};
ghost use Rattle.std.specs.List.{AllByRecursion, flat_map};
ghost use Rattle.ua_table.specs.declared.limits.TheConstants.{SIZE, VALUES};
ghost use Rattle.ua_table.specs.Algebras.{numeral};
ghost use Rattle.ua_prod.specs.Constructions.{tuples_among};
ghost use Rattle.ua_prod.specs.inner.Searches.{AreArguments};

use std::alloc::{AllocError, Global};
use ua_table::{Elem, OpTable};

/// Appends a number with each of the digits behind it.
fn push_digits(
    out: &mut Vec<u32>,
    number: u32,
    base: u32,
    digits: &[Elem],
) -> Result<(), AllocError>
    requires small { number * base + base ≤ VALUES }
    requires below { AllByRecursion (λ x. x < base) digits.now }
    ensures { OnOk result (out.new.items ≡ out.old.items ++ map (λ x. number * base + x) digits.now) }
{
    let front = number * base;
    for i in 0..digits.len() {
        out.push(front + u32::from(digits[i]))?;
    }
    Ok(())
}

/// The numbers with each of the digits behind them.
fn with_digits(
    alloc: Global,
    numbers: &[u32],
    base: u32,
    digits: &[Elem],
) -> Result<Vec<u32>, AllocError>
    requires small { AllByRecursion (λ m. m * base + base ≤ VALUES) numbers.now }
    requires below { AllByRecursion (λ x. x < base) digits.now }
    ensures { IfOk result (λ v. v.items ≡ flat_map (λ m. map (λ x. m * base + x) digits.now) numbers.now) }
{
    let mut out = Vec::new(alloc);
    for i in 0..numbers.len() {
        push_digits(&mut out, numbers[i], base, digits)?;
    }
    Ok(out)
}

/// The numbers, with this base, of all tuples of so many of the digits, in lexicographic order.
pub fn tuple_numbers(
    alloc: Global,
    base: u32,
    digits: &[Elem],
    arity: u8,
) -> Result<Vec<u32>, AllocError>
    requires some { 0 < base }
    requires small { base ^ arity ≤ VALUES }
    requires below { AllByRecursion (λ x. x < base) digits.now }
    ensures numbers { IfOk result (λ v. v.items ≡ map (numeral base) (tuples_among digits.now arity)) }
    ensures below { IfOk result (λ v. AllByRecursion (λ m. m < base ^ arity) v.items) }
{
    let mut numbers = vec![in alloc; 0; 1]?;
    for _ in 0..arity {
        numbers = with_digits(alloc, numbers.as_slice(), base, digits)?;
    }
    Ok(numbers)
}

/// The digits of a number in this base, the last the lowest.
fn write_digits(digits: &mut [Elem], number: usize, base: u32)
    requires some { 0 < base }
    requires small { base ≤ SIZE }
    requires number { number < base ^ length digits.old }
    ensures number { numeral base digits.new ≡ number }
    ensures below { AllByRecursion (λ x. x < base) digits.new }
{
    let base = base as usize;
    let mut rest = number;
    for place in (0..digits.len()).rev() {
        digits[place] = (rest % base) as Elem;
        rest /= base;
    }
}

/// The arguments whose tuple has this number, and 0 past the arity.
pub fn arguments(table: &OpTable, number: usize) -> [Elem; 4]
    requires { number < length table.now.values }
    ensures { AreArguments table.now number result }
{
    let mut args = [0; 4];
    write_digits(
        &mut args[..usize::from(table.arity())],
        number,
        table.size(),
    );
    args
}
