//! What stands at the places of terms under patterns.

ghost use Rattle.std.specs.Prelude.{◌≡◌, ◌*◌, ◌<◌, ◌≤◌, ◌^◌, length, map, IfOk};
ghost use Rattle.std.specs.List.{AllByRecursion, range_with_len};
ghost use Rattle.ua_table.specs.declared.limits.TheConstants.{SIZE, WIDTH};
ghost use Rattle.ua_identity.specs.declared.limits.TheConstants.{LETTERS};
ghost use Rattle.ua_identity.specs.Identities.{VariablePattern};
ghost use Rattle.ua_identity.specs.Patterns.{all_fillings, place_vector};
ghost use Rattle.ua_identity.specs.Patterns as fillings;

use crate::patterns::{Pattern, Patterned};
use std::alloc::{AllocError, Global};
use ua_table::{Elem, Vectors};
use ua_term::{append_values, assignment_count};

/// How many coordinates a vector has that has one for each of these patterns and each assignment of its
/// variables. It takes no memory.
pub fn width_of<P: Patterned>(size: u32, list: &[P]) -> u128
    requires { size ≤ SIZE }
    ensures width { result ≡ length (all_fillings size (P.patterns_of list.now)) }
    ensures small { result ≤ length list.now * SIZE ^ LETTERS }
{
    let mut width = 0;
    for item in list {
        width += assignment_count(size, item.pattern().variables());
    }
    width
}

/// What stands at a place under each pattern and each assignment, pattern first.
fn place_row<P: Patterned>(
    alloc: Global,
    size: u32,
    list: &[P],
    place: u8,
) -> Result<Vec<Elem>, AllocError>
    requires some { 0 < size }
    requires small { size ≤ SIZE }
    requires narrow { length (all_fillings size (P.patterns_of list.now)) ≤ WIDTH }
    requires place { AllByRecursion (λ (p : VariablePattern). place < length p.places) (P.patterns_of list.now) }
    ensures { IfOk result (λ row. row.items ≡ place_vector (all_fillings size (P.patterns_of list.now)) place) }
{
    let mut row = Vec::new(alloc);
    for item in list {
        let pattern = item.pattern();
        append_values(&mut row, size, pattern.variables(), pattern.variable(place))?;
    }
    Ok(row)
}

/// For each of so many places, what stands there under each pattern and each assignment, pattern first: vectors
/// of so many entries.
pub fn place_vectors<P: Patterned>(
    alloc: Global,
    size: u32,
    list: &[P],
    places: u8,
    width: u32,
) -> Result<Vectors, AllocError>
    requires some { 0 < size }
    requires small { size ≤ SIZE }
    requires places { AllByRecursion (λ (p : VariablePattern). places ≤ length p.places) (P.patterns_of list.now) }
    requires width { width ≡ length (all_fillings size (P.patterns_of list.now)) }
    requires narrow { width ≤ WIDTH }
    ensures width { IfOk result (λ vectors. vectors.width ≡ width) }
    ensures vectors { IfOk result (λ vectors. vectors.items ≡ map (place_vector (all_fillings size (P.patterns_of list.now))) (range_with_len 0 places)) }
{
    let mut vectors = Vectors::new(alloc, width);
    for place in 0..places {
        let row = place_row(alloc, size, list, place)?;
        vectors.add(row.as_slice())?;
    }
    Ok(vectors)
}

/// Behind how many coordinates those of pattern m begin.
pub fn start_of(size: u32, patterns: &[Pattern], m: usize) -> u32
    requires small { size ≤ SIZE }
    requires narrow { length (all_fillings size patterns.now) ≤ WIDTH }
    requires pattern { m ≤ length patterns.now }
    ensures { result ≡ fillings.start_of size patterns.now m }
{
    width_of(size, &patterns[..m]) as u32
}
