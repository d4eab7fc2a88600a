//! The operands that commands share: the values that are written, and where they fail.

ghost use Rattle.std.specs.Prelude.{◌≡◌, ◌<◌, ◌≤◌, ◌*◌, length, IfOk, IfErr};
ghost use Rattle.std.specs.List.{AllByRecursion};
ghost use Rattle.ua_table.specs.declared.limits.TheConstants.{BUDGET};
ghost use Rattle.ua_table.specs.Algebras.{IsVector, arities_of};
ghost use Rattle.ua_table.specs.Numbering.{records};
ghost use Rattle.ua_close.specs.Answers.{IsCause};
ghost use Rattle.ua_reply.specs.Checks.{AreFirst, Passes};
ghost use Rattle.ua_reply.specs.Operands.{element_of, place_of, value_of, values_of, vectors_of, power_of, positive, variables_checks, element_in, elements_in, length_in, vector_in, vectors_in, term_in, pair_of, pairs_of, IsPairIn};

use crate::checks::FirstErrors;
use crate::known::Known;
use std::alloc::{AllocError, Global};
use ua_close::{CloseError, power_within};
use ua_script::{Entry, Items, Number};
use ua_table::limits::{BUDGET, VARIABLES};
use ua_table::{Elem, Frame, Vectors};
use ua_term::Written;
use ua_text::Place;

/// Whether a width is above 0.
pub fn positive(width: Number) -> FirstErrors
    ensures { AreFirst (positive width) result }
{
    let mut errors = FirstErrors::none();
    if width.value == 0 {
        errors.range = Some(width.place);
    }
    errors
}

/// Whether there are no more variables than their limit.
pub fn variables_in(count: Number) -> FirstErrors
    ensures { AreFirst (variables_checks count) result }
{
    let mut errors = FirstErrors::none();
    if count.value > u32::from(VARIABLES) {
        errors.range = Some(count.place);
    }
    errors
}

/// The element that an entry writes: its number, or the place of its name.
pub fn element_of(known: &Known, entry: &Entry) -> Option<usize>
    ensures { result ≡ element_of known.now entry.now }
{
    match entry {
        Entry::Number(n) => Some(n.value as usize),
        Entry::Word(w) => known.place_of(w.name.text()),
    }
}

/// Where an entry stands.
fn place_of(entry: &Entry) -> Place
    ensures { result ≡ place_of entry.now }
{
    match entry {
        Entry::Number(n) => n.place,
        Entry::Word(w) => w.place,
    }
}

/// Whether an entry is an element.
fn element_in(known: &Known, entry: &Entry) -> FirstErrors
    ensures { AreFirst (element_in known.now entry.now) result }
{
    let mut errors = FirstErrors::none();
    match element_of(known, entry) {
        None => errors.unknown = Some(place_of(entry)),
        Some(x) => {
            if x >= known.algebra().size() as usize {
                errors.range = Some(place_of(entry));
            }
        }
    }
    errors
}

/// Whether each entry is an element.
pub fn elements_in(known: &Known, entries: &[Entry]) -> FirstErrors
    ensures { AreFirst (elements_in known.now entries.now) result }
{
    let mut errors = FirstErrors::none();
    for entry in entries {
        errors = errors.and(element_in(known, entry));
    }
    errors
}

/// Whether a vector has so many entries.
pub fn length_in(width: usize, v: &Items) -> FirstErrors
    ensures first { AreFirst (length_in width v.now) result }
    ensures length { Passes (length_in width v.now) → length v.now.values ≡ width }
{
    let mut errors = FirstErrors::none();
    if v.values.as_slice().len() != width {
        errors.shape = Some(v.place);
    }
    errors
}

/// Whether a vector has so many entries, each an element.
pub fn vector_in(known: &Known, width: u32, v: &Items) -> FirstErrors
    ensures { AreFirst (vector_in known.now width v.now) result }
{
    elements_in(known, v.values.as_slice()).and(length_in(width as usize, v))
}

/// Whether each vector has so many entries, each an element.
pub fn vectors_in(known: &Known, width: u32, vs: &[Items]) -> FirstErrors
    ensures { AreFirst (vectors_in known.now width vs.now) result }
{
    let mut errors = FirstErrors::none();
    for v in vs {
        errors = errors.and(vector_in(known, width, v));
    }
    errors
}

/// Whether a term has a value at so many elements.
pub fn term_in(known: &Known, count: usize, term: &Written) -> FirstErrors
    ensures { AreFirst (term_in known.now count term.now) result }
{
    FirstErrors {
        unknown: term.first_unknown(known.algebra()),
        range: term.first_variable_from(count),
        shape: term.first_misshapen(known.algebra()),
    }
}

/// The element that is written.
fn element(known: &Known, entry: &Entry) -> Elem
    requires { Passes (element_in known.now entry.now) }
    ensures value { result ≡ value_of known.now entry.now }
    ensures below { result < known.now.algebra.size }
{
    // An element is below the size, which fits its type.
    let _size = known.algebra().size();
    let Some(x) = element_of(known, entry) else {
        unreachable!()
    };
    x as Elem
}

/// The elements that are written.
pub fn elements(alloc: Global, known: &Known, v: &Items) -> Result<Vec<Elem>, AllocError>
    requires passed { Passes (elements_in known.now v.now.values) }
    ensures values { IfOk result (λ row. row.items ≡ values_of known.now v.now) }
    ensures below { IfOk result (λ row. AllByRecursion (λ x. x < known.now.algebra.size) row.items) }
{
    let entries = v.values.as_slice();
    let mut row = Vec::with_capacity(alloc, entries.len())?;
    for entry in entries {
        row.push(element(known, entry))?;
    }
    Ok(row)
}

/// The vector that is written.
pub fn vector(alloc: Global, known: &Known, width: u32, v: &Items) -> Result<Vec<Elem>, AllocError>
    requires passed { Passes (vector_in known.now width v.now) }
    ensures values { IfOk result (λ row. row.items ≡ values_of known.now v.now) }
    ensures admitted { IfOk result (λ row. IsVector (power_of known.now width) row.items) }
{
    elements(alloc, known, v)
}

/// The vectors that are written.
pub fn vectors(
    alloc: Global,
    known: &Known,
    width: u32,
    vs: &[Items],
) -> Result<Vectors, AllocError>
    requires passed { Passes (vectors_in known.now width vs.now) }
    requires few { length vs.now < u32.MAX }
    ensures values { IfOk result (λ list. list ≡ record { width = width; items = vectors_of known.now vs.now }) }
    ensures admitted { IfOk result (λ list. AllByRecursion (IsVector (power_of known.now width)) list.items) }
{
    let mut list = Vectors::new(alloc, width);
    for v in vs {
        let row = vector(alloc, known, width, v)?;
        list.add(&row)?;
    }
    Ok(list)
}

/// The pair that is written.
fn pair(known: &Known, v: &Items) -> (Elem, Elem)
    requires { Passes (vector_in known.now 2 v.now) }
    ensures { result ≡ pair_of known.now v.now }
{
    let entries = v.values.as_slice();
    (element(known, &entries[0]), element(known, &entries[1]))
}

/// The pairs that are written.
pub fn pairs(alloc: Global, known: &Known, vs: &[Items]) -> Result<Vec<(Elem, Elem)>, AllocError>
    requires passed { Passes (vectors_in known.now 2 vs.now) }
    ensures pairs { IfOk result (λ list. list.items ≡ pairs_of known.now vs.now) }
    ensures below { IfOk result (λ list. AllByRecursion (IsPairIn known.now) list.items) }
{
    let mut list = Vec::with_capacity(alloc, vs.len())?;
    for v in vs {
        list.push(pair(known, v))?;
    }
    Ok(list)
}

/// The power of an algebra, or why it is too wide for its vectors to be closed.
pub fn power<'a>(
    known: &'a Known<'_>,
    width: Number,
    gens: &Vectors,
    budget: u32,
) -> Result<Frame<'a>, CloseError>
    requires passed { Passes (positive width) }
    requires some { 1 ≤ budget }
    requires small { budget ≤ BUDGET }
    ensures ok { IfOk result (λ frame. frame ≡ power_of known.now width.value) }
    ensures cause { IfErr result (IsCause (power_of known.now width.value) gens.now.items budget) }
{
    power_within(known.algebra(), u128::from(width.value), gens.len(), budget)
}
