//! The text of numbers, places, elements, vectors, partitions, rows and steps.

ghost use Rattle.std.specs.Prelude.{◌≡◌, ◌++◌, OnOk};
ghost use Rattle.ua_part.specs.Blocks.{more_numbers, partition_text};
ghost use Rattle.ua_reply.specs.Texts.{line, lines, numbered, counted, pair_text, listed_text, element_text, more_elements, elements_text, vector_text, set_text, tuple_text, place_text, application_text, origin_text, steps_text, row_text};

use crate::known::Known;
use std::alloc::AllocError;
use ua_close::Listing;
use ua_part::{Part, push_number};
use ua_table::{Elem, Origin};
use ua_term::Steps;
use ua_text::Place;

/// Appends a word and a number, on a line.
pub fn push_counted(out: &mut Vec<u8>, word: &[u8], n: u128) -> Result<(), AllocError>
    ensures { OnOk result (out.new.items ≡ out.old.items ++ line (counted word.now n)) }
{
    out.extend_from_slice(word)?;
    out.push(b' ')?;
    push_number(out, n)?;
    out.push(b'\n')?;
    Ok(())
}

/// Appends each number behind a blank.
pub fn push_more(out: &mut Vec<u8>, ns: &[u32]) -> Result<(), AllocError>
    ensures { OnOk result (out.new.items ≡ out.old.items ++ more_numbers ns.now) }
{
    for n in ns {
        out.push(b' ')?;
        push_number(out, u128::from(*n))?;
    }
    Ok(())
}

/// Appends words and numbers behind them, on a line.
pub fn push_listed(out: &mut Vec<u8>, words: &[u8], numbers: &[u32]) -> Result<(), AllocError>
    ensures { OnOk result (out.new.items ≡ out.old.items ++ listed_text words.now numbers.now) }
{
    out.extend_from_slice(words)?;
    push_more(out, numbers)?;
    out.push(b'\n')?;
    Ok(())
}

/// Appends two numbers with a blank between them.
pub fn push_pair(out: &mut Vec<u8>, pair: (u32, u32)) -> Result<(), AllocError>
    ensures { OnOk result (out.new.items ≡ out.old.items ++ pair_text pair) }
{
    push_number(out, u128::from(pair.0))?;
    out.push(b' ')?;
    push_number(out, u128::from(pair.1))
}

/// Appends the name of an element where it has one, else its number.
pub fn push_element(out: &mut Vec<u8>, known: &Known, x: Elem) -> Result<(), AllocError>
    ensures { OnOk result (out.new.items ≡ out.old.items ++ element_text known.now x) }
{
    match known.names().get(x as usize) {
        Some(name) => out.extend_from_slice(name.text()),
        None => push_number(out, u128::from(x)),
    }
}

/// Appends each element behind a blank.
fn push_more_elements(out: &mut Vec<u8>, known: &Known, v: &[Elem]) -> Result<(), AllocError>
    ensures { OnOk result (out.new.items ≡ out.old.items ++ more_elements known.now v.now) }
{
    for x in v {
        out.push(b' ')?;
        push_element(out, known, *x)?;
    }
    Ok(())
}

/// Appends elements with single blanks between them.
fn push_elements(out: &mut Vec<u8>, known: &Known, xs: &[Elem]) -> Result<(), AllocError>
    ensures { OnOk result (out.new.items ≡ out.old.items ++ elements_text known.now xs.now) }
{
    let Some((first, others)) = xs.split_first() else {
        return Ok(());
    };
    push_element(out, known, *first)?;
    push_more_elements(out, known, others)
}

/// Appends a vector in brackets.
pub fn push_vector(out: &mut Vec<u8>, known: &Known, v: &[Elem]) -> Result<(), AllocError>
    ensures { OnOk result (out.new.items ≡ out.old.items ++ vector_text known.now v.now) }
{
    out.push(b'[')?;
    push_elements(out, known, v)?;
    out.push(b']')?;
    Ok(())
}

/// Appends a set of elements in braces.
pub fn push_set(out: &mut Vec<u8>, known: &Known, set: &[Elem]) -> Result<(), AllocError>
    ensures { OnOk result (out.new.items ≡ out.old.items ++ set_text known.now set.now) }
{
    out.push(b'{')?;
    push_elements(out, known, set)?;
    out.push(b'}')?;
    Ok(())
}

/// Appends the number of each element behind a blank.
fn push_more_numbers(out: &mut Vec<u8>, ns: &[Elem]) -> Result<(), AllocError>
    ensures { OnOk result (out.new.items ≡ out.old.items ++ more_numbers ns.now) }
{
    for n in ns {
        out.push(b' ')?;
        push_number(out, u128::from(*n))?;
    }
    Ok(())
}

/// Appends a tuple in brackets, by the numbers of its elements.
pub fn push_tuple(out: &mut Vec<u8>, ns: &[Elem]) -> Result<(), AllocError>
    ensures { OnOk result (out.new.items ≡ out.old.items ++ tuple_text ns.now) }
{
    out.push(b'[')?;
    if let Some((first, others)) = ns.split_first() {
        push_number(out, u128::from(*first))?;
        push_more_numbers(out, others)?;
    }
    out.push(b']')?;
    Ok(())
}

/// Appends a place, as `4:14`.
pub fn push_place(out: &mut Vec<u8>, place: Place) -> Result<(), AllocError>
    ensures { OnOk result (out.new.items ≡ out.old.items ++ place_text place) }
{
    push_number(out, u128::from(place.line))?;
    out.push(b':')?;
    push_number(out, u128::from(place.column))
}

/// Appends a partition.
pub fn push_part(out: &mut Vec<u8>, part: &Part) -> Result<(), AllocError>
    ensures { OnOk result (out.new.items ≡ out.old.items ++ partition_text part.now) }
{
    let alloc = *out.allocator();
    let text = part.print(alloc)?;
    out.extend_from_slice(&text)
}

/// Appends an operation's name, and as many of the places as it has arguments.
fn push_application(
    out: &mut Vec<u8>,
    known: &Known,
    op: u32,
    args: &[u32; 4],
) -> Result<(), AllocError>
    ensures { OnOk result (out.new.items ≡ out.old.items ++ application_text known.now op args.now) }
{
    let Some(table) = known.algebra().ops().get(op as usize) else {
        return Ok(());
    };
    out.extend_from_slice(table.name().text())?;
    push_more(out, &args[..table.arity() as usize])?;
    Ok(())
}

/// Appends where a row comes from: `gen 0`, or `meet 2 1`.
pub fn push_origin(out: &mut Vec<u8>, known: &Known, origin: &Origin) -> Result<(), AllocError>
    ensures { OnOk result (out.new.items ≡ out.old.items ++ origin_text known.now origin.now) }
{
    match origin {
        Origin::Gen { index } => {
            out.extend_from_slice(b"gen ")?;
            push_number(out, u128::from(*index))
        }
        Origin::Op { op, args } => push_application(out, known, *op, args),
    }
}

/// Appends each step behind its number, on a line of its own.
pub fn push_steps(out: &mut Vec<u8>, known: &Known, steps: &[Origin]) -> Result<(), AllocError>
    ensures { OnOk result (out.new.items ≡ out.old.items ++ numbered (origin_text known.now) 0 steps.now) }
{
    for i in 0..steps.len() {
        push_number(out, i as u128)?;
        out.push(b' ')?;
        push_origin(out, known, &steps[i])?;
        out.push(b'\n')?;
    }
    Ok(())
}

/// Appends how many steps there are, and the steps.
pub fn push_counted_steps(out: &mut Vec<u8>, known: &Known, steps: &Steps) -> Result<(), AllocError>
    ensures { OnOk result (out.new.items ≡ out.old.items ++ steps_text known.now steps.now) }
{
    let list = steps.list();
    push_counted(out, b"steps", list.len() as u128)?;
    push_steps(out, known, list)
}

/// Appends a row, on a line of its own.
fn push_row(
    out: &mut Vec<u8>,
    known: &Known,
    vector: &[Elem],
    rank: u32,
    origin: &Origin,
) -> Result<(), AllocError>
    ensures { OnOk result (out.new.items ≡ out.old.items ++ line (row_text known.now (record { vector = vector.now; rank = rank; origin = origin.now }))) }
{
    push_vector(out, known, vector)?;
    out.push(b' ')?;
    push_number(out, u128::from(rank))?;
    out.push(b' ')?;
    push_origin(out, known, origin)?;
    out.push(b'\n')?;
    Ok(())
}

/// Appends each row of the listing, on a line of its own.
pub fn push_rows(out: &mut Vec<u8>, known: &Known, listing: &Listing) -> Result<(), AllocError>
    ensures { OnOk result (out.new.items ≡ out.old.items ++ lines (row_text known.now) listing.now) }
{
    for i in 0..listing.len() {
        push_row(
            out,
            known,
            listing.row(i),
            listing.rank(i),
            &listing.origin(i),
        )?;
    }
    Ok(())
}
