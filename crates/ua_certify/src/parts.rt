//! What certificates are made of, as lists of numbers and as steps.

ghost use Rattle.std.specs.Prelude.{◌≡◌, map, IfOk};
ghost use Rattle.ua_table.specs.Listings.{vectors_of, ranks_of};
ghost use Rattle.ua_flaws.specs.Steps as written;

use std::alloc::{AllocError, Global};
use ua_cert::{CertStep, Text};
use ua_close::Listing;
use ua_table::{Algebra, Elem, Listed, Name, Origin, Vectors};
use ua_term::Steps;

/// A name as text.
fn text_of(alloc: Global, name: &Name) -> Result<Text, AllocError>
    ensures { IfOk result (λ text. text ≡ name.now) }
{
    let bytes = Vec::from_slice(alloc, name.text())?;
    let Ok(text) = String::from_utf8(bytes) else {
        unreachable!()
    };
    Ok(Text::new(text))
}

/// An origin as it is written.
fn written_step(alloc: Global, a: &Algebra, origin: &Origin) -> Result<CertStep, AllocError>
    ensures { IfOk result (λ step. step ≡ written.written_step a.now origin.now) }
{
    match origin {
        Origin::Gen { index } => {
            let word = Text::new(String::from_str(alloc, "gen")?);
            let args = Listed::new(vec![in alloc; *index]?);
            Ok(CertStep { word, args })
        }
        Origin::Op { op, args } => match a.ops().get(*op as usize) {
            None => Ok(CertStep {
                word: Text::new(String::new(alloc)),
                args: Listed::new(Vec::new(alloc)),
            }),
            Some(table) => Ok(CertStep {
                word: text_of(alloc, table.name())?,
                args: Listed::new(Vec::from_slice(alloc, &args[..usize::from(table.arity())])?),
            }),
        },
    }
}

/// Origins as they are written.
pub(crate) fn written_steps(
    alloc: Global,
    a: &Algebra,
    origins: &[Origin],
) -> Result<Listed<CertStep>, AllocError>
    ensures { IfOk result (λ steps. steps ≡ written.written_steps a.now origins.now) }
{
    let mut steps = Vec::new(alloc);
    for origin in origins {
        steps.push(written_step(alloc, a, origin)?)?;
    }
    Ok(Listed::new(steps))
}

/// The steps of each term of a chain, as they are written.
pub(crate) fn written_terms(
    alloc: Global,
    a: &Algebra,
    terms: &[Steps],
) -> Result<Listed<Listed<CertStep>>, AllocError>
    ensures { IfOk result (λ lists. lists ≡ map (λ s. written.written_steps a.now s.items) terms.now) }
{
    let mut lists = Vec::new(alloc);
    for steps in terms {
        lists.push(written_steps(alloc, a, steps.list())?)?;
    }
    Ok(Listed::new(lists))
}

/// The entries of a vector as numbers.
pub(crate) fn numbers(alloc: Global, vector: &[Elem]) -> Result<Listed<u32>, AllocError>
    ensures { IfOk result (λ list. list ≡ vector.now) }
{
    let mut list = Vec::with_capacity(alloc, vector.len())?;
    for x in vector {
        list.push(u32::from(*x))?;
    }
    Ok(Listed::new(list))
}

/// Vectors as lists of numbers.
pub(crate) fn vectors(alloc: Global, vectors: &Vectors) -> Result<Listed<Listed<u32>>, AllocError>
    ensures { IfOk result (λ lists. lists ≡ vectors.now.items) }
{
    let mut lists = Vec::new(alloc);
    for i in 0..vectors.len() {
        lists.push(numbers(alloc, vectors.get(i))?)?;
    }
    Ok(Listed::new(lists))
}

/// The vectors of the rows, in order.
pub(crate) fn rows(alloc: Global, listing: &Listing) -> Result<Listed<Listed<u32>>, AllocError>
    ensures { IfOk result (λ rows. rows ≡ vectors_of listing.now) }
{
    let mut rows = Vec::new(alloc);
    for i in 0..listing.len() {
        rows.push(numbers(alloc, listing.row(i))?)?;
    }
    Ok(Listed::new(rows))
}

/// The ranks of the rows, in order.
pub(crate) fn ranks(alloc: Global, listing: &Listing) -> Result<Listed<u32>, AllocError>
    ensures { IfOk result (λ ranks. ranks ≡ ranks_of listing.now) }
{
    let mut ranks = Vec::new(alloc);
    for i in 0..listing.len() {
        ranks.push(listing.rank(i))?;
    }
    Ok(Listed::new(ranks))
}

/// The origins of the rows, as they are written.
pub(crate) fn row_steps(
    alloc: Global,
    a: &Algebra,
    listing: &Listing,
) -> Result<Listed<CertStep>, AllocError>
    ensures { IfOk result (λ steps. steps ≡ written.row_steps a.now listing.now) }
{
    let mut steps = Vec::new(alloc);
    for i in 0..listing.len() {
        steps.push(written_step(alloc, a, &listing.origin(i))?)?;
    }
    Ok(Listed::new(steps))
}
