//! Readers and printers of the values of an operation, and of the words for the kinds of clones.

ghost use Rattle.std.specs.Prelude.{◌≡◌, ◌<◌, ◌∷◌, List, [], length, false, codes, IfOk, OnOk};
ghost use Rattle.ua_text.specs.declared.symbols.Role.{Role};
ghost use Rattle.ua_text.specs.Printing.{Shows};
ghost use Rattle.ua_text.specs.Signs.{Wanted, sign};
ghost use Rattle.ua_text.specs.Tokens.{tokens_left, source_of};
ghost use Rattle.ua_text.specs.Reading.{Takes, begins_with};
ghost use Rattle.ua_operands.specs.declared.written.Items.{Items};
ghost use Rattle.ua_operands.specs.declared.written.CloneWord.{CloneWord};
ghost use Rattle.ua_operands.specs.declared.written.PointsText.{PointsText};
ghost use Rattle.ua_operands.specs.Written.{vector, clone_word, points};
ghost use Rattle.ua_operands.specs.Reading.{IsShortVector, AreShortVectors, ArePointsShort};
ghost use Rattle.ua_operands.specs.inner.Reading.{TakesPoints};

use crate::printers::{put_vector, put_vectors};
use crate::readers::{is_word, vector, vectors};
use crate::written::{CloneWord, Items, PointsText};
use std::alloc::{AllocError, Global};
use ua_text::{Miss, Printer, Role, Tokens, next};

/// The word that says which operations are asked for.
pub fn clone_word(tokens: &mut Tokens<'_>) -> Result<CloneWord, Miss>
    ensures only { (c : CloneWord) (ws : List Wanted) → Takes tokens.old tokens.new result (λ x. x ≡ c) (sign Role.Exact (clone_word c) ∷ []) ws [] }
    ensures progress { IfOk result (λ x. length (tokens_left tokens.new) < length (tokens_left tokens.old)) }
    ensures source { source_of tokens.new ≡ source_of tokens.old }
{
    let token = next(tokens)?;
    if is_word(&token, b"term") {
        return Ok(CloneWord::Term);
    }
    if is_word(&token, b"polynomial") {
        return Ok(CloneWord::Polynomial);
    }
    Err(Miss::Other)
}

/// All values of an operation, behind their word.
fn total(alloc: Global, tokens: &mut Tokens<'_>) -> Result<PointsText, Miss>
    ensures only { (v : Items) (ws : List Wanted) → IsShortVector v → Takes tokens.old tokens.new result (λ x. x ≡ PointsText.Total v) (vector v) ws [] }
    ensures progress { IfOk result (λ x. length (tokens_left tokens.new) < length (tokens_left tokens.old)) }
    ensures source { source_of tokens.new ≡ source_of tokens.old }
{
    let values = vector(alloc, tokens)?;
    Ok(PointsText::Total(values))
}

/// Some values of an operation with their arguments, behind their word.
fn partial(alloc: Global, tokens: &mut Tokens<'_>) -> Result<PointsText, Miss>
    ensures only { (v : Items) (vs : List Items) (ws : List Wanted) → IsShortVector v → AreShortVectors vs → begins_with (codes "[") ws ≡ false → TakesPoints tokens.old tokens.new result v vs ws }
    ensures progress { IfOk result (λ x. length (tokens_left tokens.new) < length (tokens_left tokens.old)) }
    ensures source { source_of tokens.new ≡ source_of tokens.old }
{
    let first = vector(alloc, tokens)?;
    let others = vectors(alloc, tokens)?;
    Ok(PointsText::Partial(first, others))
}

/// Values of an operation.
pub fn points(alloc: Global, tokens: &mut Tokens<'_>) -> Result<PointsText, Miss>
    ensures only { (p : PointsText) (ws : List Wanted) → ArePointsShort p → begins_with (codes "[") ws ≡ false → Takes tokens.old tokens.new result (λ x. x ≡ p) (points p) ws [] }
    ensures progress { IfOk result (λ x. length (tokens_left tokens.new) < length (tokens_left tokens.old)) }
    ensures source { source_of tokens.new ≡ source_of tokens.old }
{
    let first = next(tokens)?;
    if is_word(&first, b"total") {
        return total(alloc, tokens);
    }
    if is_word(&first, b"partial") {
        return partial(alloc, tokens);
    }
    Err(Miss::Other)
}

/// Prints the word that says which operations are asked for.
pub fn put_clone_word(printer: &mut Printer, kind: CloneWord) -> Result<(), AllocError>
    ensures { OnOk result (Shows printer.old printer.new (sign Role.Exact (clone_word kind) ∷ [])) }
{
    match kind {
        CloneWord::Term => printer.put(Role::Exact, b"term"),
        CloneWord::Polynomial => printer.put(Role::Exact, b"polynomial"),
    }
}

/// Prints all values of an operation.
fn put_total(printer: &mut Printer, values: &Items) -> Result<(), AllocError>
    ensures { OnOk result (Shows printer.old printer.new (points (PointsText.Total values.now))) }
{
    printer.put(Role::Exact, b"total")?;
    put_vector(printer, values)
}

/// Prints some values of an operation with their arguments.
fn put_partial(printer: &mut Printer, first: &Items, others: &[Items]) -> Result<(), AllocError>
    ensures { OnOk result (Shows printer.old printer.new (points (PointsText.Partial first.now others.now))) }
{
    printer.put(Role::Exact, b"partial")?;
    put_vector(printer, first)?;
    put_vectors(printer, others)
}

/// Prints values of an operation.
pub fn put_points(printer: &mut Printer, written: &PointsText) -> Result<(), AllocError>
    ensures { OnOk result (Shows printer.old printer.new (points written.now)) }
{
    match written {
        PointsText::Total(values) => put_total(printer, values),
        PointsText::Partial(first, others) => put_partial(printer, first, others.as_slice()),
    }
}
