//! Printers of the parts of commands.

ghost use Rattle.std.specs.Prelude.{◌∷◌, [], map, OnOk};
ghost use Rattle.std.specs.List.{flat_map};
ghost use Rattle.ua_text.specs.declared.symbols.Role.{Role};
ghost use Rattle.ua_text.specs.Signs.{sign};
ghost use Rattle.ua_text.specs.Printing.{Shows};
ghost use Rattle.ua_operands.specs.Written.{word, further, number, entry, vector, part_block, part_blocks, part, names, cond_word, series_word, mode};

use crate::written::{CondWord, Entry, Items, Mode, Number, PartText, SeriesWord, Word};
use std::alloc::AllocError;
use ua_table::Listed;
use ua_text::{Printer, Role};

/// Prints a name.
pub fn put_word(printer: &mut Printer, w: &Word) -> Result<(), AllocError>
    ensures { OnOk result (Shows printer.old printer.new (word w.now ∷ [])) }
{
    printer.put(Role::Named, w.name.text())
}

/// Prints a word, which is there for this, and a name.
pub fn put_named(
    printer: &mut Printer,
    first: Role,
    text: &[u8],
    algebra: &Word,
) -> Result<(), AllocError>
    ensures { OnOk result (Shows printer.old printer.new (sign first text.now ∷ word algebra.now ∷ [])) }
{
    printer.put(first, text)?;
    put_word(printer, algebra)
}

/// Prints a number.
pub fn put_number(printer: &mut Printer, role: Role, n: &Number) -> Result<(), AllocError>
    ensures { OnOk result (Shows printer.old printer.new (number role n.now ∷ [])) }
{
    printer.put_number(role, n.value)
}

/// Prints an entry of a vector as it is written.
fn put_entry(printer: &mut Printer, value: &Entry) -> Result<(), AllocError>
    ensures { OnOk result (Shows printer.old printer.new (entry value.now ∷ [])) }
{
    match value {
        Entry::Number(n) => put_number(printer, Role::Inner, n),
        Entry::Word(w) => printer.put(Role::Inner, w.name.text()),
    }
}

/// Prints a vector.
pub fn put_vector(printer: &mut Printer, v: &Items) -> Result<(), AllocError>
    ensures { OnOk result (Shows printer.old printer.new (vector v.now)) }
{
    printer.put(Role::Opens, b"[")?;
    for value in v.values.as_slice() {
        put_entry(printer, value)?;
    }
    printer.put(Role::Closes, b"]")?;
    Ok(())
}

/// Prints vectors in a row.
pub fn put_vectors(printer: &mut Printer, vectors: &[Items]) -> Result<(), AllocError>
    ensures { OnOk result (Shows printer.old printer.new (flat_map vector vectors.now)) }
{
    for v in vectors {
        put_vector(printer, v)?;
    }
    Ok(())
}

/// Prints numbers inside a block of a partition.
fn put_inner(printer: &mut Printer, numbers: &[Number]) -> Result<(), AllocError>
    ensures { OnOk result (Shows printer.old printer.new (map (number Role.Inner) numbers.now)) }
{
    for n in numbers {
        put_number(printer, Role::Inner, n)?;
    }
    Ok(())
}

/// Prints a block of a partition, whose first number is there for this, and the bar behind it.
fn put_part_block(printer: &mut Printer, role: Role, block: &[Number]) -> Result<(), AllocError>
    ensures { OnOk result (Shows printer.old printer.new (part_block role block.now)) }
{
    let Some((first, others)) = block.split_first() else {
        return printer.put(Role::Bar, b"|");
    };
    put_number(printer, role, first)?;
    put_inner(printer, others)?;
    printer.put(Role::Bar, b"|")
}

/// Prints further blocks of a partition.
fn put_part_blocks(printer: &mut Printer, blocks: &[Listed<Number>]) -> Result<(), AllocError>
    ensures { OnOk result (Shows printer.old printer.new (part_blocks Role.More blocks.now)) }
{
    for block in blocks {
        put_part_block(printer, Role::More, block.as_slice())?;
    }
    Ok(())
}

/// Prints a partition as it is written.
pub fn put_part(printer: &mut Printer, p: &PartText) -> Result<(), AllocError>
    ensures { OnOk result (Shows printer.old printer.new (part p.now)) }
{
    printer.put(Role::Bar, b"|")?;
    let Some((first, others)) = p.blocks.as_slice().split_first() else {
        return Ok(());
    };
    put_part_block(printer, Role::Inner, first.as_slice())?;
    put_part_blocks(printer, others)
}

/// Prints further names of a list.
fn put_further(printer: &mut Printer, words: &[Word]) -> Result<(), AllocError>
    ensures { OnOk result (Shows printer.old printer.new (map further words.now)) }
{
    for w in words {
        printer.put(Role::Further, w.name.text())?;
    }
    Ok(())
}

/// Prints a list of names.
pub fn put_names(printer: &mut Printer, words: &[Word]) -> Result<(), AllocError>
    ensures { OnOk result (Shows printer.old printer.new (names words.now)) }
{
    let Some((first, others)) = words.split_first() else {
        return Ok(());
    };
    put_word(printer, first)?;
    put_further(printer, others)
}

/// Prints the word of a condition.
pub fn put_condition(printer: &mut Printer, name: CondWord) -> Result<(), AllocError>
    ensures { OnOk result (Shows printer.old printer.new (sign Role.Exact (cond_word name) ∷ [])) }
{
    match name {
        CondWord::Maltsev => printer.put(Role::Exact, b"maltsev"),
        CondWord::Majority => printer.put(Role::Exact, b"majority"),
        CondWord::Minority => printer.put(Role::Exact, b"minority"),
        CondWord::Pixley => printer.put(Role::Exact, b"pixley"),
    }
}

/// Prints the word of a series.
pub fn put_series(printer: &mut Printer, kind: SeriesWord) -> Result<(), AllocError>
    ensures { OnOk result (Shows printer.old printer.new (sign Role.Exact (series_word kind) ∷ [])) }
{
    match kind {
        SeriesWord::Derived => printer.put(Role::Exact, b"derived"),
        SeriesWord::Lower => printer.put(Role::Exact, b"lower"),
    }
}

/// Prints the word that asks for another answer.
pub fn put_mode(printer: &mut Printer, asked: Mode) -> Result<(), AllocError>
    ensures { OnOk result (Shows printer.old printer.new (mode asked)) }
{
    match asked {
        Mode::Plain => Ok(()),
        Mode::Least => printer.put(Role::Mode, b"least"),
        Mode::Count => printer.put(Role::Mode, b"count"),
    }
}
