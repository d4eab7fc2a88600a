//! What stands for the parts of forms, read and printed by its type. What stands for a row of parts is a pair of what stands
//! for the first part and what stands for the others.

ghost use Rattle.std.specs.Prelude.{◌≡◌, ◌≤◌, length, IfOk, OnOk};
ghost use Rattle.ua_text.specs.Tokens.{tokens_left, source_of};
ghost use Rattle.ua_text.specs.Printing.{Shows};
ghost use Rattle.ua_script.specs.Operands.{value_text, values_text};
ghost use Rattle.ua_script.specs.inner.Parts.{ForPart, ForParts, IsRead, AreRead, itself, equals, no_parts, first};
ghost use Rattle.ua_text.specs.declared.symbols.Part.{Part};
ghost use Rattle.ua_text.specs.declared.symbols.Table.{Table};

use crate::constructions::{construction, put_construction};
use crate::script::MakeForm;
use std::alloc::{AllocError, Global};
use ua_operands::identities::{identities, put_identities};
use ua_operands::points::{clone_word, points, put_clone_word, put_points};
use ua_operands::printers::{
    put_condition, put_mode, put_names, put_number, put_part, put_series, put_vector, put_vectors,
    put_word,
};
use ua_operands::readers::{amount, condition, mode, names, part, series, vector, vectors, word};
use ua_operands::{
    CloneWord, CondWord, IdentityText, Items, Mode, Number, PartText, PointsText, SeriesWord, Word,
};
use ua_table::Listed;
use ua_table::limits::NESTING;
use ua_term::{Written, term};
use ua_text::{Miss, Printer, Role, Tokens, exact, next};

/// What stands for a part of a form.
pub(crate) trait Operand: Sized {
    ghost operand: { ForPart Self };

    /// Reads what is written for a value as that value, with its places, unless memory runs out.
    fn read(alloc: Global, tokens: &mut Tokens<'_>) -> Result<Self, Miss>
        ensures only { IsRead operand (tokens_left tokens.old) (tokens_left tokens.new) result }
        ensures progress { IfOk result (λ x. length (tokens_left tokens.new) ≤ length (tokens_left tokens.old)) }
        ensures source { source_of tokens.new ≡ source_of tokens.old };

    /// Prints what is written for a value.
    fn put(&self, printer: &mut Printer) -> Result<(), AllocError>
        ensures { OnOk result (Shows printer.old printer.new (value_text operand.part (operand.value self.now))) };
}

/// What is read for the parts of a form.
pub(crate) trait Operands: Sized {
    ghost operands: { ForParts Self };

    /// Reads what is written for values as these values, with their places, unless memory runs out.
    fn read_all(alloc: Global, tokens: &mut Tokens<'_>) -> Result<Self, Miss>
        ensures only { AreRead operands (tokens_left tokens.old) (tokens_left tokens.new) result }
        ensures progress { IfOk result (λ x. length (tokens_left tokens.new) ≤ length (tokens_left tokens.old)) }
        ensures source { source_of tokens.new ≡ source_of tokens.old };
}

/// What is printed for the parts of a form.
pub(crate) trait Printed {
    ghost printed: { ForParts Self };

    /// Prints what is written for the values.
    fn put_all(&self, printer: &mut Printer) -> Result<(), AllocError>
        ensures { OnOk result (Shows printer.old printer.new (values_text printed.parts (printed.values self.now))) };
}

impl Operands for () {
    ghost operands = { no_parts };

    fn read_all(_alloc: Global, _tokens: &mut Tokens<'_>) -> Result<(), Miss> {
        Ok(())
    }
}

impl<A: Operand + Drop, B: Operands> Operands for (A, B) {
    ghost operands = { first A.operand B.operands };

    fn read_all(alloc: Global, tokens: &mut Tokens<'_>) -> Result<(A, B), Miss> {
        let first = A::read(alloc, tokens)?;
        let others = B::read_all(alloc, tokens)?;
        Ok((first, others))
    }
}

impl Printed for () {
    ghost printed = { no_parts };

    fn put_all(&self, _printer: &mut Printer) -> Result<(), AllocError> {
        Ok(())
    }
}

impl<'a, A: Operand, B: Printed> Printed for (&'a A, B) {
    ghost printed = { first (record { part = A.operand.part; value = λ r. A.operand.value r.now }) B.printed };

    fn put_all(&self, printer: &mut Printer) -> Result<(), AllocError> {
        self.0.put(printer)?;
        self.1.put_all(printer)
    }
}

impl Operand for Word {
    ghost operand = { itself Part.Name };

    fn read(alloc: Global, tokens: &mut Tokens<'_>) -> Result<Word, Miss> {
        word(alloc, tokens)
    }

    fn put(&self, printer: &mut Printer) -> Result<(), AllocError> {
        put_word(printer, self)
    }
}

impl Operand for Listed<Word> {
    ghost operand = { itself Part.Names };

    fn read(alloc: Global, tokens: &mut Tokens<'_>) -> Result<Listed<Word>, Miss> {
        names(alloc, tokens)
    }

    fn put(&self, printer: &mut Printer) -> Result<(), AllocError> {
        printer.put(Role::Opens, b"(")?;
        put_names(printer, self.as_slice())?;
        printer.put(Role::Closes, b")")
    }
}

impl Operand for Number {
    ghost operand = { itself Part.Count };

    fn read(_alloc: Global, tokens: &mut Tokens<'_>) -> Result<Number, Miss> {
        amount(tokens)
    }

    fn put(&self, printer: &mut Printer) -> Result<(), AllocError> {
        put_number(printer, Role::Amount, self)
    }
}

impl Operand for Items {
    ghost operand = { itself Part.Vector };

    fn read(alloc: Global, tokens: &mut Tokens<'_>) -> Result<Items, Miss> {
        vector(alloc, tokens)
    }

    fn put(&self, printer: &mut Printer) -> Result<(), AllocError> {
        put_vector(printer, self)
    }
}

impl Operand for Listed<Items> {
    ghost operand = { itself Part.Vectors };

    fn read(alloc: Global, tokens: &mut Tokens<'_>) -> Result<Listed<Items>, Miss> {
        vectors(alloc, tokens)
    }

    fn put(&self, printer: &mut Printer) -> Result<(), AllocError> {
        put_vectors(printer, self.as_slice())
    }
}

impl Operand for PartText {
    ghost operand = { itself Part.Partition };

    fn read(alloc: Global, tokens: &mut Tokens<'_>) -> Result<PartText, Miss> {
        part(alloc, tokens)
    }

    fn put(&self, printer: &mut Printer) -> Result<(), AllocError> {
        put_part(printer, self)
    }
}

impl Operand for Written {
    ghost operand = { itself Part.Term };

    fn read(alloc: Global, tokens: &mut Tokens<'_>) -> Result<Written, Miss> {
        term(alloc, tokens, NESTING as u8)
    }

    fn put(&self, printer: &mut Printer) -> Result<(), AllocError> {
        Written::put(self, printer)
    }
}

/// The text of a certificate.
impl Operand for Listed<u8> {
    ghost operand = { itself Part.Json };

    fn read(alloc: Global, tokens: &mut Tokens<'_>) -> Result<Listed<u8>, Miss> {
        let token = next(tokens)?;
        let json = Vec::from_slice(alloc, token.text)?;
        Ok(Listed::new(json))
    }

    fn put(&self, printer: &mut Printer) -> Result<(), AllocError> {
        printer.put(Role::Json, self.as_slice())
    }
}

impl Operand for Mode {
    ghost operand = { itself Part.Modes };

    fn read(_alloc: Global, tokens: &mut Tokens<'_>) -> Result<Mode, Miss> {
        mode(tokens)
    }

    fn put(&self, printer: &mut Printer) -> Result<(), AllocError> {
        put_mode(printer, *self)
    }
}

impl Operand for CondWord {
    ghost operand = { itself (Part.OneOf 0) };

    fn read(_alloc: Global, tokens: &mut Tokens<'_>) -> Result<CondWord, Miss> {
        condition(tokens)
    }

    fn put(&self, printer: &mut Printer) -> Result<(), AllocError> {
        put_condition(printer, *self)
    }
}

impl Operand for SeriesWord {
    ghost operand = { itself (Part.OneOf 1) };

    fn read(_alloc: Global, tokens: &mut Tokens<'_>) -> Result<SeriesWord, Miss> {
        series(tokens)
    }

    fn put(&self, printer: &mut Printer) -> Result<(), AllocError> {
        put_series(printer, *self)
    }
}

impl Operand for CloneWord {
    ghost operand = { itself (Part.OneOf 3) };

    fn read(_alloc: Global, tokens: &mut Tokens<'_>) -> Result<CloneWord, Miss> {
        clone_word(tokens)
    }

    fn put(&self, printer: &mut Printer) -> Result<(), AllocError> {
        put_clone_word(printer, *self)
    }
}

impl Operand for Listed<IdentityText> {
    ghost operand = { itself (Part.Identities 2) };

    fn read(alloc: Global, tokens: &mut Tokens<'_>) -> Result<Listed<IdentityText>, Miss> {
        identities(alloc, tokens)
    }

    fn put(&self, printer: &mut Printer) -> Result<(), AllocError> {
        put_identities(printer, self.as_slice())
    }
}

impl Operand for PointsText {
    ghost operand = { itself (Part.Pick Table.Points) };

    fn read(alloc: Global, tokens: &mut Tokens<'_>) -> Result<PointsText, Miss> {
        points(alloc, tokens)
    }

    fn put(&self, printer: &mut Printer) -> Result<(), AllocError> {
        put_points(printer, self)
    }
}

impl Operand for MakeForm {
    ghost operand = { itself (Part.Pick Table.Constructions) };

    fn read(alloc: Global, tokens: &mut Tokens<'_>) -> Result<MakeForm, Miss> {
        construction(alloc, tokens)
    }

    fn put(&self, printer: &mut Printer) -> Result<(), AllocError> {
        put_construction(printer, self)
    }
}

/// The sign between the sides of an equation.
#[derive(Clone, Copy, Debug)]
pub(crate) struct Equals;

impl Operand for Equals {
    ghost operand = { equals };

    fn read(_alloc: Global, tokens: &mut Tokens<'_>) -> Result<Equals, Miss> {
        exact(tokens, b"=")?;
        Ok(Equals)
    }

    fn put(&self, printer: &mut Printer) -> Result<(), AllocError> {
        printer.put(Role::Exact, b"=")
    }
}
