//! How an algebra is made from others, read and printed. What is written for a construction is read as that one, with its places,
//! unless memory runs out.

ghost use Rattle.std.specs.Prelude.{◌≡◌, ◌<◌, ◌++◌, List, [], length, IfOk, OnOk};
ghost use Rattle.ua_text.specs.Signs.{Wanted, Front};
ghost use Rattle.ua_text.specs.Tokens.{tokens_left, source_of};
ghost use Rattle.ua_text.specs.Reading.{Takes};
ghost use Rattle.ua_text.specs.Printing.{Shows};
ghost use Rattle.ua_operands.specs.Reading.{begins_item};
ghost use Rattle.ua_script.specs.declared.script.MakeForm.{MakeForm};
ghost use Rattle.ua_script.specs.Operands.{construction};
ghost use Rattle.ua_script.specs.inner.Reading.{IsShortConstruction};

use crate::script::MakeForm;
use crate::values::{Operands, Printed};
use std::alloc::{AllocError, Global};
use ua_operands::readers::is_word;
use ua_text::{Miss, Printer, Role, Tokens, next};

/// Reads a construction.
pub fn construction(alloc: Global, tokens: &mut Tokens<'_>) -> Result<MakeForm, Miss>
    ensures only { (m : MakeForm) (ws : List Wanted) → IsShortConstruction m → begins_item ws → Takes tokens.old tokens.new result (λ x. x ≡ m) (construction m) ws [] }
    ensures progress { IfOk result (λ x. length (tokens_left tokens.new) < length (tokens_left tokens.old)) }
    ensures source { source_of tokens.new ≡ source_of tokens.old }
{
    let word = next(tokens)?;
    if is_word(&word, b"product") {
        let (first, (second, ())) = Operands::read_all(alloc, tokens)?;
        return Ok(MakeForm::Product(first, second));
    }
    if is_word(&word, b"quotient") {
        let (algebra, (part, ())) = Operands::read_all(alloc, tokens)?;
        return Ok(MakeForm::Quotient(algebra, part));
    }
    if is_word(&word, b"sub") {
        let (algebra, (set, ())) = Operands::read_all(alloc, tokens)?;
        return Ok(MakeForm::Sub(algebra, set));
    }
    if is_word(&word, b"reduct") {
        let (algebra, (ops, ())) = Operands::read_all(alloc, tokens)?;
        return Ok(MakeForm::Reduct(algebra, ops));
    }
    Err(Miss::Other)
}

/// Prints a construction.
pub fn put_construction(printer: &mut Printer, what: &MakeForm) -> Result<(), AllocError>
    ensures { OnOk result (Shows printer.old printer.new (construction what.now)) }
{
    match what {
        MakeForm::Product(first, second) => {
            printer.put(Role::Exact, b"product")?;
            (first, (second, ())).put_all(printer)
        }
        MakeForm::Quotient(algebra, part) => {
            printer.put(Role::Exact, b"quotient")?;
            (algebra, (part, ())).put_all(printer)
        }
        MakeForm::Sub(algebra, set) => {
            printer.put(Role::Exact, b"sub")?;
            (algebra, (set, ())).put_all(printer)
        }
        MakeForm::Reduct(algebra, ops) => {
            printer.put(Role::Exact, b"reduct")?;
            (algebra, (ops, ())).put_all(printer)
        }
    }
}
