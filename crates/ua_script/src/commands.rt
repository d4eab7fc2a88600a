//! Commands, read and printed. What is written for a command is read as that command, with its places, unless memory runs
//! out. Both tables have a row for each form, with what stands for its parts.

ghost use Rattle.std.specs.Prelude.{◌≡◌, ◌≤◌, ◌<◌, ℕ, List, [], Option, false, length, IfOk, OnOk};
ghost use Rattle.ua_text.specs.declared.tokens.Place.{Place};
ghost use Rattle.ua_text.specs.Signs.{Wanted};
ghost use Rattle.ua_text.specs.Tokens.{tokens_left, source_of};
ghost use Rattle.ua_text.specs.Reading.{Takes};
ghost use Rattle.ua_text.specs.Printing.{Shows};
ghost use Rattle.ua_operands.specs.Reading.{begins_item};
ghost use Rattle.ua_script.specs.declared.script.Command.{Command};
ghost use Rattle.ua_script.specs.declared.script.Item.{Item};
ghost use Rattle.ua_script.specs.declared.forms.CommandForm.{CommandForm};
ghost use Rattle.ua_script.specs.Operands.{values_text};
ghost use Rattle.ua_script.specs.Forms.{word_of, parts_of, question, asked, certified};
ghost use Rattle.ua_script.specs.Grammar.{heading, command};
ghost use Rattle.ua_script.specs.Reading.{IsReadableItem};
ghost use Rattle.ua_script.specs.inner.Reading.{IsCommandRead, IsPlainRead};

use crate::forms::{CommandForm, form, found_form};
use crate::script::{Command, Provable};
use crate::values::{Equals, Operands, Printed};
use std::alloc::{AllocError, Global};
use ua_operands::Mode;
use ua_operands::readers::place_of;
use ua_text::{Miss, Place, Printer, Role, Tokens, exact, is_next, next};

/// The command of a form behind its word, which stands at this place.
fn operands(
    alloc: Global,
    form: CommandForm,
    place: Place,
    tokens: &mut Tokens<'_>,
) -> Result<Command, Miss>
    ensures only { IsCommandRead form place (tokens_left tokens.old) (tokens_left tokens.new) result }
    ensures progress { IfOk result (λ x. length (tokens_left tokens.new) ≤ length (tokens_left tokens.old)) }
    ensures source { source_of tokens.new ≡ source_of tokens.old }
{
    match form {
        CommandForm::Close => {
            let (algebra, (width, (gens, (mode, ())))) = Operands::read_all(alloc, tokens)?;
            let what = Provable::Close {
                algebra,
                width,
                gens,
            };
            Ok(ask(what, mode))
        }
        CommandForm::Member => {
            let (algebra, (width, (gens, (Equals, (target, ()))))) = Operands::read_all(
                alloc, tokens,
            )?;
            let what = Provable::Member {
                algebra,
                width,
                gens,
                target,
            };
            Ok(ask(what, Mode::Plain))
        }
        CommandForm::Cond => {
            let (algebra, (name, ())) = Operands::read_all(alloc, tokens)?;
            Ok(ask(Provable::Cond { algebra, name }, Mode::Plain))
        }
        CommandForm::Nu => {
            let (algebra, (k, ())) = Operands::read_all(alloc, tokens)?;
            Ok(ask(Provable::Nu { algebra, k }, Mode::Plain))
        }
        CommandForm::Jonsson => {
            let (algebra, ()) = Operands::read_all(alloc, tokens)?;
            Ok(ask(Provable::Jonsson { algebra }, Mode::Plain))
        }
        CommandForm::Hm => {
            let (algebra, ()) = Operands::read_all(alloc, tokens)?;
            Ok(ask(Provable::Hm { algebra }, Mode::Plain))
        }
        CommandForm::Free => {
            let (algebra, (k, (mode, ()))) = Operands::read_all(alloc, tokens)?;
            Ok(Command::Free { algebra, k, mode })
        }
        CommandForm::Sub => {
            let (algebra, (set, ())) = Operands::read_all(alloc, tokens)?;
            Ok(Command::Sub { algebra, set })
        }
        CommandForm::Ones => {
            let (algebra, ()) = Operands::read_all(alloc, tokens)?;
            Ok(Command::Ones { algebra })
        }
        CommandForm::Eval => {
            let (algebra, (term, (args, ()))) = Operands::read_all(alloc, tokens)?;
            Ok(Command::Eval {
                algebra,
                term,
                args,
            })
        }
        CommandForm::Cg => {
            let (algebra, (pairs, ())) = Operands::read_all(alloc, tokens)?;
            Ok(Command::Cg { algebra, pairs })
        }
        CommandForm::Con => {
            let (algebra, ()) = Operands::read_all(alloc, tokens)?;
            Ok(Command::Con { algebra })
        }
        CommandForm::Types => {
            let (algebra, ()) = Operands::read_all(alloc, tokens)?;
            Ok(Command::Types { algebra })
        }
        CommandForm::Day => {
            let (algebra, ()) = Operands::read_all(alloc, tokens)?;
            Ok(Command::Day { algebra })
        }
        CommandForm::Condition => {
            let (algebra, (arity, (identities, ()))) = Operands::read_all(alloc, tokens)?;
            Ok(Command::Condition {
                algebra,
                arity,
                identities,
            })
        }
        CommandForm::Clone => {
            let (algebra, (arity, (kind, (points, ())))) = Operands::read_all(alloc, tokens)?;
            Ok(Command::Clone {
                algebra,
                arity,
                kind,
                points,
            })
        }
        CommandForm::Central => {
            let (algebra, (alpha, (beta, (delta, ())))) = Operands::read_all(alloc, tokens)?;
            Ok(Command::Central {
                algebra,
                alpha,
                beta,
                delta,
            })
        }
        CommandForm::Comm => {
            let (algebra, (alpha, (beta, ()))) = Operands::read_all(alloc, tokens)?;
            Ok(Command::Comm {
                algebra,
                alpha,
                beta,
            })
        }
        CommandForm::Series => {
            let (algebra, (kind, ())) = Operands::read_all(alloc, tokens)?;
            Ok(Command::Series { algebra, kind })
        }
        CommandForm::Holds => {
            let (algebra, (left, (Equals, (right, ())))) = Operands::read_all(alloc, tokens)?;
            Ok(Command::Holds {
                algebra,
                left,
                right,
            })
        }
        CommandForm::Hom => {
            let (first, (second, (gens, (images, ())))) = Operands::read_all(alloc, tokens)?;
            Ok(Command::Hom {
                first,
                second,
                gens,
                images,
            })
        }
        CommandForm::Make => {
            let (name, (what, ())) = Operands::read_all(alloc, tokens)?;
            Ok(Command::Make { place, name, what })
        }
        CommandForm::Check => {
            let (algebra, (json, ())) = Operands::read_all(alloc, tokens)?;
            Ok(Command::Check { algebra, json })
        }
    }
}

/// A question without a certificate.
fn ask(what: Provable, mode: Mode) -> Command
    ensures { result ≡ Command.Ask what mode false }
{
    Command::Ask {
        what,
        mode,
        cert: false,
    }
}

/// The same question, with a certificate.
fn certified(asked: Command) -> Command
    ensures { result ≡ certified asked }
{
    match asked {
        Command::Ask { what, mode, .. } => Command::Ask {
            what,
            mode,
            cert: true,
        },
        other => other,
    }
}

/// A command without a certificate.
fn plain(alloc: Global, tokens: &mut Tokens<'_>) -> Result<Command, Miss>
    ensures only { IsPlainRead (tokens_left tokens.old) (tokens_left tokens.new) result }
    ensures progress { IfOk result (λ x. length (tokens_left tokens.new) < length (tokens_left tokens.old)) }
    ensures source { source_of tokens.new ≡ source_of tokens.old }
{
    let first = next(tokens)?;
    match found_form(first.text) {
        Some(form) => operands(alloc, form, place_of(&first), tokens),
        None => Err(Miss::Other),
    }
}

/// A command.
pub fn command(alloc: Global, tokens: &mut Tokens<'_>) -> Result<Command, Miss>
    ensures only { (v : ℕ) (c : Command) (ws : List Wanted) → IsReadableItem v (Item.Command c) → begins_item ws → Takes tokens.old tokens.new result (λ x. x ≡ c) (command c) ws [] }
    ensures progress { IfOk result (λ x. length (tokens_left tokens.new) < length (tokens_left tokens.old)) }
    ensures source { source_of tokens.new ≡ source_of tokens.old }
{
    if is_next(tokens, b"cert") {
        exact(tokens, b"cert")?;
        return Ok(certified(plain(alloc, tokens)?));
    }
    plain(alloc, tokens)
}

/// Prints the operands of a question.
fn put_question(printer: &mut Printer, what: &Provable, mode: &Mode) -> Result<(), AllocError>
    ensures { OnOk result (Shows printer.old printer.new (values_text (parts_of (question what.now mode.now).0) (question what.now mode.now).1)) }
{
    match what {
        Provable::Close {
            algebra,
            width,
            gens,
        } => (algebra, (width, (gens, (mode, ())))).put_all(printer),
        Provable::Member {
            algebra,
            width,
            gens,
            target,
        } => (algebra, (width, (gens, (&Equals, (target, ()))))).put_all(printer),
        Provable::Cond { algebra, name } => (algebra, (name, ())).put_all(printer),
        Provable::Nu { algebra, k } => (algebra, (k, ())).put_all(printer),
        Provable::Jonsson { algebra } => (algebra, ()).put_all(printer),
        Provable::Hm { algebra } => (algebra, ()).put_all(printer),
    }
}

/// Prints the operands of a command.
fn put_operands(printer: &mut Printer, given: &Command) -> Result<(), AllocError>
    ensures { OnOk result (Shows printer.old printer.new (values_text (parts_of (asked given.now).form) (asked given.now).values)) }
{
    match given {
        Command::Ask { what, mode, .. } => put_question(printer, what, mode),
        Command::Free { algebra, k, mode } => (algebra, (k, (mode, ()))).put_all(printer),
        Command::Sub { algebra, set } => (algebra, (set, ())).put_all(printer),
        Command::Eval {
            algebra,
            term,
            args,
        } => (algebra, (term, (args, ()))).put_all(printer),
        Command::Cg { algebra, pairs } => (algebra, (pairs, ())).put_all(printer),
        Command::Ones { algebra } => (algebra, ()).put_all(printer),
        Command::Con { algebra } => (algebra, ()).put_all(printer),
        Command::Types { algebra } => (algebra, ()).put_all(printer),
        Command::Day { algebra } => (algebra, ()).put_all(printer),
        Command::Condition {
            algebra,
            arity,
            identities,
        } => (algebra, (arity, (identities, ()))).put_all(printer),
        Command::Clone {
            algebra,
            arity,
            kind,
            points,
        } => (algebra, (arity, (kind, (points, ())))).put_all(printer),
        Command::Central {
            algebra,
            alpha,
            beta,
            delta,
        } => (algebra, (alpha, (beta, (delta, ())))).put_all(printer),
        Command::Comm {
            algebra,
            alpha,
            beta,
        } => (algebra, (alpha, (beta, ()))).put_all(printer),
        Command::Series { algebra, kind } => (algebra, (kind, ())).put_all(printer),
        Command::Holds {
            algebra,
            left,
            right,
        } => (algebra, (left, (&Equals, (right, ())))).put_all(printer),
        Command::Hom {
            first,
            second,
            gens,
            images,
        } => (first, (second, (gens, (images, ())))).put_all(printer),
        Command::Make { name, what, .. } => (name, (what, ())).put_all(printer),
        Command::Check { algebra, json } => (algebra, (json, ())).put_all(printer),
    }
}

/// Prints the word of a form, behind `cert` where a certificate is asked.
fn put_heading(printer: &mut Printer, cert: bool, form: CommandForm) -> Result<(), AllocError>
    ensures { (place : Option Place) → OnOk result (Shows printer.old printer.new (heading cert (word_of form) place)) }
{
    if cert {
        printer.put(Role::Begins, b"cert")?;
        return printer.put(Role::Form, form.row().word);
    }
    printer.put(Role::Begins, form.row().word)
}

/// Whether a certificate is asked.
fn is_certified(given: &Command) -> bool
    ensures { result ≡ (asked given.now).cert }
{
    match given {
        Command::Ask { cert, .. } => *cert,
        _ => false,
    }
}

/// Prints a command.
pub fn put_command(printer: &mut Printer, given: &Command) -> Result<(), AllocError>
    ensures { OnOk result (Shows printer.old printer.new (command given.now)) }
{
    put_heading(printer, is_certified(given), form(given))?;
    put_operands(printer, given)
}
