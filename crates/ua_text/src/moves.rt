//! What the symbols do with tokens: which may be left out, what a token is there for, and what follows it.

ghost use Rattle.std.specs.Prelude.{◌≡◌, ◌∷◌, if◌then◌else◌, true, OnOk};
ghost use Rattle.ua_text.specs.Machine.{table_role, with_naming};
ghost use Rattle.ua_text.specs.Offers.{is_role, offers_here};
ghost use Rattle.ua_text.specs.Steps.{takes, skips, is_items, pushed_parts, parts_behind};
ghost use Rattle.ua_text.specs.Grammars.{forms_of};
ghost use Rattle.ua_text.specs.inner.States.{Follows};

use crate::checks::{size_of, values_of};
use crate::grammar::Grammar;
use crate::stacks::{Stack, atom, until};
use crate::symbols::{Role, Symbol, Table, Test};
use std::alloc::AllocError;
use ua_table::{Elem, is_variable};

/// Whether a symbol may be left out.
pub fn skips(symbol: Symbol) -> bool
    ensures { result ≡ skips symbol }
{
    match symbol {
        Symbol::Many { .. } | Symbol::Modes | Symbol::Behind(_) => true,
        Symbol::Start | Symbol::Vectors | Symbol::Identities(_) | Symbol::Naming(_) => true,
        Symbol::Entries { count, .. } => count == 0,
        _ => false,
    }
}

/// Whether a symbol stands for the items still to come.
pub fn is_items(symbol: Symbol) -> bool
    ensures { result ≡ is_items symbol }
{
    matches!(symbol, Symbol::Items)
}

/// Whether two roles are the same.
fn is_role(role: Role, other: Role) -> bool
    ensures { result ≡ is_role role other }
{
    role as u8 == other as u8
}

/// Whether a symbol has a token there for this.
pub fn offers_here(grammar: &Grammar, symbol: Symbol, role: Role) -> bool
    ensures { result ≡ offers_here (forms_of grammar.now) symbol role }
{
    match symbol {
        Symbol::Atom { role: own, .. } | Symbol::Many { role: own, .. } => is_role(role, own),
        Symbol::Loop {
            role: own,
            closes,
            ..
        } => is_role(role, own) || is_role(role, closes),
        Symbol::Modes => is_role(role, Role::Mode),
        Symbol::Pick(table) => is_role(role, role_of(table)) && grammar.opens(table),
        Symbol::Items => is_role(role, Role::Begins) && grammar.opens(Table::Commands),
        Symbol::Start => is_role(role, Role::Line),
        Symbol::Version => is_role(role, Role::Amount),
        Symbol::Vectors | Symbol::Identities(_) => is_role(role, Role::Opens),
        Symbol::Inside => is_role(role, Role::Inner) || is_role(role, Role::Closes),
        Symbol::Naming(_) => is_role(role, Role::Exact),
        Symbol::Elements(0) => is_role(role, Role::Closes),
        Symbol::Elements(_) => is_role(role, Role::Named),
        Symbol::Fresh | Symbol::OpName(_) => is_role(role, Role::Named),
        Symbol::Term(_) => is_role(role, Role::Applied),
        Symbol::Behind(depth) => depth > 0 && is_role(role, Role::Applies),
        Symbol::Args(_) => is_role(role, Role::Closes),
        Symbol::Size | Symbol::Arity(_) => is_role(role, Role::Amount),
        Symbol::Ops(_) => is_role(role, Role::Line),
        Symbol::Entries { count, .. } => count > 0 && is_role(role, Role::Entry),
    }
}

/// What the words of a table are there for.
fn role_of(table: Table) -> Role
    ensures { result ≡ table_role table }
{
    match table {
        Table::Commands => Role::Begins,
        Table::Provables => Role::Form,
        Table::Constructions | Table::Points => Role::Exact,
    }
}

/// Pushes what follows a token that a symbol takes.
pub fn follow(
    grammar: &Grammar,
    version: u8,
    stack: &mut Stack,
    symbol: Symbol,
    text: &[u8],
) -> Result<(), AllocError>
    ensures { OnOk result (Follows (forms_of grammar.now) version symbol text.now stack.old stack.new) }
{
    match symbol {
        Symbol::Loop { close, .. } => push_unless(stack, text == [close].as_slice(), symbol)?,
        Symbol::Many { close, closes, .. } => {
            stack.push_all(&[until(Role::Inner, Test::Number, close, closes), symbol])?
        }
        Symbol::Start => stack.push(Symbol::Version)?,
        Symbol::Vectors => stack.push_all(&[Symbol::Inside, Symbol::Vectors])?,
        Symbol::Inside => push_unless(stack, text == b"]".as_slice(), symbol)?,
        Symbol::Identities(list) => stack.push_identity(list)?,
        Symbol::Naming(size) => {
            stack.push_all(&[atom(Role::Opens, Test::Mark(b'(')), Symbol::Elements(size)])?
        }
        Symbol::Elements(0) | Symbol::Behind(0) | Symbol::Entries { count: 0, .. } => {}
        Symbol::Elements(count) => stack.push(Symbol::Elements(count - 1))?,
        Symbol::Pick(table) => push_form(grammar, stack, table, text)?,
        Symbol::Items => push_item(grammar, stack, text)?,
        Symbol::Term(depth) => push_unless(stack, is_variable(text), Symbol::Behind(depth))?,
        Symbol::Behind(depth) => {
            stack.push_all(&[Symbol::Term(depth - 1), Symbol::Args(depth - 1)])?
        }
        Symbol::Args(depth) => {
            if text == b",".as_slice() {
                stack.push_all(&[Symbol::Term(depth), symbol])?;
            }
        }
        Symbol::Size => push_inside(stack, version, size_of(text))?,
        Symbol::Ops(size) => push_unless(stack, text == b"end".as_slice(), Symbol::OpName(size))?,
        Symbol::OpName(size) => stack.push(Symbol::Arity(size))?,
        Symbol::Arity(size) => push_values(stack, size, values_of(size, text))?,
        Symbol::Entries { count, size } => {
            let left = count - 1;
            stack.push(Symbol::Entries { count: left, size })?
        }
        _ => {}
    }
    Ok(())
}

/// Pushes a symbol unless the token has ended it.
fn push_unless(stack: &mut Stack, ended: bool, symbol: Symbol) -> Result<(), AllocError>
    ensures { OnOk result (stack.new ≡ if ended then stack.old else symbol ∷ stack.old) }
{
    if ended {
        return Ok(());
    }
    stack.push(symbol)
}

/// Pushes the parts of the form of this word, and the items behind it.
fn push_item(grammar: &Grammar, stack: &mut Stack, text: &[u8]) -> Result<(), AllocError>
    ensures { OnOk result (stack.new ≡ pushed_parts (parts_behind (forms_of grammar.now) Table.Commands text.now) (Symbol.Items ∷ stack.old)) }
{
    stack.push(Symbol::Items)?;
    push_form(grammar, stack, Table::Commands, text)
}

/// Pushes the parts of the form of this word, if it may be taken.
fn push_form(
    grammar: &Grammar,
    stack: &mut Stack,
    table: Table,
    text: &[u8],
) -> Result<(), AllocError>
    ensures { OnOk result (stack.new ≡ pushed_parts (parts_behind (forms_of grammar.now) table text.now) stack.old) }
{
    match grammar.parts(table, text) {
        None => Ok(()),
        Some(parts) => stack.push_parts(parts),
    }
}

/// Pushes what stands behind the size of a block.
fn push_inside(stack: &mut Stack, version: u8, size: Elem) -> Result<(), AllocError>
    ensures { OnOk result (stack.new ≡ with_naming version size (Symbol.Ops size ∷ stack.old)) }
{
    stack.push(Symbol::Ops(size))?;
    if version == 2 {
        stack.push(Symbol::Naming(size))?;
    }
    Ok(())
}

/// Pushes the values of an operation, and the operations behind it.
fn push_values(stack: &mut Stack, size: Elem, count: u64) -> Result<(), AllocError>
    ensures { OnOk result (stack.new ≡ Symbol.Atom Role.Exact (Test.Mark 61) ∷ Symbol.Entries count size ∷ Symbol.Ops size ∷ stack.old) }
{
    stack.push_all(&[
        atom(Role::Exact, Test::Mark(b'=')),
        Symbol::Entries { count, size },
        Symbol::Ops(size),
    ])
}
