//! Readers and printers of identities.

ghost use Rattle.std.specs.Prelude.{◌≡◌, ◌<◌, ◌≤◌, ◌∷◌, List, [], length, map, false, codes, IfOk, OnOk};
ghost use Rattle.std.specs.List.{flat_map};
ghost use Rattle.ua_text.specs.declared.symbols.Role.{Role};
ghost use Rattle.ua_text.specs.Printing.{Shows};
ghost use Rattle.ua_text.specs.Signs.{Wanted, sign};
ghost use Rattle.ua_text.specs.Tokens.{tokens_left, source_of};
ghost use Rattle.ua_text.specs.Reading.{Takes, begins_with};
ghost use Rattle.ua_operands.specs.declared.written.Variable.{Variable};
ghost use Rattle.ua_operands.specs.declared.written.IdentityText.{IdentityText};
ghost use Rattle.ua_operands.specs.Written.{variable, arguments, identity};
ghost use Rattle.ua_operands.specs.inner.Reading.{TakesList};

use crate::readers::{is_word, place_of};
use crate::written::{IdentityText, Variable};
use std::alloc::{AllocError, Global};
use ua_table::Listed;
use ua_text::{Miss, Printer, Role, Tokens, exact, is_next, next};

/// A variable.
fn variable(tokens: &mut Tokens<'_>) -> Result<Variable, Miss>
    ensures only { (v : Variable) (ws : List Wanted) → Takes tokens.old tokens.new result (λ x. x ≡ v) (variable v ∷ []) ws [] }
    ensures progress { IfOk result (λ x. length (tokens_left tokens.new) < length (tokens_left tokens.old)) }
    ensures source { source_of tokens.new ≡ source_of tokens.old }
{
    let token = next(tokens)?;
    if is_word(&token, b"x") {
        return Ok(Variable::X);
    }
    if is_word(&token, b"y") {
        return Ok(Variable::Y);
    }
    if is_word(&token, b"z") {
        return Ok(Variable::Z);
    }
    if is_word(&token, b"w") {
        return Ok(Variable::W);
    }
    Err(Miss::Other)
}

/// Variables up to a parenthesis.
fn variables(alloc: Global, tokens: &mut Tokens<'_>) -> Result<Vec<Variable>, Miss>
    ensures only { (vs : List Variable) (ws : List Wanted) → TakesList tokens.old tokens.new result vs (map variable vs) (sign Role.Closes (codes ")") ∷ ws) }
    ensures progress { IfOk result (λ x. length (tokens_left tokens.new) ≤ length (tokens_left tokens.old)) }
    ensures source { source_of tokens.new ≡ source_of tokens.old }
{
    let mut variables = Vec::new(alloc);
    while !is_next(tokens, b")") {
        let read = variable(tokens)?;
        variables.push(read)?;
    }
    Ok(variables)
}

/// An identity.
fn identity(alloc: Global, tokens: &mut Tokens<'_>) -> Result<IdentityText, Miss>
    ensures only { (i : IdentityText) (ws : List Wanted) → Takes tokens.old tokens.new result (λ x. x ≡ i) (identity i) ws [] }
    ensures progress { IfOk result (λ x. length (tokens_left tokens.new) < length (tokens_left tokens.old)) }
    ensures source { source_of tokens.new ≡ source_of tokens.old }
{
    let parenthesis = next(tokens)?;
    let args = variables(alloc, tokens)?;
    exact(tokens, b")")?;
    exact(tokens, b"=")?;
    let value = variable(tokens)?;
    Ok(IdentityText {
        args: Listed::new(args),
        value,
        place: place_of(&parenthesis),
    })
}

/// All identities that stand there.
pub fn identities(alloc: Global, tokens: &mut Tokens<'_>) -> Result<Listed<IdentityText>, Miss>
    ensures only { (is : List IdentityText) (ws : List Wanted) → begins_with (codes "(") ws ≡ false → Takes tokens.old tokens.new result (λ x. x ≡ is) (flat_map identity is) ws [] }
    ensures progress { IfOk result (λ x. length (tokens_left tokens.new) ≤ length (tokens_left tokens.old)) }
    ensures source { source_of tokens.new ≡ source_of tokens.old }
{
    let mut identities = Vec::new(alloc);
    while is_next(tokens, b"(") {
        let read = identity(alloc, tokens)?;
        identities.push(read)?;
    }
    Ok(Listed::new(identities))
}

/// Prints a variable.
fn put_variable(printer: &mut Printer, v: Variable) -> Result<(), AllocError>
    ensures { OnOk result (Shows printer.old printer.new (variable v ∷ [])) }
{
    match v {
        Variable::X => printer.put(Role::Exact, b"x"),
        Variable::Y => printer.put(Role::Exact, b"y"),
        Variable::Z => printer.put(Role::Exact, b"z"),
        Variable::W => printer.put(Role::Exact, b"w"),
    }
}

/// Prints the variables at the places of a term, and the parenthesis behind them.
fn put_arguments(printer: &mut Printer, args: &[Variable]) -> Result<(), AllocError>
    ensures { OnOk result (Shows printer.old printer.new (arguments args.now)) }
{
    for v in args {
        put_variable(printer, *v)?;
    }
    printer.put(Role::Closes, b")")?;
    Ok(())
}

/// Prints an identity.
fn put_identity(printer: &mut Printer, i: &IdentityText) -> Result<(), AllocError>
    ensures { OnOk result (Shows printer.old printer.new (identity i.now)) }
{
    printer.put(Role::Opens, b"(")?;
    put_arguments(printer, i.args.as_slice())?;
    printer.put(Role::Exact, b"=")?;
    put_variable(printer, i.value)
}

/// Prints identities in a row.
pub fn put_identities(printer: &mut Printer, identities: &[IdentityText]) -> Result<(), AllocError>
    ensures { OnOk result (Shows printer.old printer.new (flat_map identity identities.now)) }
{
    for i in identities {
        put_identity(printer, i)?;
    }
    Ok(())
}
