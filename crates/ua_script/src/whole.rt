//! Readers of items and of scripts.

ghost use Rattle.std.specs.Prelude.{◌≡◌, ◌<◌, ◌++◌, ℕ, List, [], length, false, IfOk, codes};
ghost use Rattle.std.specs.List.{flat_map, AllByRecursion};
ghost use Rattle.ua_text.specs.Signs.{Wanted, Front};
ghost use Rattle.ua_text.specs.Versions.{IsVersion};
ghost use Rattle.ua_text.specs.Tokens.{tokens_left, source_of};
ghost use Rattle.ua_text.specs.Reading.{Takes, Gives, begins_with};
ghost use Rattle.ua_script.specs.declared.script.Script.{Script};
ghost use Rattle.ua_script.specs.declared.script.Item.{Item};
ghost use Rattle.ua_script.specs.Grammar.{item, written, IsOpening};
ghost use Rattle.ua_operands.specs.Reading.{begins_item};
ghost use Rattle.ua_script.specs.Reading.{IsReadableItem, IsReadableScript};

use crate::commands::command;
use crate::script::{Item, Script};
use std::alloc::Global;
use ua_table::Listed;
use ua_text::{Miss, Tokens, exact, is_next, is_over, number, read_body};

/// A block or a command.
fn item(alloc: Global, tokens: &mut Tokens<'_>) -> Result<Item, Miss>
    ensures only { (v : ℕ) (i : Item) (ws : List Wanted) → IsReadableItem v i → begins_item ws → Takes tokens.old tokens.new result (λ x. x ≡ i) (item i) ws [] }
    ensures progress { IfOk result (λ x. length (tokens_left tokens.new) < length (tokens_left tokens.old)) }
    ensures source { source_of tokens.new ≡ source_of tokens.old }
{
    if is_next(tokens, b"algebra") {
        exact(tokens, b"algebra")?;
        return Ok(Item::Block(read_body(alloc, tokens)?));
    }
    Ok(Item::Command(command(alloc, tokens)?))
}

/// All items up to the end.
fn items(alloc: Global, tokens: &mut Tokens<'_>) -> Result<Listed<Item>, Miss>
    ensures only { (v : ℕ) (is : List Item) → AllByRecursion (IsReadableItem v) is → Front (tokens_left tokens.old) (flat_map item is) [] → Gives result (λ x. x ≡ is) }
{
    let mut items = Vec::new(alloc);
    while !is_over(tokens) {
        let read = item(alloc, tokens)?;
        items.push(read)?;
    }
    Ok(Listed::new(items))
}

/// The version of a script: what its line tells, or else 1.
fn version(tokens: &mut Tokens<'_>) -> Result<u8, Miss>
    ensures only { (v : ℕ) (front ws : List Wanted) → IsVersion v → IsOpening v front → begins_with (codes "version") ws ≡ false → Takes tokens.old tokens.new result (λ x. x ≡ v) front ws [] }
{
    if !is_next(tokens, b"version") {
        return Ok(1);
    }
    exact(tokens, b"version")?;
    let version = number(tokens)?;
    if version > 2 {
        return Err(Miss::Other);
    }
    Ok(version as u8)
}

/// A script up to the end.
pub fn script(alloc: Global, tokens: &mut Tokens<'_>) -> Result<Script, Miss>
    ensures only { (s : Script) (front : List Wanted) → IsReadableScript s → IsOpening s.version front → Front (tokens_left tokens.old) (front ++ written s) [] → Gives result (λ x. x ≡ s) }
{
    let version = version(tokens)?;
    let items = items(alloc, tokens)?;
    Ok(Script { version, items })
}
