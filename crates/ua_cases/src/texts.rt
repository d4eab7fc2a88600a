//! Texts that are asked of, and answers that are written.

use std::alloc::Global;
use std::fmt::Debug;
use std::test::Fail;

/// The part of a text at this place; parts stand between commas.
pub fn part(text: &str, place: usize) -> &str {
    text.split(',').nth(place).unwrap_or("").trim()
}

/// The number at this place.
pub fn number(text: &str, place: usize) -> Result<u32, Fail> {
    Ok(part(text, place).parse()?)
}

/// A text behind another, with a newline for each `~`.
pub fn spelled(alloc: Global, front: &str, text: &str) -> Result<String, Fail> {
    let text = text.replace(alloc, '~', "\n")?;
    Ok(format!(in alloc; "{front}{text}")?)
}

/// `f(f(..f(x0)..))` with so many parentheses open at once, between two texts.
pub fn nested(alloc: Global, front: &str, depth: usize, back: &str) -> Result<String, Fail> {
    let opened = "f(".repeat(alloc, depth)?;
    let closed = ")".repeat(alloc, depth)?;
    Ok(format!(in alloc; "{front}{opened}x0{closed}{back}")?)
}

pub fn put_word(answer: &mut String, word: &str) -> Result<(), Fail> {
    answer.push_str(word)?;
    Ok(())
}

pub fn put_flag(answer: &mut String, flag: bool) -> Result<(), Fail> {
    put_word(answer, if flag { "true" } else { "false" })
}

pub fn put_bytes(answer: &mut String, bytes: &[u8]) -> Result<(), Fail> {
    put_word(answer, str::from_utf8(bytes)?)
}

/// Puts a value as it is written for debugging.
pub fn put_value_of<T: Debug>(answer: &mut String, value: &T) -> Result<(), Fail> {
    write!(answer, "{value:?}")?;
    Ok(())
}
