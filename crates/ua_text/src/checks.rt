//! What single tokens may be, and the numbers that they write.

ghost use Rattle.std.specs.Prelude.{◌≡◌, ◌^◌, ℕ, suc, IsTrue};
ghost use Rattle.std.specs.Str.Parse.{digits_value};
ghost use Rattle.ua_table.specs.declared.limits.TheConstants.{ARITY};
ghost use Rattle.ua_text.specs.Machine.{passes, size_ok, number_below};
ghost use Rattle.ua_text.specs.Versions.{size_limit, version_ok, item_ok};
ghost use Rattle.ua_text.specs.Words.{among};
ghost use Rattle.ua_text.specs.Languages.{mode_words};
ghost use Rattle.ua_text.specs.Grammars.{forms_of};

use crate::grammar::{Grammar, is_among};
use crate::numbers::number_value;
use crate::pieces::{is_json, is_number};
use crate::symbols::Test;
use ua_table::limits::{FIRST_SIZE, SIZE};
use ua_table::{Elem, is_name};

/// The greatest size of an algebra in a text of this version.
fn size_limit(version: u8) -> u32
    ensures { result ≡ size_limit version }
{
    if version == 1 {
        return FIRST_SIZE;
    }
    SIZE
}

/// Whether a token may be the size of an algebra.
pub fn is_size(version: u8, text: &[u8]) -> bool
    ensures { result ≡ size_ok version text.now }
{
    match number_value(text) {
        None => false,
        Some(size) => 0 < size && size <= size_limit(version),
    }
}

/// Whether a token is the number of a version.
pub fn is_version(text: &[u8]) -> bool
    ensures { result ≡ version_ok text.now }
{
    match number_value(text) {
        None => false,
        Some(version) => version == 1 || version == 2,
    }
}

/// Whether a token may stand inside a vector.
pub fn is_item(version: u8, text: &[u8]) -> bool
    ensures { result ≡ item_ok version text.now }
{
    is_number(text) || (version == 2 && is_name(text))
}

/// Whether a token is a number below another.
pub fn is_below(text: &[u8], bound: u32) -> bool
    ensures { result ≡ number_below bound text.now }
{
    match number_value(text) {
        None => false,
        Some(value) => value < bound,
    }
}

/// Whether a token is a word that asks for another answer.
pub fn is_mode(text: &[u8]) -> bool
    ensures { result ≡ among text.now mode_words }
{
    text == b"least".as_slice() || text == b"count".as_slice()
}

/// Whether a token passes a test.
pub fn passes(grammar: &Grammar, test: Test, text: &[u8]) -> bool
    ensures { result ≡ passes (forms_of grammar.now) test text.now }
{
    match test {
        Test::Mark(mark) => text == [mark].as_slice(),
        Test::SizeWord => text == b"size".as_slice(),
        Test::OneOf(list) => grammar.is_choice(list, text),
        Test::Name => is_name(text),
        Test::Number => is_number(text),
        Test::Json => is_json(text),
    }
}

/// The size that a token writes.
pub fn size_of(text: &[u8]) -> Elem
    ensures { (version : ℕ) → IsTrue (size_ok version text.now) → result ≡ digits_value 10 text.now }
{
    number_value(text).unwrap_or(0).min(SIZE) as Elem
}

/// How many values an operation has, if a token writes its arity.
pub fn values_of(size: Elem, text: &[u8]) -> u64
    ensures { IsTrue (number_below (suc ARITY) text.now) → result ≡ size ^ digits_value 10 text.now }
{
    let arity = number_value(text).unwrap_or(0).min(4);
    u64::from(size).pow(arity)
}

/// The version that a token writes.
pub fn version_of(text: &[u8]) -> u8
    ensures { IsTrue (version_ok text.now) → result ≡ digits_value 10 text.now }
{
    number_value(text).unwrap_or(1).min(2) as u8
}
