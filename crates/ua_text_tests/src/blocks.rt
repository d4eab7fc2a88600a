//! Worked texts of an algebra, and of blocks with names.

use crate::algebras::algebra;
use crate::cases::Call;
use crate::texts::tokens_of;
use std::alloc::Global;
use std::test::Fail;
use ua_cases::{expect, expect_of, put_bytes, put_value_of};
use ua_table::Algebra;
use ua_text::{Token, print_algebra, print_block, read_block};

fn put_printed(alloc: Global, algebra: &Algebra, answer: &mut String) -> Result<(), Fail> {
    let bytes = print_algebra(alloc, algebra)?;
    put_bytes(answer, bytes.as_slice())
}

/// The algebra of the block of version 1 that the text begins with, in canonical print.
pub fn put_algebra(alloc: Global, text: &str, answer: &mut String) -> Result<(), Fail> {
    let algebra = algebra(alloc, text)?;
    put_printed(alloc, &algebra, answer)
}

/// The block of version 2 that the text begins with, in canonical print.
pub fn put_block(alloc: Global, text: &str, answer: &mut String) -> Result<(), Fail> {
    let block = read_block(alloc, &mut tokens_of(text)?, 2)?;
    let bytes = print_block(alloc, &block)?;
    put_bytes(answer, bytes.as_slice())
}

/// Where a token begins, its line and column, its kind and its text.
fn put_token(answer: &mut String, token: Token) -> Result<(), Fail> {
    let at = (token.start, token.line, token.column, token.kind);
    put_value_of(answer, &at)?;
    put_bytes(answer, token.text)
}

pub fn put_tokens(text: &str, answer: &mut String) -> Result<(), Fail> {
    for token in tokens_of(text)? {
        put_token(answer, token)?;
    }
    Ok(())
}

#[test]
fn blocks_in_canonical_print(rt: HostRuntime) -> Result<(), Fail> {
    let cases = "
        algebra M size 2~op meet 2 = 0 0 0 1~end~ => algebra M size 2~op meet 2 = 0 0 0 1~end~
        algebra M size 2 op meet 2 = # the least~ 0 0\r~\t0 1 end close => algebra M size 2~op meet 2 = 0 0 0 1~end~
        algebra L size 3 names (bot mid top)~op f 1 = top 0 mid~op c 0 = mid~end => algebra L size 3 names (bot mid top)~op f 1 = 2 0 1~op c 0 = 1~end~
        algebra L size 3~op f 1 = 2 0 1~op c 0 = 1~end~ => algebra L size 3~op f 1 = 2 0 1~op c 0 = 1~end~";
    expect(rt.alloc(), &Call::Block, cases)
}

/// A block alone, of version 1.
#[test]
fn an_algebra_is_read(rt: HostRuntime) -> Result<(), Fail> {
    let case =
        "algebra M size 2~op meet 2 = 0 0 0 1~end~ => algebra M size 2~op meet 2 = 0 0 0 1~end~";
    expect(rt.alloc(), &Call::Algebra, case)
}

#[test]
fn tokens_are_slices_at_their_places(rt: HostRuntime) -> Result<(), Fail> {
    let case =
        "op f2 0\r~# no token~ = 12ab {\"a\" 1~[ => (0, 1, 1, Word)op(3, 1, 4, Word)f2(6, 1, 7, Number)0(21, 3, 2, Mark)=(23, 3, 4, Number)12(25, 3, 6, Bad)a";
    expect(rt.alloc(), &Call::Tokens, case)
}

/// A block with a thousand names of 32 bytes, and this text behind them.
fn thousand_names(alloc: Global, end: &str) -> Result<String, Fail> {
    let mut text = String::from_str(alloc, "algebra A size 1000 names (")?;
    for element in 0..999_u32 {
        write!(text, "an_element_of_many_bytes_____{element:03} ")?;
    }
    text.push_str("an_element_of_many_bytes_____999)")?;
    text.push_str(end)?;
    Ok(text)
}

#[test]
fn a_thousand_names_of_32_bytes(rt: HostRuntime) -> Result<(), Fail> {
    let alloc = rt.alloc();
    let text = thousand_names(alloc, " op last 0 = an_element_of_many_bytes_____999 end")?;
    let wanted = thousand_names(alloc, "\nop last 0 = 999\nend\n")?;
    expect_of(alloc, &Call::Block, text.as_str(), wanted.as_str())
}
