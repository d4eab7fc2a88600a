//! Texts that are read.

use std::test::Fail;
use ua_table::limits::SCRIPT;
use ua_text::Tokens;
use ua_text::tokenizing::tokens;

/// The tokens of a text.
pub fn tokens_of(text: &str) -> Result<Tokens<'_>, Fail> {
    if text.len() > SCRIPT {
        return Err("too long".into());
    }
    Ok(tokens(text.as_bytes()))
}
