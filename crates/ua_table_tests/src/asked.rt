//! Calls by their texts, and their answers as text.

use crate::frames::{put_admitted, put_power, put_product};
use crate::numbering::{Numbering, put_numbered};
use crate::runs::put_run;
use crate::tables::{put_algebra, put_name, put_operation, put_place};
use std::alloc::{AllocError, Global};
use std::test::Fail;
use ua_cases::Asked;
use ua_table::Elem;

/// Which call is made.
pub(crate) enum Call {
    Power,
    Product,
    Admits,
    Numbering(Numbering),
    Run,
    Name,
    Operation,
    Algebra,
    Find,
}

impl Asked for Call {
    fn put_answer(&self, alloc: Global, asked: &str, text: &mut String) -> Result<(), Fail> {
        match self {
            Call::Power => put_power(alloc, asked, text),
            Call::Product => put_product(alloc, asked, text),
            Call::Admits => put_admitted(alloc, asked, text),
            Call::Numbering(which) => put_numbered(alloc, which, asked, text),
            Call::Run => put_run(asked, text),
            Call::Name => put_name(alloc, asked, text),
            Call::Operation => put_operation(alloc, asked, text),
            Call::Algebra => put_algebra(alloc, asked, text),
            Call::Find => put_place(alloc, asked, text),
        }
    }
}

/// The elements of a text, each by its number.
pub(crate) fn elements(alloc: Global, text: &str) -> Result<Vec<Elem>, Fail> {
    let mut elements = Vec::new(alloc);
    for word in text.split_whitespace() {
        elements.push(word.parse()?)?;
    }
    Ok(elements)
}

/// The numbers below 10 of a text, each by its digit.
pub(crate) fn digits(alloc: Global, text: &str) -> Result<Vec<u8>, AllocError> {
    let mut digits = Vec::new(alloc);
    for b in text.as_bytes() {
        digits.push(b.saturating_sub(b'0'))?;
    }
    Ok(digits)
}
