//! Listings as text, with digits for numbers below 10.

use std::alloc::AllocError;
use ua_close::Listing;
use ua_table::{Elem, Origin};

fn put_digit(text: &mut String, n: u32) -> Result<(), AllocError> {
    text.push(char::from(b'0' + (n % 10) as u8))
}

fn put_digits(text: &mut String, v: &[Elem]) -> Result<(), AllocError> {
    for x in v {
        put_digit(text, u32::from(*x))?;
    }
    Ok(())
}

/// `g` and the index of a generator, or an operation and its four arguments.
fn put_origin(text: &mut String, origin: Origin) -> Result<(), AllocError> {
    match origin {
        Origin::Gen { index } => {
            text.push('g')?;
            put_digit(text, index)?;
        }
        Origin::Op { op, args } => {
            put_digit(text, op)?;
            for a in &args {
                put_digit(text, *a)?;
            }
        }
    }
    Ok(())
}

/// The vector, the rank and the origin of each row.
pub(crate) fn put_rows(text: &mut String, list: &Listing) -> Result<(), AllocError> {
    for i in 0..list.len() {
        text.push_str(", ")?;
        put_digits(text, list.row(i))?;
        text.push(':')?;
        put_digit(text, list.rank(i))?;
        text.push(' ')?;
        put_origin(text, list.origin(i))?;
    }
    Ok(())
}

/// The vector of each row.
pub(crate) fn put_vectors(text: &mut String, list: &Listing) -> Result<(), AllocError> {
    for i in 0..list.len() {
        text.push(' ')?;
        put_digits(text, list.row(i))?;
    }
    Ok(())
}
