//! Vectors of width 8 pushed and found.

ghost use Rattle.std.specs.Prelude.{◌≡◌, length, IfOk};

use std::alloc::{AllocError, Global};
use ua_rows::Rows;
use ua_table::Elem;

/// The vector of a number: different ones for different numbers.
fn vector(number: u32) -> [Elem; 8] {
    let bytes = (u64::from(number) * 0x9E37_79B9).to_le_bytes();
    bytes.map(|byte| Elem::from(byte))
}

/// Pushes the vector of a number where it is not there yet.
fn enter(rows: &mut Rows, number: u32) -> Result<(), AllocError>
    requires { rows.old.width ≡ 8 }
    ensures { rows.new.width ≡ 8 }
{
    let v = vector(number);
    if rows.find(&v).is_some() || rows.len() == u32::MAX {
        return Ok(());
    }
    rows.push(&v)?;
    Ok(())
}

/// How many of the first vectors are there.
fn present(rows: &Rows, count: u32) -> u32
    requires { rows.now.width ≡ 8 }
{
    let mut present = 0;
    for number in 0..count {
        if rows.find(&vector(number)).is_some() {
            present += 1;
        }
    }
    present
}

/// Pushes so many vectors, and then looks for each so many times. How many were found at last.
pub fn fill(alloc: Global, count: u32, times: u32) -> Result<u32, AllocError> {
    let mut rows = Rows::new(alloc, 8);
    for number in 0..count {
        enter(&mut rows, number)?;
    }
    let mut found = rows.len();
    for _ in 0..times {
        found = present(&rows, count);
    }
    Ok(found)
}
