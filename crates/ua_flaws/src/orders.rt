//! Rows in order.

ghost use Rattle.std.specs.Prelude.{◌≡◌, ◌<◌, ◌^◌, None, [], length, slice_index_or, IfOk};
ghost use Rattle.std.specs.List.{AllByRecursion};
ghost use Rattle.std.specs.Result.{result_err};
ghost use Rattle.ua_table.specs.declared.limits.TheConstants.{SIZE};
ghost use Rattle.ua_flaws.specs.Shapes.{IsOver};
ghost use Rattle.ua_flaws.specs.Flaws.{follows, order_flaw};

use crate::flaws::Flaw;
use crate::vectors::write;
use std::alloc::{AllocError, Global};
use ua_rows::Rows;
use ua_table::Listed;

/// Whether row i is the first, or above the one before it.
fn follows(rows: &[Listed<u32>], i: usize) -> bool
    requires { i < length rows.now }
    ensures { result ≡ follows rows.now i (slice_index_or rows.now i []) }
{
    i == 0 || rows[i - 1].as_slice().cmp(rows[i].as_slice()).is_lt()
}

/// The first row that is not above the one before it.
pub(crate) fn order(rows: &[Listed<u32>]) -> Result<(), Flaw>
    requires { length rows.now < 2 ^ 32 }
    ensures { result_err result ≡ order_flaw rows.now }
{
    for i in 0..rows.len() {
        if !follows(rows, i) {
            return Err(Flaw::Order(i as u32));
        }
    }
    Ok(())
}

/// The rows with a look-up.
pub(crate) fn rows_of(alloc: Global, width: u32, rows: &[Listed<u32>]) -> Result<Rows, AllocError>
    requires few { length rows.now < 2 ^ 32 }
    requires vectors { AllByRecursion (IsOver SIZE width) rows.now }
    requires order { order_flaw rows.now ≡ None }
    ensures width { IfOk result (λ list. list.width ≡ width) }
    ensures items { IfOk result (λ list. list.items ≡ rows.now) }
{
    let mut list = Rows::new(alloc, width);
    let mut vector = vec![in alloc; 0; width as usize]?;
    for row in rows {
        write(row.as_slice(), vector.as_mut_slice());
        list.push(vector.as_slice())?;
    }
    Ok(list)
}
