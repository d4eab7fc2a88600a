//! Rows that hold all that is generated, and not a target.

ghost use Rattle.std.specs.Prelude.{◌≡◌, ◌<◌, ◌^◌, length, IfOk};
ghost use Rattle.std.specs.List.{AllByRecursion};
ghost use Rattle.std.specs.Result.{result_err};
ghost use Rattle.ua_table.specs.Refusals.{refusal_if, first_refusal};
ghost use Rattle.ua_table.specs.Algebras.{power};
ghost use Rattle.ua_flaws.specs.declared.flaws.Flaw.TheVariants as flaw;
ghost use Rattle.ua_flaws.specs.Firsts.{is_among};
ghost use Rattle.ua_flaws.specs.Shapes.{IsOver};
ghost use Rattle.ua_flaws.specs.Flaws.{closed_flaw, outside_lines, Tells};

use crate::closing::{Table, closed, is_row};
use crate::flaws::{CheckError, Flaw};
use crate::orders::{order, rows_of};
use std::alloc::Global;
use ua_rows::{Operations, Rows};
use ua_table::{Algebra, Elem, Frame, Listed, Vectors};

/// Checks that a vector is no row.
fn absent(rows: &Rows, target: &[Elem]) -> Result<(), Flaw>
    requires { length target.now ≡ rows.now.width }
    ensures { result_err result ≡ refusal_if (is_among rows.now.items target.now) flaw.Target }
{
    if is_row(rows, target) {
        return Err(Flaw::Target);
    }
    Ok(())
}

/// The rows with a look-up, where they are in order, hold the generators and are closed under the operations.
///
/// The value of each operation at each of its tuples of rows is looked up: with n rows and operations of at most k
/// arguments these are about n^k look-ups.
pub fn closed_rows(
    alloc: Global,
    a: &Algebra,
    frame: &Frame<'_>,
    gens: &Vectors,
    rows: &[Listed<u32>],
) -> Result<Rows, CheckError>
    requires frame { frame.now ≡ power a.now gens.now.width }
    requires some { 0 < gens.now.width }
    requires few { length rows.now < 2 ^ 32 }
    requires rows { AllByRecursion (IsOver a.now.size gens.now.width) rows.now }
    ensures told { Tells (closed_flaw a.now gens.now.width gens.now.items rows.now) result }
    ensures width { IfOk result (λ list. list.width ≡ gens.now.width) }
    ensures items { IfOk result (λ list. list.items ≡ rows.now) }
{
    order(rows)?;
    // What this call ensures is that the rows have elements of the type.
    let _size = a.size();
    let list = rows_of(alloc, gens.width(), rows)?;
    let operations = Operations::new(alloc, frame)?;
    let table = Table {
        operations,
        rows: &list,
    };
    closed(alloc, a, &table, gens)?;
    drop(table);
    Ok(list)
}

/// Checks that rows are in order, hold the generators, are closed under the operations, and do not hold the
/// target.
pub fn outside(
    alloc: Global,
    a: &Algebra,
    frame: &Frame<'_>,
    gens: &Vectors,
    rows: &[Listed<u32>],
    target: &[Elem],
) -> Result<(), CheckError>
    requires frame { frame.now ≡ power a.now gens.now.width }
    requires some { 0 < gens.now.width }
    requires few { length rows.now < 2 ^ 32 }
    requires rows { AllByRecursion (IsOver a.now.size gens.now.width) rows.now }
    requires target { length target.now ≡ gens.now.width }
    ensures { Tells (first_refusal (outside_lines a.now gens.now.width gens.now.items rows.now target.now)) result }
{
    let list = closed_rows(alloc, a, frame, gens, rows)?;
    absent(&list, target)?;
    Ok(())
}
