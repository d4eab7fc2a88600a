//! A basis of rows that stand, step by step.

ghost use Rattle.std.specs.Prelude.{◌≡◌, ◌<◌, ◌≤◌, length, slice_index, Contains, MatchOption};
ghost use Rattle.ua_table.specs.Algebras.{arities};
ghost use Rattle.ua_bases.specs.Associative.{result_of};
ghost use Rattle.ua_bases.specs.Bases.{row_at, IsBasis};
ghost use Rattle.ua_bases.specs.Steps.{AreRowsIn, HasAdvanced};

use crate::bases::{Basis, Next, Pair};
use ua_rows::{Operations, Rows, Scratch};

/// A basis may have so many bases, and one more for each sixteen rows.
pub const FEW: usize = 64;

/// It may have so many, and one more for each sixteen rows that were reached.
const FEW_REACHED: usize = 256;

/// How far a basis has come.
#[derive(Clone, Copy, Debug)]
pub enum Progress {
    /// It is complete.
    Complete,
    /// The result at this pair is none of the rows. The scratch has it.
    Absent(Pair),
    /// There are steps left.
    Unfinished,
    /// It has too many bases, or memory ran out.
    GivenUp,
}

/// Writes the result of an operation at a pair of rows.
#[inline(always)]
fn write_result(operations: &Operations, op: u32, rows: &Rows, pair: Pair, scratch: &mut Scratch)
    requires rows { AreRowsIn operations.now rows.now }
    requires binary { slice_index (arities operations.now) op ≡ 2 }
    requires row { pair.row < length rows.now.items }
    requires base { pair.base < length rows.now.items }
    requires width { length scratch.old ≡ length operations.now }
    ensures result { scratch.new ≡ result_of operations.now op (row_at rows.now.items pair.row) (row_at rows.now.items pair.base) }
    ensures width { length scratch.new ≡ length operations.now }
{
    operations.apply(op, rows, &[pair.row, pair.base], scratch);
}

/// Whether the result of an operation at a row and another is that other one.
#[inline(always)]
fn keeps(
    operations: &Operations,
    op: u32,
    rows: &Rows,
    row: u32,
    other: u32,
    scratch: &mut Scratch,
) -> bool
    requires rows { AreRowsIn operations.now rows.now }
    requires binary { slice_index (arities operations.now) op ≡ 2 }
    requires row { row < length rows.now.items }
    requires other { other < length rows.now.items }
    requires width { length scratch.old ≡ length operations.now }
    ensures { length scratch.new ≡ length operations.now }
{
    let pair = Pair { row, base: other };
    write_result(operations, op, rows, pair, scratch);
    scratch.as_slice() == rows.row(other)
}

/// A row that was not reached, from this one on: where the operation has it as an idempotent, one after another takes
/// its place that keeps it, so that in a semilattice the last one comes from no others.
fn choose(
    basis: &Basis,
    operations: &Operations,
    op: u32,
    rows: &Rows,
    first: u32,
    scratch: &mut Scratch,
) -> u32
    requires rows { AreRowsIn operations.now rows.now }
    requires binary { slice_index (arities operations.now) op ≡ 2 }
    requires room { length rows.now.items ≤ basis.now.room }
    requires low { first < length rows.now.items }
    requires missing { ¬ Contains basis.now.queue first }
    requires width { length scratch.old ≡ length operations.now }
    ensures low { result < length rows.now.items }
    ensures missing { ¬ Contains basis.now.queue result }
    ensures width { length scratch.new ≡ length operations.now }
{
    let count = rows.len();
    let mut row = first;
    if !keeps(operations, op, rows, row, row, scratch) {
        return row;
    }
    for other in first + 1..count {
        if !basis.has(other) && keeps(operations, op, rows, other, row, scratch) {
            row = other;
        }
    }
    row
}

/// One step: a result more, or a base.
#[inline(always)]
fn step(
    basis: &mut Basis,
    operations: &Operations,
    op: u32,
    rows: &Rows,
    scratch: &mut Scratch,
) -> Option<Progress>
    requires rows { AreRowsIn operations.now rows.now }
    requires binary { slice_index (arities operations.now) op ≡ 2 }
    requires basis { IsBasis operations.now op rows.now.items basis.old }
    requires width { length scratch.old ≡ length operations.now }
    ensures basis { IsBasis operations.now op rows.now.items basis.new }
    ensures told { MatchOption result (Unit {0}) (HasAdvanced operations.now op rows.now.items basis.new scratch.new) }
    ensures width { length scratch.new ≡ length operations.now }
{
    let count = rows.len();
    if basis.reserve(count).is_err() {
        return Some(Progress::GivenUp);
    }
    match basis.next(count) {
        Next::Complete => Some(Progress::Complete),
        Next::Missing(row) => {
            if basis.len() >= FEW + count as usize / 16
                || basis.len() >= FEW_REACHED + basis.reached() / 16
            {
                return Some(Progress::GivenUp);
            }
            basis.add(choose(basis, operations, op, rows, row, scratch));
            None
        }
        Next::Result(pair) => {
            write_result(operations, op, rows, pair, scratch);
            match rows.find_scratch(scratch) {
                Some(row) => {
                    basis.enter(row);
                    None
                }
                None => Some(Progress::Absent(pair)),
            }
        }
    }
}

/// Goes on with a basis of these rows, under an operation of two arguments: by so many steps at most, until it is
/// complete, or a result is none of the rows. A step is a result of the operation and a look-up, or a base.
pub fn advance(
    basis: &mut Basis,
    operations: &Operations,
    op: u32,
    rows: &Rows,
    scratch: &mut Scratch,
    steps: u32,
) -> Progress
    requires rows { AreRowsIn operations.now rows.now }
    requires binary { slice_index (arities operations.now) op ≡ 2 }
    requires basis { IsBasis operations.now op rows.now.items basis.old }
    requires width { length scratch.old ≡ length operations.now }
    ensures basis { IsBasis operations.now op rows.now.items basis.new }
    ensures told { HasAdvanced operations.now op rows.now.items basis.new scratch.new result }
    ensures width { length scratch.new ≡ length operations.now }
{
    for _ in 0..steps {
        if let Some(progress) = step(basis, operations, op, rows, scratch) {
            return progress;
        }
    }
    Progress::Unfinished
}
