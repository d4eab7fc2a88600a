//! Rows that hold the generators and are closed under the operations.

ghost use Rattle.std.specs.Prelude.{◌≡◌, ◌<◌, ◌≤◌, ◌-◌, ℕ, List, [], ◌∷◌, None, length, take, slice_index, IfOk, IsTrue};
ghost use Rattle.std.specs.List.{AllByRecursion};
ghost use Rattle.std.specs.Option.{option_map};
ghost use Rattle.std.specs.Result.{result_err};
ghost use Rattle.ua_table.specs.Refusals.{first_refusal};
ghost use Rattle.ua_table.specs.Algebras.{IsVector, arities};
ghost use Rattle.ua_term.specs.Printing.{name_at};
ghost use Rattle.ua_flaws.specs.declared.flaws.Flaw.TheVariants as flaws;
ghost use Rattle.ua_flaws.specs.Firsts.{is_among};
ghost use Rattle.ua_flaws.specs.Closing.{is_missing, missing_of};
ghost use Rattle.ua_flaws.specs.inner.Closing.{IsTableOver, missing_behind};
ghost use Rattle.ua_flaws.specs.Flaws.{generators_flaw, results_flaw, Tells};

use crate::flaws::{CheckError, Flaw};
use std::alloc::{AllocError, Global};
use ua_bases::{Basis, Progress, advance, is_associative_in};
use ua_rows::{Operations, Rows, Scratch};
use ua_table::{Algebra, Elem, Listed, Vectors};

/// Fewer rows are looked through faster pair by pair.
const MANY: u64 = 256;

/// The rows of a certificate with a look-up, and the operations of their power.
#[derive(Drop)]
pub(crate) struct Table<'a> {
    pub(crate) operations: Operations<'a>,
    pub(crate) rows: &'a Rows,
}

/// Whether a vector is a row.
pub(crate) fn is_row(rows: &Rows, v: &[Elem]) -> bool
    requires { length v.now ≡ rows.now.width }
    ensures { result ≡ is_among rows.now.items v.now }
{
    rows.find(v).is_some()
}

/// The first generator that is no row.
pub(crate) fn generators(gens: &Vectors, rows: &Rows) -> Result<(), Flaw>
    requires { gens.now.width ≡ rows.now.width }
    ensures { result_err result ≡ generators_flaw gens.now.items rows.now.items }
{
    for i in 0..gens.len() {
        if !is_row(rows, gens.get(i)) {
            return Err(Flaw::Generator(i));
        }
    }
    Ok(())
}

/// Whether a vector whose hash is known is a row.
fn is_scratch_row(rows: &Rows, v: &Scratch) -> bool
    requires { length v.now ≡ rows.now.width }
    ensures { result ≡ is_among rows.now.items v.now }
{
    rows.find_scratch(v).is_some()
}

/// Whether the value of an operation at these rows is no row.
fn is_missing(table: &Table<'_>, op: u32, args: &[u32], scratch: &mut Scratch) -> bool
    requires operation { op < length (arities table.now.operations) }
    requires arity { length args.now ≡ slice_index (arities table.now.operations) op }
    requires named { AllByRecursion (λ a. a < length table.now.rows.now.items) args.now }
    requires rows { AllByRecursion (IsVector table.now.operations) table.now.rows.now.items }
    requires width { length scratch.old ≡ length table.now.operations }
    requires same { table.now.rows.now.width ≡ length table.now.operations }
    ensures missing { result ≡ is_missing table.now.operations table.now.rows.now.items op args.now }
    ensures width { length scratch.new ≡ length table.now.operations }
{
    table.operations.apply(op, table.rows, args, scratch);
    !is_scratch_row(table.rows, scratch)
}

/// The first rows, of which some are given, at which the value of an operation is no row. The recursion is as deep as
/// the arity.
fn first_missing(
    table: &Table<'_>,
    op: u32,
    arity: usize,
    args: [u32; 4],
    filled: usize,
    scratch: &mut Scratch,
) -> Option<[u32; 4]>
    requires operation { op < length (arities table.now.operations) }
    requires arity { arity ≡ slice_index (arities table.now.operations) op }
    requires few { arity ≤ 4 }
    requires filled { filled ≤ arity }
    requires four { length args ≡ 4 }
    requires named { AllByRecursion (λ a. a < length table.now.rows.now.items) (take filled args) }
    requires rows { AllByRecursion (IsVector table.now.operations) table.now.rows.now.items }
    requires width { length scratch.old ≡ length table.now.operations }
    requires same { table.now.rows.now.width ≡ length table.now.operations }
    ensures first { option_map (λ (places : List ℕ). take arity places) result ≡ missing_behind table.now.operations table.now.rows.now.items op (take filled args) (arity - filled) }
    ensures width { length scratch.new ≡ length table.now.operations }
{
    if filled == arity {
        if is_missing(table, op, &args[..arity], scratch) {
            return Some(args);
        }
        return None;
    }
    let mut next = args;
    for x in 0..table.rows.len() {
        next[filled] = x;
        let found = first_missing(table, op, arity, next, filled + 1, scratch);
        if found.is_some() {
            return found;
        }
    }
    None
}

/// Whether it is known that the value of an operation at any rows is a row: where it is associative, and there are many
/// rows, by a basis of them.
fn is_known_closed(
    alloc: Global,
    a: &Algebra,
    table: &Table<'_>,
    op: u32,
    scratch: &mut Scratch,
) -> bool
    requires table { IsTableOver a.now table.now.operations table.now.rows.now }
    requires width { length scratch.old ≡ length table.now.operations }
    ensures closed { IsTrue result → missing_of table.now.operations table.now.rows.now.items op ≡ None }
    ensures width { length scratch.new ≡ length table.now.operations }
{
    let rows = u64::from(table.rows.len());
    let size = u64::from(a.size());
    if rows < MANY || rows * rows < size * size * size || !is_associative_in(a, op) {
        return false;
    }
    let mut basis = Basis::new(alloc);
    let steps = u32::MAX;
    let progress = advance(
        &mut basis,
        &table.operations,
        op,
        table.rows,
        scratch,
        steps,
    );
    matches!(progress, Progress::Complete)
}

/// The first rows at which the value of an operation is no row.
fn first_result(
    alloc: Global,
    a: &Algebra,
    table: &Table<'_>,
    op: u32,
    arity: usize,
    scratch: &mut Scratch,
) -> Option<[u32; 4]>
    requires table { IsTableOver a.now table.now.operations table.now.rows.now }
    requires operation { op < length (arities table.now.operations) }
    requires arity { arity ≡ slice_index (arities table.now.operations) op }
    requires few { arity ≤ 4 }
    requires width { length scratch.old ≡ length table.now.operations }
    ensures first { missing_of table.now.operations table.now.rows.now.items op ≡ option_map (λ (places : List ℕ). (op, take arity places)) result }
    ensures width { length scratch.new ≡ length table.now.operations }
{
    if is_known_closed(alloc, a, table, op, scratch) {
        return None;
    }
    first_missing(table, op, arity, [0; 4], 0, scratch)
}

/// The flaw that the value of an operation at these rows is no row.
fn missing_flaw(alloc: Global, a: &Algebra, op: u32, rows: &[u32]) -> Result<Flaw, AllocError>
    requires { op < length a.now.operations }
    ensures { IfOk result (λ flaw. flaw ≡ flaws.Missing (name_at a.now op) rows.now) }
{
    let op = a.op(op).name().copy(alloc)?;
    let rows = Listed::new(Vec::from_slice(alloc, rows)?);
    Ok(Flaw::Missing { op, rows })
}

/// The first value of an operation at rows that is no row, by operation and then by rows.
pub(crate) fn results(alloc: Global, a: &Algebra, table: &Table<'_>) -> Result<(), CheckError>
    requires { IsTableOver a.now table.now.operations table.now.rows.now }
    ensures { Tells (results_flaw a.now table.now.rows.now.width table.now.rows.now.items) result }
{
    let mut scratch = Scratch::new(alloc, table.rows.width())?;
    for op in 0..a.ops().len() as u32 {
        let arity = usize::from(a.op(op).arity());
        if let Some(args) = first_result(alloc, a, table, op, arity, &mut scratch) {
            return Err(CheckError::Flaw(missing_flaw(alloc, a, op, &args[..arity])?));
        }
    }
    Ok(())
}

/// The first generator that is no row, or else the first value that is none.
pub(crate) fn closed(
    alloc: Global,
    a: &Algebra,
    table: &Table<'_>,
    gens: &Vectors,
) -> Result<(), CheckError>
    requires width { gens.now.width ≡ table.now.rows.now.width }
    requires table { IsTableOver a.now table.now.operations table.now.rows.now }
    ensures told { Tells (first_refusal (generators_flaw gens.now.items table.now.rows.now.items ∷ results_flaw a.now table.now.rows.now.width table.now.rows.now.items ∷ [])) result }
{
    generators(gens, table.rows)?;
    results(alloc, a, table)
}
