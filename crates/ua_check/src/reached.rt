//! What beginnings of chains reach, by positions of rows.

ghost use Rattle.std.specs.Prelude.{◌≡◌, ◌<◌, ℕ, false, [], length, slice_index, slice_index_or, IsOk, IfOk};
ghost use Rattle.std.specs.List.{AllByRecursion};
ghost use Rattle.std.specs.Result.{result_err};
ghost use Rattle.ua_check.specs.Reached as reached;
ghost use Rattle.ua_check.specs.inner.ChartsOf.{IsSide, IsChartOf, AreMarks, row_at};

use crate::charts::{Chart, is_led_to, is_own};
use crate::positions::Positions;
use std::alloc::{AllocError, Global};
use ua_flaws::Flaw;
use ua_identity::Kind;
use ua_rows::Rows;
use ua_table::Elem;

/// Whether position i of the list is below n, and above the one before it.
fn is_position(n: u32, positions: &[u32], i: usize) -> bool
    requires { i < length positions.now }
    ensures { result ≡ reached.is_position n positions.now i (slice_index positions.now i) }
{
    positions[i] < n && (i == 0 || positions[i - 1] < positions[i])
}

/// The first position that is out of range or not above the one before it.
pub(crate) fn positions(n: u32, list: &[u32]) -> Result<(), Flaw>
    ensures flaw { result_err result ≡ reached.positions_flaw n list.now }
    ensures low { IsOk result → AllByRecursion (λ p. p < n) list.now }
{
    for i in 0..list.len() {
        if !is_position(n, list, i) {
            return Err(Flaw::Reached(list[i]));
        }
    }
    Ok(())
}

/// The first position told to be reached at an odd index, where these are not told apart.
pub(crate) fn parity(kind: &Kind, odd: &[u32]) -> Result<(), Flaw>
    ensures { result_err result ≡ reached.parity_flaw kind.now odd.now }
{
    if kind.by_parity() || odd.is_empty() {
        return Ok(());
    }
    Err(Flaw::Reached(odd[0]))
}

/// Which of n positions the list holds.
pub(crate) fn marks(alloc: Global, n: u32, positions: &[u32]) -> Result<Vec<bool>, AllocError>
    requires { AllByRecursion (λ p. p < n) positions.now }
    ensures count { IfOk result (λ marks. length marks.items ≡ n) }
    ensures marks { IfOk result (λ marks. (i : ℕ) → i < n → slice_index_or marks.items i false ≡ reached.holds_position positions.now i) }
{
    let mut marks = vec![in alloc; false; n as usize]?;
    for p in positions {
        marks[*p as usize] = true;
    }
    Ok(marks)
}

/// The positions at odd indices, where these are told apart from the others.
pub(crate) fn odd_positions<'a>(kind: &Kind, even: &'a [u32], odd: &'a [u32]) -> &'a [u32]
    ensures { result.now ≡ reached.odd_positions kind.now even.now odd.now }
{
    if kind.by_parity() { odd } else { even }
}

/// Whether row i is not the start, or stands among those at even indices.
fn is_started(rows: &Rows, start: &[Elem], even: &Positions, i: u32) -> bool
    requires row { i < length rows.now.items }
    requires even { AreMarks (length rows.now.items) even.now }
    ensures { result ≡ reached.is_started start.now even.now.list.now i (slice_index_or rows.now.items i []) }
{
    rows.row(i) != start || even.marks[i as usize]
}

/// Whether row i has not what each term has by itself, or is on the other side wherever one that is
/// reached leads to it.
fn is_followed(chart: &Chart, even: &Positions, odd: &Positions, i: u32) -> bool
    requires chart { IsChartOf chart.now }
    requires row { i < length chart.now.rows.now.items }
    requires even { IsSide chart.now chart.now.kind.now.even even.now }
    requires odd { IsSide chart.now chart.now.kind.now.odd odd.now }
    ensures { result ≡ reached.is_followed chart.now.size chart.now.kind.now chart.now.rows.now.items even.now.list.now odd.now.list.now i (row_at chart.now i) }
{
    if !is_own(chart, i) {
        return true;
    }
    // What this call ensures is that the patterns of a link have the same variables.
    let _patterns = chart.kind.patterns();
    let even_link = chart.kind.even();
    let odd_link = chart.kind.odd();
    (odd.marks[i as usize] || !is_led_to(chart, even_link, even, i))
        && (even.marks[i as usize] || !is_led_to(chart, odd_link, odd, i))
}

/// Whether row i is not the end, or is not reached.
fn is_not_end(rows: &Rows, end: &[Elem], even: &Positions, odd: &Positions, i: u32) -> bool
    requires row { i < length rows.now.items }
    requires even { AreMarks (length rows.now.items) even.now }
    requires odd { AreMarks (length rows.now.items) odd.now }
    ensures { result ≡ reached.is_not_end end.now even.now.list.now odd.now.list.now i (slice_index_or rows.now.items i []) }
{
    rows.row(i) != end || (!even.marks[i as usize] && !odd.marks[i as usize])
}

/// The start, if it does not stand among the positions at even indices.
pub(crate) fn started(rows: &Rows, start: &[Elem], even: &Positions) -> Result<(), Flaw>
    requires { AreMarks (length rows.now.items) even.now }
    ensures { result_err result ≡ reached.row_flaw (reached.is_started start.now even.now.list.now) rows.now.items }
{
    for i in 0..rows.len() {
        if !is_started(rows, start, even, i) {
            return Err(Flaw::Reached(i));
        }
    }
    Ok(())
}

/// The first row that one that is reached leads to, and that does not stand on the other side.
pub(crate) fn followed(chart: &Chart, even: &Positions, odd: &Positions) -> Result<(), Flaw>
    requires chart { IsChartOf chart.now }
    requires even { IsSide chart.now chart.now.kind.now.even even.now }
    requires odd { IsSide chart.now chart.now.kind.now.odd odd.now }
    ensures { result_err result ≡ reached.row_flaw (reached.is_followed chart.now.size chart.now.kind.now chart.now.rows.now.items even.now.list.now odd.now.list.now) chart.now.rows.now.items }
{
    for i in 0..chart.rows.len() {
        if !is_followed(chart, even, odd, i) {
            return Err(Flaw::Reached(i));
        }
    }
    Ok(())
}

/// The end, if it is reached.
pub(crate) fn ended(
    rows: &Rows,
    end: &[Elem],
    even: &Positions,
    odd: &Positions,
) -> Result<(), Flaw>
    requires even { AreMarks (length rows.now.items) even.now }
    requires odd { AreMarks (length rows.now.items) odd.now }
    ensures { result_err result ≡ reached.row_flaw (reached.is_not_end end.now even.now.list.now odd.now.list.now) rows.now.items }
{
    for i in 0..rows.len() {
        if !is_not_end(rows, end, even, odd, i) {
            return Err(Flaw::Reached(i));
        }
    }
    Ok(())
}
