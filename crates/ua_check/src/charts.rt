//! The rows of a certificate that there is no chain, by their parts at the patterns.

ghost use Rattle.std.specs.Prelude.{◌≡◌, ◌+◌, ◌<◌, ◌≤◌, length, IfOk, OnOk};
ghost use Rattle.ua_identity.specs.Patterns.{fillings};
ghost use Rattle.ua_identity.specs.KindTables.{pattern_at, link_of};
ghost use Rattle.ua_check.specs.Reached as reached;
ghost use Rattle.ua_check.specs.inner.ChartsOf.{IsSide, IsChartOf, AreEntriesBelow, AreEntriesAt, row_at};

use crate::positions::Positions;
use std::alloc::{AllocError, Global};
use ua_identity::{Kind, PatternPair};
use ua_rows::Rows;
use ua_table::Elem;

/// The rows, on the patterns of a kind of chain, and what each term has by itself.
#[derive(Clone, Copy)]
pub(crate) struct Chart<'a> {
    pub(crate) kind: &'a Kind,
    pub(crate) size: u32,
    pub(crate) own: &'a [Elem],
    pub(crate) rows: &'a Rows,
}

/// The entries of row i at pattern m.
fn part<'a>(chart: &Chart<'a>, i: u32, m: usize) -> &'a [Elem]
    requires chart { IsChartOf chart.now }
    requires row { i < length chart.now.rows.now.items }
    requires pattern { m < length chart.now.kind.now.patterns }
    ensures entries { result.now ≡ reached.part chart.now.size chart.now.kind.now (pattern_at chart.now.kind.now.patterns m) (row_at chart.now i) }
    ensures width { length result.now ≡ length (fillings chart.now.size (pattern_at chart.now.kind.now.patterns m)) }
{
    // What this call ensures is that the patterns differ.
    let _patterns = chart.kind.patterns();
    let part = chart.kind.part(chart.size, m);
    chart.rows.part(i, part.from, part.to)
}

/// Whether row i has what each term has by itself.
pub(crate) fn is_own(chart: &Chart, i: u32) -> bool
    requires chart { IsChartOf chart.now }
    requires row { i < length chart.now.rows.now.items }
    ensures { result ≡ reached.is_own_row chart.now.size chart.now.kind.now (row_at chart.now i) }
{
    match chart.kind.own() {
        Some(m) => part(chart, i, m) == chart.own,
        None => true,
    }
}

/// Enters the entries of row i at pattern m, if it is marked.
fn enter_marked(
    chart: &Chart,
    m: usize,
    marks: &[bool],
    i: u32,
    entries: &mut Rows,
) -> Result<(), AllocError>
    requires chart { IsChartOf chart.now }
    requires pattern { m < length chart.now.kind.now.patterns }
    requires count { length marks.now ≡ length chart.now.rows.now.items }
    requires row { i < length chart.now.rows.now.items }
    requires room { i < u32.MAX }
    requires width { entries.old.width ≡ length (fillings chart.now.size (pattern_at chart.now.kind.now.patterns m)) }
    requires few { length entries.old.items ≤ i }
    requires entries { AreEntriesBelow chart.now (pattern_at chart.now.kind.now.patterns m) marks.now i entries.old.items }
    ensures width { entries.new.width ≡ entries.old.width }
    ensures few { length entries.new.items ≤ i + 1 }
    ensures entries { OnOk result (AreEntriesBelow chart.now (pattern_at chart.now.kind.now.patterns m) marks.now (i + 1) entries.new.items) }
{
    if marks[i as usize] {
        entries.enter(part(chart, i, m))?;
    }
    Ok(())
}

/// The different entries at pattern m of the rows that are marked.
pub(crate) fn entries_of(
    alloc: Global,
    chart: &Chart,
    m: usize,
    marks: &[bool],
) -> Result<Rows, AllocError>
    requires chart { IsChartOf chart.now }
    requires pattern { m < length chart.now.kind.now.patterns }
    requires count { length marks.now ≡ length chart.now.rows.now.items }
    ensures { IfOk result (AreEntriesAt chart.now (pattern_at chart.now.kind.now.patterns m) marks.now) }
{
    let part = chart.kind.part(chart.size, m);
    let mut entries = Rows::new(alloc, part.to - part.from);
    for i in 0..chart.rows.len() {
        enter_marked(chart, m, marks, i, &mut entries)?;
    }
    Ok(entries)
}

/// Whether some row at one of the positions leads to row i, by one look-up.
pub(crate) fn is_led_to(chart: &Chart, link: PatternPair, from: &Positions, i: u32) -> bool
    requires chart { IsChartOf chart.now }
    requires row { i < length chart.now.rows.now.items }
    requires first { link.first < length chart.now.kind.now.patterns }
    requires second { link.second < length chart.now.kind.now.patterns }
    requires same { (pattern_at chart.now.kind.now.patterns link.first).variables ≡ (pattern_at chart.now.kind.now.patterns link.second).variables }
    requires from { IsSide chart.now (link_of chart.now.kind.now.patterns link) from.now }
    ensures { result ≡ reached.is_led_to chart.now.size chart.now.kind.now (link_of chart.now.kind.now.patterns link) chart.now.rows.now.items from.now.list.now (row_at chart.now i) }
{
    from.entries.find(part(chart, i, link.second)).is_some()
}
