//! Certificates that there is no chain.

ghost use Rattle.std.specs.Prelude.{◌≡◌, ◌<◌, ◌≤◌, ◌^◌, length, IsOk, IfOk};
ghost use Rattle.std.specs.List.{AllByRecursion};
ghost use Rattle.ua_table.specs.declared.limits.TheConstants.{WIDTH};
ghost use Rattle.ua_table.specs.Refusals.{first_refusal};
ghost use Rattle.ua_identity.specs.Patterns.{all_fillings};
ghost use Rattle.ua_identity.specs.Chains.{generators_of};
ghost use Rattle.ua_flaws.specs.Flaws.{Tells};
ghost use Rattle.ua_check.specs.Chains.{HasNoChain};
ghost use Rattle.ua_check.specs.Reached as reached;
ghost use Rattle.ua_check.specs.inner.Chains.{both_positions_flaw};
ghost use Rattle.ua_check.specs.inner.ChartsOf.{IsChartOf};

use crate::chains::named;
use crate::charts::{Chart, entries_of};
use crate::positions::Positions;
use crate::reached::{ended, followed, marks, odd_positions, parity, positions, started};
use std::alloc::{AllocError, Global};
use ua_cert::ChainName;
use ua_flaws::laws::generated;
use ua_flaws::outside::closed_rows;
use ua_flaws::vectors::vectors;
use ua_flaws::{CheckError, Flaw, ListName};
use ua_identity::{Kind, place_vectors, width_of};
use ua_rows::Rows;
use ua_table::limits::WIDTH;
use ua_table::{Algebra, Elem, Frame, Listed, Vectors};

/// The rows and the vectors of the places, where the rows hold all that these generate.
fn rows_and_places(
    alloc: Global,
    a: &Algebra,
    kind: &Kind,
    rows: &[Listed<u32>],
) -> Result<(Rows, Vectors), CheckError>
    requires { length rows.now < 2 ^ 32 }
    ensures told { Tells (reached.rows_flaw a.now kind.now rows.now) result }
    ensures rows { IfOk result (λ made. made.0.items ≡ rows.now) }
    ensures width { IfOk result (λ made. made.0.width ≡ length (all_fillings a.now.size kind.now.patterns)) }
    ensures narrow { IfOk result (λ made. made.0.width ≤ WIDTH) }
    ensures places { IfOk result (λ made. made.1.items ≡ generators_of a.now kind.now) }
{
    let size = a.size();
    let patterns = kind.patterns();
    let width = width_of(size, patterns);
    if width > u128::from(WIDTH) {
        return Err(CheckError::Flaw(Flaw::Width));
    }
    let width = width as u32;
    vectors(size, width, ListName::Rows, rows)?;
    let Ok(frame) = Frame::power(a, width) else {
        unreachable!()
    };
    let places = place_vectors(alloc, size, patterns, kind.places(), width)?;
    let list = closed_rows(alloc, a, &frame, &places, rows)?;
    Ok((list, places))
}

/// The first position that is out of range, not above the one before it, or on a side that the kind does not
/// have.
fn sides(kind: &Kind, rows: &Rows, even: &[u32], odd: &[u32]) -> Result<(), CheckError>
    ensures told { Tells (reached.sides_flaw kind.now (length rows.now.items) even.now odd.now) result }
    ensures even { IsOk result → AllByRecursion (λ p. p < length rows.now.items) even.now }
    ensures odd { IsOk result → AllByRecursion (λ p. p < length rows.now.items) odd.now }
{
    let n = rows.len();
    positions(n, even)?;
    positions(n, odd)?;
    parity(kind, odd)?;
    Ok(())
}

/// The first flaw of what is reached: the start is missing, then a row that one that is reached leads to, or
/// the end is reached.
fn reached(
    alloc: Global,
    chart: &Chart,
    start: &[Elem],
    end: &[Elem],
    even: &[u32],
    odd: &[u32],
) -> Result<(), CheckError>
    requires chart { IsChartOf chart.now }
    requires even { AllByRecursion (λ p. p < length chart.now.rows.now.items) even.now }
    requires odd { AllByRecursion (λ p. p < length chart.now.rows.now.items) odd.now }
    ensures { Tells (first_refusal (reached.reached_lines chart.now.size chart.now.kind.now start.now end.now chart.now.rows.now.items even.now odd.now)) result }
{
    let n = chart.rows.len();
    let even_marks = marks(alloc, n, even)?;
    let odd_marks = marks(alloc, n, odd)?;
    let from_even = entries_of(alloc, chart, chart.kind.even().first, even_marks.as_slice())?;
    let from_odd = entries_of(alloc, chart, chart.kind.odd().first, odd_marks.as_slice())?;
    let even = Positions {
        list: even,
        marks: even_marks.as_slice(),
        entries: &from_even,
    };
    let odd = Positions {
        list: odd,
        marks: odd_marks.as_slice(),
        entries: &from_odd,
    };
    started(chart.rows, start, &even)?;
    followed(chart, &even, &odd)?;
    ended(chart.rows, end, &even, &odd)?;
    Ok(())
}

/// The first flaw of the positions of what is reached.
fn positions_flaws(
    alloc: Global,
    a: &Algebra,
    kind: &Kind,
    rows: &Rows,
    places: &Vectors,
    even: &[u32],
    odd: &[u32],
) -> Result<(), CheckError>
    requires width { rows.now.width ≡ length (all_fillings a.now.size kind.now.patterns) }
    requires narrow { rows.now.width ≤ WIDTH }
    requires places { places.now.items ≡ generators_of a.now kind.now }
    ensures { Tells (both_positions_flaw a.now kind.now rows.now.items even.now odd.now) result }
{
    sides(kind, rows, even, odd)?;
    let size = a.size();
    let own = kind.own_values(alloc, size)?;
    let chart = Chart {
        kind,
        size,
        own: own.as_slice(),
        rows,
    };
    let odd = odd_positions(kind, even, odd);
    let end = u32::from(kind.places() - 1);
    reached(alloc, &chart, places.get(0), places.get(end), even, odd)
}

/// The first flaw of a certificate that there is no chain.
fn no_chain_flaws(
    alloc: Global,
    a: &Algebra,
    name: ChainName,
    rows: &[Listed<u32>],
    even: &[u32],
    odd: &[u32],
) -> Result<(), CheckError>
    requires { length rows.now < 2 ^ 32 }
    ensures { Tells (reached.no_chain_flaw a.now name rows.now even.now odd.now) result }
{
    let kind = named(alloc, name)?;
    let (list, places) = rows_and_places(alloc, a, &kind, rows)?;
    positions_flaws(alloc, a, &kind, &list, &places, even, odd)
}

/// Checks a certificate that there is no chain.
pub(crate) fn no_chain(
    alloc: Global,
    a: &Algebra,
    name: ChainName,
    rows: &Listed<Listed<u32>>,
    even: &Listed<u32>,
    odd: &Listed<u32>,
) -> Result<(), CheckError>
    requires { length rows.now < 2 ^ 32 }
    ensures told { Tells (reached.no_chain_flaw a.now name rows.now even.now odd.now) result }
    ensures holds { IsOk result → HasNoChain a.now name }
{
    generated();
    // What this call ensures is that the algebra has an element.
    let _size = a.size();
    no_chain_flaws(
        alloc,
        a,
        name,
        rows.as_slice(),
        even.as_slice(),
        odd.as_slice(),
    )
}
