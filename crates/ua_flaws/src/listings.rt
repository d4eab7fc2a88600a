//! Certificates that rows are all that is generated.

ghost use Rattle.std.specs.Prelude.{◌<◌, ◌^◌, length, IsOk};
ghost use Rattle.ua_flaws.specs.Properties.{ListsAll};
ghost use Rattle.ua_flaws.specs.Flaws.{listing_flaw, Tells};

use crate::closing::{Table, closed};
use crate::flaws::{CheckError, ListName};
use crate::frames::frame_of;
use crate::orders::{order, rows_of};
use crate::origins::origins;
use crate::ranks::ranks;
use crate::vectors::{list_of, vectors};
use std::alloc::Global;
use ua_cert::CertStep;
use ua_rows::Operations;
use ua_table::{Algebra, Listed};

/// The first flaw of a certificate that rows are all that is generated.
fn listing_flaws(
    alloc: Global,
    a: &Algebra,
    gens: &[Listed<u32>],
    made: &[CertStep],
    ranking: &[u32],
    rows: &[Listed<u32>],
    width: u32,
) -> Result<(), CheckError>
    requires gens { length gens.now < 2 ^ 32 }
    requires origins { length made.now < 2 ^ 32 }
    requires ranks { length ranking.now < 2 ^ 32 }
    requires rows { length rows.now < 2 ^ 32 }
    ensures { Tells (listing_flaw a.now gens.now made.now ranking.now rows.now width) result }
{
    let frame = frame_of(a, width)?;
    let size = a.size();
    vectors(size, width, ListName::Gens, gens)?;
    vectors(size, width, ListName::Rows, rows)?;
    order(rows)?;
    ranks(alloc, rows, ranking)?;
    let list = rows_of(alloc, width, rows)?;
    let gens = list_of(alloc, width, gens)?;
    let operations = Operations::new(alloc, &frame)?;
    let table = Table {
        operations,
        rows: &list,
    };
    origins(alloc, a, &table, &gens, ranking, made)?;
    closed(alloc, a, &table, &gens)
}

/// Checks a certificate that rows are all that is generated.
pub fn listing(
    alloc: Global,
    a: &Algebra,
    gens: &[Listed<u32>],
    made: &[CertStep],
    ranking: &[u32],
    rows: &[Listed<u32>],
    width: u32,
) -> Result<(), CheckError>
    requires gens { length gens.now < 2 ^ 32 }
    requires origins { length made.now < 2 ^ 32 }
    requires ranks { length ranking.now < 2 ^ 32 }
    requires rows { length rows.now < 2 ^ 32 }
    ensures told { Tells (listing_flaw a.now gens.now made.now ranking.now rows.now width) result }
    ensures holds { IsOk result → ListsAll a.now gens.now made.now ranking.now rows.now width }
{
    listing_flaws(alloc, a, gens, made, ranking, rows, width)
}
