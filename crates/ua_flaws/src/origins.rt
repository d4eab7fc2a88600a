//! Origins of rows.

ghost use Rattle.std.specs.Prelude.{◌≡◌, ◌<◌, ◌^◌, length};
ghost use Rattle.ua_flaws.specs.inner.Closing.{IsTableOver};
ghost use Rattle.ua_flaws.specs.Flaws as flaws;

use crate::closing::Table;
use crate::flaws::{CheckError, Flaw};
use crate::ranks::are_smaller;
use crate::steps::read_step;
use std::alloc::Global;
use ua_cert::CertStep;
use ua_rows::Scratch;
use ua_table::{Algebra, Origin, Vectors};

/// Whether an origin is one over the rows, from rows of smaller rank, and gives row i.
fn is_made(
    a: &Algebra,
    table: &Table<'_>,
    gens: &Vectors,
    ranks: &[u32],
    i: u32,
    step: &CertStep,
    scratch: &mut Scratch,
) -> bool
    requires table { IsTableOver a.now table.now.operations table.now.rows.now }
    requires ranks { length ranks.now ≡ length table.now.rows.now.items }
    requires row { i < length table.now.rows.now.items }
    requires width { length scratch.old ≡ table.now.rows.now.width }
    ensures made { result ≡ flaws.is_made a.now table.now.rows.now.width gens.now.items table.now.rows.now.items ranks.now i step.now }
    ensures width { length scratch.new ≡ table.now.rows.now.width }
{
    let Some(origin) = read_step(a, gens.len(), table.rows.len(), step) else {
        return false;
    };
    match origin {
        Origin::Gen { index } => gens.get(index) == table.rows.row(i),
        Origin::Op { op, .. } => {
            let args = step.args.as_slice();
            if !are_smaller(ranks, args, ranks[i as usize]) {
                return false;
            }
            table.operations.apply(op, table.rows, args, scratch);
            scratch.as_slice() == table.rows.row(i)
        }
    }
}

/// The first origin that does not make its row.
pub(crate) fn origins(
    alloc: Global,
    a: &Algebra,
    table: &Table<'_>,
    gens: &Vectors,
    ranks: &[u32],
    list: &[CertStep],
) -> Result<(), CheckError>
    requires table { IsTableOver a.now table.now.operations table.now.rows.now }
    requires ranks { length ranks.now ≡ length table.now.rows.now.items }
    requires few { length list.now < 2 ^ 32 }
    ensures { flaws.Tells (flaws.origins_flaw a.now table.now.rows.now.width gens.now.items table.now.rows.now.items ranks.now list.now) result }
{
    let mut scratch = Scratch::new(alloc, table.rows.width())?;
    let rows = table.rows.len();
    let both = rows.min(list.len() as u32);
    for i in 0..both {
        if !is_made(a, table, gens, ranks, i, &list[i as usize], &mut scratch) {
            return Err(CheckError::Flaw(Flaw::Origin(i)));
        }
    }
    if rows as usize != list.len() {
        return Err(CheckError::Flaw(Flaw::Origin(both)));
    }
    Ok(())
}
