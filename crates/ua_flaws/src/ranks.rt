//! Ranks and origins of rows.

ghost use Rattle.std.specs.Prelude.{◌≡◌, ◌<◌, ◌^◌, ◌&&◌, ◌||◌, nat_lt, true, false, min, not, length, set, slice_index, slice_index_or};
ghost use Rattle.std.specs.List.{AllByRecursion, list_all};
ghost use Rattle.ua_flaws.specs.Flaws as flaws;

use crate::flaws::{CheckError, Flaw};
use std::alloc::Global;
use ua_table::Listed;

/// Whether a number is below how many marks there are, and not marked yet; then it is marked.
fn mark(marks: &mut Vec<bool>, rank: u32) -> bool
    ensures fresh { result ≡ (nat_lt rank (length marks.old.items) && not (slice_index_or marks.old.items rank false)) }
    ensures marked { result ≡ true → marks.new.items ≡ set marks.old.items rank true }
{
    let place = rank as usize;
    if place >= marks.len() || marks[place] {
        return false;
    }
    marks[place] = true;
    true
}

/// The first rank that is not one of the numbers below how many rows there are, or stands before.
pub(crate) fn ranks(alloc: Global, rows: &[Listed<u32>], ranks: &[u32]) -> Result<(), CheckError>
    requires rows { length rows.now < 2 ^ 32 }
    requires ranks { length ranks.now < 2 ^ 32 }
    ensures { flaws.Tells (flaws.ranks_flaw rows.now ranks.now) result }
{
    let mut marks = vec![in alloc; false; rows.len()]?;
    let both = rows.len().min(ranks.len());
    for i in 0..both {
        if !mark(&mut marks, ranks[i]) {
            return Err(CheckError::Flaw(Flaw::Rank(i as u32)));
        }
    }
    if rows.len() != ranks.len() {
        return Err(CheckError::Flaw(Flaw::Rank(both as u32)));
    }
    Ok(())
}

/// Whether each of some rows has a smaller rank than another.
pub(crate) fn are_smaller(ranks: &[u32], rows: &[u32], rank: u32) -> bool
    requires { AllByRecursion (λ x. x < length ranks.now) rows.now }
    ensures { result ≡ list_all (λ x. nat_lt (slice_index ranks.now x) rank) rows.now }
{
    for i in 0..rows.len() {
        if ranks[rows[i] as usize] >= rank {
            return false;
        }
    }
    true
}
