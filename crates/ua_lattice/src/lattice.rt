//! All congruences of an algebra, with their order.

ghost use Rattle.std.specs.Prelude.{◌≤◌, length, IfOk};
ghost use Rattle.std.specs.List.{AllByRecursion};
ghost use Rattle.std.specs.List.Sorted.{IsStrictlySortedBy};
ghost use Rattle.ua_table.specs.declared.limits.TheConstants.{WORKERS};
ghost use Rattle.ua_prod.specs.Congruences.{IsCongruence};
ghost use Rattle.ua_cong.specs.Principals.{HasPrincipals};
ghost use Rattle.ua_lattice.specs.Answers.{IsLatticeOf};
ghost use Rattle.ua_lattice.specs.Lattices.{by_blocks};

use crate::covers::covers_of;
use crate::irreducibles::irreducibles_of;
use crate::joiner::Joiner;
use crate::joins::{Search, identity_found, take_in_all};
use crate::ordering::in_order;
use std::alloc::{AllocError, Global};
use std::thread::Threads;
use ua_cong::distinct_principals;
use ua_part::Part;
use ua_table::{Algebra, Gate, Run};

/// The congruences of an algebra, each once: by number of blocks downwards, and then by the least members
/// of the blocks of 0, 1, and so on.
#[derive(Drop, Debug)]
pub enum Lattice {
    /// All congruences; the pairs of places of which the second covers the first, ascending; and the
    /// places with exactly one lower cover, ascending.
    Whole {
        list: Vec<Part>,
        covers: Vec<(u32, u32)>,
        irreducibles: Vec<u32>,
    },
    /// One congruence more than the budget.
    Exceeds(Vec<Part>),
}

/// The different principal congruences, in order: those of all pairs of elements, or one more than the budget.
fn ordered_principals<R: Threads + Sync>(
    rt: &R,
    alloc: Global,
    a: &Algebra,
    workers: u32,
    budget: u32,
) -> Result<Vec<Part>, AllocError>
    requires some { 1 ≤ workers }
    requires few { workers ≤ WORKERS }
    ensures congruences { IfOk result (λ parts. AllByRecursion (IsCongruence a.now) parts.items) }
    ensures in_order { IfOk result (λ parts. IsStrictlySortedBy by_blocks parts.items) }
    ensures all { IfOk result (λ parts. length parts.items ≤ budget → HasPrincipals a.now parts.items) }
{
    // The size of an algebra is within its limit.
    let _size = a.size();
    let rows = distinct_principals(rt, alloc, a, workers, budget)?;
    in_order(alloc, &rows)
}

/// All congruences of an algebra, where there are no more than the budget of a run.
///
/// All but the principal congruences are joins of these. With n congruences, of which j are principal and no
/// join of others, this takes at most 2nj joins. Only different congruences are kept, and the search ends where
/// they are more than the budget: for principal ones before any join. It takes so little time that the run's
/// workers are not asked. No closure is run, so the gate of the run is not passed.
pub fn congruences<R: Threads + Sync, G: Gate>(
    rt: &R,
    alloc: Global,
    a: &Algebra,
    run: &Run<G>,
) -> Result<Lattice, AllocError>
    ensures { IfOk result (IsLatticeOf a.now run.now.budget) }
{
    let parts = ordered_principals(rt, alloc, a, run.workers, run.budget)?;
    let mut joiner = Joiner::new(alloc, a.size())?;
    let search = Search {
        algebra: a,
        budget: run.budget,
    };
    let mut found = identity_found(alloc, a, &mut joiner)?;
    let whole = take_in_all(alloc, &search, &mut found, &mut joiner, parts.as_slice())?;
    let list = in_order(alloc, &found.rows)?;
    if !whole {
        return Ok(Lattice::Exceeds(list));
    }
    let generators = found.generators.as_slice();
    let covers = covers_of(alloc, &mut joiner, a, list.as_slice(), generators)?;
    let irreducibles = irreducibles_of(alloc, covers.as_slice(), list.len())?;
    Ok(Lattice::Whole {
        list,
        covers,
        irreducibles,
    })
}
