//! The calls that look for least chains.

ghost use Rattle.ua_identity.specs.Kinds as kinds;
ghost use Rattle.ua_chain.specs.Names.{kind_named};
ghost use Rattle.ua_chain.specs.Permitted.{MayChain};

use crate::chains::{Chain, chain_in};
use crate::vectors::generators;
use std::alloc::Global;
use std::thread::Threads;
use ua_close::{CloseError, Closure, Gate, Run, close_set};
use ua_identity::Kind;
use ua_table::Algebra;

/// A kind of chain that has a name.
#[derive(Clone, Copy, Debug, PartialEq, Eq)]
pub enum NamedKind {
    Jonsson,
    HagemannMitschke,
    Day,
}

/// A chain of least length of this kind, over all lists of terms. It closes the vectors of the terms on the
/// patterns of the kind, within the budget of the run, and then goes level by level over their rows.
///
/// A link leads from a row to all rows with the same entries at a pattern, which are found by one look-up: past
/// the closure the time is that of so many look-ups and of the rows.
pub fn least_chain<R: Threads + Sync, G: Gate>(
    rt: &R,
    alloc: Global,
    a: &Algebra,
    kind: &Kind,
    run: &Run<G>,
) -> Result<Chain, CloseError>
    ensures permitted { MayChain a.now kind.now run.now.budget run.now.workers result }
{
    let (frame, gens) = generators(alloc, a, kind, run.budget)?;
    match close_set(rt, alloc, &frame, &gens, run)? {
        Closure::Closed(list) => Ok(chain_in(alloc, a, kind, &frame, &gens, list)?),
        Closure::Exceeds(list) => Ok(Chain::Exceeds(list)),
    }
}

/// A chain of Jónsson terms of least length (B. Jónsson, Algebras whose congruence lattices are distributive,
/// 1967).
pub fn jonsson<R: Threads + Sync, G: Gate>(
    rt: &R,
    alloc: Global,
    a: &Algebra,
    run: &Run<G>,
) -> Result<Chain, CloseError>
    ensures permitted { MayChain a.now kinds.jonsson run.now.budget run.now.workers result }
{
    let kind = Kind::jonsson(alloc)?;
    least_chain(rt, alloc, a, &kind, run)
}

/// A chain of Hagemann-Mitschke terms of least length (J. Hagemann and A. Mitschke, On n-permutable
/// congruences, 1973).
pub fn hagemann_mitschke<R: Threads + Sync, G: Gate>(
    rt: &R,
    alloc: Global,
    a: &Algebra,
    run: &Run<G>,
) -> Result<Chain, CloseError>
    ensures permitted { MayChain a.now kinds.hagemann_mitschke run.now.budget run.now.workers result }
{
    let kind = Kind::hagemann_mitschke(alloc)?;
    least_chain(rt, alloc, a, &kind, run)
}

/// A chain of Day terms of least length (A. Day, A characterization of modularity for congruence lattices of
/// algebras, 1969).
pub fn day<R: Threads + Sync, G: Gate>(
    rt: &R,
    alloc: Global,
    a: &Algebra,
    run: &Run<G>,
) -> Result<Chain, CloseError>
    ensures permitted { MayChain a.now kinds.day run.now.budget run.now.workers result }
{
    let kind = Kind::day(alloc)?;
    least_chain(rt, alloc, a, &kind, run)
}

/// A chain of least length of the kind of this name.
pub fn named_chain<R: Threads + Sync, G: Gate>(
    rt: &R,
    alloc: Global,
    a: &Algebra,
    name: NamedKind,
    run: &Run<G>,
) -> Result<Chain, CloseError>
    ensures permitted { MayChain a.now (kind_named name) run.now.budget run.now.workers result }
{
    match name {
        NamedKind::Jonsson => jonsson(rt, alloc, a, run),
        NamedKind::HagemannMitschke => hagemann_mitschke(rt, alloc, a, run),
        NamedKind::Day => day(rt, alloc, a, run),
    }
}
