//! Series of congruences, member by member.

ghost use Rattle.std.specs.Prelude.{◌≡◌, ◌≢◌, ◌<◌, [], ◌∷◌, ◌++◌, length, IfOk, IsTrue, IsFalse};
ghost use Rattle.ua_part.specs.Partitions.{full_on};
ghost use Rattle.ua_prod.specs.Congruences.{IsCongruence};
ghost use Rattle.ua_comm.specs.declared.members.Kind.{Kind};
ghost use Rattle.ua_comm.specs.Series.{partner, last_member};
ghost use Rattle.ua_comm.specs.Permitted.{MayCommute, MayDescend};

use crate::commutators::{Comm, commutator};
use std::alloc::{AllocError, Global};
use std::thread::Threads;
use ua_close::{CloseError, Gate, Run};
use ua_part::Part;
use ua_table::Algebra;

/// Which series of commutators: each member d is followed by [d,d], or by [1,d].
#[derive(Clone, Copy, Debug, PartialEq, Eq)]
pub enum Kind {
    Derived,
    Lower,
}

/// A series of congruences, from the full one down.
#[derive(Drop, Debug)]
pub enum Series {
    /// It ends at the first member that its successor equals.
    Whole(Vec<Part>),
    /// The members before a commutator with more matrices than the budget.
    Exceeds(Vec<Part>),
}

/// Appends the successor of the last member, unless it is that member again.
fn append(members: &mut Vec<Part>, next: Part) -> Result<bool, AllocError>
    requires { 0 < length members.old.items }
    ensures goes_on { IfOk result (λ more. IsTrue more → members.new.items ≡ members.old.items ++ next ∷ []) }
    ensures differs { IfOk result (λ more. IsTrue more → last_member members.old.items ≢ next) }
    ensures ends { IfOk result (λ more. IsFalse more → last_member members.old.items ≡ next) }
    ensures kept { IfOk result (λ more. IsFalse more → members.new.items ≡ members.old.items) }
{
    let last = &members[members.len() - 1];
    if last.leaders() == next.leaders() {
        return Ok(false);
    }
    members.push(next)?;
    Ok(true)
}

/// The successor of a member of a series, whose first member is the full congruence.
fn successor<R: Threads + Sync, G: Gate>(
    rt: &R,
    alloc: Global,
    a: &Algebra,
    kind: Kind,
    full: &Part,
    last: &Part,
    run: &Run<G>,
) -> Result<Comm, CloseError>
    requires full { full.now ≡ full_on a.now.size }
    requires last { IsCongruence a.now last.now }
    ensures { MayCommute a.now (partner a.now kind last.now) last.now run.now.budget result }
{
    // What this call ensures says that the full partition is a congruence.
    let _size = a.size();
    match kind {
        Kind::Derived => commutator(rt, alloc, a, last, last, run),
        Kind::Lower => commutator(rt, alloc, a, full, last, run),
    }
}

/// The first member of a series, in a list of its own.
fn beginning(alloc: Global, full: &Part) -> Result<Vec<Part>, AllocError>
    ensures { IfOk result (λ members. members.items ≡ full.now ∷ []) }
{
    let mut members = Vec::new(alloc);
    members.push(full.copy(alloc)?)?;
    Ok(members)
}

/// The series of this kind.
fn members_of<R: Threads + Sync, G: Gate>(
    rt: &R,
    alloc: Global,
    a: &Algebra,
    kind: Kind,
    full: &Part,
    run: &Run<G>,
) -> Result<Series, CloseError>
    requires { full.now ≡ full_on a.now.size }
    ensures { MayDescend a.now kind run.now.budget result }
{
    // What this call ensures says that the members are congruences.
    let _size = a.size();
    let mut members = beginning(alloc, full)?;
    'members: loop {
        let last = &members[members.len() - 1];
        let Comm::Whole(next) = successor(rt, alloc, a, kind, full, last, run)? else {
            return Ok(Series::Exceeds(members));
        };
        if !append(&mut members, next)? {
            return Ok(Series::Whole(members));
        }
    }
}

/// The derived series, from the full congruence down: each member d is followed by [d,d], within the budget of
/// the run for each.
pub fn derived_series<R: Threads + Sync, G: Gate>(
    rt: &R,
    alloc: Global,
    a: &Algebra,
    run: &Run<G>,
) -> Result<Series, CloseError>
    ensures permitted { MayDescend a.now Kind.Derived run.now.budget result }
{
    let full = Part::full(alloc, a.size())?;
    members_of(rt, alloc, a, Kind::Derived, &full, run)
}

/// The lower series, from the full congruence 1 down: each member d is followed by [1,d], within the budget of
/// the run for each.
pub fn lower_series<R: Threads + Sync, G: Gate>(
    rt: &R,
    alloc: Global,
    a: &Algebra,
    run: &Run<G>,
) -> Result<Series, CloseError>
    ensures permitted { MayDescend a.now Kind.Lower run.now.budget result }
{
    let full = Part::full(alloc, a.size())?;
    members_of(rt, alloc, a, Kind::Lower, &full, run)
}
