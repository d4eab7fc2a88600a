//! The congruence that pairs generate: elements are united until every unary translation takes united
//! elements to united elements.

ghost use Rattle.std.specs.Prelude.{◌≡◌, ℕ, ◌<◌, ◌≤◌, [], ◌∷◌, ◌++◌, length, slice_index, IfOk, OnOk, IfSome};
ghost use Rattle.std.specs.List.{AllByRecursion};
ghost use Rattle.ua_table.specs.declared.limits.TheConstants.{SIZE};
ghost use Rattle.ua_table.specs.Algebras.{arities_of};
ghost use Rattle.ua_part.specs.Partitions.{SameBlock};
ghost use Rattle.ua_prod.specs.Congruences.{IsCg, IsCongruence, RelatesAll};
ghost use Rattle.ua_cong.specs.Closings.{AreElements};
ghost use Rattle.ua_cong.specs.inner.Closings.{AreForced, AreForcedAlong, AreRelatedAlong, IsCarried, IsCarriedAlong};
ghost use Rattle.ua_cong.specs.Extensions.{IsCgAbove};
ghost use Rattle.ua_cong.specs.inner.Extensions.{led_pairs};
ghost use Rattle.ua_cong.specs.Known.{IsKnown};
ghost use Rattle.ua_cong.specs.inner.Known.{IsPlaceOf};
ghost use Rattle.ua_cong.specs.inner.States.{IsProblem, IsState, GoesOn};

use crate::known::{Known, rank};
use std::alloc::{AllocError, Global};
use ua_part::{DisjointSets, Part};
use ua_prod::Translations;
use ua_table::{Algebra, Elem};

/// An algebra, pairs that are to be related, and principal congruences that are known.
#[derive(Drop)]
struct Problem<'a> {
    algebra: &'a Algebra,
    pairs: &'a [(Elem, Elem)],
    known: &'a Known,
}

/// The sets that are united so far, and pairs that were united and whose translations are still to be.
#[derive(Drop)]
struct Closing {
    sets: DisjointSets,
    work: Vec<(Elem, Elem)>,
}

/// The place of the principal congruence of this pair, the first the lower, if it is known, by one look-up.
fn known_at(algebra: &Algebra, known: &Known, low: Elem, high: Elem) -> Option<u32>
    requires known { IsKnown algebra.now known.now }
    requires order { low < high }
    requires within { high < algebra.now.size }
    ensures { IfSome result (IsPlaceOf algebra.now known.now low high) }
{
    let size = algebra.size() as usize;
    let rank = rank(size, low as usize, high as usize);
    let (first, second, place) = known.pairs.get(rank)?;
    if *first != low || *second != high {
        return None;
    }
    Some(*place)
}

/// The place of the principal congruence of two different elements, if it is known.
pub fn place_of(algebra: &Algebra, known: &Known, x: Elem, y: Elem) -> Option<u32>
    requires known { IsKnown algebra.now known.now }
    requires first { x < algebra.now.size }
    requires second { y < algebra.now.size }
    ensures { IfSome result (IsPlaceOf algebra.now known.now x y) }
{
    if x < y {
        known_at(algebra, known, x, y)
    } else if y < x {
        known_at(algebra, known, y, x)
    } else {
        None
    }
}

/// Relates two elements. Unless they were, their pair is noted as work, or their principal congruence
/// is brought in, if it is known: it has no work left.
fn unite(problem: &Problem, closing: &mut Closing, x: Elem, y: Elem) -> Result<(), AllocError>
    requires problem { IsProblem problem.now }
    requires pair { AreForced problem.now.algebra.now problem.now.pairs.now x y }
    requires closing { IsState problem.now closing.old }
    ensures gone { OnOk result (GoesOn problem.now closing.old closing.new) }
    ensures related { OnOk result (SameBlock closing.new.sets x y) }
{
    if !closing.sets.unite(u32::from(x), u32::from(y)) {
        return Ok(());
    }
    match place_of(problem.algebra, problem.known, x, y) {
        Some(place) => closing.sets.unite_row(problem.known.rows.row(place)),
        None => closing.work.push((x, y))?,
    }
    Ok(())
}

/// Relates two elements, where this costs nothing if they are equal.
fn relate(problem: &Problem, closing: &mut Closing, x: Elem, y: Elem) -> Result<(), AllocError>
    requires problem { IsProblem problem.now }
    requires pair { AreForced problem.now.algebra.now problem.now.pairs.now x y }
    requires closing { IsState problem.now closing.old }
    ensures gone { OnOk result (GoesOn problem.now closing.old closing.new) }
    ensures related { OnOk result (SameBlock closing.new.sets x y) }
{
    if x == y {
        return Ok(());
    }
    unite(problem, closing, x, y)
}

/// Relates the elements at each place of two rows.
fn relate_rows(
    problem: &Problem,
    closing: &mut Closing,
    first: &[Elem],
    second: &[Elem],
) -> Result<(), AllocError>
    requires problem { IsProblem problem.now }
    requires lengths { length first.now ≡ length second.now }
    requires pairs { AreForcedAlong problem.now.algebra.now problem.now.pairs.now first.now second.now }
    requires closing { IsState problem.now closing.old }
    ensures gone { OnOk result (GoesOn problem.now closing.old closing.new) }
    ensures related { OnOk result (AreRelatedAlong closing.new.sets first.now second.now) }
{
    for k in 0..first.len() {
        relate(problem, closing, first[k], second[k])?;
    }
    Ok(())
}

/// Relates the results of an operation at two elements at one place, for all other arguments.
fn relate_along(
    problem: &Problem,
    closing: &mut Closing,
    op: u32,
    place: u8,
    x: Elem,
    y: Elem,
) -> Result<(), AllocError>
    requires problem { IsProblem problem.now }
    requires operation { op < length (arities_of problem.now.algebra.now) }
    requires place { place < slice_index (arities_of problem.now.algebra.now) op }
    requires pair { AreForced problem.now.algebra.now problem.now.pairs.now x y }
    requires closing { IsState problem.now closing.old }
    ensures gone { OnOk result (GoesOn problem.now closing.old closing.new) }
    ensures carried { OnOk result (IsCarriedAlong problem.now.algebra.now closing.new.sets op place x y) }
{
    let translations = Translations::new(problem.algebra.op(op), place);
    for front in 0..translations.fronts() {
        let first = translations.row(front, x);
        let second = translations.row(front, y);
        relate_rows(problem, closing, first, second)?;
    }
    Ok(())
}

/// Relates the results of an operation at two elements, at each of its places.
fn relate_results(
    problem: &Problem,
    closing: &mut Closing,
    op: u32,
    x: Elem,
    y: Elem,
) -> Result<(), AllocError>
    requires problem { IsProblem problem.now }
    requires operation { op < length (arities_of problem.now.algebra.now) }
    requires pair { AreForced problem.now.algebra.now problem.now.pairs.now x y }
    requires closing { IsState problem.now closing.old }
    ensures gone { OnOk result (GoesOn problem.now closing.old closing.new) }
    ensures carried { OnOk result ((place : ℕ) → place < slice_index (arities_of problem.now.algebra.now) op → IsCarriedAlong problem.now.algebra.now closing.new.sets op place x y) }
{
    for place in 0..problem.algebra.op(op).arity() {
        relate_along(problem, closing, op, place, x, y)?;
    }
    Ok(())
}

/// Relates the results of all operations at two elements.
fn carry(problem: &Problem, closing: &mut Closing, x: Elem, y: Elem) -> Result<(), AllocError>
    requires problem { IsProblem problem.now }
    requires pair { AreForced problem.now.algebra.now problem.now.pairs.now x y }
    requires closing { IsState problem.now closing.old }
    ensures gone { OnOk result (GoesOn problem.now closing.old closing.new) }
    ensures carried { OnOk result (IsCarried problem.now.algebra.now closing.new.sets (x, y)) }
{
    for op in 0..problem.algebra.ops().len() as u32 {
        relate_results(problem, closing, op, x, y)?;
    }
    Ok(())
}

/// Carries each pair of the work, and the pairs that this adds.
fn carry_all(problem: &Problem, closing: &mut Closing) -> Result<(), AllocError>
    requires problem { IsProblem problem.now }
    requires closing { IsState problem.now closing.old }
    ensures gone { OnOk result (GoesOn problem.now closing.old closing.new) }
    ensures carried { OnOk result (AllByRecursion (IsCarried problem.now.algebra.now closing.new.sets) closing.new.work.items) }
{
    let mut next = 0;
    while next < closing.work.len() {
        let (x, y) = closing.work[next];
        carry(problem, closing, x, y)?;
        next += 1;
    }
    Ok(())
}

/// Relates the pairs.
fn relate_pairs(problem: &Problem, closing: &mut Closing) -> Result<(), AllocError>
    requires problem { IsProblem problem.now }
    requires pairs { AllByRecursion (AreElements problem.now.algebra.now) problem.now.pairs.now }
    requires closing { IsState problem.now closing.old }
    ensures closing { OnOk result (IsState problem.now closing.new) }
    ensures related { OnOk result (RelatesAll closing.new.sets problem.now.pairs.now) }
{
    for i in 0..problem.pairs.len() {
        let (x, y) = problem.pairs[i];
        relate(problem, closing, x, y)?;
    }
    Ok(())
}

/// The blocks of the least congruence that relates the pairs, where these principal congruences are known.
pub fn cg_sets(
    alloc: Global,
    algebra: &Algebra,
    pairs: &[(Elem, Elem)],
    known: &Known,
) -> Result<DisjointSets, AllocError>
    requires pairs { AllByRecursion (AreElements algebra.now) pairs.now }
    requires known { IsKnown algebra.now known.now }
    ensures { IfOk result (IsCg algebra.now pairs.now) }
{
    let problem = Problem {
        algebra,
        pairs,
        known,
    };
    let mut closing = Closing {
        sets: DisjointSets::new(alloc, algebra.size())?,
        work: Vec::new(alloc),
    };
    relate_pairs(&problem, &mut closing)?;
    carry_all(&problem, &mut closing)?;
    Ok(closing.sets)
}

/// The least congruence that relates the pairs, in a time that is at most that of reading each table
/// once for each of its places and each block fewer.
pub fn cg(alloc: Global, a: &Algebra, pairs: &[(Elem, Elem)]) -> Result<Part, AllocError>
    requires { AllByRecursion (AreElements a.now) pairs.now }
    ensures { IfOk result (IsCg a.now pairs.now) }
{
    let known = Known::new(alloc, a.size());
    let sets = cg_sets(alloc, a, pairs, &known)?;
    Ok(sets.into_part())
}

/// Each element with the least member of its block, and then one pair more.
fn pairs_above(alloc: Global, p: &Part, x: Elem, y: Elem) -> Result<Vec<(Elem, Elem)>, AllocError>
    requires { length p.now ≤ SIZE }
    ensures { IfOk result (λ pairs. pairs.items ≡ led_pairs p.now ++ (x, y) ∷ []) }
{
    let mut pairs = Vec::with_capacity(alloc, p.size() as usize + 1)?;
    for b in 0..p.size() {
        pairs.push((b as Elem, p.rep(b) as Elem))?;
    }
    pairs.push((x, y))?;
    Ok(pairs)
}

/// The blocks of the least congruence above this one that relates two elements, where these principal
/// congruences are known. What this one relates has no work left.
pub fn sets_above(
    alloc: Global,
    a: &Algebra,
    p: Part,
    x: Elem,
    y: Elem,
    known: &Known,
) -> Result<DisjointSets, AllocError>
    requires congruence { IsCongruence a.now p }
    requires known { IsKnown a.now known.now }
    requires first { x < a.now.size }
    requires second { y < a.now.size }
    ensures { IfOk result (IsCgAbove a.now p x y) }
{
    // The size of an algebra is within its limit.
    let _size = a.size();
    let pairs = pairs_above(alloc, &p, x, y)?;
    let problem = Problem {
        algebra: a,
        pairs: pairs.as_slice(),
        known,
    };
    let mut closing = Closing {
        sets: DisjointSets::of(p),
        work: Vec::new(alloc),
    };
    relate_pairs(&problem, &mut closing)?;
    carry_all(&problem, &mut closing)?;
    Ok(closing.sets)
}

/// The least congruence above this one that relates two elements.
pub fn cg_above(alloc: Global, a: &Algebra, p: Part, x: Elem, y: Elem) -> Result<Part, AllocError>
    requires congruence { IsCongruence a.now p }
    requires first { x < a.now.size }
    requires second { y < a.now.size }
    ensures { IfOk result (IsCgAbove a.now p x y) }
{
    let known = Known::new(alloc, a.size());
    Ok(sets_above(alloc, a, p, x, y, &known)?.into_part())
}
