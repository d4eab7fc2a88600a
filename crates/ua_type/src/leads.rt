//! Pairs that are known to generate one pair, since a translation takes them to it or to another of them.

ghost use Rattle.std.specs.Prelude.{◌≡◌, ℕ, ◌<◌, length, slice_index, IsTrue, IfOk};
ghost use Rattle.std.specs.List.{AllByRecursion};
ghost use Rattle.ua_table.specs.Algebras.{arities_of};
ghost use Rattle.ua_type.specs.Subtraces.{Generates};
ghost use Rattle.ua_type.specs.inner.Marks.{AreMarks, HasMarkedPlace, ReachesMark, ArePairRows};

use crate::marks::Marks;
use std::alloc::{AllocError, Global};
use ua_close::Listing;
use ua_prod::Translations;
use ua_table::{Algebra, Elem};

/// Whether the entries of two rows are a marked pair at some place.
fn meet(marks: &Marks, firsts: &[Elem], seconds: &[Elem]) -> bool
    requires lengths { length seconds.now ≡ length firsts.now }
    requires firsts { AllByRecursion (λ v. v < marks.now.size) firsts.now }
    requires seconds { AllByRecursion (λ v. v < marks.now.size) seconds.now }
    ensures { IsTrue result → HasMarkedPlace marks.now firsts.now seconds.now }
{
    for k in 0..firsts.len() {
        if marks.has((firsts[k], seconds[k])) {
            return true;
        }
    }
    false
}

/// Whether an operation takes a pair at one place, for some other arguments, to a marked pair.
fn reaches_along(b: &Algebra, marks: &Marks, op: u32, place: u8, pair: (Elem, Elem)) -> bool
    requires size { marks.now.size ≡ b.now.size }
    requires operation { op < length (arities_of b.now) }
    requires place { place < slice_index (arities_of b.now) op }
    requires first { pair.0 < b.now.size }
    requires second { pair.1 < b.now.size }
    ensures { IsTrue result → ReachesMark b.now marks.now pair }
{
    let translations = Translations::new(b.op(op), place);
    for front in 0..translations.fronts() {
        let firsts = translations.row(front, pair.0);
        let seconds = translations.row(front, pair.1);
        if meet(marks, firsts, seconds) {
            return true;
        }
    }
    false
}

/// Whether an operation takes a pair at some place to a marked pair.
fn reaches_by(b: &Algebra, marks: &Marks, op: u32, pair: (Elem, Elem)) -> bool
    requires size { marks.now.size ≡ b.now.size }
    requires operation { op < length (arities_of b.now) }
    requires first { pair.0 < b.now.size }
    requires second { pair.1 < b.now.size }
    ensures { IsTrue result → ReachesMark b.now marks.now pair }
{
    for place in 0..b.op(op).arity() {
        if reaches_along(b, marks, op, place, pair) {
            return true;
        }
    }
    false
}

/// Whether a translation takes a pair to a marked pair.
fn reaches(b: &Algebra, marks: &Marks, pair: (Elem, Elem)) -> bool
    requires size { marks.now.size ≡ b.now.size }
    requires first { pair.0 < b.now.size }
    requires second { pair.1 < b.now.size }
    ensures { IsTrue result → ReachesMark b.now marks.now pair }
{
    for op in 0..b.ops().len() as u32 {
        if reaches_by(b, marks, op, pair) {
            return true;
        }
    }
    false
}

/// Whether a pair is marked, or a translation takes it to a marked pair.
pub fn is_known(b: &Algebra, marks: &Marks, pair: (Elem, Elem)) -> bool
    requires size { marks.now.size ≡ b.now.size }
    requires first { pair.0 < b.now.size }
    requires second { pair.1 < b.now.size }
    ensures { (target : ℕ × ℕ) → AreMarks b.now target marks.now → IsTrue result → Generates b.now pair.0 pair.1 target.0 target.1 }
{
    marks.has(pair) || reaches(b, marks, pair)
}

/// Marks a pair, if a translation takes it to a marked pair. It answers whether it marked one.
fn extend(b: &Algebra, marks: &mut Marks, pair: (Elem, Elem)) -> bool
    requires size { marks.old.size ≡ b.now.size }
    requires first { pair.0 < b.now.size }
    requires second { pair.1 < b.now.size }
    ensures size { marks.new.size ≡ b.now.size }
    ensures marks { (target : ℕ × ℕ) → AreMarks b.now target marks.old → AreMarks b.now target marks.new }
{
    if marks.has(pair) || !reaches(b, marks, pair) {
        return false;
    }
    marks.put(pair);
    true
}

/// Marks those pairs of a list that translations take to marked pairs, in one pass. It answers whether there
/// was one.
fn sweep(b: &Algebra, list: &Listing, marks: &mut Marks) -> bool
    requires size { marks.old.size ≡ b.now.size }
    requires pairs { ArePairRows b.now list.now }
    ensures size { marks.new.size ≡ b.now.size }
    ensures marks { (target : ℕ × ℕ) → AreMarks b.now target marks.old → AreMarks b.now target marks.new }
{
    let mut grows = false;
    for i in 0..list.len() {
        let row = list.row(i);
        if extend(b, marks, (row[0], row[1])) {
            grows = true;
        }
    }
    grows
}

/// A mark on a pair alone, which generates itself.
fn first_mark(alloc: Global, b: &Algebra, pair: (Elem, Elem)) -> Result<Marks, AllocError>
    requires first { pair.0 < b.now.size }
    requires second { pair.1 < b.now.size }
    ensures { IfOk result (AreMarks b.now pair) }
{
    let mut marks = Marks::new(alloc, b.size() as usize)?;
    marks.put(pair);
    Ok(marks)
}

/// A pair, and those of a list from which translations lead to it.
pub fn marks_to(
    alloc: Global,
    b: &Algebra,
    pair: (Elem, Elem),
    list: &Listing,
) -> Result<Marks, AllocError>
    requires first { pair.0 < b.now.size }
    requires second { pair.1 < b.now.size }
    requires pairs { ArePairRows b.now list.now }
    ensures { IfOk result (AreMarks b.now pair) }
{
    let mut marks = first_mark(alloc, b, pair)?;
    for _ in 0..list.len() {
        if !sweep(b, list, &mut marks) {
            return Ok(marks);
        }
    }
    Ok(marks)
}

/// Marks a pair that generates what the marked ones do.
pub fn mark(b: &Algebra, marks: &mut Marks, pair: (Elem, Elem))
    requires size { marks.old.size ≡ b.now.size }
    requires first { pair.0 < b.now.size }
    requires second { pair.1 < b.now.size }
    ensures { (target : ℕ × ℕ) → AreMarks b.now target marks.old → Generates b.now pair.0 pair.1 target.0 target.1 → AreMarks b.now target marks.new }
{
    marks.put(pair);
}
