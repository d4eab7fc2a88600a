//! The elements that elements of an algebra generate.

ghost use Rattle.std.specs.Prelude.{◌≡◌, ◌<◌, ◌^◌, [], ◌∷◌, length, IfOk};
ghost use Rattle.std.specs.List.{AllByRecursion};
ghost use Rattle.ua_table.specs.Algebras.{Vector};
ghost use Rattle.ua_table.specs.Listings.{vectors_of};
ghost use Rattle.ua_sub.specs.Members.{singles, contents, AreMembers, AreOnes};
ghost use Rattle.ua_sub.specs.inner.Twins.{AreOnesBelow};

use crate::twins::{Question, twin};
use std::alloc::{AllocError, Global};
use std::slice;
use std::thread::Threads;
use ua_close::{CloseError, Closure, Listing, close_set, laws};
use ua_table::limits::SIZE;
use ua_table::{Algebra, Elem, Frame, Gate, Listed, Run, Vectors};

/// The vectors of one coordinate with these entries.
fn singles(alloc: Global, elements: &[Elem]) -> Result<Vectors, AllocError>
    requires { length elements.now < 2 ^ 32 }
    ensures { IfOk result (λ list. list ≡ record { width = 1; items = singles elements.now }) }
{
    let mut list = Vectors::new(alloc, 1);
    for x in elements {
        list.add(slice::from_ref(x))?;
    }
    Ok(list)
}

/// The entries of the rows of a listing of width 1.
fn entries(alloc: Global, list: &Listing) -> Result<Vec<Elem>, AllocError>
    requires { AllByRecursion (λ (v : Vector). length v ≡ 1) (vectors_of list.now) }
    ensures { IfOk result (λ members. singles members.items ≡ vectors_of list.now) }
{
    let mut members = Vec::with_capacity(alloc, list.len() as usize)?;
    for i in 0..list.len() {
        members.push(list.row(i)[0])?;
    }
    Ok(members)
}

/// The elements that these generate, ascending. No more than `limits::SIZE` can be, so the budget of the run
/// does not matter.
pub fn sub<R: Threads + Sync, G: Gate>(
    rt: &R,
    alloc: Global,
    algebra: &Algebra,
    gens: &[Elem],
    run: &Run<G>,
) -> Result<Vec<Elem>, AllocError>
    requires elements { AllByRecursion (λ x. x < algebra.now.size) gens.now }
    requires few { length gens.now < 2 ^ 32 }
    ensures { IfOk result (λ members. AreMembers algebra.now gens.now members.items) }
{
    let Ok(line) = Frame::power(algebra, 1) else {
        unreachable!()
    };
    let Some(run) = Run::new(SIZE, run.workers, run.gate) else {
        unreachable!()
    };
    let vectors = singles(alloc, gens)?;
    laws::kinds();
    match close_set(rt, alloc, &line, &vectors, &run) {
        Ok(Closure::Closed(rows)) => entries(alloc, &rows),
        Ok(Closure::Exceeds(_)) => unreachable!(),
        Err(CloseError::Wide { .. }) => unreachable!(),
        Err(CloseError::OutOfMemory) => Err(AllocError),
    }
}

/// What an element generates, where what each lower one does is listed. It is copied from the list where one
/// that generates the same turns up.
fn one<R: Threads + Sync, G: Gate>(
    rt: &R,
    alloc: Global,
    algebra: &Algebra,
    lists: &[Vec<Elem>],
    x: Elem,
    run: &Run<G>,
) -> Result<Vec<Elem>, AllocError>
    requires element { x < algebra.now.size }
    requires lists { AreOnesBelow algebra.now x (contents lists.now) }
    ensures { IfOk result (λ members. AreMembers algebra.now (x ∷ []) members.items) }
{
    let question = Question {
        algebra,
        lists,
        element: x,
    };
    match twin(alloc, &question)? {
        Some(y) => Vec::from_slice(alloc, lists[y as usize].as_slice()),
        None => sub(rt, alloc, algebra, &[x], run),
    }
}

/// What each element alone generates, in order. Where an element is found to generate an earlier one that
/// generates it, the list of that one is copied.
pub fn ones<R: Threads + Sync, G: Gate>(
    rt: &R,
    alloc: Global,
    algebra: &Algebra,
    run: &Run<G>,
) -> Result<Vec<Vec<Elem>>, AllocError>
    ensures { IfOk result (λ lists. AreOnes algebra.now (contents lists.items)) }
{
    let mut lists = Vec::with_capacity(alloc, algebra.size() as usize)?;
    for x in 0..algebra.size() {
        let members = one(rt, alloc, algebra, lists.as_slice(), x as Elem, run)?;
        lists.push(members)?;
    }
    Ok(lists)
}
