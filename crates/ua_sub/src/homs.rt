//! What the pairs that generators and their images generate tell of a homomorphism.

ghost use Rattle.std.specs.Prelude.{◌≡◌, ◌<◌, ◌^◌, ℕ, length, map, slice_get, Some, IfOk, IfSome, IfNone};
ghost use Rattle.std.specs.List.{AllByRecursion};
ghost use Rattle.ua_table.specs.Algebras.{Vector, IsVector};
ghost use Rattle.ua_table.specs.Counting.{EachOnceBelow};
ghost use Rattle.ua_table.specs.Listings.{vectors_of, ranks_of, IsListing};
ghost use Rattle.ua_work.specs.Goals.{Meets};
ghost use Rattle.ua_sub.specs.Homs.{two, with_images, ClashInOrder, IsFirstPairClash};
ghost use Rattle.ua_sub.specs.inner.Homs.{IsClashOf};
ghost use Rattle.ua_sub.specs.Permitted.{MayMapPairs};

use std::alloc::{AllocError, Global};
use std::thread::Threads;
use thiserror::Error;
use ua_close::reaching::reach;
use ua_close::{CloseError, Goal, Listing, Reach, laws, steps_for};
use ua_table::{Elem, Frame, Gate, Listed, Run, Vectors};
use ua_term::Steps;

/// Whether images of generators go on to a homomorphism of the subalgebra that these generate.
#[derive(Drop, Debug)]
pub enum Hom {
    /// They do: each generated element with its image, ascending.
    Map(Listed<(Elem, Elem)>),
    /// They do not: `element` has the images `first` and `second`, which differ, as values of one term each at
    /// the generators and their images.
    Clash {
        element: Elem,
        first: Elem,
        second: Elem,
        first_steps: Steps,
        second_steps: Steps,
    },
    /// There are more pairs than the budget.
    Exceeds,
}

/// Why it is not told.
#[derive(Clone, Copy, Debug, PartialEq, Eq, Error)]
pub enum HomError {
    #[error("the algebras have different signatures")]
    Signature,
    /// The records of the pairs reach 2^63 or their cells pass the limit; both are told.
    #[error("the pairs are too wide: {records} records, {cells} cells")]
    Wide { records: u128, cells: u128 },
    #[error("out of memory")]
    OutOfMemory,
}

impl From<AllocError> for HomError {
    ghost use Rattle.std.specs.Prelude.{◌≡◌};
    ghost use Rattle.ua_sub.specs.declared.homs.HomError.{HomError};

    ghost from_gives = { λ _ e. e ≡ HomError.OutOfMemory };

    fn from(_: AllocError) -> Self {
        HomError::OutOfMemory
    }
}

/// Each generator with its image, as a vector of two coordinates.
pub(crate) fn with_images(
    alloc: Global,
    gens: &[Elem],
    images: &[Elem],
) -> Result<Vectors, AllocError>
    requires same { length images.now ≡ length gens.now }
    requires few { length gens.now < 2 ^ 32 }
    ensures { IfOk result (λ list. list ≡ record { width = 2; items = with_images gens.now images.now }) }
{
    let mut list = Vectors::new(alloc, 2);
    for i in 0..gens.len() {
        list.add(&[gens[i], images[i]])?;
    }
    Ok(list)
}

/// Row i of a listing of width 2 as a pair.
fn pair_at(list: &Listing, i: u32) -> (Elem, Elem)
    requires row { i < length list.now }
    requires widths { AllByRecursion (λ (v : Vector). length v ≡ 2) (vectors_of list.now) }
    ensures { slice_get (vectors_of list.now) i ≡ Some (two result) }
{
    let row = list.row(i);
    (row[0], row[1])
}

/// The rows of a listing of width 2 as pairs.
fn pairs_of(alloc: Global, list: &Listing) -> Result<Vec<(Elem, Elem)>, AllocError>
    requires { AllByRecursion (λ (v : Vector). length v ≡ 2) (vectors_of list.now) }
    ensures { IfOk result (λ pairs. map two pairs.items ≡ vectors_of list.now) }
{
    let mut pairs = Vec::with_capacity(alloc, list.len() as usize)?;
    for i in 0..list.len() {
        pairs.push(pair_at(list, i))?;
    }
    Ok(pairs)
}

/// The row before this one, by rank, that gives its element another image.
fn earlier_clash(list: &Listing, later: u32) -> Option<u32>
    requires row { later < length list.now }
    requires widths { AllByRecursion (λ (v : Vector). length v ≡ 2) (vectors_of list.now) }
    requires ranks { EachOnceBelow (length list.now) (ranks_of list.now) }
    ensures some { IfSome result (λ earlier. ClashInOrder list.now earlier later) }
    ensures none { IfNone result ((earlier : ℕ) → ¬ ClashInOrder list.now earlier later) }
{
    let (element, image) = pair_at(list, later);
    for rank in 0..list.rank(later) {
        let earlier = list.position(rank);
        let (same, other) = pair_at(list, earlier);
        if same == element && other != image {
            return Some(earlier);
        }
    }
    None
}

/// The rows of the first clash, that of the smaller rank first. The rows before the later one have different
/// elements, so no more than `limits::SIZE` of them are looked at.
fn first_clash(list: &Listing) -> (u32, u32)
    requires widths { AllByRecursion (λ (v : Vector). length v ≡ 2) (vectors_of list.now) }
    requires ranks { EachOnceBelow (length list.now) (ranks_of list.now) }
    requires met { Meets Goal.Clash (vectors_of list.now) }
    ensures { IsFirstPairClash list.now result.0 result.1 }
{
    for rank in 0..list.len() {
        let later = list.position(rank);
        if let Some(earlier) = earlier_clash(list, later) {
            return (earlier, later);
        }
    }
    unreachable!()
}

/// The first clash of a listing, with the steps of its rows.
fn clash_in(
    alloc: Global,
    frame: &Frame,
    pairs: &Vectors,
    list: &Listing,
) -> Result<Hom, AllocError>
    requires widths { AllByRecursion (λ (v : Vector). length v ≡ 2) (vectors_of list.now) }
    requires listing { IsListing frame.now pairs.now.items list.now }
    requires met { Meets Goal.Clash (vectors_of list.now) }
    ensures { IfOk result (IsClashOf frame.now pairs.now.items list.now) }
{
    let (earlier, later) = first_clash(list);
    let first_steps = steps_for(alloc, frame, pairs, list, earlier)?;
    let second_steps = steps_for(alloc, frame, pairs, list, later)?;
    let (element, first) = pair_at(list, earlier);
    let (_, second) = pair_at(list, later);
    Ok(Hom::Clash {
        element,
        first,
        second,
        first_steps,
        second_steps,
    })
}

/// What the pairs generate in a product of two algebras: a map, a clash, or more than the budget.
pub(crate) fn map_pairs<R: Threads + Sync, G: Gate>(
    rt: &R,
    alloc: Global,
    frame: &Frame,
    pairs: &Vectors,
    run: &Run<G>,
) -> Result<Hom, HomError>
    requires width { length frame.now ≡ 2 }
    requires admitted { AllByRecursion (IsVector frame.now) pairs.now.items }
    ensures permitted { MayMapPairs frame.now pairs.now.items run.now.budget run.now.workers result }
{
    laws::kinds();
    // What this call ensures says that a frame is a product.
    let _width = frame.width();
    match reach(rt, alloc, frame, pairs, &Goal::Clash, run) {
        Ok(Reach::Closed(list)) => Ok(Hom::Map(Listed::new(pairs_of(alloc, &list)?))),
        Ok(Reach::Met(list)) => Ok(clash_in(alloc, frame, pairs, &list)?),
        Ok(Reach::Exceeds(_)) => Ok(Hom::Exceeds),
        Err(CloseError::Wide { records, cells }) => Err(HomError::Wide { records, cells }),
        Err(CloseError::OutOfMemory) => Err(HomError::OutOfMemory),
    }
}
