//! The call whose name differs from a type's in case alone.

ghost use Rattle.std.specs.Prelude.{◌≡◌, ◌<◌, ◌^◌, length, IfOk};
ghost use Rattle.std.specs.List.{AllByRecursion};
ghost use Rattle.ua_sub.specs.Homs.{both};
ghost use Rattle.ua_sub.specs.Permitted.{MayMap};

use crate::homs::{Hom, HomError, map_pairs, with_images};
use std::alloc::{AllocError, Global};
use std::thread::Threads;
use ua_table::{Algebra, Elem, Frame, Gate, Run};

/// Two algebras in one list, which a frame borrows.
fn copies(alloc: Global, a: &Algebra, b: &Algebra) -> Result<Vec<Algebra>, AllocError>
    ensures { IfOk result (λ algebras. algebras.items ≡ both a.now b.now) }
{
    let mut algebras = Vec::with_capacity(alloc, 2)?;
    algebras.push(a.copy(alloc)?)?;
    algebras.push(b.copy(alloc)?)?;
    Ok(algebras)
}

/// Whether the images of generators go on to a homomorphism of the subalgebra of `a` that these generate, to
/// `b`: whether the pairs of a generator and its image generate the graph of a function, within the budget of
/// the run.
///
/// Within the budget the answer is exact. Beyond it a clash may or may not be found, by which pairs are found
/// first. With one worker it is the first that its listing has.
pub fn hom<R: Threads + Sync, G: Gate>(
    rt: &R,
    alloc: Global,
    a: &Algebra,
    b: &Algebra,
    gens: &[Elem],
    images: &[Elem],
    run: &Run<G>,
) -> Result<Hom, HomError>
    requires elements { AllByRecursion (λ x. x < a.now.size) gens.now }
    requires images { AllByRecursion (λ x. x < b.now.size) images.now }
    requires same { length images.now ≡ length gens.now }
    requires few { length gens.now < 2 ^ 32 }
    ensures permitted { MayMap a.now b.now gens.now images.now run.now.budget run.now.workers result }
{
    if !b.same_signature(a) {
        return Err(HomError::Signature);
    }
    let algebras = copies(alloc, a, b)?;
    let Ok(frame) = Frame::mixed(algebras.as_slice(), [0, 1].to_vec(alloc)?) else {
        unreachable!()
    };
    let pairs = with_images(alloc, gens, images)?;
    map_pairs(rt, alloc, &frame, &pairs, run)
}
