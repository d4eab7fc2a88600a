//! Whether a map is a homomorphism, and where it is none.

ghost use Rattle.std.specs.Prelude.{◌≡◌, ◌<◌, ◌↔◌, length, slice_index, IsOk, IfErr, IfSome, IfNone};
ghost use Rattle.std.specs.List.{AllByRecursion};
ghost use Rattle.ua_table.specs.Algebras.{signature, arities_of, numeral};
ghost use Rattle.ua_sub.specs.Flaws.{images_of, IsHom, IsFirstFlaw};
ghost use Rattle.ua_sub.specs.inner.Searches.{IsFirstOf, NoFlawOf};

use ua_table::{Algebra, Elem, OpTable, next_tuple};

/// Arguments of an operation at which a map does not go with it: the image of the value is not the value at the
/// images. The places of `args` past the arity hold 0.
#[derive(Clone, Copy, Debug, PartialEq, Eq)]
pub struct HomFlaw {
    pub op: u32,
    pub args: [Elem; 4],
}

/// The value of an operation at the images of these elements.
fn value_at_images(table: &OpTable, images: &[Elem], args: &[Elem]) -> Elem
    requires count { length args.now ≡ table.now.arity }
    requires below { AllByRecursion (λ x. x < length images.now) args.now }
    requires images { AllByRecursion (λ x. x < table.now.size) images.now }
    ensures { result ≡ slice_index table.now.values (numeral table.now.size (images_of images.now args.now)) }
{
    let mut list = [0; 4];
    for place in 0..usize::from(table.arity()) {
        list[place] = images[usize::from(args[place])];
    }
    table.value(&list[..args.len()])
}

/// The first flaw of an operation.
fn first_flaw_of(a: &Algebra, b: &Algebra, images: &[Elem], op: u32) -> Option<HomFlaw>
    requires similar { signature b.now ≡ signature a.now }
    requires count { length images.now ≡ a.now.size }
    requires below { AllByRecursion (λ x. x < b.now.size) images.now }
    requires operation { op < length (arities_of a.now) }
    ensures some { IfSome result (IsFirstOf a.now b.now images.now op) }
    ensures none { IfNone result (NoFlawOf a.now b.now images.now op) }
{
    let table = a.op(op);
    let other = b.op(op);
    let count = usize::from(table.arity());
    let mut args = [0; 4];
    for value in table.values() {
        if images[usize::from(*value)] != value_at_images(other, images, &args[..count]) {
            return Some(HomFlaw { op, args });
        }
        next_tuple(&mut args[..count], table.size());
    }
    None
}

/// Whether a map from `a` to `b`, given by the image of each element in order, is a homomorphism, or the first
/// flaw, in order of operation and then of arguments (S. Burris and H. P. Sankappanavar, A Course in Universal
/// Algebra, chapter II, on homomorphisms). It takes no memory. The time is that of reading each table of `a` once.
pub fn is_hom(a: &Algebra, b: &Algebra, images: &[Elem]) -> Result<(), HomFlaw>
    requires similar { signature b.now ≡ signature a.now }
    requires count { length images.now ≡ a.now.size }
    requires below { AllByRecursion (λ x. x < b.now.size) images.now }
    ensures ok { IsOk result ↔ IsHom a.now b.now images.now }
    ensures first { IfErr result (IsFirstFlaw a.now b.now images.now) }
{
    for op in 0..a.ops().len() as u32 {
        if let Some(flaw) = first_flaw_of(a, b, images, op) {
            return Err(flaw);
        }
    }
    Ok(())
}
