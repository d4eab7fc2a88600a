//! The vectors of a certificate.

ghost use Rattle.std.specs.Prelude.{◌≡◌, ◌<◌, ◌^◌, length, IsOk, IfOk};
ghost use Rattle.std.specs.List.{AllByRecursion};
ghost use Rattle.std.specs.Result.{result_err};
ghost use Rattle.ua_table.specs.declared.limits.TheConstants.{SIZE};
ghost use Rattle.ua_table.specs.Algebras.{Vector};
ghost use Rattle.ua_flaws.specs.Shapes as shapes;
ghost use Rattle.ua_flaws.specs.Flaws.{vectors_flaw};

use crate::flaws::{Flaw, ListName};
use crate::numbers::{are_below, has_length};
use std::alloc::{AllocError, Global};
use ua_table::{Elem, Listed, Vectors};

/// Whether a list has this length, and numbers below the size alone.
fn is_vector(size: u32, width: u32, v: &[u32]) -> bool
    ensures { result ≡ shapes.is_vector size width v.now }
{
    has_length(v, width as usize) && are_below(v, size)
}

/// The first vector that is none of this width over so many elements.
pub fn vectors(size: u32, width: u32, list: ListName, vs: &[Listed<u32>]) -> Result<(), Flaw>
    requires { length vs.now < 2 ^ 32 }
    ensures flaw { result_err result ≡ vectors_flaw size width list vs.now }
    ensures vectors { IsOk result → AllByRecursion (shapes.IsOver size width) vs.now }
{
    for (i, v) in vs.iter().enumerate() {
        if !is_vector(size, width, v.as_slice()) {
            return Err(Flaw::Vector { list, at: i as u32 });
        }
    }
    Ok(())
}

/// Writes the elements that some numbers are.
pub(crate) fn write(v: &[u32], out: &mut [Elem])
    requires width { length v.now ≡ length out.old }
    requires elements { AllByRecursion (λ x. x < SIZE) v.now }
    ensures { out.new ≡ v.now }
{
    for i in 0..v.len() {
        out[i] = v[i] as Elem;
    }
}

/// The vectors as a list of one width.
pub(crate) fn list_of(alloc: Global, width: u32, vs: &[Listed<u32>]) -> Result<Vectors, AllocError>
    requires few { length vs.now < 2 ^ 32 }
    requires vectors { AllByRecursion (shapes.IsOver SIZE width) vs.now }
    ensures width { IfOk result (λ list. list.width ≡ width) }
    ensures items { IfOk result (λ list. list.items ≡ vs.now) }
{
    let mut list = Vectors::new(alloc, width);
    let mut vector = vec![in alloc; 0; width as usize]?;
    for v in vs {
        write(v.as_slice(), vector.as_mut_slice());
        list.add(vector.as_slice())?;
    }
    Ok(list)
}

/// The elements of a vector.
pub(crate) fn elements(alloc: Global, v: &[u32]) -> Result<Vec<Elem>, AllocError>
    requires { AllByRecursion (λ x. x < SIZE) v.now }
    ensures { IfOk result (λ elements. elements.items ≡ v.now) }
{
    let mut elements = vec![in alloc; 0; v.len()]?;
    write(v, elements.as_mut_slice());
    Ok(elements)
}
