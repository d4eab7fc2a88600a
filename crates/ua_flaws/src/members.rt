//! Certificates that a vector is generated, or not.

ghost use Rattle.std.specs.Prelude.{◌≡◌, ◌<◌, ◌^◌, length, IsOk, IfOk, IfErr};
ghost use Rattle.std.specs.List.{AllByRecursion};
ghost use Rattle.ua_table.specs.Algebras.{IsVector, arities};
ghost use Rattle.ua_table.specs.Terms.{term_value};
ghost use Rattle.ua_term.specs.Steps.{AreSteps, written_term};
ghost use Rattle.ua_flaws.specs.declared.flaws.CheckError.{CheckError};
ghost use Rattle.ua_flaws.specs.Properties.{WritesMember, IsNoMember};
ghost use Rattle.ua_flaws.specs.Flaws.{member_flaw, not_member_flaw, Tells};

use crate::flaws::{CheckError, Flaw, ListName};
use crate::frames::frame_of;
use crate::outside::outside;
use crate::steps::read_steps;
use crate::vectors::{elements, list_of, vectors};
use std::alloc::Global;
use std::slice;
use ua_cert::CertStep;
use ua_table::{Algebra, Elem, Frame, Listed, Origin, Vectors};
use ua_term::Steps;

/// The first flaw of a certificate that a vector is not generated.
fn not_member_flaws(
    alloc: Global,
    a: &Algebra,
    gens: &[Listed<u32>],
    rows: &[Listed<u32>],
    target: &Listed<u32>,
    width: u32,
) -> Result<(), CheckError>
    requires gens { length gens.now < 2 ^ 32 }
    requires rows { length rows.now < 2 ^ 32 }
    ensures { Tells (not_member_flaw a.now gens.now rows.now target.now width) result }
{
    let frame = frame_of(a, width)?;
    let size = a.size();
    vectors(size, width, ListName::Gens, gens)?;
    vectors(size, width, ListName::Rows, rows)?;
    vectors(size, width, ListName::Target, slice::from_ref(target))?;
    let gens = list_of(alloc, width, gens)?;
    let target = elements(alloc, target.as_slice())?;
    outside(alloc, a, &frame, &gens, rows, target.as_slice())
}

/// Checks a certificate that a vector is not generated.
pub fn not_member(
    alloc: Global,
    a: &Algebra,
    gens: &[Listed<u32>],
    rows: &[Listed<u32>],
    target: &Listed<u32>,
    width: u32,
) -> Result<(), CheckError>
    requires gens { length gens.now < 2 ^ 32 }
    requires rows { length rows.now < 2 ^ 32 }
    ensures told { Tells (not_member_flaw a.now gens.now rows.now target.now width) result }
    ensures holds { IsOk result → IsNoMember a.now gens.now target.now width }
{
    not_member_flaws(alloc, a, gens, rows, target, width)
}

/// The value of the term that steps write.
fn last_value(
    alloc: Global,
    frame: &Frame<'_>,
    gens: &Vectors,
    steps: Vec<Origin>,
) -> Result<Vec<Elem>, CheckError>
    requires some { 0 < length steps.items }
    requires few { length steps.items < 2 ^ 32 }
    requires steps { AreSteps (arities frame.now) (length gens.now.items) steps.items }
    requires gens { AllByRecursion (IsVector frame.now) gens.now.items }
    ensures memory { IfErr result (λ e. e ≡ CheckError.OutOfMemory) }
    ensures value { IfOk result (λ v. v.items ≡ term_value frame.now gens.now.items (written_term (arities frame.now) steps.items)) }
{
    let last = steps.len() as u32 - 1;
    let shape = frame.shape(alloc)?;
    let Ok(steps) = Steps::new(steps, &shape, gens.len()) else {
        unreachable!();
    };
    let vectors = steps.value(alloc, frame, gens)?;
    Ok(Vec::from_slice(alloc, vectors.get(last))?)
}

/// The first flaw of a certificate that a vector is generated.
fn member_flaws(
    alloc: Global,
    a: &Algebra,
    gens: &[Listed<u32>],
    steps: &[CertStep],
    target: &Listed<u32>,
    width: u32,
) -> Result<(), CheckError>
    requires gens { length gens.now < 2 ^ 32 }
    requires steps { length steps.now < 2 ^ 32 }
    ensures { Tells (member_flaw a.now gens.now steps.now target.now width) result }
{
    let frame = frame_of(a, width)?;
    if steps.is_empty() {
        return Err(CheckError::Flaw(Flaw::Width));
    }
    let size = a.size();
    vectors(size, width, ListName::Gens, gens)?;
    vectors(size, width, ListName::Target, slice::from_ref(target))?;
    let origins = read_steps(alloc, a, gens.len() as u32, None, steps)?;
    let list = list_of(alloc, width, gens)?;
    let value = last_value(alloc, &frame, &list, origins)?;
    let target = elements(alloc, target.as_slice())?;
    if value.as_slice() != target.as_slice() {
        return Err(CheckError::Flaw(Flaw::Target));
    }
    Ok(())
}

/// Checks a certificate that a vector is generated.
pub fn member(
    alloc: Global,
    a: &Algebra,
    gens: &[Listed<u32>],
    steps: &[CertStep],
    target: &Listed<u32>,
    width: u32,
) -> Result<(), CheckError>
    requires gens { length gens.now < 2 ^ 32 }
    requires steps { length steps.now < 2 ^ 32 }
    ensures told { Tells (member_flaw a.now gens.now steps.now target.now width) result }
    ensures holds { IsOk result → WritesMember a.now gens.now steps.now target.now width }
{
    member_flaws(alloc, a, gens, steps, target, width)
}
