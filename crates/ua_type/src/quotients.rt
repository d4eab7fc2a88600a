//! Quotients by the lower of two congruences, with the upper one as a congruence of the quotient.

ghost use Rattle.std.specs.Prelude.{◌≡◌, ◌<◌, ◌≤◌, length, map, slice_index, IfOk};
ghost use Rattle.std.specs.List.{AllByRecursion};
ghost use Rattle.ua_table.specs.declared.limits.TheConstants.{SIZE};
ghost use Rattle.ua_part.specs.Partitions.{IsByLabels};
ghost use Rattle.ua_prod.specs.Congruences.{IsCongruence};
ghost use Rattle.ua_lattice.specs.Lattices.{IsCover};
ghost use Rattle.ua_type.specs.Quotients.{quotient_by};
ghost use Rattle.ua_type.specs.inner.Images.{IsQuotientOf};

use std::alloc::{AllocError, Global};
use ua_part::Part;
use ua_prod::{ProdError, Renumbering, by_blocks, quotient};
use ua_table::{Algebra, Elem};

/// The quotient by a congruence, another congruence as one of the quotient, and the least member of each block.
#[derive(Drop, Debug)]
pub struct Quotient {
    pub algebra: Algebra,
    pub theta: Part,
    pub leaders: Vec<Elem>,
}

/// The quotient by a congruence, under the name of the algebra.
fn quotient_by(alloc: Global, a: &Algebra, p: &Part) -> Result<Algebra, AllocError>
    requires { IsCongruence a.now p.now }
    ensures { IfOk result (λ b. b ≡ quotient_by a.now p.now) }
{
    match quotient(alloc, a.name().copy(alloc)?, a, p) {
        Ok(b) => Ok(b),
        Err(ProdError::OutOfMemory) => Err(AllocError),
        Err(ProdError::NotCongruence(_)) => unreachable!(),
        Err(ProdError::Signature) => unreachable!(),
        Err(ProdError::Size) => unreachable!(),
        Err(ProdError::NotClosed { .. }) => unreachable!(),
    }
}

/// The partition of the places of a list of elements that relates those whose elements are related.
fn related_places(alloc: Global, p: &Part, list: &[Elem]) -> Result<Part, AllocError>
    requires elements { AllByRecursion (λ x. x < length p.now) list.now }
    requires few { length list.now ≤ SIZE }
    ensures { IfOk result (IsByLabels (map (slice_index p.now) list.now)) }
{
    let mut labels = Vec::with_capacity(alloc, list.len())?;
    for k in 0..list.len() {
        labels.push(p.rep(u32::from(list[k])))?;
    }
    Part::from_labels(alloc, labels.as_slice())
}

/// The quotient by the lower of a congruence and a cover of it.
pub fn quotient_of(
    alloc: Global,
    a: &Algebra,
    lower: &Part,
    upper: &Part,
) -> Result<Quotient, AllocError>
    requires { IsCover a.now lower.now upper.now }
    ensures { IfOk result (IsQuotientOf a.now lower.now upper.now) }
{
    // The size of an algebra is within its limit.
    let _size = a.size();
    let algebra = quotient_by(alloc, a, lower)?;
    let Renumbering {
        members: leaders,
        numbers: _,
    } = by_blocks(alloc, lower)?;
    let theta = related_places(alloc, upper, leaders.as_slice())?;
    Ok(Quotient {
        algebra,
        theta,
        leaders,
    })
}
