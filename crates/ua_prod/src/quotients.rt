//! Quotients by congruences.

ghost use Rattle.std.specs.Prelude.{◌≡◌, ◌<◌, ◌≤◌, length, map, IfOk};
ghost use Rattle.ua_table.specs.declared.limits.TheConstants.{SIZE};
ghost use Rattle.ua_part.specs.Blocks.{leaders};
ghost use Rattle.ua_prod.specs.Constructions.{blocks_below};
ghost use Rattle.ua_prod.specs.Permitted.{MayQuotient};

use crate::clashes::is_congruence;
use crate::errors::ProdError;
use crate::renumbering::{Renumbering, renumbered};
use std::alloc::{AllocError, Global};
use ua_part::Part;
use ua_table::{Algebra, Elem, Name};

/// The least members of the blocks, ascending, and for each element the number of its block.
pub fn by_blocks(alloc: Global, p: &Part) -> Result<Renumbering, AllocError>
    requires { length p.now ≤ SIZE }
    ensures members { IfOk result (λ r. r.members.items ≡ leaders p.now) }
    ensures numbers { IfOk result (λ r. r.numbers.items ≡ map (blocks_below p.now) p.now) }
{
    let mut members = Vec::new(alloc);
    let mut numbers = Vec::with_capacity(alloc, p.size() as usize)?;
    for a in 0..p.size() {
        let leader = p.rep(a);
        if leader == a {
            numbers.push(members.len() as Elem)?;
            members.push(a as Elem)?;
        } else {
            numbers.push(numbers[leader as usize])?;
        }
    }
    Ok(Renumbering { members, numbers })
}

/// The quotient of an algebra by a congruence, whose blocks are numbered by their least members; or the
/// first clash, where the partition is no congruence.
pub fn quotient(alloc: Global, name: Name, a: &Algebra, p: &Part) -> Result<Algebra, ProdError>
    requires { length p.now ≡ a.now.size }
    ensures { MayQuotient name a.now p.now result }
{
    // The size of an algebra is within its limit.
    let _size = a.size();
    if let Some(clash) = is_congruence(a, p) {
        return Err(ProdError::NotCongruence(clash));
    }
    let renumbering = by_blocks(alloc, p)?;
    Ok(renumbered(alloc, name, a, &renumbering)?)
}
