//! Reducts.

ghost use Rattle.std.specs.Prelude.{◌≡◌, ◌<◌, nat_eq, length, IfOk};
ghost use Rattle.std.specs.List.{AllByRecursion, IsDistinct};
ghost use Rattle.ua_prod.specs.Constructions.{operations_at};
ghost use Rattle.ua_prod.specs.Permitted.{MayReduct};

use crate::errors::ProdError;
use std::alloc::{AllocError, Global};
use ua_table::{Algebra, Name, OpTable};

/// The operations of these numbers, in this order.
fn tables_at(alloc: Global, a: &Algebra, ops: &[u32]) -> Result<Vec<OpTable>, AllocError>
    requires { AllByRecursion (λ f. f < length a.now.operations) ops.now }
    ensures { IfOk result (λ tables. tables.items ≡ operations_at a.now.operations ops.now) }
{
    let mut tables = Vec::with_capacity(alloc, ops.len())?;
    for i in 0..ops.len() {
        tables.push(a.op(ops[i]).copy(alloc)?)?;
    }
    Ok(tables)
}

/// The reduct of an algebra to the operations of these numbers, in this order (W. Hodges, Model Theory,
/// chapter 1).
pub fn reduct(alloc: Global, name: Name, a: &Algebra, ops: &[u32]) -> Result<Algebra, ProdError>
    requires range { AllByRecursion (λ f. f < length a.now.operations) ops.now }
    requires different { IsDistinct nat_eq ops.now }
    ensures { MayReduct name a.now ops.now result }
{
    let tables = tables_at(alloc, a, ops)?;
    let Ok(made) = Algebra::new(name, a.size(), tables) else {
        unreachable!();
    };
    Ok(made)
}
