//! Algebras whose elements stand for some elements of another.

ghost use Rattle.std.specs.Prelude.{◌≡◌, ◌<◌, ◌≤◌, length, map, slice_index, IfOk};
ghost use Rattle.std.specs.List.{AllByRecursion};
ghost use Rattle.ua_prod.specs.Constructions.{value_of, tuples_among, renumbered, algebra_among};

use crate::tuples::tuple_numbers;
use std::alloc::{AllocError, Global};
use ua_table::{Algebra, Elem, Name, OpTable};

/// Elements of an algebra that stand for those of another, in order, and for each element the number of
/// what stands for it.
#[derive(Drop)]
pub struct Renumbering {
    pub members: Vec<Elem>,
    pub numbers: Vec<Elem>,
}

/// The numbers of the values at all tuples of members.
fn values_among(
    alloc: Global,
    table: &OpTable,
    renumbering: &Renumbering,
) -> Result<Vec<Elem>, AllocError>
    requires members { AllByRecursion (λ x. x < table.now.size) renumbering.now.members.items }
    requires numbers { length renumbering.now.numbers.items ≡ table.now.size }
    ensures { IfOk result (λ v. v.items ≡ map (λ args. slice_index renumbering.now.numbers.items (value_of table.now args)) (tuples_among renumbering.now.members.items table.now.arity)) }
{
    let places = tuple_numbers(
        alloc,
        table.size(),
        renumbering.members.as_slice(),
        table.arity(),
    )?;
    let mut values = Vec::with_capacity(alloc, places.len())?;
    for i in 0..places.len() {
        let value = table.values()[places[i] as usize];
        values.push(renumbering.numbers[value as usize])?;
    }
    Ok(values)
}

/// The operation on what stands for the members.
fn table_among(
    alloc: Global,
    table: &OpTable,
    renumbering: &Renumbering,
) -> Result<OpTable, AllocError>
    requires some { 0 < length renumbering.now.members.items }
    requires few { length renumbering.now.members.items ≤ table.now.size }
    requires members { AllByRecursion (λ x. x < table.now.size) renumbering.now.members.items }
    requires count { length renumbering.now.numbers.items ≡ table.now.size }
    requires numbers { AllByRecursion (λ x. x < length renumbering.now.members.items) renumbering.now.numbers.items }
    ensures { IfOk result (λ made. made ≡ renumbered renumbering.now.members.items renumbering.now.numbers.items table.now) }
{
    let arity = table.arity();
    let values = values_among(alloc, table, renumbering)?;
    let name = table.name().copy(alloc)?;
    let size = renumbering.members.len() as u32;
    let Ok(made) = OpTable::new(name, size, arity, values) else {
        unreachable!();
    };
    Ok(made)
}

/// The operations on what stands for the members.
fn tables_among(
    alloc: Global,
    a: &Algebra,
    renumbering: &Renumbering,
) -> Result<Vec<OpTable>, AllocError>
    requires some { 0 < length renumbering.now.members.items }
    requires few { length renumbering.now.members.items ≤ a.now.size }
    requires members { AllByRecursion (λ x. x < a.now.size) renumbering.now.members.items }
    requires count { length renumbering.now.numbers.items ≡ a.now.size }
    requires numbers { AllByRecursion (λ x. x < length renumbering.now.members.items) renumbering.now.numbers.items }
    ensures { IfOk result (λ tables. tables.items ≡ map (renumbered renumbering.now.members.items renumbering.now.numbers.items) a.now.operations) }
{
    let mut tables = Vec::with_capacity(alloc, a.ops().len())?;
    for f in 0..a.ops().len() as u32 {
        tables.push(table_among(alloc, a.op(f), renumbering)?)?;
    }
    Ok(tables)
}

/// The algebra on what stands for the members.
pub fn renumbered(
    alloc: Global,
    name: Name,
    a: &Algebra,
    renumbering: &Renumbering,
) -> Result<Algebra, AllocError>
    requires some { 0 < length renumbering.now.members.items }
    requires few { length renumbering.now.members.items ≤ a.now.size }
    requires members { AllByRecursion (λ x. x < a.now.size) renumbering.now.members.items }
    requires count { length renumbering.now.numbers.items ≡ a.now.size }
    requires numbers { AllByRecursion (λ x. x < length renumbering.now.members.items) renumbering.now.numbers.items }
    ensures { IfOk result (λ made. made ≡ algebra_among name a.now renumbering.now.members.items renumbering.now.numbers.items) }
{
    // The size of an algebra is within its limit.
    let _size = a.size();
    let tables = tables_among(alloc, a, renumbering)?;
    let size = renumbering.members.len() as u32;
    let Ok(made) = Algebra::new(name, size, tables) else {
        unreachable!();
    };
    Ok(made)
}
