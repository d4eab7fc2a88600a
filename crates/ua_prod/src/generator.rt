//! A generator of numbers, and algebras that are drawn from it.

ghost use Rattle.std.specs.Prelude.{◌≡◌, ◌∷◌, ◌^◌, ◌<◌, ◌≤◌, IfOk, OnOk};
ghost use Rattle.std.specs.Fmt.{decimal};
ghost use Rattle.ua_table.specs.declared.limits.TheConstants.{ARITY, FIRST_SIZE, OPERATIONS, SIZE, VALUES};
ghost use Rattle.ua_table.specs.Numbering.{IsShape};
ghost use Rattle.ua_prod.specs.Sizes.{values_needed};
ghost use Rattle.ua_prod.specs.Draws.{next_state, state_after, drawn, draws, drawn_operation, drawn_operations};
ghost use Rattle.ua_prod.specs.Permitted.{MayDraw};

use crate::errors::ProdError;
use crate::sizes::is_too_large;
use std::alloc::{AllocError, Global};
use std::marker::Model;
use ua_table::{Algebra, Elem, Name, NameError, OpTable};

/// A linear congruential generator (D. E. Knuth, The Art of Computer Programming, volume 2, section
/// 3.2.1) with the numbers of the example of `rand` in the C standard, modulo 2^31.
#[derive(Drop, Debug)]
pub struct Lcg {
    state: u32,
}

impl Model for Lcg {
    ghost use Rattle.std.specs.Prelude.{ℕ, ◌<◌, ◌^◌};

    ghost Value = { ℕ };

    ghost view = { λ a. a.state };

    ghost invariant = { λ a. a.state < 2 ^ 31 };
}

impl Lcg {
    /// The generator that starts at this state.
    pub fn new(n: u32) -> Lcg
        requires { n < 2 ^ 31 }
        ensures { result ≡ n }
    {
        Lcg { state: n }
    }

    /// The next number below the bound.
    pub fn draw(&mut self, bound: u32) -> u32
        requires { 0 < bound }
        ensures drawn { result ≡ drawn bound self.old }
        ensures below { result < bound }
        ensures state { self.new ≡ next_state self.old }
    {
        let next = (1_103_515_245 * u64::from(self.state) + 12_345) % (1 << 31);
        self.state = next as u32;
        self.state / 65_536 % bound
    }
}

/// The next numbers below the size.
fn values_drawn(
    alloc: Global,
    lcg: &mut Lcg,
    size: u32,
    count: usize,
) -> Result<Vec<Elem>, AllocError>
    requires some { 0 < size }
    requires small { size ≤ SIZE }
    ensures values { IfOk result (λ v. v.items ≡ draws size lcg.old count) }
    ensures state { OnOk result (lcg.new ≡ state_after lcg.old count) }
{
    let mut values = Vec::with_capacity(alloc, count)?;
    for _ in 0..count {
        values.push(lcg.draw(size) as Elem)?;
    }
    Ok(values)
}

/// The name `f` and a number.
fn numbered_name(alloc: Global, f: u32) -> Result<Name, AllocError>
    requires { f < OPERATIONS }
    ensures { IfOk result (λ name. name ≡ 102 ∷ decimal f) }
{
    let text = format!(in alloc; "f{f}")?;
    match Name::new(alloc, text.as_bytes()) {
        Ok(name) => Ok(name),
        Err(NameError::OutOfMemory) => Err(AllocError),
        Err(NameError::Form) => unreachable!(),
    }
}

/// An operation with the next values.
fn table_drawn(
    alloc: Global,
    lcg: &mut Lcg,
    size: u32,
    f: u32,
    arity: u8,
) -> Result<OpTable, AllocError>
    requires some { 0 < size }
    requires small { size ≤ SIZE }
    requires number { f < OPERATIONS }
    requires arity { arity ≤ ARITY }
    requires values { size ^ arity ≤ VALUES }
    ensures table { IfOk result (λ made. made ≡ drawn_operation size lcg.old f arity) }
    ensures state { OnOk result (lcg.new ≡ state_after lcg.old (size ^ arity)) }
{
    let name = numbered_name(alloc, f)?;
    let count = (size as usize).pow(u32::from(arity));
    let values = values_drawn(alloc, lcg, size, count)?;
    let Ok(made) = OpTable::new(name, size, arity, values) else {
        unreachable!();
    };
    Ok(made)
}

/// Operations of these arities, drawn one after another.
fn tables_drawn(
    alloc: Global,
    lcg: &mut Lcg,
    size: u32,
    arities: &[u8],
) -> Result<Vec<OpTable>, AllocError>
    requires some { 0 < size }
    requires small { size ≤ SIZE }
    requires shape { IsShape arities.now }
    requires values { values_needed size arities.now ≤ VALUES }
    ensures tables { IfOk result (λ tables. tables.items ≡ drawn_operations size lcg.old arities.now) }
    ensures state { OnOk result (lcg.new ≡ state_after lcg.old (values_needed size arities.now)) }
{
    let mut tables = Vec::with_capacity(alloc, arities.len())?;
    for f in 0..arities.len() {
        tables.push(table_drawn(alloc, lcg, size, f as u32, arities[f])?)?;
    }
    Ok(tables)
}

/// An algebra with operations `f0`, `f1` and so on of these arities, whose values are drawn table by
/// table. It is refused where it would be beyond the limits (`Size`), and then nothing is drawn. After
/// `OutOfMemory` the generator may have moved.
pub fn random(
    alloc: Global,
    lcg: &mut Lcg,
    name: Name,
    size: u32,
    arities: &[u8],
) -> Result<Algebra, ProdError>
    requires some { 0 < size }
    requires small { size ≤ FIRST_SIZE }
    requires shape { IsShape arities.now }
    ensures { MayDraw name size arities.now lcg.old lcg.new result }
{
    if is_too_large(size, arities) {
        return Err(ProdError::Size);
    }
    let tables = tables_drawn(alloc, lcg, size, arities)?;
    let Ok(made) = Algebra::new(name, size, tables) else {
        unreachable!();
    };
    Ok(made)
}
