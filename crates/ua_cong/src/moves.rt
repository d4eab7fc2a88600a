//! The different unary translations of an algebra. They serve to put pairs of elements in order, and no contract
//! speaks of them.

ghost use Rattle.std.specs.Prelude.{◌<◌, ◌^◌, length, slice_index};
ghost use Rattle.ua_prod.specs.Translations.{weight_of};
ghost use Rattle.ua_table.specs.Algebras.{arities_of};

use std::alloc::{AllocError, Global};
use ua_prod::Translations;
use ua_rows::Rows;
use ua_table::{Algebra, Elem};

/// How many values of translations are kept at most.
const CELLS: u64 = 16_777_216;

/// How many translations are kept at most.
const MOVES: u32 = 16_777_216;

/// Where a unary translation is found: the operation, the place of its variable, and the numbers of the arguments
/// before and behind that place.
#[derive(Clone, Copy)]
pub struct Move {
    pub op: u32,
    pub place: u8,
    pub front: usize,
    pub back: usize,
}

/// The translations that are found, each different one once, as a row of its values, and where each is found.
#[derive(Drop)]
struct Finds {
    rows: Rows,
    list: Vec<Move>,
    /// Room for the values of one.
    row: Vec<Elem>,
}

/// Unary translations of an algebra: for each element what they take it to.
#[derive(Drop)]
pub struct Moves {
    list: Vec<Move>,
    values: Vec<Elem>,
}

/// Whether the values are one, or those of the identity: such a translation leads to no further pair.
fn leads_nowhere(row: &[Elem]) -> bool {
    let mut constant = true;
    let mut identity = true;
    for x in 0..row.len() {
        constant = constant && row[x] == row[0];
        identity = identity && usize::from(row[x]) == x;
    }
    constant || identity
}

/// Writes the values of a translation.
fn write_values(
    translations: &Translations,
    front: usize,
    back: usize,
    row: &mut Vec<Elem>,
) -> Result<(), AllocError>
    requires front { front < translations.now.table.now.size ^ translations.now.place }
    requires back { back < weight_of translations.now.table.now translations.now.place }
{
    row.clear();
    for x in 0..translations.size() {
        row.push(translations.row(front, x as Elem)[back])?;
    }
    Ok(())
}

/// Enters the translation whose values are written, if it is new.
fn enter(finds: &mut Finds, along: Move) -> Result<(), AllocError> {
    let width = finds.rows.width();
    let count = finds.rows.len();
    if finds.row.len() != width as usize || leads_nowhere(finds.row.as_slice()) {
        return Ok(());
    }
    if count >= MOVES || u64::from(count) * u64::from(width) >= CELLS {
        return Ok(());
    }
    finds.rows.enter(finds.row.as_slice())?;
    if finds.rows.len() > count {
        finds.list.push(along)?;
    }
    Ok(())
}

/// Enters the translations along a place with these arguments before it.
fn enter_front(
    finds: &mut Finds,
    translations: &Translations,
    along: Move,
) -> Result<(), AllocError>
    requires { along.front < translations.now.table.now.size ^ translations.now.place }
{
    for back in 0..translations.weight() {
        write_values(translations, along.front, back, &mut finds.row)?;
        enter(finds, Move { back, ..along })?;
    }
    Ok(())
}

/// Enters the translations along a place.
fn enter_place(finds: &mut Finds, a: &Algebra, op: u32, place: u8) -> Result<(), AllocError>
    requires operation { op < length (arities_of a.now) }
    requires place { place < slice_index (arities_of a.now) op }
{
    let translations = Translations::new(a.op(op), place);
    for front in 0..translations.fronts() {
        let along = Move {
            op,
            place,
            front,
            back: 0,
        };
        enter_front(finds, &translations, along)?;
    }
    Ok(())
}

/// Enters the translations of an operation.
fn enter_operation(finds: &mut Finds, a: &Algebra, op: u32) -> Result<(), AllocError>
    requires { op < length (arities_of a.now) }
{
    for place in 0..a.op(op).arity() {
        enter_place(finds, a, op, place)?;
    }
    Ok(())
}

/// The different translations of an algebra that lead to further pairs.
fn finds_of(alloc: Global, a: &Algebra) -> Result<Finds, AllocError> {
    let mut finds = Finds {
        rows: Rows::new(alloc, a.size()),
        list: Vec::new(alloc),
        row: Vec::new(alloc),
    };
    for op in 0..a.ops().len() as u32 {
        enter_operation(&mut finds, a, op)?;
    }
    Ok(finds)
}

/// Appends what the translations take an element to.
fn push_values(values: &mut Vec<Elem>, rows: &Rows, x: u32) -> Result<(), AllocError>
    requires { x < rows.now.width }
{
    for i in 0..rows.len() {
        values.push(rows.row(i)[x as usize])?;
    }
    Ok(())
}

impl Moves {
    /// The translations of an algebra, as many as there is room for.
    pub fn new(alloc: Global, a: &Algebra) -> Result<Moves, AllocError> {
        let Finds { rows, list, row: _ } = finds_of(alloc, a)?;
        let mut values = Vec::new(alloc);
        for x in 0..rows.width() {
            push_values(&mut values, &rows, x)?;
        }
        Ok(Moves { list, values })
    }

    /// What they take an element to.
    pub fn of(&self, x: Elem) -> &[Elem] {
        let count = self.list.len();
        let start = usize::from(x).saturating_mul(count);
        let end = start.saturating_add(count);
        if end > self.values.len() {
            return &[];
        }
        &self.values[start..end]
    }

    /// Where one of them is found, if it is given.
    pub fn get(&self, k: Option<u32>) -> Option<Move> {
        self.list.get(k? as usize).copied()
    }
}
