//! The lines of an operation: its values at one coordinate, where one argument is free.

ghost use Rattle.std.specs.Prelude.{◌≡◌, ◌≢◌, ℕ, ◌+◌, ◌*◌, ◌/◌, ◌%◌, ◌<◌, ◌≤◌, IsTrue, false, [], length, take, slice_index, slice_index_or, slice_set};
ghost use Rattle.std.specs.List.{AllByRecursion};
ghost use Rattle.ua_table.specs.Algebras.{arities, column, numeral};
ghost use Rattle.ua_rows.specs.RowLists.{rows_at};
ghost use Rattle.ua_columns.specs.Columns.{limit, AreBelow, AreLines, AreByteLines, AreLinesOf};
ghost use Rattle.ua_columns.specs.inner.Tiles.{value_across};
ghost use Rattle.ua_lanes.specs.Lines.{line_value};
ghost use Rattle.ua_lanes.specs.inner.Lines.{table_value, scale_at};
ghost use Rattle.ua_lanes.specs.Windows.{AreVectors};

use ua_columns::{Columns, LANES, Tile, set_entry};
use ua_table::{Elem, Frame, OpTable};

/// The number of some arguments: at which place of a table their value stands.
fn number_of(table: &OpTable, args: &[Elem]) -> usize
    requires arity { length args.now ≡ table.now.arity }
    requires below { AllByRecursion (λ x. x < table.now.size) args.now }
    ensures number { result ≡ numeral table.now.size args.now }
    ensures within { result < length table.now.values }
{
    let size = table.size() as usize;
    let mut number: usize = 0;
    for x in args {
        number = number * size + *x as usize;
    }
    number
}

/// Where the values of a table stand at which the argument at the free place is each element, and the others are
/// given: that of 0, and how far behind each the next one is.
pub(crate) fn line_in(
    table: &OpTable,
    mut args: [Elem; 4],
    arity: usize,
    free: usize,
) -> (usize, usize)
    requires few { arity ≤ 4 }
    requires arity { arity ≡ table.now.arity }
    requires free { free < arity }
    requires below { AllByRecursion (λ x. x < table.now.size) (take arity args) }
    ensures numbers { (y : ℕ) → result.0 + y * result.1 ≡ numeral table.now.size (slice_set (take arity args) free y) }
    ensures within { (y : ℕ) → y < table.now.size → result.0 + y * result.1 < length table.now.values }
{
    args[free] = 0;
    let start = number_of(table, &args[..arity]);
    let step = (table.size() as usize).pow((arity - free - 1) as u32);
    (start, step)
}

/// The value at a place of a table.
#[inline(always)]
pub(crate) fn value_in(table: &OpTable, number: usize) -> Elem
    requires { number < length table.now.values }
    ensures value { result ≡ slice_index table.now.values number }
    ensures element { result < table.now.size }
{
    table.values()[number]
}

/// Writes the value at an element in a line, of which each part has sixteen values.
#[inline(always)]
fn set_value<const PARTS: usize>(line: &mut [[u8; 16]; PARTS], y: usize, value: u8)
    requires element { y < 16 * PARTS }
    requires bytes { AllByRecursion (AllByRecursion (λ x. x < 256)) line.old }
    ensures parts { length line.new ≡ PARTS }
    ensures bytes { AllByRecursion (AllByRecursion (λ x. x < 256)) line.new }
    ensures value { value_across line.new y ≡ value }
    ensures others { (k : ℕ) → k ≢ y → value_across line.new k ≡ value_across line.old k }
{
    set_entry(&mut line[y / LANES], y % LANES, value);
}

/// The values of a table, each times a scale, where the argument at the free place is each element, and the
/// others are given: sixteen in each part, with zeros after them.
#[inline(always)]
fn line_at<const PARTS: usize>(
    table: &OpTable,
    args: [Elem; 4],
    arity: usize,
    free: usize,
    scale: u8,
) -> [[u8; 16]; PARTS]
    requires parts { PARTS ≤ 4 }
    requires few { arity ≤ 4 }
    requires arity { arity ≡ table.now.arity }
    requires free { free < arity }
    requires below { AllByRecursion (λ x. x < table.now.size) (take arity args) }
    requires size { table.now.size ≤ 16 * PARTS }
    requires some { 0 < scale }
    requires scale { table.now.size * scale ≤ 256 }
    ensures bytes { AllByRecursion (AllByRecursion (λ x. x < 256)) result }
    ensures values { (y : ℕ) → y < 16 * PARTS → value_across result y ≡ scale * table_value table.now (take arity args) free y }
{
    let (start, step) = line_in(table, args, arity, free);
    let mut line = [[0; 16]; PARTS];
    for y in 0..table.size() as usize {
        let value = value_in(table, start + y * step) as u8;
        set_value(&mut line, y, value * scale);
    }
    line
}

/// The entries of some vectors at a coordinate, with zeros after them.
fn entries_at(columns: &Columns, args: &[u32], x: usize) -> [Elem; 4]
    requires few { length args.now ≤ 4 }
    requires named { AllByRecursion (λ a. a < length columns.now.items) args.now }
    requires coordinate { x < columns.now.width }
    ensures { take (length args.now) result ≡ column (rows_at columns.now.items args.now) x }
{
    let mut entries = [0; 4];
    for (j, a) in args.iter().enumerate() {
        entries[j] = Elem::from(columns.entry(*a as usize, x));
    }
    entries
}

/// By what the values at a coordinate are multiplied.
fn scale_of(in_bytes: bool, x: usize) -> u8
    ensures scale { result ≡ scale_at in_bytes x }
{
    if in_bytes {
        return 1;
    }
    if x % 2 == 0 { 1 } else { 16 }
}

/// The line of a coordinate in so many parts, and zeros past the last. Where values take half a byte, those of odd
/// coordinates are times sixteen.
#[inline(always)]
fn line_of<const PARTS: usize>(
    frame: &Frame,
    columns: &Columns,
    op: u32,
    args: &[u32],
    free: usize,
    x: usize,
) -> [[u8; 16]; PARTS]
    requires parts { PARTS ≤ 4 }
    requires limit { limit columns.now.in_bytes ≤ 16 * PARTS }
    requires vectors { AreVectors frame.now columns.now }
    requires operation { op < length (arities frame.now) }
    requires arity { length args.now ≡ slice_index (arities frame.now) op }
    requires few { length args.now ≤ 4 }
    requires free { free < length args.now }
    requires named { AllByRecursion (λ a. a < length columns.now.items) args.now }
    ensures bytes { AllByRecursion (AllByRecursion (λ x. x < 256)) result }
    ensures values { (y : ℕ) → y < 16 * PARTS → value_across result y ≡ scale_at columns.now.in_bytes x * line_value frame.now op (rows_at columns.now.items args.now) free x y }
{
    if x >= frame.width() as usize {
        return [[0; 16]; PARTS];
    }
    let entries = entries_at(columns, args, x);
    let table = frame.algebra_at(x as u32).op(op);
    let scale = scale_of(columns.is_in_bytes(), x);
    line_at(table, entries, args.len(), free, scale)
}

/// Writes a column of a tile.
fn set_column(tile: &mut Tile, c: usize, line: [u8; 16])
    requires column { c < LANES }
    requires line { AllByRecursion (λ x. x < 256) line }
    requires bytes { AllByRecursion (AllByRecursion (λ x. x < 256)) tile.old }
    ensures column { slice_index_or tile.new c [] ≡ line }
    ensures others { (k : ℕ) → k ≢ c → slice_index_or tile.new k [] ≡ slice_index_or tile.old k [] }
    ensures bytes { AllByRecursion (AllByRecursion (λ x. x < 256)) tile.new }
{
    tile[c] = line;
}

/// Writes the four parts of the line of a coordinate, each into a tile of its own.
fn enter_line(lines: &mut [Tile], x: usize, line: &[[u8; 16]; 4])
    requires within { 4 * (x / 16) + 4 ≤ length lines.old }
    requires line { AllByRecursion (AllByRecursion (λ x. x < 256)) line.now }
    requires bytes { AreBelow 256 lines.old }
    ensures length { length lines.new ≡ length lines.old }
    ensures bytes { AreBelow 256 lines.new }
    ensures there { (q : ℕ) → q < 4 → slice_index_or (slice_index_or lines.new (4 * (x / 16) + q) []) (x % 16) [] ≡ slice_index_or line.now q [] }
    ensures others { (t c : ℕ) → (t / 4 ≡ x / 16 → c ≢ x % 16) → slice_index_or (slice_index_or lines.new t []) c [] ≡ slice_index_or (slice_index_or lines.old t []) c [] }
{
    let first = 4 * (x / LANES);
    for q in 0..4 {
        set_column(&mut lines[first + q], x % LANES, line[q]);
    }
}

/// Writes the line of each coordinate, in four tiles for sixteen coordinates.
fn write_byte_lines(
    frame: &Frame,
    columns: &Columns,
    op: u32,
    args: &[u32],
    free: usize,
    out: &mut [Tile],
)
    requires form { IsTrue columns.now.in_bytes }
    requires vectors { AreVectors frame.now columns.now }
    requires operation { op < length (arities frame.now) }
    requires arity { length args.now ≡ slice_index (arities frame.now) op }
    requires few { length args.now ≤ 4 }
    requires free { free < length args.now }
    requires named { AllByRecursion (λ a. a < length columns.now.items) args.now }
    requires bytes { AreBelow 256 out.old }
    ensures length { length out.new ≡ length out.old }
    ensures bytes { AreBelow 256 out.new }
    ensures lines { AreByteLines (line_value frame.now op (rows_at columns.now.items args.now) free) out.new }
{
    for x in 0..LANES * (out.len() / 4) {
        let line: [[u8; 16]; 4] = line_of(frame, columns, op, args, free, x);
        enter_line(out, x, &line);
    }
}

/// Writes the line of each coordinate, in one tile for sixteen coordinates.
fn write_half_byte_lines(
    frame: &Frame,
    columns: &Columns,
    op: u32,
    args: &[u32],
    free: usize,
    out: &mut [Tile],
)
    requires form { columns.now.in_bytes ≡ false }
    requires vectors { AreVectors frame.now columns.now }
    requires operation { op < length (arities frame.now) }
    requires arity { length args.now ≡ slice_index (arities frame.now) op }
    requires few { length args.now ≤ 4 }
    requires free { free < length args.now }
    requires named { AllByRecursion (λ a. a < length columns.now.items) args.now }
    requires bytes { AreBelow 256 out.old }
    ensures length { length out.new ≡ length out.old }
    ensures bytes { AreBelow 256 out.new }
    ensures lines { AreLines (line_value frame.now op (rows_at columns.now.items args.now) free) out.new }
{
    for x in 0..LANES * out.len() {
        let line: [[u8; 16]; 1] = line_of(frame, columns, op, args, free, x);
        set_column(&mut out[x / LANES], x % LANES, line[0]);
    }
}

/// Writes the line of each coordinate, for an operation at some vectors, of which the one at the free place
/// does not matter.
pub(crate) fn write_lines(
    frame: &Frame,
    columns: &Columns,
    op: u32,
    args: &[u32],
    free: usize,
    out: &mut [Tile],
)
    requires vectors { AreVectors frame.now columns.now }
    requires operation { op < length (arities frame.now) }
    requires arity { length args.now ≡ slice_index (arities frame.now) op }
    requires few { length args.now ≤ 4 }
    requires free { free < length args.now }
    requires named { AllByRecursion (λ a. a < length columns.now.items) args.now }
    requires bytes { AreBelow 256 out.old }
    ensures length { length out.new ≡ length out.old }
    ensures bytes { AreBelow 256 out.new }
    ensures lines { AreLinesOf columns.now.in_bytes (line_value frame.now op (rows_at columns.now.items args.now) free) out.new }
{
    if columns.is_in_bytes() {
        write_byte_lines(frame, columns, op, args, free, out);
    } else {
        write_half_byte_lines(frame, columns, op, args, free, out);
    }
}
