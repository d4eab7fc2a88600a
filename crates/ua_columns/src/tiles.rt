//! Sixteen coordinates of sixteen vectors at a time.

ghost use Rattle.std.specs.Prelude.{◌≡◌, ℕ, ◌+◌, ◌%◌, ◌<◌, ◌≤◌, [], ◌∷◌, length, map, take, drop, slice_index, slice_index_or, List, OnOk};
ghost use Rattle.std.specs.List.{AllByRecursion, range_with_len};
ghost use Rattle.std.specs.Simd.Lanes.{number_l};
ghost use Rattle.ua_columns.specs.Columns.{AreBelow};
ghost use Rattle.ua_columns.specs.inner.Tiles.{AreBytes, first_by_turns, second_by_turns, value_across, byte_word_at, word_across, word_at};

use std::alloc::AllocError;
use std::simd::prelude::*;

/// How many vectors stand side by side, and how many of their entries a word holds.
pub const LANES: usize = 16;

/// Sixteen columns of sixteen vectors; or the lines of sixteen coordinates: the values of an operation at each
/// element of the free place, those of odd coordinates times 16.
pub type Tile = [[u8; 16]; 16];

/// The values of a line at a column.
#[inline(always)]
fn looked(line: &[u8; 16], column: u8x16) -> u8x16
    requires line { AllByRecursion (λ x. x < 256) line.now }
    requires column { AllByRecursion (λ x. x < 16) column }
    ensures value { result ≡ map (slice_index line.now) column }
    ensures bytes { AreBytes result }
{
    u8x16::from_array(*line).swizzle_dyn(column)
}

/// The sums of the values of two lines at two columns.
#[inline(always)]
fn pair(line: &[u8; 16], column: &[u8; 16], next_line: &[u8; 16], next_column: &[u8; 16]) -> u8x16
    requires line { AllByRecursion (λ x. x < 256) line.now }
    requires column { AllByRecursion (λ x. x < 16) column.now }
    requires next_line { AllByRecursion (λ x. x < 256) next_line.now }
    requires next_column { AllByRecursion (λ x. x < 16) next_column.now }
    ensures value { (r : ℕ) → r < 16 → slice_index result r ≡ (slice_index line.now (slice_index column.now r) + slice_index next_line.now (slice_index next_column.now r)) % 256 }
    ensures bytes { AreBytes result }
{
    looked(line, u8x16::from_array(*column)) + looked(next_line, u8x16::from_array(*next_column))
}

/// The bytes of two vectors by turns.
#[inline(always)]
fn by_turns(a: u8x16, b: u8x16) -> (u8x16, u8x16)
    requires first { AreBytes a }
    requires second { AreBytes b }
    ensures first { result.0 ≡ first_by_turns a b }
    ensures second { result.1 ≡ second_by_turns a b }
    ensures first_bytes { AreBytes result.0 }
    ensures second_bytes { AreBytes result.1 }
{
    a.interleave(b)
}

/// Sixteen bytes as two words.
#[inline(always)]
fn words(bytes: u8x16) -> [u64; 2]
    requires { AreBytes bytes }
    ensures { result ≡ number_l 256 (take 8 bytes) ∷ number_l 256 (take 8 (drop 8 bytes)) ∷ [] }
{
    u64x2::from_le_bytes(bytes).to_array()
}

/// The words across eight columns.
#[inline(always)]
fn transposed(
    p0: u8x16,
    p1: u8x16,
    p2: u8x16,
    p3: u8x16,
    p4: u8x16,
    p5: u8x16,
    p6: u8x16,
    p7: u8x16,
) -> [u64; 16]
    requires bytes0 { AreBytes p0 }
    requires bytes1 { AreBytes p1 }
    requires bytes2 { AreBytes p2 }
    requires bytes3 { AreBytes p3 }
    requires bytes4 { AreBytes p4 }
    requires bytes5 { AreBytes p5 }
    requires bytes6 { AreBytes p6 }
    requires bytes7 { AreBytes p7 }
    ensures { result ≡ map (word_across (p0 ∷ p1 ∷ p2 ∷ p3 ∷ p4 ∷ p5 ∷ p6 ∷ p7 ∷ [])) (range_with_len 0 16) }
{
    let (a0, a1) = by_turns(p0, p4);
    let (a2, a3) = by_turns(p1, p5);
    let (a4, a5) = by_turns(p2, p6);
    let (a6, a7) = by_turns(p3, p7);
    let (b0, b1) = by_turns(a0, a4);
    let (b2, b3) = by_turns(a1, a5);
    let (b4, b5) = by_turns(a2, a6);
    let (b6, b7) = by_turns(a3, a7);
    let (c0, c1) = by_turns(b0, b4);
    let (c2, c3) = by_turns(b1, b5);
    let (c4, c5) = by_turns(b2, b6);
    let (c6, c7) = by_turns(b3, b7);
    let [w0, w1] = words(c0);
    let [w2, w3] = words(c1);
    let [w4, w5] = words(c2);
    let [w6, w7] = words(c3);
    let [w8, w9] = words(c4);
    let [wa, wb] = words(c5);
    let [wc, wd] = words(c6);
    let [we, wf] = words(c7);
    [
        w0, w1, w2, w3, w4, w5, w6, w7, w8, w9, wa, wb, wc, wd, we, wf,
    ]
}

/// The values of the lines at the columns, two coordinates in a byte: a word for each vector.
#[inline(always)]
pub(crate) fn line_words(lines: &Tile, columns: &Tile) -> [u64; 16]
    requires lines { AllByRecursion (AllByRecursion (λ x. x < 256)) lines.now }
    requires columns { AllByRecursion (AllByRecursion (λ x. x < 16)) columns.now }
    ensures { result ≡ map (word_at lines.now columns.now) (range_with_len 0 16) }
{
    transposed(
        pair(&lines[0], &columns[0], &lines[1], &columns[1]),
        pair(&lines[2], &columns[2], &lines[3], &columns[3]),
        pair(&lines[4], &columns[4], &lines[5], &columns[5]),
        pair(&lines[6], &columns[6], &lines[7], &columns[7]),
        pair(&lines[8], &columns[8], &lines[9], &columns[9]),
        pair(&lines[10], &columns[10], &lines[11], &columns[11]),
        pair(&lines[12], &columns[12], &lines[13], &columns[13]),
        pair(&lines[14], &columns[14], &lines[15], &columns[15]),
    )
}

/// The values of the line of a coordinate at its column. Each of four tiles has sixteen of its values.
#[inline(always)]
fn looked_across(lines: &[Tile], c: usize, column: &[u8; 16]) -> u8x16
    requires four { length lines.now ≡ 4 }
    requires lines { AllByRecursion (AllByRecursion (AllByRecursion (λ x. x < 256))) lines.now }
    requires coordinate { c < 16 }
    requires column { AllByRecursion (λ x. x < 64) column.now }
    ensures value { result ≡ map (value_across (map (λ (tile : List (List ℕ)). slice_index_or tile c []) lines.now)) column.now }
    ensures bytes { AreBytes result }
{
    let column = u8x16::from_array(*column);
    let place = column & u8x16::splat(15);
    let odd = (column & u8x16::splat(16)).simd_eq(u8x16::splat(16));
    let late = column.simd_ge(u8x16::splat(32));
    let first = odd.select(looked(&lines[1][c], place), looked(&lines[0][c], place));
    let second = odd.select(looked(&lines[3][c], place), looked(&lines[2][c], place));
    late.select(second, first)
}

/// The values of the lines at eight of the columns, from this one on, one coordinate in a byte: a word for each vector.
#[inline(always)]
pub(crate) fn byte_words(lines: &[Tile], columns: &Tile, first: usize) -> [u64; 16]
    requires four { length lines.now ≡ 4 }
    requires lines { AllByRecursion (AllByRecursion (AllByRecursion (λ x. x < 256))) lines.now }
    requires columns { AllByRecursion (AllByRecursion (λ x. x < 64)) columns.now }
    requires first { first ≤ 8 }
    ensures { result ≡ map (byte_word_at lines.now columns.now first) (range_with_len 0 16) }
{
    transposed(
        looked_across(lines, first, &columns[first]),
        looked_across(lines, first + 1, &columns[first + 1]),
        looked_across(lines, first + 2, &columns[first + 2]),
        looked_across(lines, first + 3, &columns[first + 3]),
        looked_across(lines, first + 4, &columns[first + 4]),
        looked_across(lines, first + 5, &columns[first + 5]),
        looked_across(lines, first + 6, &columns[first + 6]),
        looked_across(lines, first + 7, &columns[first + 7]),
    )
}

/// A tile of zeros.
fn zero_tile() -> Tile
    ensures { (n : ℕ) → 0 < n → AllByRecursion (AllByRecursion (λ x. x < n)) result }
{
    [[0; 16]; 16]
}

/// Appends so many tiles of zeros.
pub fn push_tiles(tiles: &mut Vec<Tile>, count: usize) -> Result<(), AllocError>
    ensures front { take (length tiles.old.items) tiles.new.items ≡ tiles.old.items }
    ensures kept { length tiles.old.items ≤ length tiles.new.items }
    ensures length { OnOk result (length tiles.new.items ≡ length tiles.old.items + count) }
    ensures low { (n : ℕ) → 0 < n → AreBelow n tiles.old.items → AreBelow n tiles.new.items }
{
    tiles.reserve(count)?;
    for _ in 0..count {
        tiles.push(zero_tile())?;
    }
    Ok(())
}
