//! The values of lines at a block of sixteen vectors, and whether they are the vectors of some keys.

ghost use Rattle.std.specs.Prelude.{◌≡◌, ℕ, ◌+◌, ◌<◌, ◌≤◌, ◌-◌, [], length, slice_index, slice_index_or, IsTrue, true, false, ◌*◌, ◌/◌, ◌%◌, ◌^◌};
ghost use Rattle.std.specs.List.{AllByRecursion};
ghost use Rattle.ua_columns.specs.inner.Tiles.{AreWords, AreByteWords, IsSomeKeyAt};
ghost use Rattle.ua_columns.specs.Columns.{limit, tables, AreBelow, AreLinesOf};
ghost use Rattle.ua_columns.specs.inner.Columns.{AreDigits};

use crate::fronts::{guesses, mix_all, second_guess};
use crate::tiles::{Tile, byte_words, line_words};
use ua_rows::SEED;

/// The bits of sixteen lanes.
const ALL: u32 = 0xFFFF;

/// Writes the values of the lines at a block of vectors, sixteen coordinates a word, and answers a hash for each
/// vector. The hash only guides a look-up, so nothing is said of it.
#[inline(always)]
fn write_words(lines: &[Tile], tiles: &[Tile], out: &mut [[u64; 16]]) -> [u64; 16]
    requires lines { AllByRecursion (AllByRecursion (AllByRecursion (λ x. x < 256))) lines.now }
    requires tiles { AllByRecursion (AllByRecursion (AllByRecursion (λ x. x < 16))) tiles.now }
    requires as_many_lines { length lines.now ≡ length out.old }
    requires as_many_tiles { length tiles.now ≡ length out.old }
    ensures { AreWords lines.now tiles.now out.new }
{
    let mut hashes = [SEED; 16];
    for j in 0..out.len() {
        let words = line_words(&lines[j], &tiles[j]);
        mix_all(&mut hashes, &words, j);
        out[j] = words;
    }
    hashes
}

/// Writes the values of the lines at a block of vectors, eight coordinates a word, and answers a hash for each vector.
#[inline(always)]
fn write_byte_words(lines: &[Tile], tiles: &[Tile], out: &mut [[u64; 16]]) -> [u64; 16]
    requires lines { AllByRecursion (AllByRecursion (AllByRecursion (λ x. x < 256))) lines.now }
    requires tiles { AllByRecursion (AllByRecursion (AllByRecursion (λ x. x < 64))) tiles.now }
    requires four_lines { length lines.now ≡ 4 * length tiles.now }
    requires within { length out.old ≤ 2 * length tiles.now }
    ensures { AreByteWords lines.now tiles.now out.new }
{
    let mut hashes = [SEED; 16];
    for j in 0..out.len() {
        let tile = j / 2;
        let words = byte_words(&lines[4 * tile..4 * tile + 4], &tiles[tile], 8 * (j % 2));
        mix_all(&mut hashes, &words, j);
        out[j] = words;
    }
    hashes
}

/// Writes the values of the lines at a block of vectors, a word for eight coordinates or for sixteen, and answers a hash
/// for each vector.
#[inline(always)]
pub(crate) fn write_digits(
    lines: &[Tile],
    tiles: &[Tile],
    in_bytes: bool,
    out: &mut [[u64; 16]],
) -> [u64; 16]
    requires bytes { AreBelow 256 lines.now }
    requires low { AreBelow (limit in_bytes) tiles.now }
    requires lines { length lines.now ≡ tables in_bytes * length tiles.now }
    requires words { in_bytes ≡ false → length out.old ≡ length tiles.now }
    requires within { length out.old ≤ 2 * length tiles.now }
    ensures { (f : ℕ → ℕ → ℕ) → AreLinesOf in_bytes f lines.now → AreDigits in_bytes f tiles.now out.new }
{
    if in_bytes {
        write_byte_words(lines, tiles, out)
    } else {
        write_words(lines, tiles, out)
    }
}

/// Whether the words of a lane are those of a key.
#[inline(always)]
pub(crate) fn is_at(key: &[u64], values: &[[u64; 16]], lane: usize) -> bool
    requires lane { lane < 16 }
    requires as_many { length key.now ≡ length values.now }
    ensures { IsTrue result → (j : ℕ) → j < length key.now → slice_index key.now j ≡ slice_index (slice_index_or values.now j []) lane }
{
    // Many vectors have one word, for which a loop would take longer to begin and end than to run.
    if key.len() == 1 {
        return key[0] == values[0][lane];
    }
    let mut bits = 0;
    for j in 0..key.len() {
        bits |= key[j] ^ values[j][lane];
    }
    bits == 0
}

/// Whether the words of a lane are those of a key, of so many.
#[inline(always)]
fn is_key_at(keys: &[u64], count: usize, i: usize, values: &[[u64; 16]], lane: usize) -> bool
    requires whole { length keys.now ≡ count * length values.now }
    requires key { i < count }
    requires lane { lane < 16 }
    ensures { IsTrue result → IsSomeKeyAt keys.now (length values.now) count values.now lane }
{
    let words = values.len();
    let start = i * words;
    is_at(&keys[start..start + words], values, lane)
}

/// A bit for each lane whose words are those of the key that was guessed.
#[inline(always)]
fn known_bits(keys: &[u64], guesses: &[usize; 16], values: &[[u64; 16]], count: usize) -> u32
    requires whole { length keys.now ≡ count * length values.now }
    requires guesses { AllByRecursion (λ i. i < count) guesses.now }
    ensures { (r : ℕ) → r < 16 → result / 2 ^ r % 2 ≡ 1 → IsSomeKeyAt keys.now (length values.now) count values.now r }
{
    let mut bits = 0;
    for r in 0..16 {
        let is_there = is_key_at(keys, count, guesses[r], values, r);
        bits |= u32::from(is_there) << r;
    }
    bits
}

/// Whether a lane has a bit, or its words are those of the key that is guessed second.
#[inline(always)]
fn is_known(
    keys: &[u64],
    front: &[u32],
    hashes: &[u64; 16],
    values: &[[u64; 16]],
    count: usize,
    bits: u32,
    lane: usize,
) -> bool
    requires whole { length keys.now ≡ count * length values.now }
    requires some { 0 < length front.now }
    requires vectors { 0 < count }
    requires named { AllByRecursion (λ r. r ≤ count - 1) front.now }
    requires lane { lane < 16 }
    requires bit { bits / 2 ^ lane % 2 ≡ 1 → IsSomeKeyAt keys.now (length values.now) count values.now lane }
    ensures { IsTrue result → IsSomeKeyAt keys.now (length values.now) count values.now lane }
{
    if (bits >> lane) % 2 == 1 {
        return true;
    }
    let guess = second_guess(front, hashes[lane], count);
    is_key_at(keys, count, guess, values, lane)
}

/// The bits, and those of the lanes whose words are those of the key that is guessed second.
#[inline(always)]
fn with_second_guesses(
    keys: &[u64],
    front: &[u32],
    hashes: &[u64; 16],
    values: &[[u64; 16]],
    count: usize,
    bits: u32,
) -> u32
    requires whole { length keys.now ≡ count * length values.now }
    requires some { 0 < length front.now }
    requires vectors { 0 < count }
    requires named { AllByRecursion (λ r. r ≤ count - 1) front.now }
    requires bits { (r : ℕ) → r < 16 → bits / 2 ^ r % 2 ≡ 1 → IsSomeKeyAt keys.now (length values.now) count values.now r }
    ensures { (r : ℕ) → r < 16 → result / 2 ^ r % 2 ≡ 1 → IsSomeKeyAt keys.now (length values.now) count values.now r }
{
    let mut more = 0;
    for r in 0..16 {
        let is_there = is_known(keys, front, hashes, values, count, bits, r);
        more |= u32::from(is_there) << r;
    }
    more
}

/// A bit for each lane whose words are those of a key that its hash lets guess.
#[inline(always)]
pub(crate) fn known_lanes(
    keys: &[u64],
    front: &[u32],
    hashes: &[u64; 16],
    values: &[[u64; 16]],
    count: usize,
) -> u32
    requires whole { length keys.now ≡ count * length values.now }
    requires some { 0 < length front.now }
    requires vectors { 0 < count }
    requires named { AllByRecursion (λ r. r ≤ count - 1) front.now }
    ensures { (r : ℕ) → r < 16 → result / 2 ^ r % 2 ≡ 1 → IsSomeKeyAt keys.now (length values.now) count values.now r }
{
    let bits = known_bits(keys, &guesses(front, hashes, count), values, count);
    if bits == ALL {
        return bits;
    }
    with_second_guesses(keys, front, hashes, values, count, bits)
}
