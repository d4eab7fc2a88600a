//! Words of four entries each, and the values of lines at them, for algebras of any size.

ghost use Rattle.std.specs.Prelude.{◌≡◌, ℕ, ◌+◌, ◌-◌, ◌*◌, ◌/◌, ◌<◌, ◌≤◌, [], length, drop, slice_index, slice_index_or, slice_set};
ghost use Rattle.std.specs.List.{AllByRecursion};
ghost use Rattle.ua_rows.specs.Words.{lanes_of};
ghost use Rattle.ua_columns.specs.Quads.{IsBelow};
ghost use Rattle.ua_columns.specs.inner.Quads.{values_in_word};

use crate::fronts::with_word;
use crate::tiles::LANES;
use std::simd::prelude::*;
use ua_rows::{SEED, elements_of};
use ua_table::Elem;

/// The values of four lines of a size at the entries of a word.
#[inline(always)]
fn value_of(lines: &[Elem], size: usize, word: u64) -> u64
    requires lines { 4 * size ≤ length lines.now }
    requires below { IsBelow size word }
    ensures { lanes_of result ≡ values_in_word lines.now size word }
{
    let [a, b, c, d] = elements_of(word);
    // As a vector, and not by `number_of`: this loop takes nearly all of the time, and shifts a third more of it.
    let values = u16x4::from_array([
        lines[a as usize],
        lines[size + b as usize],
        lines[2 * size + c as usize],
        lines[3 * size + d as usize],
    ]);
    let [value] = u64x1::from_le_bytes(values.to_le_bytes()).to_array();
    value
}

/// Writes the values of lines at one word of a key, and answers them.
#[inline(always)]
fn write_word(lines: &[Elem], size: usize, key: &[u64], out: &mut [u64], j: usize) -> u64
    requires lines { 4 * size * length key.now ≤ length lines.now }
    requires as_many { length out.old ≡ length key.now }
    requires below { AllByRecursion (IsBelow size) key.now }
    requires place { j < length key.now }
    ensures values { lanes_of result ≡ values_in_word (drop (4 * size * j) lines.now) size (slice_index key.now j) }
    ensures written { out.new ≡ slice_set out.old j result }
{
    let word = value_of(&lines[4 * size * j..], size, key[j]);
    out[j] = word;
    word
}

/// Writes the values of lines at the words of a key, and answers a hash. The hash only guides a look-up, so nothing
/// is said of it. Two words are written at a time, since places are even and odd in turn to the hash.
#[inline(always)]
fn write_at(lines: &[Elem], size: usize, key: &[u64], out: &mut [u64]) -> u64
    requires lines { 4 * size * length key.now ≤ length lines.now }
    requires as_many { length out.old ≡ length key.now }
    requires below { AllByRecursion (IsBelow size) key.now }
    ensures { (j : ℕ) → j < length key.now → lanes_of (slice_index out.new j) ≡ values_in_word (drop (4 * size * j) lines.now) size (slice_index key.now j) }
{
    let mut hash = SEED;
    for i in 0..key.len() / 2 {
        let even = write_word(lines, size, key, out, 2 * i);
        let odd = write_word(lines, size, key, out, 2 * i + 1);
        hash = with_word(with_word(hash, even, 0), odd, 1);
    }
    if key.len() % 2 == 1 {
        let last = write_word(lines, size, key, out, key.len() - 1);
        hash = with_word(hash, last, 0);
    }
    hash
}

/// Writes the values of lines at so many keys of a block, one behind the other, and answers a hash for each key.
#[inline(always)]
pub(crate) fn write_values(
    lines: &[Elem],
    size: usize,
    keys: &[u64],
    words: usize,
    count: usize,
    out: &mut [u64],
) -> [u64; 16]
    requires few { count ≤ LANES }
    requires lines { 4 * size * words ≤ length lines.now }
    requires keys { length keys.now ≡ count * words }
    requires room { length out.old ≡ LANES * words }
    requires below { AllByRecursion (IsBelow size) keys.now }
    ensures { (r j : ℕ) → r < count → j < words → lanes_of (slice_index out.new (r * words + j)) ≡ values_in_word (drop (4 * size * j) lines.now) size (slice_index keys.now (r * words + j)) }
{
    let mut hashes = [SEED; 16];
    for r in 0..count {
        let start = r * words;
        let key = &keys[start..start + words];
        hashes[r] = write_at(lines, size, key, &mut out[start..start + words]);
    }
    hashes
}
