//! The keys of a block, one behind the other, and whether they are some of many keys.

ghost use Rattle.std.specs.Prelude.{◌≡◌, ℕ, ◌<◌, ◌≤◌, ◌-◌, ◌*◌, ◌/◌, ◌%◌, ◌^◌, length, IsTrue};
ghost use Rattle.std.specs.List.{AllByRecursion};
ghost use Rattle.ua_columns.specs.inner.Quads.{IsOneOf, IsSomeKey};

use crate::fronts::{guesses, second_guess};
use crate::tiles::LANES;

/// Whether a key is key i of so many.
#[inline(always)]
fn is_key(keys: &[u64], count: usize, i: usize, key: &[u64]) -> bool
    requires whole { length keys.now ≡ count * length key.now }
    requires numbered { i < count }
    ensures { IsTrue result → IsOneOf keys.now count key.now }
{
    let start = i * key.len();
    &keys[start..start + key.len()] == key
}

/// Whether a key is the one that is guessed first, or the one that is guessed second by its hash.
#[inline(always)]
fn is_guessed(
    keys: &[u64],
    front: &[u32],
    count: usize,
    guess: usize,
    hash: u64,
    key: &[u64],
) -> bool
    requires whole { length keys.now ≡ count * length key.now }
    requires some { 0 < length front.now }
    requires vectors { 0 < count }
    requires named { AllByRecursion (λ r. r ≤ count - 1) front.now }
    requires guess { guess < count }
    ensures { IsTrue result → IsOneOf keys.now count key.now }
{
    if is_key(keys, count, guess, key) {
        return true;
    }
    let second = second_guess(front, hash, count);
    is_key(keys, count, second, key)
}

/// A bit for each key of a block that is one that its hash lets guess.
#[inline(always)]
pub(crate) fn known_keys(
    keys: &[u64],
    front: &[u32],
    hashes: &[u64; 16],
    block: &[u64],
    words: usize,
    count: usize,
) -> u32
    requires whole { length keys.now ≡ count * words }
    requires some { 0 < length front.now }
    requires vectors { 0 < count }
    requires named { AllByRecursion (λ r. r ≤ count - 1) front.now }
    requires block { length block.now ≡ LANES * words }
    ensures { (r : ℕ) → r < 16 → result / 2 ^ r % 2 ≡ 1 → IsSomeKey keys.now words count block.now r }
{
    let first = guesses(front, hashes, count);
    let mut bits = 0;
    for r in 0..16 {
        let key = &block[r * words..r * words + words];
        let is_there = is_guessed(keys, front, count, first[r], hashes[r], key);
        bits |= u32::from(is_there) << r;
    }
    bits
}
