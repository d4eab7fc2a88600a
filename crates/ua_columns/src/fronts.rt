//! A front: a table that guesses a vector by the hash of its words. What it forgets and what it confuses costs time
//! and nothing else.

ghost use Rattle.std.specs.Prelude.{◌≡◌, ℕ, ◌-◌, ◌*◌, ◌/◌, ◌%◌, ◌^◌, ◌<◌, ◌≤◌, length, vec_len, IfOk};
ghost use Rattle.std.specs.List.{AllByRecursion};

use crate::tiles::LANES;
use std::alloc::{AllocError, Global};
use ua_rows::{SEED, mixed};

/// How many slots the front has at least for each vector: twice as many where vectors have so many words that what
/// the front forgets takes long to compute.
const SLOTS: usize = 8;

/// How many words such vectors have at least.
const LONG: usize = 9;

/// How many slots the first front has.
pub(crate) const FRONT: usize = 256;

/// A hash with the word at a place: those at even places are only taken in, and mixed with the word behind them.
/// A product for every two words is enough to guess by.
#[inline(always)]
pub(crate) fn with_word(hash: u64, word: u64, place: usize) -> u64 {
    if place % 2 == 0 {
        (hash ^ word).rotate_left(7)
    } else {
        mixed(hash, word)
    }
}

/// The hash of some words. It only guides a look-up, so nothing is said of it.
pub(crate) fn hash_of(key: &[u64]) -> u64 {
    let mut hash = SEED;
    for (place, word) in key.iter().enumerate() {
        hash = with_word(hash, *word, place);
    }
    hash
}

/// Takes the word at a place into each hash.
#[inline(always)]
pub(crate) fn mix_all(hashes: &mut [u64; 16], words: &[u64; 16], place: usize) {
    for r in 0..16 {
        hashes[r] = with_word(hashes[r], words[r], place);
    }
}

/// The place of a hash in a front of so many slots.
#[inline(always)]
pub(crate) fn slot_of(hash: u64, slots: usize) -> usize
    requires { 0 < slots }
    ensures { result < slots }
{
    (mixed(hash, 0) >> 20) as usize & (slots - 1)
}

/// The slot that is looked at where a vector's own names another.
#[inline(always)]
pub(crate) fn slot_behind(slot: usize, slots: usize) -> usize
    requires { slot < slots }
    ensures { result < slots }
{
    (slot + 1) & (slots - 1)
}

/// Enters a vector in its slot, or else in the one behind, where that is empty: the values that are found first come
/// most often, so they stay. An empty slot is 0, as is that of vector 0, which alone gives way.
#[inline(always)]
pub(crate) fn enter(front: &mut Vec<u32>, hash: u64, vector: u32)
    requires some { 0 < length front.old.items }
    ensures length { length front.new.items ≡ length front.old.items }
    ensures named { (n : ℕ) → vector ≤ n → AllByRecursion (λ r. r ≤ n) front.old.items → AllByRecursion (λ r. r ≤ n) front.new.items }
{
    let mut slot = slot_of(hash, front.len());
    if front[slot] != 0 {
        slot = slot_behind(slot, front.len());
    }
    if front[slot] == 0 {
        front[slot] = vector;
    }
}

/// A front of so many slots, with these vectors.
fn front_of(
    alloc: Global,
    keys: &[u64],
    words: usize,
    count: usize,
    slots: usize,
) -> Result<Vec<u32>, AllocError>
    requires some { 0 < slots }
    requires few { count < 2 ^ 32 }
    requires keys { length keys.now ≡ count * words }
    ensures named { IfOk result (λ front. AllByRecursion (λ r. r ≤ count - 1) front.items) }
    ensures slots { IfOk result (λ front. vec_len front ≡ slots) }
{
    let mut front = vec![in alloc; 0u32; slots]?;
    for i in 0..count {
        let start = i * words;
        enter(&mut front, hash_of(&keys[start..start + words]), i as u32);
    }
    Ok(front)
}

/// Sees to it that the front has slots enough for one more vector.
pub(crate) fn reserve_slots(
    alloc: Global,
    front: &mut Vec<u32>,
    keys: &[u64],
    words: usize,
    count: usize,
) -> Result<(), AllocError>
    requires some { 0 < length front.old.items }
    requires few { count < 2 ^ 32 }
    requires keys { length keys.now ≡ count * words }
    requires named { AllByRecursion (λ r. r ≤ count - 1) front.old.items }
    ensures some { 0 < length front.new.items }
    ensures named { AllByRecursion (λ r. r ≤ count - 1) front.new.items }
{
    let slots = if words < LONG { SLOTS } else { 2 * SLOTS };
    if count * slots >= front.len() {
        *front = front_of(alloc, keys, words, count, front.len() * 2)?;
    }
    Ok(())
}

/// The vectors that the hashes may be those of.
#[inline(always)]
pub(crate) fn guesses(front: &[u32], hashes: &[u64; 16], count: usize) -> [usize; 16]
    requires some { 0 < length front.now }
    requires vectors { 0 < count }
    requires named { AllByRecursion (λ r. r ≤ count - 1) front.now }
    ensures { AllByRecursion (λ i. i < count) result }
{
    let mut guesses = [0; 16];
    for r in 0..LANES {
        guesses[r] = front[slot_of(hashes[r], front.len())] as usize;
    }
    guesses
}

/// The vector that a hash may be that of, where the slot of the hash names another.
#[inline(always)]
pub(crate) fn second_guess(front: &[u32], hash: u64, count: usize) -> usize
    requires some { 0 < length front.now }
    requires vectors { 0 < count }
    requires named { AllByRecursion (λ r. r ≤ count - 1) front.now }
    ensures { result < count }
{
    let slots = front.len();
    front[slot_behind(slot_of(hash, slots), slots)] as usize
}

/// The first bits, so many.
#[inline(always)]
pub(crate) fn first_bits(bits: u32, count: usize) -> u32
    requires { count ≤ LANES }
    ensures { (r : ℕ) → result / 2 ^ r % 2 ≡ 1 → (r < count) × (bits / 2 ^ r % 2 ≡ 1) }
{
    bits % (1 << count)
}
