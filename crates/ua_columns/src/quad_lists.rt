//! Vectors with entries below a size, by words of four entries each, with a front that guesses a vector by its hash.

ghost use Rattle.std.specs.Prelude.{◌≡◌, ℕ, ◌+◌, ◌*◌, ◌/◌, ◌%◌, ◌^◌, ◌<◌, ◌≤◌, ◌++◌, [], ◌∷◌, length, take, slice_index, slice_index_or, slice_range, OnOk, IfOk};
ghost use Rattle.std.specs.List.{AllByRecursion};
ghost use Rattle.ua_table.specs.Algebras.{column};
ghost use Rattle.ua_rows.specs.RowLists.{rows_at};
ghost use Rattle.ua_rows.specs.Words.{lanes_of, words_for};
ghost use Rattle.ua_columns.specs.Columns.{AreKnown};
ghost use Rattle.ua_columns.specs.Quads.{AreLongLines};

use crate::fronts::{FRONT, enter, first_bits, hash_of, reserve_slots};
use crate::key_blocks::known_keys;
use crate::quads::write_values;
use crate::tiles::LANES;
use std::alloc::{AllocError, Global};
use std::marker::Model;
use ua_rows::{ENTRIES, elements_of, number_of};
use ua_table::Elem;

/// The entry of a vector, and 0 past its end.
#[inline(always)]
fn entry_or_zero(v: &[Elem], x: usize) -> Elem
    ensures { result ≡ slice_index v.now x }
{
    if x < v.len() { v[x] } else { 0 }
}

/// The word of the four entries of a vector from this one on.
fn word_from(v: &[Elem], x: usize) -> u64
    requires { x + 3 < 2 ^ 64 }
    ensures { (e : ℕ) → e < 4 → slice_index (lanes_of result) e ≡ slice_index v.now (x + e) }
{
    number_of([
        entry_or_zero(v, x),
        entry_or_zero(v, x + 1),
        entry_or_zero(v, x + 2),
        entry_or_zero(v, x + 3),
    ])
}

/// Writes the words of a vector.
fn write_key(v: &[Elem], size: usize, key: &mut [u64])
    requires some { 0 < size }
    requires entries { AllByRecursion (λ x. x < size) v.now }
    requires few { 4 * length key.old + 3 < 2 ^ 64 }
    ensures length { length key.new ≡ length key.old }
    ensures entries { (j e : ℕ) → j < length key.new → e < 4 → slice_index (lanes_of (slice_index key.new j)) e ≡ slice_index v.now (4 * j + e) }
{
    for j in 0..key.len() {
        key[j] = word_from(v, ENTRIES * j);
    }
}

/// Word k of some keys.
#[inline(always)]
fn word_in(keys: &[u64], k: usize) -> u64
    requires { k < length keys.now }
    ensures { result ≡ slice_index keys.now k }
{
    keys[k]
}

/// The words of a block of vectors, so many.
#[inline(always)]
fn block_keys(keys: &[u64], words: usize, block: usize, count: usize) -> &[u64]
    requires whole { (LANES * block + count) * words ≤ length keys.now }
    requires few { LANES * block + count < 2 ^ 32 }
    ensures part { result.now ≡ slice_range keys.now (LANES * block * words) (LANES * block * words + count * words) }
    ensures length { length result.now ≡ count * words }
{
    let start = LANES * block * words;
    &keys[start..start + count * words]
}

/// The vectors. To a contract they are the value of `specs/Quads.antt`.
#[derive(Drop, Debug)]
pub struct Quads {
    alloc: Global,
    width: usize,
    /// A number that no entry reaches.
    size: usize,
    /// How many words a vector has.
    words: usize,
    count: usize,
    /// The words of each vector.
    keys: Vec<u64>,
    /// Room for the words of one vector.
    key: Vec<u64>,
    /// Vectors by their hashes: of those that share a slot the first.
    front: Vec<u32>,
    /// Whether one more vector can be pushed without memory.
    ready: bool,
}

impl Model for Quads {
    ghost use Rattle.ua_columns.specs.Quads.{QuadVectors};

    ghost Value = { QuadVectors };

    ghost use Rattle.ua_table.specs.Counting.{one_if};
    ghost use Rattle.ua_columns.specs.Quads.{quad_vectors, AreQuads};

    ghost view = { λ a. record { width = a.width; size = a.size; items = quad_vectors a.width a.keys.items a.count; spare = one_if a.ready } };

    ghost invariant = { λ a. AreQuads a.width a.size a.words a.count a.keys a.key.items a.front.items a.ready };
}

impl Quads {
    /// No vectors of this width, with entries below this size.
    pub fn new(alloc: Global, width: usize, size: usize) -> Result<Quads, AllocError>
        requires width { width < 2 ^ 32 }
        requires some { 0 < size }
        requires small { size < 2 ^ 16 }
        ensures width { IfOk result (λ quads. quads.width ≡ width) }
        ensures size { IfOk result (λ quads. quads.size ≡ size) }
        ensures empty { IfOk result (λ quads. quads.items ≡ []) }
    {
        let words = width.div_ceil(ENTRIES);
        Ok(Quads {
            alloc,
            width,
            size,
            words,
            count: 0,
            keys: Vec::new(alloc),
            key: vec![in alloc; 0u64; words]?,
            front: vec![in alloc; 0u32; FRONT]?,
            ready: false,
        })
    }

    /// A number that no entry reaches.
    pub fn size(&self) -> usize
        ensures { result ≡ self.now.size }
    {
        self.size
    }

    /// Entry x of vector i.
    #[inline(always)]
    pub fn entry(&self, i: usize, x: usize) -> Elem
        requires vector { i < length self.now.items }
        requires coordinate { x < self.now.width }
        ensures { result ≡ slice_index (slice_index_or self.now.items i []) x }
    {
        let word = word_in(self.keys.as_slice(), i * self.words + x / ENTRIES);
        elements_of(word)[x % ENTRIES]
    }

    /// The entries of some vectors at a coordinate, with zeros after them.
    pub fn entries_at(&self, args: &[u32], x: usize) -> [Elem; 4]
        requires few { length args.now ≤ 4 }
        requires named { AllByRecursion (λ a. a < length self.now.items) args.now }
        requires coordinate { x < self.now.width }
        ensures { take (length args.now) result ≡ column (rows_at self.now.items args.now) x }
    {
        let mut entries = [0; 4];
        for (j, a) in args.iter().enumerate() {
            entries[j] = self.entry(*a as usize, x);
        }
        entries
    }

    /// Makes room for one more vector. After want of memory the vectors are as they were.
    pub fn reserve(&mut self) -> Result<(), AllocError>
        ensures width { self.new.width ≡ self.old.width }
        ensures size { self.new.size ≡ self.old.size }
        ensures items { self.new.items ≡ self.old.items }
        ensures ok { OnOk result (0 < self.new.spare) }
    {
        if self.ready {
            return Ok(());
        }
        // The front names a vector by 32 bits.
        if self.count >= u32::MAX as usize {
            return Err(AllocError);
        }
        self.keys.reserve(self.words)?;
        reserve_slots(
            self.alloc,
            &mut self.front,
            self.keys.as_slice(),
            self.words,
            self.count,
        )?;
        self.ready = true;
        Ok(())
    }

    /// Appends a vector. It takes no memory.
    pub fn push_reserved(&mut self, v: &[Elem])
        requires width { length v.now ≡ self.old.width }
        requires entries { AllByRecursion (λ x. x < self.old.size) v.now }
        requires spare { 0 < self.old.spare }
        ensures width { self.new.width ≡ self.old.width }
        ensures size { self.new.size ≡ self.old.size }
        ensures items { self.new.items ≡ self.old.items ++ v.now ∷ [] }
    {
        write_key(v, self.size, self.key.as_mut_slice());
        self.keys.extend_from_slice(self.key.as_slice()).unwrap();
        let hash = hash_of(self.key.as_slice());
        enter(&mut self.front, hash, self.count as u32);
        self.count += 1;
        self.ready = false;
    }

    /// A bit for each vector of a block of sixteen of which the values of the lines are known to be a vector that
    /// is there. It writes these values as it goes.
    pub fn known(&self, lines: &[Elem], block: usize, values: &mut [u64]) -> u32
        requires block { 16 * block < length self.now.items }
        requires lines { 4 * self.now.size * words_for self.now.width ≤ length lines.now }
        requires values { length values.old ≡ LANES * words_for self.now.width }
        ensures values { length values.new ≡ length values.old }
        ensures known { (f : ℕ → ℕ → ℕ) → AreLongLines self.now.size self.now.width f lines.now → AreKnown self.now.items f block result }
    {
        let count = (self.count - LANES * block).min(LANES);
        let keys = block_keys(self.keys.as_slice(), self.words, block, count);
        let hashes = write_values(lines, self.size, keys, self.words, count, values);
        let bits = known_keys(
            self.keys.as_slice(),
            self.front.as_slice(),
            &hashes,
            values,
            self.words,
            self.count,
        );
        first_bits(bits, count)
    }
}
