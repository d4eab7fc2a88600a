//! Vectors with entries below sixteen or sixty-four: by columns in blocks of sixteen vectors, by packed words, and with
//! a front that guesses a vector by its hash.

ghost use Rattle.std.specs.Prelude.{◌≡◌, ◌≢◌, ℕ, ◌+◌, ◌-◌, ◌*◌, ◌/◌, ◌%◌, ◌^◌, ◌<◌, ◌≤◌, ◌++◌, [], ◌∷◌, length, slice_index, slice_index_or, take, OnOk, IfOk};
ghost use Rattle.std.specs.List.{AllByRecursion};
ghost use Rattle.ua_columns.specs.Columns.{limit, digits, base, tables, AreBelow, entry_of, word_of, key_of, block_of, tiles_for, words_for, AreLinesOf, AreKnown};

use crate::blocks::{known_lanes, write_digits};
use crate::fronts::{FRONT, enter, first_bits, hash_of, reserve_slots};
use crate::tiles::{LANES, Tile, push_tiles};
use std::alloc::{AllocError, Global};
use std::marker::Model;
use ua_table::Elem;

/// The entry of a lane in a column.
#[inline(always)]
fn entry_in(column: &[u8; 16], lane: usize) -> u8
    requires { lane < LANES }
    ensures { result ≡ slice_index column.now lane }
{
    column[lane]
}

/// Writes the entry of a lane in a column.
#[inline(always)]
pub fn set_entry(column: &mut [u8; 16], lane: usize, entry: u8)
    requires lane { lane < LANES }
    ensures lane { slice_index column.new lane ≡ entry }
    ensures others { (r : ℕ) → r ≢ lane → slice_index column.new r ≡ slice_index column.old r }
    ensures low { (n : ℕ) → entry < n → AllByRecursion (λ x. x < n) column.old → AllByRecursion (λ x. x < n) column.new }
{
    column[lane] = entry;
}

/// Writes an entry of a lane in a tile.
fn write_entry(tile: &mut Tile, c: usize, lane: usize, entry: u8)
    requires column { c < LANES }
    requires lane { lane < LANES }
    ensures low { (n : ℕ) → entry < n → AllByRecursion (AllByRecursion (λ x. x < n)) tile.old → AllByRecursion (AllByRecursion (λ x. x < n)) tile.new }
    ensures entry { slice_index (slice_index_or tile.new c []) lane ≡ entry }
    ensures lanes { (k r : ℕ) → r ≢ lane → slice_index (slice_index_or tile.new k []) r ≡ slice_index (slice_index_or tile.old k []) r }
    ensures columns { (k r : ℕ) → k ≢ c → slice_index (slice_index_or tile.new k []) r ≡ slice_index (slice_index_or tile.old k []) r }
{
    set_entry(&mut tile[c], lane, entry);
}

/// Writes the entries of a vector into a lane of a block.
fn write_lane(block: &mut [Tile], v: &[Elem], lane: usize)
    requires lane { lane < LANES }
    requires wide { length v.now ≤ LANES * length block.old }
    requires bytes { AllByRecursion (λ x. x < 256) v.now }
    ensures length { length block.new ≡ length block.old }
    ensures low { (n : ℕ) → AllByRecursion (λ x. x < n) v.now → AreBelow n block.old → AreBelow n block.new }
    ensures lane { (x : ℕ) → x < length v.now → entry_of block.new lane x ≡ slice_index v.now x }
    ensures others { (r x : ℕ) → r ≢ lane → entry_of block.new r x ≡ entry_of block.old r x }
{
    for (x, entry) in v.iter().enumerate() {
        write_entry(&mut block[x / LANES], x % LANES, lane, *entry as u8);
    }
}

/// Writes the entries of a vector into a lane of a block of some tiles.
fn enter_lane(tiles: &mut [Tile], parts: usize, block: usize, v: &[Elem], lane: usize)
    requires lane { lane < LANES }
    requires whole { block * parts + parts ≤ length tiles.old }
    requires wide { length v.now ≤ LANES * parts }
    requires bytes { AllByRecursion (λ x. x < 256) v.now }
    ensures length { length tiles.new ≡ length tiles.old }
    ensures low { (n : ℕ) → AllByRecursion (λ x. x < n) v.now → AreBelow n tiles.old → AreBelow n tiles.new }
    ensures others { (b : ℕ) → b ≢ block → block_of tiles.new parts b ≡ block_of tiles.old parts b }
    ensures lane { (x : ℕ) → x < length v.now → entry_of (block_of tiles.new parts block) lane x ≡ slice_index v.now x }
    ensures lanes { (r x : ℕ) → r ≢ lane → entry_of (block_of tiles.new parts block) r x ≡ entry_of (block_of tiles.old parts block) r x }
{
    let start = block * parts;
    write_lane(&mut tiles[start..start + parts], v, lane);
}

/// Entry x of a lane of a block.
#[inline(always)]
fn entry_at(block: &[Tile], lane: usize, x: usize) -> u8
    requires lane { lane < LANES }
    requires coordinate { x < LANES * length block.now }
    ensures { result ≡ entry_of block.now lane x }
{
    let tile = &block[x / LANES];
    entry_in(&tile[x % LANES], lane)
}

/// The entries of a lane of a block from this one on, as one word: eight of a byte each, or sixteen of half a byte.
fn word_at(block: &[Tile], in_bytes: bool, lane: usize, first: usize) -> u64
    requires lane { lane < LANES }
    requires low { AreBelow (limit in_bytes) block.now }
    requires within { first + digits in_bytes ≤ LANES * length block.now }
    ensures { result ≡ word_of (base in_bytes) (digits in_bytes) block.now lane first }
{
    let (mut c, radix): (usize, u64) = if in_bytes { (8, 256) } else { (16, 16) };
    let mut word = 0;
    while c > 0 {
        c -= 1;
        word = word * radix + u64::from(entry_at(block, lane, first + c));
    }
    word
}

/// Writes the words of a lane of a block.
fn write_key(block: &[Tile], in_bytes: bool, lane: usize, key: &mut [u64])
    requires lane { lane < LANES }
    requires low { AreBelow (limit in_bytes) block.now }
    requires within { digits in_bytes * length key.old ≤ LANES * length block.now }
    ensures { key.new ≡ key_of in_bytes (length key.old) block.now lane }
{
    let digits: usize = if in_bytes { 8 } else { 16 };
    for j in 0..key.len() {
        key[j] = word_at(block, in_bytes, lane, digits * j);
    }
}

/// Sees to it that there is a block with a lane for one more vector.
fn reserve_block(
    tiles: &mut Vec<Tile>,
    blocks: &mut usize,
    parts: usize,
    count: usize,
) -> Result<(), AllocError>
    requires few { count < 2 ^ 32 }
    requires whole { blocks.old * parts ≤ length tiles.old.items }
    requires within { count ≤ 16 * blocks.old }
    requires tight { 16 * blocks.old ≤ count + 16 }
    ensures front { take (length tiles.old.items) tiles.new.items ≡ tiles.old.items }
    ensures low { (n : ℕ) → 0 < n → AreBelow n tiles.old.items → AreBelow n tiles.new.items }
    ensures whole { blocks.new * parts ≤ length tiles.new.items }
    ensures within { count ≤ 16 * blocks.new }
    ensures tight { 16 * blocks.new ≤ count + 16 }
    ensures room { OnOk result (count < 16 * blocks.new) }
{
    if count == LANES * *blocks {
        push_tiles(tiles, parts)?;
        *blocks += 1;
    }
    Ok(())
}

/// The block of this number.
#[inline(always)]
fn block_in(tiles: &[Tile], parts: usize, block: usize) -> &[Tile]
    requires { block * parts + parts ≤ length tiles.now }
    ensures block { result.now ≡ block_of tiles.now parts block }
    ensures length { length result.now ≡ parts }
{
    let start = block * parts;
    &tiles[start..start + parts]
}

/// The vectors. To a contract they are the value of `specs/Columns.antt`.
#[derive(Drop, Debug)]
pub struct Columns {
    alloc: Global,
    width: usize,
    /// Whether an entry takes a byte of a word, and not half of one.
    in_bytes: bool,
    /// How many tiles a block has.
    parts: usize,
    /// How many words a vector has.
    words: usize,
    count: usize,
    blocks: usize,
    /// A tile for each sixteen coordinates of each block.
    tiles: Vec<Tile>,
    /// The words of each vector.
    keys: Vec<u64>,
    /// Room for the words of one vector.
    key: Vec<u64>,
    /// Vectors by their hashes: of those that share a slot the first.
    front: Vec<u32>,
    /// Whether one more vector can be pushed without memory.
    ready: bool,
}

impl Model for Columns {
    ghost use Rattle.ua_columns.specs.Columns.{VectorColumns};

    ghost Value = { VectorColumns };

    ghost use Rattle.ua_table.specs.Counting.{one_if};
    ghost use Rattle.ua_columns.specs.Columns.{vectors_in, AreColumns};

    ghost view = { λ a. record { width = a.width; in_bytes = a.in_bytes; items = vectors_in a.width a.tiles.items a.count; spare = one_if a.ready } };

    ghost invariant = { λ a. AreColumns a.width a.in_bytes a.parts a.words a.count a.blocks a.tiles.items a.keys a.key.items a.front.items a.ready };
}

impl Columns {
    /// No vectors of this width, with entries below sixty-four, each a byte of a word, or below sixteen, each half of one.
    pub fn new(alloc: Global, width: usize, in_bytes: bool) -> Result<Columns, AllocError>
        requires { width < 2 ^ 32 }
        ensures width { IfOk result (λ columns. columns.width ≡ width) }
        ensures in_bytes { IfOk result (λ columns. columns.in_bytes ≡ in_bytes) }
        ensures empty { IfOk result (λ columns. columns.items ≡ []) }
    {
        let words = width.div_ceil(if in_bytes { 8 } else { 16 });
        Ok(Columns {
            alloc,
            width,
            in_bytes,
            parts: width.div_ceil(LANES),
            words,
            count: 0,
            blocks: 0,
            tiles: Vec::new(alloc),
            keys: Vec::new(alloc),
            key: vec![in alloc; 0u64; words]?,
            front: vec![in alloc; 0u32; FRONT]?,
            ready: false,
        })
    }

    /// How many vectors there are.
    #[inline(always)]
    pub fn len(&self) -> usize
        ensures len { result ≡ length self.now.items }
        ensures few { result < 2 ^ 32 }
    {
        self.count
    }

    /// Whether an entry takes a byte of a word, and not half of one.
    #[inline(always)]
    pub fn is_in_bytes(&self) -> bool
        ensures { result ≡ self.now.in_bytes }
    {
        self.in_bytes
    }

    /// Entry x of vector i.
    pub fn entry(&self, i: usize, x: usize) -> u8
        requires vector { i < length self.now.items }
        requires coordinate { x < self.now.width }
        ensures { result ≡ slice_index (slice_index_or self.now.items i []) x }
    {
        let block = block_in(self.tiles.as_slice(), self.parts, i / LANES);
        entry_at(block, i % LANES, x)
    }

    /// Makes room for one more vector. After want of memory the vectors are as they were.
    pub fn reserve(&mut self) -> Result<(), AllocError>
        ensures width { self.new.width ≡ self.old.width }
        ensures in_bytes { self.new.in_bytes ≡ self.old.in_bytes }
        ensures items { self.new.items ≡ self.old.items }
        ensures ok { OnOk result (0 < self.new.spare) }
    {
        if self.ready {
            return Ok(());
        }
        // The front names a vector by 32 bits.
        if self.count >= u32::MAX as usize {
            return Err(AllocError);
        }
        reserve_block(&mut self.tiles, &mut self.blocks, self.parts, self.count)?;
        self.keys.reserve(self.words)?;
        reserve_slots(
            self.alloc,
            &mut self.front,
            self.keys.as_slice(),
            self.words,
            self.count,
        )?;
        self.ready = true;
        Ok(())
    }

    /// Appends a vector. It takes no memory.
    pub fn push_reserved(&mut self, v: &[Elem])
        requires width { length v.now ≡ self.old.width }
        requires entries { AllByRecursion (λ x. x < limit self.old.in_bytes) v.now }
        requires spare { 0 < self.old.spare }
        ensures width { self.new.width ≡ self.old.width }
        ensures in_bytes { self.new.in_bytes ≡ self.old.in_bytes }
        ensures items { self.new.items ≡ self.old.items ++ v.now ∷ [] }
    {
        let (block, lane) = (self.count / LANES, self.count % LANES);
        enter_lane(self.tiles.as_mut_slice(), self.parts, block, v, lane);
        let columns = block_in(self.tiles.as_slice(), self.parts, block);
        write_key(columns, self.in_bytes, lane, self.key.as_mut_slice());
        self.keys.extend_from_slice(self.key.as_slice()).unwrap();
        let hash = hash_of(self.key.as_slice());
        enter(&mut self.front, hash, self.count as u32);
        self.count += 1;
        self.ready = false;
    }

    /// A bit for each vector of a block of which the values of the lines are known to be a vector that is there.
    /// It writes these values, and their words, as it goes.
    pub fn known(&self, lines: &[Tile], block: usize, values: &mut [[u64; 16]]) -> u32
        requires block { 16 * block < length self.now.items }
        requires lines { length lines.now ≡ tables self.now.in_bytes * tiles_for self.now.width }
        requires bytes { AreBelow 256 lines.now }
        requires values { length values.old ≡ words_for self.now.in_bytes self.now.width }
        ensures values { length values.new ≡ length values.old }
        ensures known { (f : ℕ → ℕ → ℕ) → AreLinesOf self.now.in_bytes f lines.now → AreKnown self.now.items f block result }
    {
        let tiles = block_in(self.tiles.as_slice(), self.parts, block);
        let hashes = write_digits(lines, tiles, self.in_bytes, values);
        let bits = known_lanes(
            self.keys.as_slice(),
            self.front.as_slice(),
            &hashes,
            values,
            self.count,
        );
        first_bits(bits, (self.count - LANES * block).min(LANES))
    }
}
