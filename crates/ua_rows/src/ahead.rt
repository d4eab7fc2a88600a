//! The values of a unary operation at many rows, computed and looked for together.

ghost use Rattle.std.specs.Prelude.{◌≡◌, ◌<◌, ◌≤◌, [], false, length, slice_index, slice_index_or, replicate, IfOk, IfSome, IfNone};
ghost use Rattle.std.specs.List.{AllByRecursion};
ghost use Rattle.ua_table.specs.Algebras.{Vector, IsVector, arities};
ghost use Rattle.ua_rows.specs.Applied.{AreApplied, AreFound};

use crate::{Operations, Rows, Scratch};
use std::alloc::{AllocError, Global};
use std::marker::Model;

/// How many rows are looked at together.
pub const AHEAD: usize = 16;

/// The values of a unary operation at some rows, each with its hash, and of each whether it was found.
#[derive(Drop, Debug)]
pub struct Ahead {
    width: u32,
    vectors: Vec<Scratch>,
    /// How many of the vectors are values: the first.
    count: usize,
    found: [bool; AHEAD],
    /// Bits of what was read. They are kept so that the reads are not left out.
    near: u32,
}

impl Model for Ahead {
    ghost use Rattle.std.specs.Prelude.{◌≡◌, ◌≤◌, length, take};
    ghost use Rattle.std.specs.List.{AllByRecursion};
    ghost use Rattle.ua_table.specs.Algebras.{Vector};
    ghost use Rattle.ua_rows.specs.Applied.{SoughtValues};

    ghost Value = { SoughtValues };

    ghost view = { λ a. record { width = a.width; values = take a.count a.vectors.items; found = a.found } };

    ghost invariant = { λ a. (a.count ≤ length a.vectors.items) × AllByRecursion (λ (v : Vector). length v ≡ a.width) a.vectors.items };
}

/// Writes the values of a unary operation at some rows to the first vectors, and looks for each of them: which were
/// found, and bits of what was read on the way.
///
/// The buckets of all the values are read before any value is looked for. So close together the reads do
/// not wait for one another.
#[inline(always)]
fn seek_each(
    operations: &Operations,
    op: u32,
    rows: &Rows,
    args: &[u32],
    vectors: &mut [Scratch],
) -> ([bool; AHEAD], u32)
    requires operation { op < length (arities operations.now) }
    requires unary { slice_index (arities operations.now) op ≡ 1 }
    requires few { length args.now ≤ AHEAD }
    requires named { AllByRecursion (λ a. a < length rows.now.items) args.now }
    requires rows { AllByRecursion (IsVector operations.now) rows.now.items }
    requires width { rows.now.width ≡ length operations.now }
    requires room { length args.now ≤ length vectors.old }
    requires widths { AllByRecursion (λ (v : Vector). length v ≡ length operations.now) vectors.old }
    ensures values { AreApplied operations.now op rows.now.items args.now (length args.now) vectors.new }
    ensures found { AreFound operations.now op rows.now.items args.now (length args.now) result.0 }
    ensures room { length vectors.new ≡ length vectors.old }
    ensures widths { AllByRecursion (λ (v : Vector). length v ≡ length operations.now) vectors.new }
{
    operations.apply_unary_at_each(op, rows, args, vectors);
    let near = rows.near(&vectors[..args.len()]);
    let mut found = [false; AHEAD];
    for k in 0..args.len() {
        found[k] = rows.find_scratch(&vectors[k]).is_some();
    }
    (found, near)
}

impl Ahead {
    /// No values, and room for so many of this width, at most `AHEAD`.
    pub fn new(alloc: Global, width: u32, count: usize) -> Result<Ahead, AllocError>
        ensures { IfOk result (λ ahead. ahead ≡ record { width = width; values = []; found = replicate AHEAD false }) }
    {
        let mut vectors = Vec::new(alloc);
        for _ in 0..count.min(AHEAD) {
            vectors.push(Scratch::new(alloc, width)?)?;
        }
        Ok(Ahead {
            width,
            vectors,
            count: 0,
            found: [false; AHEAD],
            near: 0,
        })
    }

    /// Computes the values of a unary operation at some rows, as many of the first as there is room for, and
    /// looks for each among the rows. It takes no memory.
    pub fn seek(&mut self, operations: &Operations, op: u32, rows: &Rows, args: &[u32])
        requires operation { op < length (arities operations.now) }
        requires unary { slice_index (arities operations.now) op ≡ 1 }
        requires named { AllByRecursion (λ a. a < length rows.now.items) args.now }
        requires rows { AllByRecursion (IsVector operations.now) rows.now.items }
        requires width { rows.now.width ≡ length operations.now }
        requires room { self.old.width ≡ length operations.now }
        ensures width { self.new.width ≡ self.old.width }
        ensures within { length self.new.values ≤ length args.now }
        ensures values { AreApplied operations.now op rows.now.items args.now (length self.new.values) self.new.values }
        ensures found { AreFound operations.now op rows.now.items args.now (length self.new.values) self.new.found }
    {
        let count = args.len().min(self.vectors.len()).min(AHEAD);
        let vectors = self.vectors.as_mut_slice();
        let (found, near) = seek_each(operations, op, rows, &args[..count], vectors);
        self.count = count;
        self.found = found;
        self.near = near;
    }

    /// Whether value k, where there are so many, was found when it was looked for.
    #[inline(always)]
    pub fn is_found(&self, k: usize) -> bool
        requires { k < AHEAD }
        ensures { result ≡ slice_index_or self.now.found k false }
    {
        self.found[k]
    }

    /// Value k, or None where there are not so many.
    #[inline(always)]
    pub fn value(&self, k: usize) -> Option<&Scratch>
        ensures value { IfSome result (λ v. (k < length self.now.values) × (v.now ≡ slice_index_or self.now.values k [])) }
        ensures none { IfNone result (length self.now.values ≤ k) }
    {
        if k >= self.count {
            return None;
        }
        Some(&self.vectors[k])
    }
}
