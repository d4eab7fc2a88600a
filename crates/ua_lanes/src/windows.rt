//! A window: what is known of the tuples that differ in one place alone, with sixteen numbers there.

ghost use Rattle.std.specs.Prelude.{◌≡◌, ◌≢◌, ℕ, ◌*◌, ◌/◌, ◌<◌, ◌≤◌, Bool, List, [], length, slice_index, IsTrue, IfSome, IfOk};
ghost use Rattle.std.specs.List.{AllByRecursion};
ghost use Rattle.ua_table.specs.Algebras.{Vector, Product, arities};
ghost use Rattle.ua_columns.specs.Columns.{tables, tiles_for, words_for};
ghost use Rattle.ua_lanes.specs.Windows.{AreVectors, AreBitsOf, IsWindow, tuple_of};
ghost use Rattle.ua_lanes.specs.inner.Windows.{IsLinedFor};

use crate::lines::write_lines;
use std::alloc::{AllocError, Global};
use ua_columns::{Columns, Tile, push_tiles};
use ua_table::Frame;

/// How many vectors there are at least where a window is worth its lines.
const FEW: usize = 32;

/// What is known of an operation at some tuples.
#[derive(Drop, Debug)]
pub(crate) struct Window {
    op: u32,
    /// The tuples agree with this one but at the free place.
    fixed: [u32; 4],
    free: usize,
    /// Whether the lines are those of the operation at these tuples.
    lined: bool,
    /// The numbers at the free place are sixteen times this one, and the next fifteen.
    block: u32,
    /// A bit for each of them: whether the value is known to be a vector that is there.
    known: u32,
    lines: Vec<Tile>,
    /// Room for the words of sixteen values.
    values: Vec<[u64; 16]>,
}

/// Whether two tuples agree but perhaps at one place.
#[inline(always)]
pub(crate) fn agree(a: &[u32; 4], b: &[u32; 4], free: usize) -> bool
    ensures { IsTrue result → (j : ℕ) → j < 4 → j ≢ free → slice_index a.now j ≡ slice_index b.now j }
{
    for j in 0..4 {
        if a[j] != b[j] && j != free {
            return false;
        }
    }
    true
}

impl Window {
    /// The window that tells nothing, for vectors of so many words, with so many tiles of lines.
    pub(crate) fn new(alloc: Global, tiles: usize, words: usize) -> Result<Window, AllocError>
        ensures { IfOk result (λ w. (p : Product) (in_bytes : Bool) → tiles ≡ tables in_bytes * tiles_for (length p) → words ≡ words_for in_bytes (length p) → IsWindow p in_bytes [] w) }
    {
        let mut lines = Vec::new(alloc);
        push_tiles(&mut lines, tiles)?;
        Ok(Window {
            op: u32::MAX,
            fixed: [0; 4],
            free: 0,
            lined: false,
            block: 0,
            known: 0,
            lines,
            values: vec![in alloc; [0u64; 16]; words]?,
        })
    }

    /// What is known of an operation at the tuples that this one is of: those that differ at a place alone, with
    /// the sixteen numbers there that stand beside its own. None where the window is of other tuples.
    #[inline(always)]
    fn told(&self, op: u32, args: &[u32; 4], place: usize) -> Option<u32>
        requires { place < 4 }
        ensures { (p : Product) (in_bytes : Bool) (items : List Vector) → IsWindow p in_bytes items self.now → IfSome result (AreBitsOf p items op args.now place) }
    {
        if self.op != op || self.free != place || !agree(args, &self.fixed, place) {
            return None;
        }
        if args[place] / 16 != self.block {
            return None;
        }
        Some(self.known)
    }

    /// Writes the lines of an operation where the argument at this place is free, and the others are those of
    /// a tuple.
    fn write(
        &mut self,
        frame: &Frame,
        columns: &Columns,
        op: u32,
        args: &[u32; 4],
        arity: usize,
        free: usize,
    )
        requires vectors { AreVectors frame.now columns.now }
        requires window { IsWindow frame.now columns.now.in_bytes columns.now.items self.old }
        requires operation { op < length (arities frame.now) }
        requires arity { arity ≡ slice_index (arities frame.now) op }
        requires few { arity ≤ 4 }
        requires free { free < arity }
        requires named { AllByRecursion (λ a. a < length columns.now.items) (tuple_of frame.now op args.now) }
        ensures window { IsWindow frame.now columns.now.in_bytes columns.now.items self.new }
        ensures lined { IsLinedFor self.new op args.now }
        ensures free { self.new.free ≡ free }
    {
        write_lines(
            frame,
            columns,
            op,
            &args[..arity],
            free,
            self.lines.as_mut_slice(),
        );
        self.op = op;
        self.fixed = *args;
        self.free = free;
        self.lined = true;
        self.known = 0;
    }

    /// Sees to it that the lines are those of an operation at a tuple, where the argument at this place is free.
    fn line(
        &mut self,
        frame: &Frame,
        columns: &Columns,
        op: u32,
        args: &[u32; 4],
        arity: usize,
        free: usize,
    )
        requires vectors { AreVectors frame.now columns.now }
        requires window { IsWindow frame.now columns.now.in_bytes columns.now.items self.old }
        requires operation { op < length (arities frame.now) }
        requires arity { arity ≡ slice_index (arities frame.now) op }
        requires few { arity ≤ 4 }
        requires free { free < arity }
        requires named { AllByRecursion (λ a. a < length columns.now.items) (tuple_of frame.now op args.now) }
        ensures window { IsWindow frame.now columns.now.in_bytes columns.now.items self.new }
        ensures lined { IsLinedFor self.new op args.now }
        ensures free { self.new.free ≡ free }
    {
        if self.lined && self.op == op && self.free == free && agree(args, &self.fixed, free) {
            return;
        }
        self.write(frame, columns, op, args, arity, free);
    }

    /// Makes the window that of the tuples that this one is of, and tells what is known of them.
    #[inline(never)]
    fn look(
        &mut self,
        frame: &Frame,
        columns: &Columns,
        op: u32,
        args: &[u32; 4],
        place: usize,
    ) -> u32
        requires vectors { AreVectors frame.now columns.now }
        requires window { IsWindow frame.now columns.now.in_bytes columns.now.items self.old }
        requires operation { op < length (arities frame.now) }
        requires place { place < slice_index (arities frame.now) op }
        requires named { AllByRecursion (λ a. a < length columns.now.items) (tuple_of frame.now op args.now) }
        ensures window { IsWindow frame.now columns.now.in_bytes columns.now.items self.new }
        ensures known { AreBitsOf frame.now columns.now.items op args.now place result }
    {
        if columns.len() < FEW {
            return 0;
        }
        let arity = usize::from(frame.algebra_at(0).op(op).arity());
        self.line(frame, columns, op, args, arity, place);
        self.block = args[place] / 16;
        self.known = columns.known(
            self.lines.as_slice(),
            self.block as usize,
            self.values.as_mut_slice(),
        );
        self.known
    }

    /// What is known of an operation at the tuples that differ from this one at a place alone, with the sixteen
    /// numbers there that stand beside its own: a bit for each.
    #[inline(always)]
    pub(crate) fn known(
        &mut self,
        frame: &Frame,
        columns: &Columns,
        op: u32,
        args: &[u32; 4],
        place: usize,
    ) -> u32
        requires vectors { AreVectors frame.now columns.now }
        requires window { IsWindow frame.now columns.now.in_bytes columns.now.items self.old }
        requires operation { op < length (arities frame.now) }
        requires place { place < slice_index (arities frame.now) op }
        requires few { place < 4 }
        requires named { AllByRecursion (λ a. a < length columns.now.items) (tuple_of frame.now op args.now) }
        ensures window { IsWindow frame.now columns.now.in_bytes columns.now.items self.new }
        ensures known { AreBitsOf frame.now columns.now.items op args.now place result }
    {
        match self.told(op, args, place) {
            Some(known) => known,
            None => self.look(frame, columns, op, args, place),
        }
    }
}
