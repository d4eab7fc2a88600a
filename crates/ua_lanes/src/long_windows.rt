//! A window on vectors in words: the lines of an operation, and what is known by them of sixteen tuples.

ghost use Rattle.std.specs.Prelude.{◌≡◌, ◌*◌, ◌^◌, ◌<◌, ◌≤◌, length, slice_index, IfOk};
ghost use Rattle.std.specs.List.{AllByRecursion};
ghost use Rattle.ua_table.specs.Algebras.{Product, arities};
ghost use Rattle.ua_lanes.specs.LargeLanes.{AreQuadVectors, IsLongWindow};
ghost use Rattle.ua_lanes.specs.inner.LargeLanes.{IsLongLinedFor};
ghost use Rattle.ua_columns.specs.Quads.{QuadVectors};
ghost use Rattle.ua_lanes.specs.Windows.{tuple_of, AreBitsOf};

use crate::long_lines::write_long_lines;
use crate::windows::agree;
use std::alloc::{AllocError, Global};
use ua_columns::{LANES, Quads};
use ua_rows::ENTRIES;
use ua_table::{Elem, Frame};

/// The lines of an operation at some tuples.
#[derive(Drop, Debug)]
pub(crate) struct LongWindow {
    op: u32,
    /// The tuples agree with this one but at the free place.
    fixed: [u32; 4],
    free: usize,
    /// Whether the lines are those of the operation at these tuples.
    lined: bool,
    /// The lines of the coordinates, each as long as the greatest size.
    lines: Vec<Elem>,
    /// Room for the words of sixteen values, one behind the other.
    values: Vec<u64>,
}

impl LongWindow {
    /// The window without lines, for vectors of this width with entries below this size.
    pub(crate) fn new(alloc: Global, width: usize, size: usize) -> Result<LongWindow, AllocError>
        requires width { width ≤ 4096 }
        requires small { size < 2 ^ 16 }
        ensures { IfOk result (λ w. (p : Product) (quads : QuadVectors) → width ≡ quads.width → size ≡ quads.size → IsLongWindow p quads w) }
    {
        let words = width.div_ceil(ENTRIES);
        Ok(LongWindow {
            op: u32::MAX,
            fixed: [0; 4],
            free: 0,
            lined: false,
            lines: vec![in alloc; 0u16; ENTRIES * size * words]?,
            values: vec![in alloc; 0u64; LANES * words]?,
        })
    }

    /// Sees to it that the lines are those of an operation at a tuple, where the argument at this place is free.
    fn line(&mut self, frame: &Frame, quads: &Quads, op: u32, args: &[u32; 4], place: usize)
        requires vectors { AreQuadVectors frame.now quads.now }
        requires window { IsLongWindow frame.now quads.now self.old }
        requires operation { op < length (arities frame.now) }
        requires place { place < slice_index (arities frame.now) op }
        requires named { AllByRecursion (λ a. a < length quads.now.items) (tuple_of frame.now op args.now) }
        ensures window { IsLongWindow frame.now quads.now self.new }
        ensures lined { IsLongLinedFor self.new op args.now place }
    {
        if self.lined && self.op == op && self.free == place && agree(args, &self.fixed, place) {
            return;
        }
        let arity = usize::from(frame.algebra_at(0).op(op).arity());
        write_long_lines(
            frame,
            quads,
            op,
            &args[..arity],
            place,
            self.lines.as_mut_slice(),
        );
        self.op = op;
        self.fixed = *args;
        self.free = place;
        self.lined = true;
    }

    /// What is known of an operation at the tuples that differ from this one at a place alone, with the sixteen
    /// numbers there that stand beside its own: a bit for each.
    #[inline(never)]
    pub(crate) fn known(
        &mut self,
        frame: &Frame,
        quads: &Quads,
        op: u32,
        args: &[u32; 4],
        place: usize,
    ) -> u32
        requires vectors { AreQuadVectors frame.now quads.now }
        requires window { IsLongWindow frame.now quads.now self.old }
        requires operation { op < length (arities frame.now) }
        requires place { place < slice_index (arities frame.now) op }
        requires few { place < 4 }
        requires named { AllByRecursion (λ a. a < length quads.now.items) (tuple_of frame.now op args.now) }
        ensures window { IsLongWindow frame.now quads.now self.new }
        ensures known { AreBitsOf frame.now quads.now.items op args.now place result }
    {
        self.line(frame, quads, op, args, place);
        quads.known(
            self.lines.as_slice(),
            args[place] as usize / 16,
            self.values.as_mut_slice(),
        )
    }
}
