//! Vectors of a product of algebras of any size in lanes.

ghost use Rattle.std.specs.Prelude.{◌≡◌, ◌<◌, ◌≤◌, ◌++◌, [], ◌∷◌, length, slice_index, OnOk, IfOk};
ghost use Rattle.std.specs.List.{AllByRecursion};
ghost use Rattle.ua_table.specs.Algebras.{IsVector, arities};
ghost use Rattle.ua_lanes.specs.Lines.{AreSizesAtMost};
ghost use Rattle.ua_lanes.specs.Windows.{tuple_of, AreBitsOf};

use crate::long_windows::LongWindow;
use std::alloc::{AllocError, Global};
use std::marker::Model;
use ua_columns::Quads;
use ua_table::{Elem, Frame};

/// How many times as long as a line a run is at least where the lines are worth their making.
const WORTH: u32 = 4;

/// Whether a tuple has an entry at least this great.
#[inline(always)]
fn is_late(args: &[u32; 4], late: u32) -> bool {
    args[0] >= late || args[1] >= late || args[2] >= late || args[3] >= late
}

/// The vectors, by words. To a contract they are the value of `specs/LaneLists.antt`.
#[derive(Drop)]
pub(crate) struct LargeLanes<'a> {
    frame: &'a Frame<'a>,
    quads: Quads,
    window: LongWindow,
    /// A row of a tuple at least this great makes a run so long that its lines are worth their making.
    late: u32,
}

impl<'a> Model for LargeLanes<'a> {
    ghost use Rattle.ua_lanes.specs.LaneLists.{LaneList};

    ghost Value = { LaneList };

    ghost use Rattle.ua_lanes.specs.LargeLanes.{AreLargeLanes};

    ghost view = { λ a. record { product = a.frame.now; items = a.quads.items; spare = a.quads.spare } };

    ghost invariant = { λ a. AreLargeLanes a.frame.now a.quads a.window };
}

impl<'a> LargeLanes<'a> {
    /// No vectors of a frame whose algebras have at most so many elements.
    pub(crate) fn new(
        alloc: Global,
        frame: &'a Frame<'a>,
        size: u32,
    ) -> Result<LargeLanes<'a>, AllocError>
        requires width { length frame.now ≤ 4096 }
        requires sizes { AreSizesAtMost size frame.now }
        requires some { 0 < size }
        requires small { size ≤ 1000 }
        ensures product { IfOk result (λ lanes. lanes.product ≡ frame.now) }
        ensures empty { IfOk result (λ lanes. lanes.items ≡ []) }
    {
        let width = frame.width() as usize;
        Ok(LargeLanes {
            frame,
            quads: Quads::new(alloc, width, size as usize)?,
            window: LongWindow::new(alloc, width, size as usize)?,
            late: WORTH * size,
        })
    }

    /// Makes room for one more vector. After want of memory the vectors are as they were.
    pub(crate) fn reserve(&mut self) -> Result<(), AllocError>
        ensures product { self.new.product ≡ self.old.product }
        ensures items { self.new.items ≡ self.old.items }
        ensures ok { OnOk result (0 < self.new.spare) }
    {
        self.quads.reserve()
    }

    /// Appends a vector, which may be there already. It takes no memory.
    pub(crate) fn push_reserved(&mut self, v: &[Elem])
        requires vector { IsVector self.old.product v.now }
        requires spare { 0 < self.old.spare }
        ensures product { self.new.product ≡ self.old.product }
        ensures items { self.new.items ≡ self.old.items ++ v.now ∷ [] }
    {
        self.quads.push_reserved(v);
    }

    /// What is known of an operation, as `Lanes::known` tells it.
    #[inline(always)]
    pub(crate) fn known(&mut self, op: u32, args: &[u32; 4], place: usize) -> u32
        requires operation { op < length (arities self.old.product) }
        requires place { place < slice_index (arities self.old.product) op }
        requires few { place < 4 }
        requires named { AllByRecursion (λ a. a < length self.old.items) (tuple_of self.old.product op args.now) }
        ensures same { self.new ≡ self.old }
        ensures known { AreBitsOf self.old.product self.old.items op args.now place result }
    {
        if !is_late(args, self.late) {
            return 0;
        }
        self.window.known(self.frame, &self.quads, op, args, place)
    }
}
