//! Vectors of a product of algebras with at most sixty-four elements in lanes.

ghost use Rattle.std.specs.Prelude.{◌≡◌, ◌+◌, ◌<◌, ◌++◌, [], ◌∷◌, length, slice_index, OnOk, IfOk};
ghost use Rattle.std.specs.List.{AllByRecursion};
ghost use Rattle.ua_table.specs.Algebras.{IsVector, arities};
ghost use Rattle.ua_columns.specs.Columns.{limit};
ghost use Rattle.ua_lanes.specs.Lines.{AreSizesAtMost};
ghost use Rattle.ua_lanes.specs.Windows.{tuple_of, AreBitsOf, IsWindow};

use crate::windows::Window;
use std::alloc::{AllocError, Global};
use std::marker::Model;
use ua_columns::{Columns, LANES};
use ua_table::{Elem, Frame};

/// The vectors, by columns of sixteen. To a contract they are the value of `specs/Lanes.antt`.
#[derive(Drop)]
pub(crate) struct SmallLanes<'a> {
    frame: &'a Frame<'a>,
    columns: Columns,
    /// What is known of each operation.
    windows: Vec<Window>,
}

impl<'a> Model for SmallLanes<'a> {
    ghost use Rattle.ua_lanes.specs.LaneLists.{LaneList};

    ghost Value = { LaneList };

    ghost use Rattle.ua_lanes.specs.SmallLanes.{AreSmallLanes};

    ghost view = { λ a. record { product = a.frame.now; items = a.columns.items; spare = a.columns.spare } };

    ghost invariant = { λ a. AreSmallLanes a.frame.now a.columns a.windows.items };
}

/// As many windows as there are operations, which tell nothing.
fn windows_for(alloc: Global, frame: &Frame, in_bytes: bool) -> Result<Vec<Window>, AllocError>
    ensures many { IfOk result (λ windows. length windows.items ≡ length (arities frame.now)) }
    ensures windows { IfOk result (λ windows. AllByRecursion (IsWindow frame.now in_bytes []) windows.items) }
{
    let (tables, digits): (usize, usize) = if in_bytes { (4, 8) } else { (1, 16) };
    let width = frame.width() as usize;
    let tiles = tables * width.div_ceil(LANES);
    let words = width.div_ceil(digits);
    let mut windows = Vec::new(alloc);
    for _ in frame.algebra_at(0).ops() {
        windows.push(Window::new(alloc, tiles, words)?)?;
    }
    Ok(windows)
}

impl<'a> SmallLanes<'a> {
    /// No vectors of a frame, with entries that take a byte of a word each, or half of one.
    pub(crate) fn new(
        alloc: Global,
        frame: &'a Frame<'a>,
        in_bytes: bool,
    ) -> Result<SmallLanes<'a>, AllocError>
        requires { AreSizesAtMost (limit in_bytes) frame.now }
        ensures product { IfOk result (λ lanes. lanes.product ≡ frame.now) }
        ensures empty { IfOk result (λ lanes. lanes.items ≡ []) }
    {
        let width = frame.width() as usize;
        Ok(SmallLanes {
            frame,
            columns: Columns::new(alloc, width, in_bytes)?,
            windows: windows_for(alloc, frame, in_bytes)?,
        })
    }

    /// Makes room for one more vector. After want of memory the vectors are as they were.
    pub(crate) fn reserve(&mut self) -> Result<(), AllocError>
        ensures product { self.new.product ≡ self.old.product }
        ensures items { self.new.items ≡ self.old.items }
        ensures ok { OnOk result (0 < self.new.spare) }
    {
        self.columns.reserve()
    }

    /// Appends a vector, which may be there already. It takes no memory.
    pub(crate) fn push_reserved(&mut self, v: &[Elem])
        requires vector { IsVector self.old.product v.now }
        requires spare { 0 < self.old.spare }
        ensures product { self.new.product ≡ self.old.product }
        ensures items { self.new.items ≡ self.old.items ++ v.now ∷ [] }
    {
        self.columns.push_reserved(v);
    }

    /// What is known of an operation, as `Lanes::known` tells it.
    #[inline(always)]
    pub(crate) fn known(&mut self, op: u32, args: &[u32; 4], place: usize) -> u32
        requires operation { op < length (arities self.old.product) }
        requires place { place < slice_index (arities self.old.product) op }
        requires few { place < 4 }
        requires named { AllByRecursion (λ a. a < length self.old.items) (tuple_of self.old.product op args.now) }
        ensures same { self.new ≡ self.old }
        ensures known { AreBitsOf self.old.product self.old.items op args.now place result }
    {
        self.windows[op as usize].known(self.frame, &self.columns, op, args, place)
    }
}
