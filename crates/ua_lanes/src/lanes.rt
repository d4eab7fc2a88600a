//! Vectors of a product in lanes: which values of an operation are known to be among them.

ghost use Rattle.std.specs.Prelude.{◌≡◌, ◌<◌, ◌≤◌, ◌++◌, [], ◌∷◌, length, slice_index, OnOk, IfOk, IfSome};
ghost use Rattle.std.specs.List.{AllByRecursion};
ghost use Rattle.ua_table.specs.Algebras.{IsVector, arities};
ghost use Rattle.ua_lanes.specs.Lines.{AreSizesAtMost};
ghost use Rattle.ua_lanes.specs.Windows.{tuple_of, AreBitsOf};

use crate::large_lanes::LargeLanes;
use crate::small_lanes::SmallLanes;
use std::alloc::{AllocError, Global};
use std::marker::Model;
use ua_table::{Elem, Frame};

/// How many coordinates there are at most for lanes: the tiles of a block and the lines take room for each of them,
/// however few vectors there are.
const WIDTH: u32 = 4096;

/// The greatest size of algebras in the form for small ones, where an entry takes half a byte, and where it takes a byte.
const HALF_BYTE: u32 = 16;

const BYTE: u32 = 64;

/// The two forms of lanes.
#[derive(Drop)]
enum Form<'a> {
    /// For algebras with at most sixty-four elements.
    Small(SmallLanes<'a>),
    /// For all others.
    Large(LargeLanes<'a>),
}

/// The vectors of a frame side by side, to tell of many tuples at once whether an operation's value there is
/// one of them. What is told is true; of other tuples nothing is said.
///
/// To a contract it is the value of `specs/LaneLists.antt`: the frame's product and the vectors in order.
#[derive(Drop)]
pub struct Lanes<'a> {
    form: Form<'a>,
}

impl<'a> Model for Lanes<'a> {
    ghost use Rattle.ua_lanes.specs.LaneLists.{LaneList};

    ghost Value = { LaneList };

    ghost use Rattle.ua_lanes.specs.Lanes.{lanes_in};

    ghost view = { λ a. lanes_in a.form };
}

/// The greatest size of the algebras of a frame.
fn greatest_size(frame: &Frame) -> u32
    ensures sizes { AreSizesAtMost result frame.now }
    ensures some { 0 < result }
    ensures small { result ≤ 1000 }
{
    let mut greatest = 1;
    for x in 0..frame.width() {
        greatest = greatest.max(frame.size_at(x));
    }
    greatest
}

/// Whether some operation has two arguments or more, so that many tuples differ in one place alone.
fn has_runs(frame: &Frame) -> bool {
    let _width = frame.width();
    for table in frame.algebra_at(0).ops() {
        if table.arity() >= 2 {
            return true;
        }
    }
    false
}

impl<'a> Lanes<'a> {
    /// No vectors of a frame; None where lanes would not pay: where there are more than 4,096 coordinates, or where no
    /// operation has two arguments.
    pub fn new(alloc: Global, frame: &'a Frame<'a>) -> Result<Option<Lanes<'a>>, AllocError>
        ensures product { IfOk result (λ some. IfSome some (λ lanes. lanes.product ≡ frame.now)) }
        ensures empty { IfOk result (λ some. IfSome some (λ lanes. lanes.items ≡ [])) }
    {
        if frame.width() > WIDTH || !has_runs(frame) {
            return Ok(None);
        }
        let size = greatest_size(frame);
        let form = if size <= BYTE {
            Form::Small(SmallLanes::new(alloc, frame, size > HALF_BYTE)?)
        } else {
            Form::Large(LargeLanes::new(alloc, frame, size)?)
        };
        Ok(Some(Lanes { form }))
    }

    /// Makes room for one more vector. After want of memory the vectors are as they were.
    pub fn reserve(&mut self) -> Result<(), AllocError>
        ensures product { self.new.product ≡ self.old.product }
        ensures items { self.new.items ≡ self.old.items }
        ensures ok { OnOk result (0 < self.new.spare) }
    {
        match &mut self.form {
            Form::Small(lanes) => lanes.reserve(),
            Form::Large(lanes) => lanes.reserve(),
        }
    }

    /// Appends a vector, which may be there already. It takes no memory.
    pub fn push_reserved(&mut self, v: &[Elem])
        requires vector { IsVector self.old.product v.now }
        requires spare { 0 < self.old.spare }
        ensures product { self.new.product ≡ self.old.product }
        ensures items { self.new.items ≡ self.old.items ++ v.now ∷ [] }
    {
        match &mut self.form {
            Form::Small(lanes) => lanes.push_reserved(v),
            Form::Large(lanes) => lanes.push_reserved(v),
        }
    }

    /// What is known of an operation at the tuples that differ from this one at a place alone, with the sixteen
    /// numbers there that stand beside its own, from a multiple of sixteen on: a bit for each. Where it is set,
    /// the value is one of the vectors; where it is clear, nothing is said. It takes no memory, and is fast
    /// where it is asked about one such tuple after another.
    #[inline(always)]
    pub fn known(&mut self, op: u32, args: &[u32; 4], place: usize) -> u32
        requires operation { op < length (arities self.old.product) }
        requires place { place < slice_index (arities self.old.product) op }
        requires few { place < 4 }
        requires named { AllByRecursion (λ a. a < length self.old.items) (tuple_of self.old.product op args.now) }
        ensures same { self.new ≡ self.old }
        ensures known { AreBitsOf self.old.product self.old.items op args.now place result }
    {
        match &mut self.form {
            Form::Small(lanes) => lanes.known(op, args, place),
            Form::Large(lanes) => lanes.known(op, args, place),
        }
    }
}
