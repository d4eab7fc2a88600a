//! The lines of an operation on algebras of any size: its values at each coordinate, where one argument is free.

ghost use Rattle.std.specs.Prelude.{◌≡◌, ℕ, ◌+◌, ◌*◌, ◌^◌, ◌<◌, ◌≤◌, length, take, slice_index};
ghost use Rattle.std.specs.List.{AllByRecursion};
ghost use Rattle.ua_table.specs.Algebras.{arities};
ghost use Rattle.ua_rows.specs.RowLists.{rows_at};
ghost use Rattle.ua_lanes.specs.Lines.{line_value};
ghost use Rattle.ua_lanes.specs.inner.Lines.{table_value};
ghost use Rattle.ua_columns.specs.Quads.{AreLongLines};
ghost use Rattle.ua_lanes.specs.LargeLanes.{AreQuadVectors};

use crate::lines::{line_in, value_in};
use ua_columns::Quads;
use ua_table::{Elem, Frame, OpTable};

/// Writes the values of a table where the argument at the free place is each element, and the others are given,
/// with zeros after them.
fn fill_line(table: &OpTable, args: [Elem; 4], arity: usize, free: usize, line: &mut [Elem])
    requires few { arity ≤ 4 }
    requires arity { arity ≡ table.now.arity }
    requires free { free < arity }
    requires below { AllByRecursion (λ x. x < table.now.size) (take arity args) }
    requires short { length line.old < 2 ^ 16 }
    ensures length { length line.new ≡ length line.old }
    ensures values { (y : ℕ) → y < length line.new → slice_index line.new y ≡ table_value table.now (take arity args) free y }
{
    let size = table.size() as usize;
    let (start, step) = line_in(table, args, arity, free);
    for y in 0..line.len() {
        line[y] = if y < size {
            value_in(table, start + y * step)
        } else {
            0
        };
    }
}

/// Writes the line of a coordinate.
fn write_line(
    frame: &Frame,
    quads: &Quads,
    op: u32,
    args: &[u32],
    free: usize,
    x: u32,
    line: &mut [Elem],
)
    requires vectors { AreQuadVectors frame.now quads.now }
    requires operation { op < length (arities frame.now) }
    requires arity { length args.now ≡ slice_index (arities frame.now) op }
    requires few { length args.now ≤ 4 }
    requires free { free < length args.now }
    requires named { AllByRecursion (λ a. a < length quads.now.items) args.now }
    requires coordinate { x < length frame.now }
    requires short { length line.old < 2 ^ 16 }
    ensures length { length line.new ≡ length line.old }
    ensures values { (y : ℕ) → y < length line.new → slice_index line.new y ≡ line_value frame.now op (rows_at quads.now.items args.now) free x y }
{
    let entries = quads.entries_at(args, x as usize);
    let table = frame.algebra_at(x).op(op);
    fill_line(table, entries, args.len(), free, line);
}

/// Writes the line of each coordinate, each as long as the size, for an operation at some vectors, of which the one at
/// the free place does not matter.
pub(crate) fn write_long_lines(
    frame: &Frame,
    quads: &Quads,
    op: u32,
    args: &[u32],
    free: usize,
    out: &mut [Elem],
)
    requires vectors { AreQuadVectors frame.now quads.now }
    requires operation { op < length (arities frame.now) }
    requires arity { length args.now ≡ slice_index (arities frame.now) op }
    requires few { length args.now ≤ 4 }
    requires free { free < length args.now }
    requires named { AllByRecursion (λ a. a < length quads.now.items) args.now }
    requires whole { length frame.now * quads.now.size ≤ length out.old }
    ensures length { length out.new ≡ length out.old }
    ensures lines { AreLongLines quads.now.size (length frame.now) (line_value frame.now op (rows_at quads.now.items args.now) free) out.new }
{
    let size = quads.size();
    for x in 0..frame.width() {
        let start = x as usize * size;
        let line = &mut out[start..start + size];
        write_line(frame, quads, op, args, free, x, line);
    }
}
