//! Addition modulo a size, applied again and again by the call for one tuple.

ghost use Rattle.std.specs.Prelude.{◌≡◌, ◌<◌, length, slice_index, IfOk};
ghost use Rattle.std.specs.List.{AllByRecursion};
ghost use Rattle.ua_table.specs.Algebras.{IsVector, arities};

use crate::closing::{enter, generator, group};
use std::alloc::{AllocError, Global};
use ua_rows::{Rows, apply};
use ua_table::{Elem, Frame};

/// Applies operation 0 so many times to the first two rows, in each order in turn.
fn apply_often(frame: &Frame, rows: &Rows, times: u32, out: &mut [Elem])
    requires some { 0 < length (arities frame.now) }
    requires binary { slice_index (arities frame.now) 0 ≡ 2 }
    requires two { 1 < length rows.now.items }
    requires rows { AllByRecursion (IsVector frame.now) rows.now.items }
    requires width { length out.old ≡ length frame.now }
{
    for i in 0..times {
        apply(frame, 0, rows, &[i % 2, i / 2 % 2], out);
    }
}

/// Two generators of the frame.
fn two_rows(alloc: Global, frame: &Frame) -> Result<Rows, AllocError>
    ensures { IfOk result (λ rows. AllByRecursion (IsVector frame.now) rows.items) }
{
    let mut rows = Rows::new(alloc, frame.width());
    let first = generator(alloc, frame.width(), 2, 0)?;
    enter(&mut rows, frame, first.as_slice())?;
    let second = generator(alloc, frame.width(), 2, 1)?;
    enter(&mut rows, frame, second.as_slice())?;
    Ok(rows)
}

/// Adds two vectors of this width so many times. The first entry of the last sum.
pub fn apply_sums(alloc: Global, size: u32, width: u32, times: u32) -> Result<u32, AllocError> {
    let Some(algebra) = group(alloc, size)? else {
        return Ok(0);
    };
    let Ok(frame) = Frame::power(&algebra, width) else {
        return Ok(0);
    };
    let shape = frame.shape(alloc)?;
    let rows = two_rows(alloc, &frame)?;
    if shape.arities().len() == 0 || shape.arity(0) != 2 || rows.len() < 2 {
        return Ok(0);
    }
    let mut out = vec![in alloc; 0; frame.width() as usize]?;
    apply_often(&frame, &rows, times, out.as_mut_slice());
    Ok(u32::from(out[0]))
}
