//! The powers of an algebra.

ghost use Rattle.std.specs.Prelude.{◌≡◌, IfOk};
ghost use Rattle.std.specs.Result.{result_err};
ghost use Rattle.ua_table.specs.declared.limits.TheConstants.{WIDTH};
ghost use Rattle.ua_table.specs.Refusals.{refusal_if, is_outside};
ghost use Rattle.ua_table.specs.Algebras.{power};
ghost use Rattle.ua_flaws.specs.declared.flaws.Flaw.TheVariants as flaw;

use crate::flaws::Flaw;
use ua_table::{Algebra, Frame};

/// The power of this width.
pub fn frame_of(a: &Algebra, width: u32) -> Result<Frame<'_>, Flaw>
    ensures frame { IfOk result (λ frame. frame ≡ power a.now width) }
    ensures flaw { result_err result ≡ refusal_if (is_outside width WIDTH) flaw.Width }
{
    match Frame::power(a, width) {
        Ok(frame) => Ok(frame),
        Err(_) => Err(Flaw::Width),
    }
}
