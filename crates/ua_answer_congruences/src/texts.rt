//! The text of several partitions.

ghost use Rattle.std.specs.Prelude.{◌≡◌, ◌++◌, OnOk};
ghost use Rattle.ua_part.specs.Blocks.{partition_text};
ghost use Rattle.ua_reply.specs.Texts.{lines};

use std::alloc::AllocError;
use ua_part::Part;
use ua_reply::push_part;

/// Appends each partition, on a line of its own.
pub fn push_parts(out: &mut Vec<u8>, parts: &[Part]) -> Result<(), AllocError>
    ensures { OnOk result (out.new.items ≡ out.old.items ++ lines partition_text parts.now) }
{
    for part in parts {
        push_part(out, part)?;
        out.push(b'\n')?;
    }
    Ok(())
}
