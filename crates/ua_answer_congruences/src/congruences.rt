//! Congruences as operands.

ghost use Rattle.std.specs.Prelude.{IfOk};
ghost use Rattle.ua_reply.specs.Checks.{Passes};
ghost use Rattle.ua_reply.specs.Parts.{part_in};
ghost use Rattle.ua_answer_congruences.specs.inner.Operands.{IsOperand};

use std::alloc::{AllocError, Global};
use ua_part::Part;
use ua_prod::is_congruence;
use ua_reply::{Known, congruence_reply, part};
use ua_script::PartText;

/// A congruence that is written, or what is told of a partition that is none.
#[derive(Drop)]
pub enum Operand {
    Congruence(Part),
    Refused(Vec<u8>),
}

/// The congruence that is written, or the first clash of the partition.
pub fn congruence(alloc: Global, known: &Known, text: &PartText) -> Result<Operand, AllocError>
    requires { Passes (part_in known.now text.now) }
    ensures { IfOk result (IsOperand known.now text.now) }
{
    let partition = part(alloc, known, text)?;
    match is_congruence(known.algebra(), &partition) {
        None => Ok(Operand::Congruence(partition)),
        Some(clash) => {
            let reply = congruence_reply(alloc, known, text.place, &clash)?;
            Ok(Operand::Refused(reply))
        }
    }
}
