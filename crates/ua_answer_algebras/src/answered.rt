//! What a command is answered.

ghost use Rattle.std.specs.Prelude.{◌≡◌, ◌++◌, List, [], ◌∷◌, None, IfOk};
ghost use Rattle.ua_text.specs.Signs.{printed};
ghost use Rattle.ua_text.specs.Blocks.{block, unnamed};
ghost use Rattle.ua_text.specs.declared.named.Block.{Block};
ghost use Rattle.ua_reply.specs.Refusals.{refusal_text};
ghost use Rattle.ua_answer_algebras.specs.MakeCommand.{left_by, IsNamedRight};

use std::alloc::{AllocError, Global};
use ua_reply::{Refusal, refusal_reply};
use ua_table::{Algebra, Name};
use ua_text::print_algebra;

/// An algebra that a command made, and the name that the command gives it.
#[derive(Drop)]
pub struct Made<'a> {
    pub name: &'a Name,
    pub algebra: Algebra,
}

/// The reply to a command, and what the command made, if it made an algebra.
#[derive(Drop)]
pub struct Answered<'a> {
    pub reply: Vec<u8>,
    pub made: Option<Made<'a>>,
}

/// A reply that leaves the session as it was.
pub fn said<'a>(reply: Vec<u8>) -> Answered<'a>
    ensures reply { result.reply.items ≡ reply.items }
    ensures made { result.made ≡ None }
{
    Answered { reply, made: None }
}

/// The reply to a command that is refused.
pub fn refused<'a>(alloc: Global, refusal: Refusal) -> Result<Answered<'a>, AllocError>
    ensures reply { IfOk result (λ v. v.reply.items ≡ refusal_text refusal) }
    ensures made { IfOk result (λ v. v.made ≡ None) }
{
    Ok(said(refusal_reply(alloc, refusal)?))
}

/// The reply to a command that made an algebra: its block.
pub fn introduced<'a>(
    alloc: Global,
    name: &'a Name,
    algebra: Algebra,
) -> Result<Answered<'a>, AllocError>
    ensures reply { IfOk result (λ v. v.reply.items ≡ printed (block (unnamed algebra))) }
    ensures made { (s : List Block) → IfOk result (λ v. left_by s v.made ≡ s ++ unnamed algebra ∷ []) }
    ensures named { name.now ≡ algebra.name → IfOk result (λ v. IsNamedRight v.made) }
{
    let reply = print_algebra(alloc, &algebra)?;
    Ok(Answered {
        reply,
        made: Some(Made { name, algebra }),
    })
}
