//! Laws of replies: each function does nothing, and its contract states them.

ghost use Rattle.std.specs.Prelude.{◌≤◌, ℕ, List};
ghost use Rattle.ua_text.specs.declared.named.Block.{Block};
ghost use Rattle.ua_script.specs.declared.script.Provable.{Provable};
ghost use Rattle.ua_script.specs.declared.script.Command.{Command};
ghost use Rattle.ua_reply.specs.Sessions.{Bounds, AreAlgebras, AreBounds};
ghost use Rattle.ua_reply.specs.Replies.{HasBytes};
ghost use Rattle.ua_answer_algebras.specs.MakeCommand.{HasReply};
ghost use Rattle.ua_answer.specs.Questions.{CertReply};
ghost use Rattle.ua_answer.specs.Replies.{IsBuilt, Reply};

use std::alloc::Global;

/// There is a reply to each question behind `cert`, where the budget is at least one member: the first error, or the
/// certificate of what may be answered, which has no flaw. The allocator serves to speak of an answer in memory.
pub fn certificates(alloc: Global)
    ensures { (s : List Block) (b : Bounds) (what : Provable) → AreAlgebras s → 1 ≤ b.budget → HasBytes (CertReply s b what) }
{
    ua_certify::laws::flawless();
    ua_cond::laws::answers();
    ua_chain::laws::answers(alloc);
}

/// Each command that is built has a reply, in each session of algebras within the limits and for each budget that a run may
/// have; and what it leaves is such a session again.
pub fn replies(alloc: Global)
    ensures one { (s : List Block) (b : Bounds) (c : Command) → AreAlgebras s → AreBounds b → IsBuilt c → HasReply (Reply s b c) }
    ensures left { (s : List Block) (b : Bounds) (c : Command) (bytes : List ℕ) (t : List Block) → AreAlgebras s → Reply s b c bytes t → AreAlgebras t }
{
    certificates(alloc);
    ua_answer_congruences::laws::congruences(alloc);
    ua_answer_conditions::laws::conditions(alloc);
    ua_answer_algebras::laws::algebras();
}
