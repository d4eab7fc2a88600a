//! The law of replies: its function does nothing, and its contract states it.

ghost use Rattle.ua_answer_conditions.specs.Replied.{ConditionsReplied};

use std::alloc::Global;

/// There is a reply to each command on identities, conditions, chains and clones of terms: the first error, or what is
/// told of terms that are as asked. The allocator serves to speak of an answer in memory.
pub fn conditions(alloc: Global)
    ensures { ConditionsReplied }
{
    ua_cond::laws::answers();
    ua_chain::laws::answers(alloc);
    ua_clone::laws::answers();
    ua_free::laws::identities(alloc);
}
