//! The law of replies: its function does nothing, and its contract states it.

ghost use Rattle.ua_answer_congruences.specs.Replied.{CongruencesReplied};

use std::alloc::Global;

/// There is a reply to each command on congruences: the first error, the first clash of a partition that is no congruence,
/// or what is told of the congruences. The allocator serves to speak of an answer in memory.
pub fn congruences(alloc: Global)
    ensures { CongruencesReplied }
{
    ua_cong::laws::generated();
    ua_lattice::laws::answers(alloc);
    ua_type::laws::answers(alloc);
    ua_prod::laws::clashes();
    ua_matrix::laws::answers();
    ua_comm::laws::answers(alloc);
}
