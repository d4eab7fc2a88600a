//! Laws of certificates: the function does nothing, and its contract states them.

ghost use Rattle.ua_certify.specs.Laws as law;

use ua_check::laws as term_laws;
use ua_close::laws::kinds;
use ua_flaws::laws as vector_laws;
use ua_identity::laws::{conditions, named, patterns};

/// The certificate of what a call may answer has no flaw, where the budget is at least one member.
pub fn flawless()
    ensures closure { law.ClosureIsFlawless }
    ensures membership { law.MembershipIsFlawless }
    ensures condition { law.ConditionIsFlawless }
    ensures chain { law.ChainIsFlawless }
{
    vector_laws::flawless();
    term_laws::flawless();
    kinds();
    patterns();
    conditions();
    named();
}
