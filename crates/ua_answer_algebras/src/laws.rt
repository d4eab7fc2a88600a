//! The law of replies: its function does nothing, and its contract states it.

ghost use Rattle.ua_answer_algebras.specs.Replied.{AlgebrasReplied};

/// There is a reply to each command on closures, maps, values of terms, new algebras and certificates: the first error, or
/// what is told of the answer. What a `make` leaves is a session of algebras within the limits, as the one before was.
pub fn algebras()
    ensures { AlgebrasReplied }
{
    ua_sub::laws::members();
    ua_sub::laws::answers();
    ua_prod::laws::clashes();
    ua_cert::laws::told();
}
