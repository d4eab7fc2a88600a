//! Laws of certificates of terms: the function does nothing, and its contract states them.

ghost use Rattle.ua_check.specs.Laws as law;

use ua_flaws::laws::{generated, written};

/// A certificate that is made of an answer has no flaw where the answer is right: steps of a term that meets a condition,
/// the rows of all terms where none does, the terms of a chain, and the rows that beginnings of chains reach where there
/// is none. Of the other kinds `ua_flaws::laws::flawless` says so.
pub fn flawless()
    ensures condition { law.TermIsFlawless }
    ensures no_condition { law.NoTermIsFlawless }
    ensures chain { law.ChainTermsAreFlawless }
    ensures no_chain { law.NoChainIsFlawless }
{
    generated();
    written();
}
