//! Laws of the flaws of certificates: each function does nothing, and its contract states them.

ghost use Rattle.ua_flaws.specs.Laws as law;

/// A certificate that is made of an answer has no flaw where the answer is right: steps to a vector, a listing of exactly
/// what is generated, and its rows where they lack a vector.
pub fn flawless()
    ensures member { law.MemberIsFlawless }
    ensures not_member { law.NotMemberIsFlawless }
    ensures listing { law.ListingIsFlawless }
{}

/// Steps without a flaw are steps, and write a term. What is written of steps has no flaw, and is read as these steps.
pub fn written()
    ensures steps { law.StepsAreSteps }
    ensures term { law.LastIsTerm }
    ensures flawless { law.WrittenIsFlawless }
    ensures read { law.WrittenIsRead }
{}

/// Rows without a flaw hold all that is generated, so that a target that they lack is not generated. Vectors of a power
/// have no flaw, nor have rows in order that are exactly what is generated, and that lack a target.
pub fn generated()
    ensures all { law.RowsHoldAll }
    ensures outside { law.LackedIsOutside }
    ensures vectors { law.VectorsAreFlawless }
    ensures exact { law.ExactIsFlawless }
    ensures lacking { law.LackingIsFlawless }
{}
