//! Laws of slices and of the codes of records: each function does nothing, and its contract states them.

ghost use Rattle.std.specs.Prelude.{ℕ, List};
ghost use Rattle.ua_log.specs.declared.views.Plan.{Plan};
ghost use Rattle.ua_log.specs.Rule.{IsPlan};
ghost use Rattle.ua_log.specs.Logs.{CodesReadBack};
ghost use Rattle.ua_log.specs.Walks.{IsOneWalk};

/// The code of a record is read back as the record, wherever it may stand.
pub fn codes()
    ensures { (p : Plan) → IsPlan p → CodesReadBack p }
{}

/// The number of a unit's first slice and the unit of a slice come of one walk through the slices.
pub fn walks()
    ensures { (ks : List ℕ) → IsOneWalk ks }
{}
