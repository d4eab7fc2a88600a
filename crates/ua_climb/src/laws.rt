//! The law of climbs: the function does nothing, and its contract states it.

ghost use Rattle.std.specs.Prelude.{◌⊎◌, ℕ, Bool, List};
ghost use Rattle.ua_climb.specs.Ladders.{LinkLists, HasLeastClimb, HasReached};

/// There is a least climb to the end; or there is none, and the rows that climbs lead to can be marked.
pub fn climbs()
    ensures { (allowed : List Bool) (even odd : LinkLists) (start end : ℕ) → HasLeastClimb allowed even odd start end ⊎ HasReached allowed even odd start end }
{}
