//! Laws of closures, and of the steps on a board: each function does nothing, and its contract states them.

ghost use Rattle.std.specs.Prelude.{ℕ, ◌<◌, ◌≤◌, List, length};
ghost use Rattle.std.specs.List.{AllByRecursion};
ghost use Rattle.ua_table.specs.Algebras.{Vector, Product, IsProduct, IsVector, arities};
ghost use Rattle.ua_table.specs.Generated.{Sg, HasMoreThan};
ghost use Rattle.ua_table.specs.Listings.{Row, IsListing, IsClosedListing};
ghost use Rattle.ua_table.specs.Numbering.{Fits};
ghost use Rattle.ua_term.specs.Steps.{StepList};
ghost use Rattle.ua_close.specs.declared.memberships.Answer.{Answer};
ghost use Rattle.ua_close.specs.declared.close.CloseError.{CloseError};
ghost use Rattle.ua_close.specs.Answers.{IsWide};
ghost use Rattle.ua_log.specs.declared.views.Plan.{Plan};
ghost use Rattle.ua_work.specs.declared.goals.Goal.{Goal};
ghost use Rattle.ua_work.specs.Harvests.{IsPlanOf};
ghost use Rattle.ua_close.specs.Memberships.{Tells};
ghost use Rattle.ua_close.specs.Permitted.{MayClose, MayCount, MayReach, MayMember, IsAnswerable};
ghost use Rattle.ua_close.specs.Kinds.{cardinality, HasAnswer, HasClosedListing, HasLeast, RowsMeet};
ghost use Rattle.ua_close.specs.Steps.{LoadFound, LoadEmpty, LoadBelow, PutWon, PutLost, LoadIdle, LoadKnow, ClaimWon, ClaimLost, HaltSet, SeatSplit, SeatJoin, SeatsAreViews, StartIsRead, GatheredIsRead};

/// Each step on the words and views of a board is an event of its worker in the machine that is read of
/// them, or leaves that machine as it is, busy and idle apart. The event may happen there, as far as words
/// and views show.
pub fn steps()
    ensures load_found { (p : Product) (gens : List Vector) (plan : Plan) → IsPlanOf p gens plan → LoadFound p gens plan }
    ensures load_empty { (p : Product) (gens : List Vector) (plan : Plan) → IsPlanOf p gens plan → LoadEmpty p gens plan }
    ensures load_below { (p : Product) (gens : List Vector) (plan : Plan) → IsPlanOf p gens plan → LoadBelow p gens plan }
    ensures put_won { (p : Product) (gens : List Vector) (plan : Plan) → IsPlanOf p gens plan → PutWon p gens plan }
    ensures put_lost { (p : Product) (gens : List Vector) (plan : Plan) → IsPlanOf p gens plan → PutLost p gens plan }
    ensures load_idle { (p : Product) (gens : List Vector) (plan : Plan) → IsPlanOf p gens plan → LoadIdle p gens plan }
    ensures load_know { (p : Product) (gens : List Vector) (plan : Plan) → IsPlanOf p gens plan → LoadKnow p gens plan }
    ensures claim_won { (p : Product) (gens : List Vector) (plan : Plan) → IsPlanOf p gens plan → ClaimWon p gens plan }
    ensures claim_lost { (p : Product) (gens : List Vector) (plan : Plan) → IsPlanOf p gens plan → ClaimLost p gens plan }
    ensures halt_set { (p : Product) (gens : List Vector) (plan : Plan) → IsPlanOf p gens plan → HaltSet p gens plan }
    ensures seat_split { (p : Product) (gens : List Vector) (plan : Plan) → IsPlanOf p gens plan → SeatSplit p gens plan }
    ensures seat_join { (p : Product) (gens : List Vector) (plan : Plan) → IsPlanOf p gens plan → SeatJoin p gens plan }
{}

/// What contracts say of seats is what the steps say of their views. The machine that is read of a board at
/// its start is the one at the start, and the first seat stands there. The machine that `gather` speaks of is
/// read of the closed log and of the workers that were handed in, busy and idle apart.
pub fn readings()
    ensures seats { SeatsAreViews }
    ensures start { StartIsRead }
    ensures gathered { GatheredIsRead }
{}

/// The members of a subuniverse are vectors of the product, and no more than it has: in width 1, than the
/// algebra has elements. For each budget there is a closed listing or an exceeding one, in the order of one worker;
/// never both, as the laws of listings say. So a budget of as many as there are vectors has a closed listing.
/// Where there is a closed listing there is a least one. What some listing meets, each closed one meets.
pub fn kinds()
    ensures vectors { (p : Product) (gens : List Vector) (v : Vector) → IsProduct p → AllByRecursion (IsVector p) gens → Sg p gens v → IsVector p v }
    ensures one { (p : Product) (gens : List Vector) (b : ℕ) → IsProduct p → AllByRecursion (IsVector p) gens → HasAnswer p gens b }
    ensures few { (p : Product) (gens : List Vector) (b : ℕ) → IsProduct p → AllByRecursion (IsVector p) gens → HasMoreThan p gens b → b < cardinality p }
    ensures closed { (p : Product) (gens : List Vector) (b : ℕ) → IsProduct p → AllByRecursion (IsVector p) gens → cardinality p ≤ b → HasClosedListing p gens b }
    ensures least { (p : Product) (gens : List Vector) (b : ℕ) (rows : List Row) → IsClosedListing p gens b rows → HasLeast p gens b }
    ensures goals { (p : Product) (gens : List Vector) (goal : Goal) (b : ℕ) (rows all : List Row) → IsListing p gens rows → RowsMeet goal rows → IsClosedListing p gens b all → RowsMeet goal all }
{}

/// A call may always be answered otherwise than by want of memory: some answer of one worker is permitted, or the
/// closure is too wide.
pub fn answers()
    ensures close { (p : Product) (gens : List Vector) (b w : ℕ) → IsProduct p → AllByRecursion (IsVector p) gens → IsAnswerable (MayClose p gens b w) CloseError.OutOfMemory }
    ensures count { (p : Product) (gens : List Vector) (b w : ℕ) → IsProduct p → AllByRecursion (IsVector p) gens → IsAnswerable (MayCount p gens b w) CloseError.OutOfMemory }
    ensures reach { (p : Product) (gens : List Vector) (goal : Goal) (b w : ℕ) → IsProduct p → AllByRecursion (IsVector p) gens → IsAnswerable (MayReach p gens goal b w) CloseError.OutOfMemory }
    ensures member { (p : Product) (gens : List Vector) (v : Vector) (b w : ℕ) → IsProduct p → AllByRecursion (IsVector p) gens → IsAnswerable (MayMember p gens v b w) CloseError.OutOfMemory }
{}

/// What is told of a vector is so, by however many workers: it is generated where it is told to be, and it is not
/// where a closed listing lacks it.
pub fn memberships()
    ensures yes { (p : Product) (gens : List Vector) (v : Vector) (b : ℕ) (steps : StepList) → Tells p gens v b (Answer.Yes steps) → Sg p gens v }
    ensures no { (p : Product) (gens : List Vector) (v : Vector) (b : ℕ) (rows : List Row) → Tells p gens v b (Answer.No rows) → ¬ Sg p gens v }
{}

/// The records of a closure that is not too wide fit in their numbering.
pub fn narrow()
    ensures { (p : Product) (gens : List Vector) (b : ℕ) → ¬ IsWide p gens b → Fits (arities p) (length gens) b }
{}
