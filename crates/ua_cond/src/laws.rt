//! Laws of conditions on terms: the function does nothing, and its contract states them.

ghost use Rattle.std.specs.Prelude.{ℕ};
ghost use Rattle.ua_table.specs.Algebras.{FiniteAlgebra, IsAlgebra};
ghost use Rattle.ua_close.specs.declared.close.CloseError.{CloseError};
ghost use Rattle.ua_close.specs.Permitted.{IsAnswerable};
ghost use Rattle.ua_identity.specs.Conditions.{TermCondition, IsCondition};
ghost use Rattle.ua_cond.specs.Permitted.{MayDecide};

use ua_identity::laws::{conditions, patterns};

/// Whether some term meets a condition can be told otherwise than by want of memory.
pub fn answers()
    ensures { (a : FiniteAlgebra) (c : TermCondition) (b w : ℕ) → IsAlgebra a → IsCondition c → IsAnswerable (MayDecide a c b w) CloseError.OutOfMemory }
{
    conditions();
    patterns();
}
