//! The power of an algebra in which a condition is decided.

ghost use Rattle.std.specs.Prelude.{◌≡◌, ◌≤◌, IfOk, IfErr};
ghost use Rattle.ua_table.specs.declared.limits.TheConstants.{BUDGET};
ghost use Rattle.ua_close.specs.Answers.{IsCause};
ghost use Rattle.ua_identity.specs.Conditions.{IsCondition};
ghost use Rattle.ua_identity.specs.Patterns.{condition_power, argument_vectors};

use ua_close::{CloseError, power_within};
use ua_identity::Condition;
use ua_table::{Algebra, Frame};

/// The power with a coordinate for each identity and each assignment of its variables, or why it is too wide
/// for the arguments to be closed in it. It takes no memory.
pub(crate) fn power<'a>(
    a: &'a Algebra,
    condition: &Condition,
    budget: u32,
) -> Result<Frame<'a>, CloseError>
    requires some { 1 ≤ budget }
    requires small { budget ≤ BUDGET }
    ensures condition { IsCondition condition.now }
    ensures frame { IfOk result (λ frame. frame ≡ condition_power a.now condition.now) }
    ensures cause { IfErr result (IsCause (condition_power a.now condition.now) (argument_vectors a.now condition.now) budget) }
{
    power_within(a, condition.width(a), u32::from(condition.arity()), budget)
}
