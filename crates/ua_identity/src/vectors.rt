//! The vectors of the arguments and of the values of a condition.

use crate::conditions::Condition;
use crate::fillings::{place_vectors, width_of};
use std::alloc::{AllocError, Global};
use ua_table::{Algebra, Elem, Vectors};
use ua_term::append_values;

impl Condition {
    ghost use Rattle.std.specs.Prelude.{◌≡◌, ◌*◌, ◌<◌, ◌≤◌, ◌^◌, length, IfOk};
    ghost use Rattle.ua_table.specs.declared.limits.TheConstants.{WIDTH, BUDGET};
    ghost use Rattle.ua_identity.specs.Patterns.{condition_power, argument_vectors, value_vector};

    /// How many coordinates the vectors of the condition have: one for each identity and each assignment of
    /// elements to its variables. It takes no memory.
    pub fn width(&self, a: &Algebra) -> u128
        ensures width { result ≡ length (condition_power a.now self.now) }
        ensures some { 0 < result }
        ensures small { BUDGET * result < 2 ^ 128 }
    {
        width_of(a.size(), self.identities())
    }

    /// For each place, what stands there under each identity and each assignment of its variables, identity first.
    pub fn argument_vectors(&self, alloc: Global, a: &Algebra) -> Result<Vectors, AllocError>
        requires { length (condition_power a.now self.now) ≤ WIDTH }
        ensures width { IfOk result (λ vectors. vectors.width ≡ length (condition_power a.now self.now)) }
        ensures vectors { IfOk result (λ vectors. vectors.items ≡ argument_vectors a.now self.now) }
    {
        let width = self.width(a) as u32;
        place_vectors(alloc, a.size(), self.identities(), self.arity(), width)
    }

    /// What the identities say that the value is under each assignment of their variables, identity first.
    pub fn value_row(&self, alloc: Global, a: &Algebra) -> Result<Vec<Elem>, AllocError>
        requires { length (condition_power a.now self.now) ≤ WIDTH }
        ensures { IfOk result (λ row. row.items ≡ value_vector a.now self.now) }
    {
        let size = a.size();
        let mut row = Vec::with_capacity(alloc, self.width(a) as usize)?;
        for identity in self.identities() {
            let variables = identity.pattern().variables();
            append_values(&mut row, size, variables, identity.value())?;
        }
        Ok(row)
    }
}
