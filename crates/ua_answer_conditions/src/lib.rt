//! The replies to the commands on identities, conditions, chains and clones of terms, one module each.
#![tactic(auto)]

mod arguments;
mod chains;
mod clone;
mod cond;
mod condition;
mod holds;
pub mod laws;

pub use chains::{answer_chain, chain};
pub use clone::answer_clone;
pub use cond::{answer_cond, answer_nu, decide_named, near_unanimous, variables_of};
pub use condition::answer_condition;
pub use holds::answer_holds;
