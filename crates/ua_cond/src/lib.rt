//! Whether some term of an algebra meets a condition.
#![tactic(auto)]

mod decisions;
mod frames;
pub mod laws;

pub use decisions::{decide, decide_rule};
