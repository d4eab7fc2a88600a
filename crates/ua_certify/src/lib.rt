//! The certificates of answers.
#![tactic(auto)]

mod answers;
pub mod laws;
mod parts;

pub use answers::{certify_chain, certify_closure, certify_condition, certify_membership};
