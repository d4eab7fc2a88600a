//! The reply to each command: what questions are answered, with `cert` too, and the table of all commands.
#![tactic(auto)]

mod answers;
mod certificates;
pub mod laws;
mod questions;

pub use answers::{answer, answer_plain};
pub use ua_answer_algebras::{Answered, Made};
