//! The job pool: the jobs of a batch are answered by several workers side by side.
//!
//! The workers take job numbers from one queue, which is under a rule: each number that was pushed is in
//! the queue, or was taken by exactly one worker, once. `specs/Rule.antt` has the rule that every step
//! keeps, and `specs/Moves.antt` what each step changes.
#![tactic(auto)]

mod batches;
mod gathering;
mod jobs;
mod plays;
mod queues;
mod serving;
mod views;

pub use batches::{JOBS, batch, batch_with};
pub use jobs::Job;
pub use queues::{JobPass, JobQueue};
pub use serving::{ServeEnd, Served, serve, serve_with};
pub use views::{JobRule, Taking, View};
