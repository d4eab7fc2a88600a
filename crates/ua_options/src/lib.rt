//! The words of the command line.
#![tactic(auto)]

pub mod laws;
mod words;

pub use words::{SEED, Settings, USUAL_BUDGET, USUAL_JOBS, USUAL_WORKERS, settings_of};
