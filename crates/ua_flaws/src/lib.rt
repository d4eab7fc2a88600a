//! The flaws of certificates of members and of listings, and what those of certificates of terms need too: the tests of
//! vectors, of steps, and of rows that hold all that is generated.
#![tactic(auto)]

mod closing;
mod flaws;
pub mod frames;
pub mod laws;
pub mod listings;
pub mod members;
mod numbers;
mod orders;
mod origins;
pub mod outside;
mod ranks;
pub mod steps;
pub mod vectors;

pub use flaws::{CheckError, Flaw, ListName};
