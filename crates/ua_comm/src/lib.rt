//! Commutators of congruences, and the series that they make.
#![tactic(auto)]

mod commutators;
mod growth;
pub mod laws;
mod members;

pub use commutators::{Comm, commutator};
pub use members::{Kind, Series, derived_series, lower_series};
