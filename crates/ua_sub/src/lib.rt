//! Subalgebras, and homomorphisms.
#![tactic(auto)]

pub mod extending;
mod flaws;
mod homs;
pub mod laws;
mod members;
mod twins;

pub use flaws::{HomFlaw, is_hom};
pub use homs::{Hom, HomError};
pub use members::{ones, sub};
