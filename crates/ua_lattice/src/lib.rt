//! The lattice of an algebra's congruences.
#![tactic(auto)]

mod covers;
mod irreducibles;
mod joiner;
mod joins;
mod lattice;
pub mod laws;
mod least;
mod ordering;

pub use lattice::{Lattice, congruences};
