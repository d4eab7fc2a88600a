//! Subtraces and types of covers in the lattice of congruences.
#![tactic(auto)]

mod descents;
mod generators;
mod known;
pub mod labelling;
pub mod laws;
mod leads;
mod marks;
mod pairs;
mod quotients;
mod searches;
mod signs;
mod squares;
mod subtraces;
mod tables;
mod trials;
mod typings;

pub use subtraces::{Trace, subtrace};
pub use tables::Types;
pub use typings::{Typed, type_of};
