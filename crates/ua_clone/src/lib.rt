//! Whether some term or some polynomial of an algebra agrees with a table, and polynomials as trees.
#![tactic(auto)]

mod clones;
mod frames;
mod kinds;
pub mod laws;
mod points;
mod polynomials;

pub use clones::clone_member;
pub use kinds::CloneKind;
pub use points::{Points, is_count};
pub use polynomials::{Poly, poly_value, to_poly};
