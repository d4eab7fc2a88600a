//! Free algebras, and identities at every assignment of elements to variables.
#![tactic(auto)]

mod free_algebras;
mod identities;
pub mod laws;

pub use free_algebras::{free, generators};
pub use identities::{HoldsError, holds};
