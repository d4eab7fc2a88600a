//! The term condition of two congruences, and the matrices that decide it.
#![tactic(auto)]

mod centrality;
pub mod centralizing;
mod deltas;
mod failures;
mod generators;
pub mod laws;
mod leading;

pub use centrality::{Central, matrices, rows_of};
pub use failures::{failing, fails};
pub use leading::deciding_matrices;
