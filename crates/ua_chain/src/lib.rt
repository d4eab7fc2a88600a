//! Least chains of terms: those of Jónsson, of Hagemann and Mitschke, and of Day, over the closure of the terms'
//! vectors on patterns.
#![tactic(auto)]

mod chains;
mod classes;
mod climbs;
pub mod laws;
mod least_chains;
mod rows;
mod vectors;

pub use chains::Chain;
pub use least_chains::{NamedKind, day, hagemann_mitschke, jonsson, least_chain, named_chain};
pub use ua_identity::Kind;
