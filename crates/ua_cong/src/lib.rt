//! Congruences: the congruence that pairs generate, and all principal congruences.
#![tactic(auto)]

mod closing;
mod components;
mod hints;
mod known;
pub mod laws;
mod moves;
mod pairs;
mod settling;

pub use closing::{cg, cg_above};
pub use pairs::{distinct_principals, principals};
pub use ua_prod::{Clash, is_congruence};
