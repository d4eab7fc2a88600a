//! The check of a certificate, by itself and without any search.
#![tactic(auto)]

mod chains;
mod charts;
mod checking;
mod conditions;
mod equations;
pub mod laws;
mod no_chains;
mod positions;
mod reached;
mod values;

pub use checking::check;
pub use ua_flaws::{CheckError, Flaw, ListName};
