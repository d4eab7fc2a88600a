//! The replies to the commands on congruences, one module each.
#![tactic(auto)]

mod central;
mod cg;
mod commutators;
mod con;
mod congruences;
mod covers;
pub mod laws;
mod series;
mod texts;

pub use central::answer_central;
pub use cg::answer_cg;
pub use commutators::answer_comm;
pub use con::answer_con;
pub use covers::answer_types;
pub use series::answer_series;
