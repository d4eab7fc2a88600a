//! The service of a script, and the top call.
#![tactic(auto)]

mod asking;
mod batches;
mod generated;
mod hearing;
pub mod laws;
mod run_call;
mod serve;
mod status;

pub use generated::generated_script;
pub use run_call::run;
pub use status::Status;
