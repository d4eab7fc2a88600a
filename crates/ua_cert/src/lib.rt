//! Certificates: answers about an algebra that can be checked without trusting whoever found them.
#![tactic(auto)]

mod certificates;
mod certs;
mod faults;
mod fields;
mod kinds;
pub mod laws;
mod names;
mod objects;
mod parsing;
mod paths;
mod printing;
mod reading;
mod writing;

pub use certs::{Cert, CertStep, ChainName, CondName, Text};
pub use faults::CertError;
pub use parsing::read;
