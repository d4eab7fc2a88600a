//! Vectors sixteen at a time: which tuples of an operation give a vector that is there. Where all algebras have at
//! most sixty-four elements the vectors stand by columns, else by words of four entries.
//!
//! Contracts see a `Lanes` as the value of `specs/LaneLists.antt`: a product and vectors of it, in order.
#![tactic(auto)]

mod lanes;
mod large_lanes;
mod lines;
mod long_lines;
mod long_windows;
mod small_lanes;
mod windows;

pub use lanes::Lanes;
