//! Tests of bytes in and out, of tables, of frames, and of the numbering of tuples.
#![tactic(auto)]

#[cfg(test)]
mod asked;
#[cfg(test)]
mod bytes;
#[cfg(test)]
mod frames;
#[cfg(test)]
mod numbering;
#[cfg(test)]
mod runs;
#[cfg(test)]
mod tables;
