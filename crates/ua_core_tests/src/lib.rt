//! Tests of rows, of the event machine, of the log that workers share, of bases, and of vectors in lanes.
#![tactic(auto)]

#[cfg(test)]
mod advanced;
#[cfg(test)]
mod associative;
#[cfg(test)]
mod boards;
#[cfg(test)]
mod lanes;
#[cfg(test)]
mod listing;
#[cfg(test)]
mod machines;
#[cfg(test)]
mod operating;
#[cfg(test)]
mod reached;
#[cfg(test)]
mod scratching;
