//! Tests of closures: of a worker's run, of listings, and of the calls that join them.
#![tactic(auto)]

#[cfg(test)]
mod asked;
#[cfg(test)]
mod closures;
#[cfg(test)]
mod given;
#[cfg(test)]
mod meeting;
#[cfg(test)]
mod reaches;
#[cfg(test)]
mod runs;
#[cfg(test)]
mod texts;
