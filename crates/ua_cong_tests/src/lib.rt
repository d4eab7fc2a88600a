//! Tests of partitions, of principal congruences, and of algebras made from others.
#![tactic(auto)]

#[cfg(test)]
mod congruences;
#[cfg(test)]
mod constructions;
#[cfg(test)]
mod partitions;
