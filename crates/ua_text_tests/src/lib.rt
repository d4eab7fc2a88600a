//! Tests of texts: tokens, blocks, terms and steps, certificates, and whole scripts that are printed or migrated.
#![tactic(auto)]

#[cfg(test)]
mod algebras;
#[cfg(test)]
mod blocks;
#[cfg(test)]
mod cases;
#[cfg(test)]
mod certificates;
#[cfg(test)]
mod printing;
#[cfg(test)]
mod scripts;
#[cfg(test)]
mod steps;
#[cfg(test)]
mod texts;
