//! Tests of what no script can ask: whole maps, matrices, single covers, and the polynomials that steps write.
#![tactic(auto)]

#[cfg(test)]
mod covers;
#[cfg(test)]
mod flaws;
#[cfg(test)]
mod given;
#[cfg(test)]
mod matrices;
#[cfg(test)]
mod polynomials;
