//! Tests of the job pool.
#![tactic(auto)]

#[cfg(test)]
mod batches;
#[cfg(test)]
mod queues;
