//! Whole runs over memory: devices that fail, workers and jobs that meet, and the script that is generated.
#![tactic(auto)]

#[cfg(test)]
mod devices;
#[cfg(test)]
mod endings;
#[cfg(test)]
mod gates;
#[cfg(test)]
mod generated;
#[cfg(test)]
mod jobs;
#[cfg(test)]
mod runs;
#[cfg(test)]
mod workers;
