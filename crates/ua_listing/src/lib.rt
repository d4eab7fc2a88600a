//! Listings of the members of a subuniverse: rows in the order of their vectors, with ranks and origins.
#![tactic(auto)]

mod leasts;
mod listing;
mod records;
mod searches;
mod sorting;

pub use leasts::least;
pub use listing::{Listing, listing_of, moved};
