//! Rows of one stride, end to end in pages.
#![tactic(auto)]

mod pages;

pub use pages::Pages;
