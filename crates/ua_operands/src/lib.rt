//! The operands of commands as they are written: names, numbers, vectors, partitions, identities and choices of words.
//! They are read and printed.
#![tactic(auto)]

pub mod identities;
pub mod points;
pub mod printers;
pub mod readers;
mod written;

pub use written::{
    CloneWord, CondWord, Entry, IdentityText, Items, Mode, Number, PartText, PointsText,
    SeriesWord, Variable, Word,
};
