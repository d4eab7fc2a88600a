//! What is done with a text.

use crate::blocks::{put_algebra, put_block, put_tokens};
use crate::printing::{put_parts, put_rest, put_term};
use crate::scripts::{put_closure, put_entries, put_migrated, put_printed};
use crate::steps::{put_steps_fault, put_unfolded, put_values};
use std::alloc::Global;
use std::test::Fail;
use ua_cases::Asked;

/// What is done with a text.
pub enum Call {
    /// It is split into tokens.
    Tokens,
    /// An algebra is read from it and printed, as a block alone or with names.
    Algebra,
    Block,
    /// A term over the algebra with these operations is read from it and printed.
    Term(&'static str),
    Rest,
    /// A term over the semilattice is read from it, and its parts are shown.
    Parts,
    /// Steps are read from it, over the algebra with these operations where they are evaluated.
    StepsFault,
    Values(&'static str),
    Unfolded,
    /// A script is read from it, and asked or printed.
    Closure,
    Entries,
    Printed,
    Migrated,
}

impl Asked for Call {
    fn put_answer(&self, alloc: Global, text: &str, answer: &mut String) -> Result<(), Fail> {
        match self {
            Call::Tokens => put_tokens(text, answer),
            Call::Algebra => put_algebra(alloc, text, answer),
            Call::Block => put_block(alloc, text, answer),
            Call::Term(operations) => put_term(alloc, operations, text, answer),
            Call::Rest => put_rest(alloc, text, answer),
            Call::Parts => put_parts(alloc, text, answer),
            Call::StepsFault => put_steps_fault(alloc, text, answer),
            Call::Values(operations) => put_values(alloc, operations, text, answer),
            Call::Unfolded => put_unfolded(alloc, text, answer),
            Call::Closure => put_closure(alloc, text, answer),
            Call::Entries => put_entries(alloc, text, answer),
            Call::Printed => put_printed(alloc, text, answer),
            Call::Migrated => put_migrated(alloc, text, answer),
        }
    }
}
