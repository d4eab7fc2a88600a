//! Why a certificate is not valid.

use std::alloc::AllocError;
use ua_table::{Listed, Name};

/// A list of vectors of a certificate.
#[derive(Clone, Copy, Debug, PartialEq, Eq)]
pub enum ListName {
    Gens,
    Rows,
    /// The target alone, at index 0.
    Target,
}

/// What is wrong with a certificate, in the order in which it is looked for.
#[derive(Drop, Debug)]
pub enum Flaw {
    /// The width or the number of places is out of range, the patterns have too many assignments, or there are
    /// no steps or no terms.
    Width,
    /// A vector has another length than the width, or a number that is no element.
    Vector { list: ListName, at: u32 },
    /// A step names no generator, no operation, another number of arguments, or a step that is not earlier.
    Step { term: Option<u32>, at: u32 },
    /// A row is not above the one before it.
    Order(u32),
    /// The ranks are not the numbers below how many rows there are.
    Rank(u32),
    /// An origin does not give its row, or not from rows of smaller rank.
    Origin(u32),
    /// A generator is no row.
    Generator(u32),
    /// The value of an operation at these rows is no row.
    Missing { op: Name, rows: Listed<u32> },
    /// The last step has another value than the target, or the target is a row.
    Target,
    /// An identity fails at this assignment.
    Identity { at: u32, x: u32, y: u32 },
    /// A term fails its own identities, or its link with the next.
    Link(u32),
    /// A position that is reached is missing, or one that stands there is not in order.
    Reached(u32),
}

/// Why a check gives no certificate its word.
#[derive(Drop, Debug)]
pub enum CheckError {
    /// The first flaw.
    Flaw(Flaw),
    OutOfMemory,
}

impl From<AllocError> for CheckError {
    ghost use Rattle.std.specs.Prelude.{◌≡◌};
    ghost use Rattle.ua_flaws.specs.declared.flaws.CheckError.{CheckError};

    ghost from_gives = { λ _ e. e ≡ CheckError.OutOfMemory };

    fn from(_: AllocError) -> Self {
        CheckError::OutOfMemory
    }
}

impl From<Flaw> for CheckError {
    ghost use Rattle.std.specs.Prelude.{◌≡◌};
    ghost use Rattle.ua_flaws.specs.declared.flaws.CheckError.{CheckError};

    ghost from_gives = { λ flaw e. e ≡ CheckError.Flaw flaw };

    fn from(flaw: Flaw) -> Self {
        CheckError::Flaw(flaw)
    }
}
