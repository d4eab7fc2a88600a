//! Where the operands of a command fail.

ghost use Rattle.std.specs.Prelude.{◌≡◌, IfNone};
ghost use Rattle.ua_reply.specs.Checks.{Checks, passed, ◌and◌, AreFirst, Passes, first_error};

use crate::refusals::Refusal;
use ua_text::Place;

/// The first place of each kind of error.
///
/// Each operand gives one; those of a command are joined in the order of the text.
#[derive(Clone, Copy, Debug, PartialEq, Eq)]
pub struct FirstErrors {
    pub unknown: Option<Place>,
    pub range: Option<Place>,
    pub shape: Option<Place>,
}

impl FirstErrors {
    /// Nothing fails.
    pub fn none() -> FirstErrors
        ensures { AreFirst passed result }
    {
        FirstErrors {
            unknown: None,
            range: None,
            shape: None,
        }
    }

    /// These, and then those of the operands behind.
    pub fn and(self, behind: FirstErrors) -> FirstErrors
        ensures first { (c d : Checks) → AreFirst c self → AreFirst d behind → AreFirst (c and d) result }
        ensures each { (c d : Checks) → Passes (c and d) → Passes c × Passes d }
    {
        FirstErrors {
            unknown: self.unknown.or(behind.unknown),
            range: self.range.or(behind.range),
            shape: self.shape.or(behind.shape),
        }
    }

    /// The first error, in the order in which kinds are tried: unknown names before ranges before shapes.
    pub fn refusal(self) -> Option<Refusal>
        ensures first { (c : Checks) → AreFirst c self → result ≡ first_error c }
        ensures none { (c : Checks) → AreFirst c self → IfNone result (Passes c) }
    {
        match self {
            FirstErrors {
                unknown: Some(place),
                ..
            } => Some(Refusal::Unknown(place)),
            FirstErrors {
                range: Some(place),
                ..
            } => Some(Refusal::Range(place)),
            FirstErrors {
                shape: Some(place),
                ..
            } => Some(Refusal::Shape(place)),
            _ => None,
        }
    }
}
