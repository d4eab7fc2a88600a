//! The limits of conditions, each named here and nowhere else.

/// How many places the terms of a condition have at most.
pub const PLACES: u8 = 16;

/// How many places a near-unanimity term has at least.
pub const NEAR_UNANIMITY: u8 = 3;

/// How many variables an identity of a condition has at most.
pub const LETTERS: u8 = 4;
