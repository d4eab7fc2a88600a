//! Why a construction has no result.

use crate::clashes::Clash;
use std::alloc::AllocError;
use ua_table::Elem;

/// Why an algebra was not made from others.
#[derive(Clone, Copy, Debug, PartialEq, Eq)]
pub enum ProdError {
    /// The two algebras have not the same list of names and arities.
    Signature,
    /// The result would have no element, more than `limits::SIZE`, or more values than `limits::VALUES`.
    Size,
    /// This operation takes these members to what is no member: the first such, in the order of the
    /// operations and then of the arguments. The places of `args` past the arity hold 0.
    NotClosed { op: u32, args: [Elem; 4] },
    /// The partition is no congruence, by its first clash.
    NotCongruence(Clash),
    OutOfMemory,
}

impl From<AllocError> for ProdError {
    ghost use Rattle.std.specs.Prelude.{◌≡◌};
    ghost use Rattle.ua_prod.specs.declared.errors.ProdError.{ProdError};

    ghost from_gives = { λ _ e. e ≡ ProdError.OutOfMemory };

    fn from(_: AllocError) -> Self {
        ProdError::OutOfMemory
    }
}
