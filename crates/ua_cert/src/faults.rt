//! Why a text is no certificate.

use std::alloc::AllocError;
use ua_table::Listed;

/// Why a text is no certificate.
#[derive(Drop, Debug)]
pub enum CertError {
    /// It is no JSON.
    Json,
    /// The path of the first field that is missing, unknown or of another kind: the key, and behind it `/` and
    /// the number of an item for each list on the way.
    Shape(Listed<u8>),
    /// The path of the first number that is not written with digits alone, or is not below 2^32.
    Range(Listed<u8>),
    OutOfMemory,
}

impl From<AllocError> for CertError {
    ghost use Rattle.std.specs.Prelude.{◌≡◌};
    ghost use Rattle.ua_cert.specs.declared.faults.CertError.{CertError};

    ghost from_gives = { λ _ e. e ≡ CertError.OutOfMemory };

    fn from(_: AllocError) -> Self {
        CertError::OutOfMemory
    }
}

/// Why a JSON value is not what a field should be.
#[derive(Drop, Debug)]
pub(crate) enum FieldError {
    /// The path, below the field, of the first value of another kind.
    Shape(Listed<u8>),
    /// The path, below the field, of the first number out of range.
    Range(Listed<u8>),
    OutOfMemory,
}

impl From<AllocError> for FieldError {
    ghost use Rattle.std.specs.Prelude.{◌≡◌};
    ghost use Rattle.ua_cert.specs.declared.faults.FieldError.{FieldError};

    ghost from_gives = { λ _ e. e ≡ FieldError.OutOfMemory };

    fn from(_: AllocError) -> Self {
        FieldError::OutOfMemory
    }
}

impl From<FieldError> for CertError {
    ghost use Rattle.std.specs.Prelude.{◌≡◌};
    ghost use Rattle.ua_cert.specs.Certificates.{fault_of};

    ghost from_gives = { λ fault e. e ≡ fault_of fault };

    fn from(fault: FieldError) -> Self {
        match fault {
            FieldError::Shape(path) => CertError::Shape(path),
            FieldError::Range(path) => CertError::Range(path),
            FieldError::OutOfMemory => CertError::OutOfMemory,
        }
    }
}
