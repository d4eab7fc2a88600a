//! Paths of fields.

ghost use Rattle.std.specs.Prelude.{◌≡◌, ◌⊎◌, ◌++◌, IfOk};
ghost use Rattle.ua_cert.specs.declared.faults.FieldError.{FieldError};
ghost use Rattle.ua_cert.specs.Reading.{Reading, index_path, under, both, below};
ghost use Rattle.ua_cert.specs.inner.Reading.{Reads};

use crate::faults::FieldError;
use std::alloc::{AllocError, Global};
use ua_table::Listed;

/// The path with another before it.
fn below(alloc: Global, front: &[u8], path: &[u8]) -> Result<Listed<u8>, AllocError>
    ensures { IfOk result (λ whole. whole ≡ front.now ++ path.now) }
{
    let mut whole = Vec::from_slice(alloc, front)?;
    whole.extend_from_slice(path)?;
    Ok(Listed::new(whole))
}

/// The fault, with its path below another.
pub(crate) fn fault_below(alloc: Global, front: &[u8], fault: FieldError) -> FieldError
    ensures { (result ≡ below front.now fault) ⊎ (result ≡ FieldError.OutOfMemory) }
{
    match fault {
        FieldError::Shape(path) => match below(alloc, front, path.as_slice()) {
            Ok(path) => FieldError::Shape(path),
            Err(_) => FieldError::OutOfMemory,
        },
        FieldError::Range(path) => match below(alloc, front, path.as_slice()) {
            Ok(path) => FieldError::Range(path),
            Err(_) => FieldError::OutOfMemory,
        },
        FieldError::OutOfMemory => FieldError::OutOfMemory,
    }
}

/// What is read, with its path below that of a key.
pub(crate) fn under<T: Drop>(
    alloc: Global,
    front: &[u8],
    read: Result<T, FieldError>,
) -> Result<T, FieldError>
    ensures { (want : Reading T) → Reads want read → Reads (under front.now want) result }
{
    match read {
        Ok(x) => Ok(x),
        Err(fault) => Err(fault_below(alloc, front, fault)),
    }
}

/// The path of an item of a list.
pub(crate) fn index_path(alloc: Global, i: usize) -> Result<Vec<u8>, AllocError>
    ensures { IfOk result (λ path. path.items ≡ index_path i) }
{
    let mut path = Vec::from_slice(alloc, b"/")?;
    path.extend_from_slice(i.to_string(alloc)?.as_bytes())?;
    Ok(path)
}

/// Two values that stand one behind the other: the first fault of shape, else the first of range, else both.
pub(crate) fn both<T: Drop, U: Drop>(
    first: Result<T, FieldError>,
    second: Result<U, FieldError>,
) -> Result<(T, U), FieldError>
    ensures { (x : Reading T) (y : Reading U) → Reads x first → Reads y second → Reads (both x y) result }
{
    match (first, second) {
        (Ok(x), Ok(y)) => Ok((x, y)),
        (Err(FieldError::Range(_)), Err(FieldError::Shape(path))) => Err(FieldError::Shape(path)),
        (Err(FieldError::Range(_)), Err(FieldError::OutOfMemory)) => Err(FieldError::OutOfMemory),
        (Err(fault), _) => Err(fault),
        (Ok(_), Err(fault)) => Err(fault),
    }
}
