//! All the bytes of a source, and all of a piece to a sink.
ghost use Rattle.std.specs.Prelude.{◌≡◌, ◌+◌, ◌<◌, ◌≤◌, IfOk, OnOk, OnErr, IsErrOf, vec_len};
ghost use Rattle.std.specs.Io.KnownBytes.{Appends, Consumes, IsAtEnd};
ghost use Rattle.ua_io.specs.Faults.{Rose, AppendsFront, TakesCount, TakesAtMost};

use crate::{Failed, Sink, Source};
use std::alloc::{AllocError, Global};

/// Why not all bytes were read.
#[derive(Clone, Copy, Debug, PartialEq, Eq)]
pub enum ReadError {
    /// The source failed.
    Fault,
    /// The source gave more bytes than the limit.
    TooLong,
    OutOfMemory,
}

impl From<AllocError> for ReadError {
    ghost use Rattle.std.specs.Prelude.{◌≡◌};
    ghost use Rattle.ua_io.specs.declared.whole.ReadError.TheVariants.{OutOfMemory};

    ghost from_gives = { λ _ e. e ≡ OutOfMemory };

    fn from(_: AllocError) -> Self {
        ReadError::OutOfMemory
    }
}

/// The sink failed before all was written.
#[derive(Clone, Copy, Debug, PartialEq, Eq)]
pub struct WriteFault;

/// How many bytes one read asks for.
const PIECE: usize = 4096;

/// All bytes up to the end of input, where there are at most `limit` of them. After an error the bytes that were
/// taken stay taken.
pub fn read_all<S: Source>(alloc: Global, source: &mut S, limit: u32) -> Result<Vec<u8>, ReadError>
    ensures whole { IfOk result (λ v. Consumes (S.left source.old) (S.left source.new) v.items) }
    ensures end { OnOk result (IsAtEnd (S.left source.new)) }
    ensures within { IfOk result (λ v. vec_len v ≤ limit) }

    ensures fault { IsErrOf result ReadError.Fault → Rose (S.faults source.old) (S.faults source.new) }
    ensures fault_within { IsErrOf result ReadError.Fault → TakesAtMost (S.left source.old) (S.left source.new) limit }
    ensures too_long { IsErrOf result ReadError.TooLong → TakesCount (S.left source.old) (S.left source.new) (limit + 1) }
    ensures taken { OnErr result (TakesAtMost (S.left source.old) (S.left source.new) (limit + 1)) }
    ensures never_falls { S.faults source.old ≤ S.faults source.new }
{
    let room = limit as usize + 1;
    let mut bytes = Vec::new(alloc);
    let mut buf = [0; PIECE];
    while bytes.len() < room {
        let want = PIECE.min(room - bytes.len());
        let piece = &mut buf[..want];
        let Ok(count) = source.read(piece) else {
            return Err(ReadError::Fault);
        };
        if count == 0 {
            return Ok(bytes);
        }
        bytes.extend_from_slice(&buf[..count])?;
    }
    Err(ReadError::TooLong)
}

/// Writes all the bytes. After a fault the first of them are written, and no more. It takes no memory.
pub fn write_all<K: Sink>(sink: &mut K, bytes: &[u8]) -> Result<(), WriteFault>
    ensures whole { OnOk result (Appends (K.written sink.old) (K.written sink.new) bytes.now) }
    ensures front { OnErr result (AppendsFront (K.written sink.old) (K.written sink.new) bytes.now) }
    ensures cause { OnErr result (Rose (K.faults sink.old) (K.faults sink.new)) }
    ensures never_falls { K.faults sink.old ≤ K.faults sink.new }
{
    let mut done = 0;
    while done < bytes.len() {
        let Ok(taken) = sink.write(&bytes[done..]) else {
            return Err(WriteFault);
        };
        if taken == 0 {
            return Err(WriteFault);
        }
        done += taken;
    }
    Ok(())
}
