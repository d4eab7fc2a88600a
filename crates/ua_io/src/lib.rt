//! Bytes in and bytes out: a source and a sink that count their faults, in memory or over the streams of std.
#![tactic(auto)]

mod memory;
mod standard;
mod whole;

ghost use Rattle.std.specs.Prelude.{◌≤◌, ◌<◌, ◌≡◌, ℕ, List, Option, length, IfOk};
ghost use Rattle.std.specs.Io.KnownBytes.{ReadConsumes, WriteAppends};
ghost use Rattle.ua_io.specs.Faults.{Rose};
ghost use Rattle.ua_io.specs.inner.Faults.{HasCause};

pub use memory::{MemSink, MemSource};
pub use standard::{StdSink, StdSource};
pub use whole::{ReadError, WriteFault, read_all, write_all};

/// The source or the sink failed in this call. It took or wrote nothing.
#[derive(Clone, Copy, Debug, PartialEq, Eq)]
pub struct Failed;

/// Where bytes come from.
pub trait Source {
    /// The bytes not yet given, where the source tells them. A file or a terminal tells none.
    ghost left: { Self → Option (List ℕ) };

    /// How often the source has failed. At the last value of a `u64` the count stands still.
    ghost faults: { Self → ℕ };

    /// Gives bytes into the front of the buffer, and says how many. No byte into a buffer that has room is the end of input.
    fn read(&mut self, buf: &mut [u8]) -> Result<usize, Failed>
        ensures within { IfOk result (λ n. n ≤ length buf.old) }
        ensures bytes { ReadConsumes (left self.old) (left self.new) result buf.new }
        ensures never_falls { faults self.old ≤ faults self.new }
        ensures cause { HasCause (faults self.old) (faults self.new) result };
}

/// Where bytes go.
pub trait Sink {
    /// The bytes that were written, where the sink tells them. A file or a terminal tells none.
    ghost written: { Self → Option (List ℕ) };

    /// How often the sink has failed. At the last value of a `u64` the count stands still.
    ghost faults: { Self → ℕ };

    /// Takes bytes from the front of the piece, and says how many.
    fn write(&mut self, piece: &[u8]) -> Result<usize, Failed>
        ensures within { IfOk result (λ n. n ≤ length piece.now) }
        ensures bytes { WriteAppends (written self.old) (written self.new) result piece.now }
        ensures never_falls { faults self.old ≤ faults self.new }
        ensures cause { HasCause (faults self.old) (faults self.new) result }
        ensures stuck { IfOk result (λ n. n ≡ 0 → 0 < length piece.now → Rose (faults self.old) (faults self.new)) };
}
