// A stream of bytes that only grows.
ghost use Rattle.std.specs.Prelude.{◌≡◌, List, [], ℕ, Option, IsOk};
ghost use Rattle.sx_io.specs.Outside.{HasPut, HasSinkCause};

use std::error::Error;
use std::fmt;

/// Why a call of a [`Sink`] stopped.
#[derive(Clone, Copy, Debug, PartialEq, Eq)]
pub enum SinkStop {
    /// The sink is at fault, as where it is full. Its count of faults rose.
    Failed,
}

impl fmt::Display for SinkStop {
    fn fmt<W: fmt::Write>(&self, f: &mut fmt::Formatter<W>) -> fmt::Result {
        write!(f, "the sink failed")
    }
}

impl Error for SinkStop {}

/// A stream of bytes that only grows.
pub trait Sink {
    /// The bytes that were written, where the sink tells them.
    ghost written: { Self → Option (List ℕ) };

    /// How often a call has failed. It never falls.
    ghost faults: { Self → ℕ };

    /// Writes the bytes at the end.
    ///
    /// It fails only where the count of faults rose, and then a front of the bytes was written.
    /// A call with no bytes never fails. No call takes memory whose want the caller could see.
    fn put(&mut self, bytes: &[u8]) -> Result<(), SinkStop>
        ensures told { HasPut (written self.old) (written self.new) bytes.now result }
        ensures cause { HasSinkCause (faults self.old) (faults self.new) result }
        ensures nothing { bytes.now ≡ [] → IsOk result };
}

/// Drops its bytes, tells nothing and never fails.
#[derive(Clone, Copy, Debug)]
pub struct NullSink;

impl Sink for NullSink {
    ghost use Rattle.std.specs.Prelude.{None};

    ghost written = { λ _. None };

    ghost faults = { λ _. 0 };

    fn put(&mut self, _bytes: &[u8]) -> Result<(), SinkStop> {
        Ok(())
    }
}
