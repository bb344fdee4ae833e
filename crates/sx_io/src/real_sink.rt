// One of std's writers as a sink.
ghost use Rattle.std.specs.Prelude.{◌≡◌, [], ℕ, IsOk};

use crate::streams::write_whole;
use crate::{Sink, SinkStop};
use std::io::Write;

/// One of std's writers, such as standard output or an open file.
///
/// It tells no contents. Each `put` hands all its bytes to the writer, in as many pieces as the
/// writer takes, and does not flush it.
#[derive(Drop)]
pub struct RealSink<W: Write> {
    writer: W,
    faults: u64,
}

impl<W: Write> RealSink<W> {
    ghost use Rattle.sx_io.specs.RealSink.{sink_writer, sink_faults};

    /// Makes a sink of a writer, with no fault so far. It takes no memory.
    pub fn new(writer: W) -> RealSink<W>
        ensures writer { sink_writer result ≡ writer }
        ensures faults { sink_faults result ≡ 0 }
    {
        RealSink { writer, faults: 0 }
    }

    /// How often a call has failed.
    pub fn fault_count(&self) -> u64
        ensures { result ≡ sink_faults self.now }
    {
        self.faults
    }
}

impl<W: Write> Sink for RealSink<W> {
    ghost use Rattle.std.specs.Prelude.{None};
    ghost use Rattle.sx_io.specs.Outside.{HasPut, HasSinkCause};
    ghost use Rattle.sx_io.specs.Streams.{WritesThrough};
    ghost use Rattle.sx_io.specs.RealSink.{sink_writer, sink_faults};

    ghost written = { λ _. None };

    ghost faults = { λ s. sink_faults s };

    fn put(&mut self, bytes: &[u8]) -> Result<(), SinkStop>
        ensures told { HasPut None None bytes.now result }
        ensures cause { HasSinkCause (sink_faults self.old) (sink_faults self.new) result }
        ensures nothing { bytes.now ≡ [] → IsOk result }
        // Where the writer knows its own bytes.
        ensures through { WritesThrough (W.contents (sink_writer self.old))
            (W.contents (sink_writer self.new)) bytes.now result }
    {
        let result = write_whole(&mut self.writer, bytes);
        if result.is_err() {
            self.faults = self.faults.saturating_add(1);
        }
        result
    }
}
