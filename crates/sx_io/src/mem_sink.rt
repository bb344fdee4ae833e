// A sink in memory, with a room that is reserved once.
ghost use Rattle.std.specs.Prelude.{◌≡◌, ◌≤◌, [], ℕ, Some, IsOk, IfOk, OnErr, vec_capacity, vec_len};

use crate::{NoMemory, Sink, SinkStop};
use std::alloc::Global;

/// A sink in memory that tells its bytes, has a fixed room and can be told to fail.
#[derive(Drop)]
pub struct MemSink {
    bytes: Vec<u8>,
    room: usize,
    failing: Vec<u64>,
    // The puts of at least one byte so far.
    puts: u64,
    faults: u64,
    ghost fits: { vec_len bytes ≤ room },
    ghost reserved: { room ≤ vec_capacity bytes },
}

impl MemSink {
    ghost use Rattle.sx_io.specs.MemSink.{sink_bytes, sink_room, sink_failing, sink_faults, sink_puts};

    /// Makes an empty sink with room for `room` bytes, which it reserves here once.
    ///
    /// The puts of at least one byte are numbered from 1, and those listed in `failing` fail.
    pub fn new(alloc: Global, room: usize, failing: Vec<u64>) -> Result<MemSink, NoMemory>
        ensures bytes { IfOk result (λ s. sink_bytes s ≡ []) }
        ensures room { IfOk result (λ s. sink_room s ≡ room) }
        ensures failing { IfOk result (λ s. sink_failing s ≡ failing.items) }
        ensures puts { IfOk result (λ s. sink_puts s ≡ 0) }
        ensures faults { IfOk result (λ s. sink_faults s ≡ 0) }
    {
        Ok(MemSink {
            bytes: Vec::with_capacity(alloc, room)?,
            room,
            failing,
            puts: 0,
            faults: 0,
        })
    }

    /// The bytes that were written.
    pub fn bytes_now(&self) -> &Vec<u8>
        ensures { result.now.items ≡ sink_bytes self.now }
    {
        &self.bytes
    }

    /// How often a call has failed.
    pub fn fault_count(&self) -> u64
        ensures { result ≡ sink_faults self.now }
    {
        self.faults
    }
}

impl Sink for MemSink {
    ghost use Rattle.sx_io.specs.Outside.{HasPut, HasSinkCause, raised};
    ghost use Rattle.sx_io.specs.MemSink.{sink_bytes, sink_faults, sink_puts, puts_after, IsPutInto, HasSameSettings};

    ghost written = { λ s. Some (sink_bytes s) };

    ghost faults = { λ s. sink_faults s };

    /// Fails exactly where the put's number is listed, and then keeps nothing, or where it goes past
    /// the room, and then keeps what fits.
    fn put(&mut self, bytes: &[u8]) -> Result<(), SinkStop>
        ensures told { HasPut (Some (sink_bytes self.old)) (Some (sink_bytes self.new)) bytes.now result }
        ensures cause { HasSinkCause (sink_faults self.old) (sink_faults self.new) result }
        ensures nothing { bytes.now ≡ [] → IsOk result }
        ensures exact { IsPutInto self.old self.new bytes.now result }
        ensures counted { sink_puts self.new ≡ puts_after self.old bytes.now }
        ensures one_fault { OnErr result (sink_faults self.new ≡ raised (sink_faults self.old)) }
        ensures settings { HasSameSettings self.old self.new }
    {
        if bytes.is_empty() {
            return Ok(());
        }
        self.puts = self.puts.saturating_add(1);
        if self.failing.contains(&self.puts) {
            self.faults = self.faults.saturating_add(1);
            return Err(SinkStop::Failed);
        }
        let left = self.room - self.bytes.len();
        if bytes.len() <= left {
            self.bytes.extend_from_slice(bytes).unwrap();
            return Ok(());
        }
        self.bytes.extend_from_slice(&bytes[..left]).unwrap();
        self.faults = self.faults.saturating_add(1);
        Err(SinkStop::Failed)
    }
}
