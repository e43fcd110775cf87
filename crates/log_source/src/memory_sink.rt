//! A sink in memory, which fails at chosen writes and where its room is full.
ghost use Rattle.std.specs.Prelude.{◌≡◌, ◌<◌, ◌≤◌, [], length, Some, IfOk, is_err, vec_len, vec_capacity};
ghost use Rattle.log_source.specs.Sinks.{Writes};

use crate::in_memory::is_failing_number;
use crate::shelf::Failed;
use crate::sink::Sink;
use audit_base::faults::NoMemory;
use std::alloc::Global;

/// A sink in memory with a bounded room, reserved when it is made.
#[derive(Drop)]
pub struct MemorySink {
    bytes: Vec<u8>,
    room: usize,
    most: usize,
    fails: Vec<u32>,
    calls: u64,
    faults: u64,
    ghost reserved: { room ≤ vec_capacity bytes },
    ghost within: { vec_len bytes ≤ room },
    ghost most_given: { 1 ≤ most },
    // With no failing write, only a full room is a fault.
    pub ghost quiet: { fails.items ≡ [] → vec_len bytes < room → faults ≡ 0 },
}

impl MemorySink {
    ghost use Rattle.log_source.specs.MemorySinks.{memory_sink_state, sink_room, sink_greatest_write, writes_made, failing_writes, sink_faults};

    /// An empty sink with room for `room` bytes. One write takes at most `most` bytes,
    /// and the writes whose numbers, from 1, are in `fails` fail,
    /// as does every write once the room is full.
    pub fn new(
        alloc: Global,
        room: usize,
        most: usize,
        fails: Vec<u32>,
    ) -> Result<MemorySink, NoMemory>
        requires { 1 ≤ most }
        ensures wrote { IfOk result (λ sink. (memory_sink_state sink).wrote ≡ Some []) }
        ensures faults { IfOk result (λ sink. sink_faults sink ≡ 0) }
        ensures calls { IfOk result (λ sink. writes_made sink ≡ 0) }
        ensures room { IfOk result (λ sink. sink_room sink ≡ room) }
        ensures most { IfOk result (λ sink. sink_greatest_write sink ≡ most) }
        ensures fails { IfOk result (λ sink. failing_writes sink ≡ fails.items) }
    {
        let bytes = Vec::with_capacity(alloc, room)?;
        Ok(MemorySink {
            bytes,
            room,
            most,
            fails,
            calls: 0,
            faults: 0,
        })
    }

    /// What was written.
    pub fn bytes(&self) -> &[u8]
        ensures { (memory_sink_state self.now).wrote ≡ Some result.now }
    {
        self.bytes.as_slice()
    }
}

impl Sink for MemorySink {
    ghost use Rattle.log_source.specs.MemorySinks.{memory_sink_state, write_fails, write_size, CountsWriteFault, CountsWrite};

    ghost state = { memory_sink_state };

    fn write(&mut self, piece: &[u8]) -> Result<usize, Failed>
        requires { 0 < length piece.now }
        ensures written { Writes (memory_sink_state self.old) (memory_sink_state self.new)
            result piece.now }
        ensures counted { CountsWrite self.old self.new }
        ensures failing { is_err result ≡ write_fails self.old }
        ensures count { IfOk result (λ n. n ≡ write_size self.old (length piece.now)) }
        ensures faults { CountsWriteFault self.old self.new }
    {
        self.calls = self.calls.saturating_add(1);
        let free = self.room - self.bytes.len();
        if is_failing_number(self.calls, &self.fails) || free == 0 {
            self.faults = self.faults.saturating_add(1);
            return Err(Failed);
        }
        let count = self.most.min(piece.len().min(free));
        match self.bytes.extend_from_slice(&piece[..count]) {
            Ok(()) => Ok(count),
            Err(_) => unreachable!(),
        }
    }
}
