//! A shelf in memory whose logs have names, and which fails at chosen calls.
ghost use Rattle.std.specs.Prelude.{◌≡◌, ◌≢◌, ℕ, ◌<◌, ◌≤◌, true, List, [], length, Some, None, IfOk, IfErr, OnOk, OnErr, is_err, is_none, ◌||◌, string_bytes};
ghost use Rattle.audit_base.specs.declared.terms.Which.{Which};
ghost use Rattle.log_source.specs.Cursors.{IsCursorInside};
ghost use Rattle.log_source.specs.Sources.{ChangesOneSlot, Starts, Reads, fresh_slot, longest_read};

use crate::cursors::{Cursor, NamedLog, read_cursor, start_cursor};
use crate::in_memory::is_failing_number;
use crate::shelf::{Failed, Shelf, StartFault};
use audit_base::faults::NoMemory;
use audit_base::terms::Which;
use std::alloc::Global;

/// A shelf over logs in memory, each under its name. Starts and reads are counted together from 1;
/// a call whose number is listed fails and is counted as a fault of its slot.
/// A start of a name that is not there always fails, and no other call does.
#[derive(Drop)]
pub struct MemoryShelf {
    // A log is never changed, so that a slot that reads it keeps what is left: a name's newer bytes
    // are a log of their own.
    logs: Vec<NamedLog>,
    orders: Cursor,
    trades: Cursor,
    piece: usize,
    fails: Vec<u32>,
    calls: u64,
    ghost piece_given: { 1 ≤ piece },
    ghost orders_within: { IsCursorInside logs.items orders },
    ghost trades_within: { IsCursorInside logs.items trades },
}

impl MemoryShelf {
    ghost use Rattle.log_source.specs.MemoryShelves.{memory_log, memory_slot, calls_made, failing_calls, piece_size, KeepsNamedLogs, KeepsOtherLogs, KeepsShelfSettings};

    /// An empty shelf with nothing started. A read gives at most `piece` bytes, and the calls whose
    /// numbers are in `fails` fail. It takes no memory.
    pub fn new(alloc: Global, piece: usize, fails: Vec<u32>) -> MemoryShelf
        requires { 1 ≤ piece }
        ensures logs { (n : List ℕ) → memory_log result n ≡ None }
        ensures fresh { (w : Which) → memory_slot result w ≡ fresh_slot (Some []) }
        ensures calls { calls_made result ≡ 0 }
        ensures piece { piece_size result ≡ piece }
        ensures fails { failing_calls result ≡ fails.items }
    {
        let fresh = Cursor {
            started: false,
            log: 0,
            at: 0,
            starts: 0,
            faults: 0,
        };
        MemoryShelf {
            logs: Vec::new(alloc),
            orders: fresh,
            trades: fresh,
            piece,
            fails,
            calls: 0,
        }
    }

    /// Puts these bytes under the name, in place of those that are there. What is left in a started
    /// slot stays, and out of memory leaves everything as it was.
    pub fn put(&mut self, name: String, bytes: Vec<u8>) -> Result<(), NoMemory>
        ensures given { OnOk result (memory_log self.new (string_bytes name) ≡ Some bytes.items) }
        ensures others { KeepsOtherLogs self.old self.new (string_bytes name) }
        ensures unchanged { OnErr result (KeepsNamedLogs self.old self.new) }
        ensures slots { (w : Which) → memory_slot self.new w ≡ memory_slot self.old w }
        ensures calls { calls_made self.new ≡ calls_made self.old }
        ensures rules { KeepsShelfSettings self.old self.new }
    {
        self.logs.push(NamedLog { name, bytes })?;
        Ok(())
    }
}

impl Shelf for MemoryShelf {
    ghost use Rattle.log_source.specs.MemoryShelves.{memory_log, memory_log_of, memory_slot, memory_tells, fails_next, fails_to_start, read_size, CountsCall, CountsSlotFault};

    ghost tells = { memory_tells };

    ghost log_of = { memory_log_of };

    ghost slot = { memory_slot };

    fn start(&mut self, which: Which, name: &str) -> Result<(), StartFault>
        ensures only { ChangesOneSlot memory_tells memory_log_of memory_slot
            which self.old self.new }
        ensures slot { let log = memory_log self.old name.now in
            Starts true log (memory_slot self.old which) (memory_slot self.new which) result }
        ensures counted { CountsCall self.old self.new }
        ensures failing { is_err result ≡ fails_to_start self.old name.now }
        ensures memory { IfErr result (λ fault. fault ≡ StartFault.Failed) }
        ensures faults { CountsSlotFault self.old self.new which }
    {
        self.calls = self.calls.saturating_add(1);
        let fails = is_failing_number(self.calls, &self.fails);
        match which {
            Which::Orders => start_cursor(&self.logs, &mut self.orders, fails, name),
            Which::Trades => start_cursor(&self.logs, &mut self.trades, fails, name),
        }
    }

    fn read(&mut self, which: Which, buf: &mut [u8]) -> Result<usize, Failed>
        requires room { 0 < length buf.old }
        requires started { (memory_slot self.old which).started ≡ true }
        requires within { (memory_slot self.old which).taken ≤ longest_read }
        ensures only { ChangesOneSlot memory_tells memory_log_of memory_slot
            which self.old self.new }
        ensures slot { Reads (memory_slot self.old which) (memory_slot self.new which)
            result buf.new }
        ensures counted { CountsCall self.old self.new }
        ensures failing { is_err result ≡ fails_next self.old }
        ensures count { IfOk result (λ n. n ≡ read_size self.old which (length buf.old)) }
        ensures faults { CountsSlotFault self.old self.new which }
    {
        self.calls = self.calls.saturating_add(1);
        let fails = is_failing_number(self.calls, &self.fails);
        match which {
            Which::Orders => read_cursor(&self.logs, &mut self.orders, fails, self.piece, buf),
            Which::Trades => read_cursor(&self.logs, &mut self.trades, fails, self.piece, buf),
        }
    }
}
