//! A shelf in memory that never fails.
ghost use Rattle.std.specs.Prelude.{◌≡◌, ◌<◌, ◌≤◌, true, [], length, Some, IsOk, IsOkAnd, Ok, false};
ghost use Rattle.audit_base.specs.declared.terms.Which.{Which};
ghost use Rattle.log_source.specs.Calls.{count_after};
ghost use Rattle.log_source.specs.Sources.{ChangesOneSlot, Starts, Reads, fresh_slot, longest_read};

use crate::in_memory::copy_piece;
use crate::shelf::{Failed, Shelf, StartFault};
use audit_base::terms::Which;

/// One slot and its log.
#[derive(Drop)]
struct QuietSlot {
    log: Vec<u8>,
    started: bool,
    at: usize,
    starts: u64,
}

impl QuietSlot {
    ghost use Rattle.log_source.specs.QuietShelves.{quiet_state, quiet_started_slot};

    fn new(log: Vec<u8>) -> QuietSlot
        ensures log { result.log.items ≡ log.items }
        ensures fresh { quiet_state result ≡ fresh_slot (Some []) }
    {
        QuietSlot {
            log,
            started: false,
            at: 0,
            starts: 0,
        }
    }

    fn start(&mut self)
        ensures log { self.new.log.items ≡ self.old.log.items }
        ensures slot { let starts = count_after self.old.starts in
            quiet_state self.new ≡ quiet_started_slot self.old.log.items starts }
    {
        self.started = true;
        self.at = 0;
        self.starts = self.starts.saturating_add(1);
    }

    fn read(&mut self, piece: usize, buf: &mut [u8]) -> usize
        requires room { 0 < length buf.old }
        requires piece { 1 ≤ piece }
        requires started { (quiet_state self.old).started ≡ true }
        ensures log { self.new.log.items ≡ self.old.log.items }
        ensures slot { Reads (quiet_state self.old) (quiet_state self.new) (Ok result) buf.new }
        ensures piece { result ≤ piece }
    {
        let rest = self.log.get(self.at..).unwrap_or(&[]);
        let count = copy_piece(rest, piece, buf);
        self.at += count;
        count
    }
}

/// A shelf over two logs in memory, one in each slot under every name. No call of it fails.
#[derive(Drop)]
pub struct QuietShelf {
    orders: QuietSlot,
    trades: QuietSlot,
    piece: usize,
    ghost piece_given: { 1 ≤ piece },
}

impl QuietShelf {
    ghost use Rattle.log_source.specs.QuietShelves.{quiet_log, quiet_slot, quiet_piece};

    /// A shelf over these two logs, with nothing started. A read gives at most `piece` bytes.
    pub fn new(orders: Vec<u8>, trades: Vec<u8>, piece: usize) -> QuietShelf
        requires { 1 ≤ piece }
        ensures orders { quiet_log result Which.Orders ≡ orders.items }
        ensures trades { quiet_log result Which.Trades ≡ trades.items }
        ensures piece { quiet_piece result ≡ piece }
        ensures fresh { (w : Which) → quiet_slot result w ≡ fresh_slot (Some []) }
    {
        QuietShelf {
            orders: QuietSlot::new(orders),
            trades: QuietSlot::new(trades),
            piece,
        }
    }
}

impl Shelf for QuietShelf {
    ghost use Rattle.log_source.specs.QuietShelves.{quiet_log, quiet_log_of, quiet_slot, quiet_piece, quiet_tells};

    ghost tells = { quiet_tells };

    ghost log_of = { quiet_log_of };

    ghost slot = { quiet_slot };

    fn start(&mut self, which: Which, name: &str) -> Result<(), StartFault>
        ensures only { ChangesOneSlot quiet_tells quiet_log_of quiet_slot which self.old self.new }
        ensures logs { (w : Which) → quiet_log self.new w ≡ quiet_log self.old w }
        ensures slot { let log = quiet_log self.old which in
            Starts true (Some log) (quiet_slot self.old which) (quiet_slot self.new which) result }
        ensures piece { quiet_piece self.new ≡ quiet_piece self.old }
        ensures starts { IsOk result }
    {
        match which {
            Which::Orders => self.orders.start(),
            Which::Trades => self.trades.start(),
        }
        Ok(())
    }

    fn read(&mut self, which: Which, buf: &mut [u8]) -> Result<usize, Failed>
        requires room { 0 < length buf.old }
        requires started { (quiet_slot self.old which).started ≡ true }
        requires within { (quiet_slot self.old which).taken ≤ longest_read }
        ensures only { ChangesOneSlot quiet_tells quiet_log_of quiet_slot which self.old self.new }
        ensures logs { (w : Which) → quiet_log self.new w ≡ quiet_log self.old w }
        ensures slot { Reads (quiet_slot self.old which) (quiet_slot self.new which)
            result buf.new }
        ensures piece { quiet_piece self.new ≡ quiet_piece self.old }
        ensures reads { IsOkAnd result (λ n. n ≤ quiet_piece self.old) }
    {
        let count = match which {
            Which::Orders => self.orders.read(self.piece, buf),
            Which::Trades => self.trades.read(self.piece, buf),
        };
        Ok(count)
    }
}
