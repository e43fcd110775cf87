//! A shelf whose logs have no end.
ghost use Rattle.std.specs.Prelude.{◌≡◌, ◌<◌, ◌≤◌, true, false, length, replicate, None, IsOk, Ok};
ghost use Rattle.audit_base.specs.declared.terms.Which.{Which};
ghost use Rattle.log_source.specs.Calls.{count_after};
ghost use Rattle.log_source.specs.Sources.{ChangesOneSlot, Starts, Reads, fresh_slot, longest_read};

use crate::shelf::{Failed, Shelf, StartFault};
use audit_base::terms::Which;

/// One slot.
#[derive(Clone, Copy)]
struct EndlessSlot {
    started: bool,
    taken: u64,
    starts: u64,
}

impl EndlessSlot {
    ghost use Rattle.log_source.specs.EndlessShelves.{endless_state, endless_started_slot};

    fn start(&mut self)
        ensures { endless_state self.new ≡ endless_started_slot (count_after self.old.starts) }
    {
        self.started = true;
        self.taken = 0;
        self.starts = self.starts.saturating_add(1);
    }
}

/// A shelf both of whose slots give one byte without end, under every name. Nothing is known of its
/// logs, and no call of it fails.
#[derive(Clone, Copy)]
pub struct EndlessShelf {
    byte: u8,
    orders: EndlessSlot,
    trades: EndlessSlot,
}

impl EndlessShelf {
    ghost use Rattle.log_source.specs.EndlessShelves.{endless_slot, endless_byte};

    /// A shelf that fills every buffer with this byte, with nothing started.
    pub fn new(byte: u8) -> EndlessShelf
        ensures byte { endless_byte result ≡ byte }
        ensures fresh { (w : Which) → endless_slot result w ≡ fresh_slot None }
    {
        let fresh = EndlessSlot {
            started: false,
            taken: 0,
            starts: 0,
        };
        EndlessShelf {
            byte,
            orders: fresh,
            trades: fresh,
        }
    }
}

impl Shelf for EndlessShelf {
    ghost use Rattle.log_source.specs.EndlessShelves.{endless_log_of, endless_slot, endless_byte, endless_tells};

    ghost tells = { endless_tells };

    ghost log_of = { endless_log_of };

    ghost slot = { endless_slot };

    fn start(&mut self, which: Which, name: &str) -> Result<(), StartFault>
        ensures only { ChangesOneSlot endless_tells endless_log_of endless_slot
            which self.old self.new }
        ensures slot { Starts false None (endless_slot self.old which) (endless_slot self.new which)
            result }
        ensures byte { endless_byte self.new ≡ endless_byte self.old }
        ensures starts { IsOk result }
    {
        match which {
            Which::Orders => self.orders.start(),
            Which::Trades => self.trades.start(),
        }
        Ok(())
    }

    fn read(&mut self, which: Which, buf: &mut [u8]) -> Result<usize, Failed>
        requires room { 0 < length buf.old }
        requires started { (endless_slot self.old which).started ≡ true }
        requires within { (endless_slot self.old which).taken ≤ longest_read }
        ensures only { ChangesOneSlot endless_tells endless_log_of endless_slot
            which self.old self.new }
        ensures slot { Reads (endless_slot self.old which) (endless_slot self.new which)
            result buf.new }
        ensures byte { endless_byte self.new ≡ endless_byte self.old }
        ensures reads { result ≡ Ok (length buf.old) }
        ensures filled { buf.new ≡ replicate (length buf.old) (endless_byte self.old) }
    {
        buf.fill(self.byte);
        let count = buf.len();
        match which {
            Which::Orders => self.orders.taken += count as u64,
            Which::Trades => self.trades.taken += count as u64,
        }
        Ok(count)
    }
}
