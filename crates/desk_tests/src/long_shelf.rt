//! A shelf of logs that are as long as a log may be, or longer, and are not made: all that can be
//! seen of them but their first bytes is how many bytes they have.
ghost use Rattle.std.specs.Prelude.{◌≡◌, ◌+◌, ◌≤◌, true, None};
ghost use Rattle.audit_base.specs.declared.terms.Which.{Which};
ghost use Rattle.log_source.specs.Sources.{fresh_slot};

use audit_base::terms::Which;
use log_source::shelf::{Failed, Shelf, StartFault};

/// One slot.
#[derive(Clone, Copy)]
struct LongSlot {
    started: bool,
    taken: u64,
    starts: u64,
}

/// A shelf whose log of each slot has so many bytes, under every name. The first of them are those
/// of `front`; the others are whatever is in the buffer that is read into.
#[derive(Clone, Copy)]
pub struct LongShelf {
    front: &'static [u8],
    order_bytes: u64,
    trade_bytes: u64,
    orders: LongSlot,
    trades: LongSlot,
}

impl LongShelf {
    ghost use Rattle.desk_tests.specs.LongShelves.{long_bytes, long_slot};

    /// A shelf with nothing started, whose logs have so many bytes.
    pub fn new(front: &'static [u8], order_bytes: u64, trade_bytes: u64) -> LongShelf
        ensures front { result.front.now ≡ front.now }
        ensures orders { long_bytes result Which.Orders ≡ order_bytes }
        ensures trades { long_bytes result Which.Trades ≡ trade_bytes }
        ensures fresh { (which : Which) → long_slot result which ≡ fresh_slot None }
    {
        let fresh = LongSlot {
            started: false,
            taken: 0,
            starts: 0,
        };
        LongShelf {
            front,
            order_bytes,
            trade_bytes,
            orders: fresh,
            trades: fresh,
        }
    }
}

impl LongSlot {
    ghost use Rattle.log_source.specs.Calls.{count_after};

    fn start(&mut self)
        ensures started { self.new.started ≡ true }
        ensures taken { self.new.taken ≡ 0 }
        ensures counted { self.new.starts ≡ count_after self.old.starts }
    {
        self.started = true;
        self.taken = 0;
        self.starts = self.starts.saturating_add(1);
    }

    /// How many of the bytes of this log come next: at most `room`.
    fn take(&mut self, bytes: u64, room: usize) -> usize
        ensures most { result ≤ room }
        ensures taken { self.new.taken ≡ self.old.taken + result }
        ensures started { self.new.started ≡ self.old.started }
        ensures starts { self.new.starts ≡ self.old.starts }
    {
        let count = bytes.saturating_sub(self.taken).min(room as u64);
        self.taken += count;
        count as usize
    }
}

/// Puts these bytes to the front of the buffer, as far as there is room.
fn put_front(buf: &mut [u8], front: &[u8]) {
    for (at, byte) in front.iter().enumerate() {
        if at < buf.len() {
            buf[at] = *byte;
        }
    }
}

impl Shelf for LongShelf {
    ghost use Rattle.desk_tests.specs.LongShelves.{long_log_of, long_slot, long_tells};

    ghost tells = { long_tells };

    ghost log_of = { long_log_of };

    ghost slot = { long_slot };

    fn start(&mut self, which: Which, name: &str) -> Result<(), StartFault> {
        match which {
            Which::Orders => self.orders.start(),
            Which::Trades => self.trades.start(),
        }
        Ok(())
    }

    fn read(&mut self, which: Which, buf: &mut [u8]) -> Result<usize, Failed> {
        put_front(buf, self.front);
        match which {
            Which::Orders => Ok(self.orders.take(self.order_bytes, buf.len())),
            Which::Trades => Ok(self.trades.take(self.trade_bytes, buf.len())),
        }
    }
}
