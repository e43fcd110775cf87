//! A shelf: two slots, one for each log, that give their bytes piece by piece.
//!
//! A shelf's meaning is one record for each slot, so that "the other slot stays" is one equation. A
//! slot counts its starts, since a log opened, read in part and opened again would else leave no
//! trace in a contract. It may keep account of the bytes that its reads gave, as a shelf that takes
//! digests does: so it is known that these are the bytes which whoever read it was handed.
ghost use Rattle.std.specs.Prelude.{◌≡◌, ℕ, ◌<◌, ◌≤◌, Bool, true, List, length, Option};
ghost use Rattle.audit_base.specs.declared.terms.Which.{Which};
ghost use Rattle.log_source.specs.Sources.{ChangesOneSlot, Slot, Starts, Reads, longest_read};

use audit_base::terms::Which;
use thiserror::Error;

/// A start, a read or a write failed, and its fault was counted.
#[derive(Clone, Copy, Debug, PartialEq, Eq, Error)]
#[error("input or output failed")]
pub struct Failed;

/// Why a log was not started.
#[derive(Clone, Copy, Debug, PartialEq, Eq, Error)]
pub enum StartFault {
    /// The shelf could not start it, or knows that it has no log of this name.
    #[error("the log could not be opened")]
    Failed,
    #[error("out of memory")]
    Memory,
}

/// Two logs that are read piece by piece, one in each slot.
///
/// Where the logs of a shelf are known (`tells`), so are the bytes under each of its names,
/// and they never change. Each slot counts its starts and its faults, which never fall,
/// and no call on one slot touches the other. What a slot says of the bytes that its reads gave
/// since the start (`gave`) holds of those that they gave.
pub trait Shelf {
    // Whether the bytes of its logs are known.
    ghost tells: { Self → Bool };

    // The bytes that a slot finds under a name, or nothing, where its logs are known.
    ghost log_of: { Self → Which → List ℕ → Option (List ℕ) };

    // The state of a slot.
    ghost slot: { Self → Which → Slot };

    /// Starts the log of this name in the slot, from its first byte. `Failed` comes only where the
    /// slot's faults rose, or where the logs of the shelf are known and it has none of this name.
    fn start(&mut self, which: Which, name: &str) -> Result<(), StartFault>
        ensures only { ChangesOneSlot tells log_of slot which self.old self.new }
        ensures slot { let log = log_of self.old which name.now in
            Starts (tells self.old) log (slot self.old which) (slot self.new which) result };

    /// Reads the next bytes of the started log to the front of `buf`, and answers how many; 0 is
    /// the end of the log. `Failed` comes only where the slot's faults rose, and the same bytes
    /// are then still to come.
    fn read(&mut self, which: Which, buf: &mut [u8]) -> Result<usize, Failed>
        requires room { 0 < length buf.old }
        requires started { (slot self.old which).started ≡ true }
        requires within { (slot self.old which).taken ≤ longest_read }
        ensures only { ChangesOneSlot tells log_of slot which self.old self.new }
        ensures slot { Reads (slot self.old which) (slot self.new which) result buf.new };
}
