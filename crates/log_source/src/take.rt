//! Taking a whole log into memory.
ghost use Rattle.std.specs.Prelude.{◌≡◌, ◌≤◌, IfOk, true, vec_len};
ghost use Rattle.log_source.specs.Sources.{ChangesOneSlot, longest_read};
ghost use Rattle.log_source.specs.Taking.{IsWholeLog, Takes};

use crate::feed::Feed;
use crate::pump::pump;
use crate::shelf::{Failed, Shelf, StartFault};
use audit_base::faults::NoMemory;
use audit_base::terms::Which;
use std::alloc::Global;
use thiserror::Error;

/// Why a log was not taken whole.
#[derive(Clone, Copy, Debug, PartialEq, Eq, Error)]
pub enum TakeFault {
    /// A start or a read failed, or the shelf knows that it has no log of this name.
    #[error("the log could not be read")]
    Fault,
    /// The log has more bytes than the limit that was given.
    #[error("the log is too long")]
    TooLong,
    #[error("out of memory")]
    Memory,
}

impl From<StartFault> for TakeFault {
    ghost use Rattle.log_source.specs.Taking.{take_fault_of_start};

    ghost from_gives = { λ fault made. made ≡ take_fault_of_start fault };

    fn from(fault: StartFault) -> TakeFault {
        match fault {
            StartFault::Failed => TakeFault::Fault,
            StartFault::Memory => TakeFault::Memory,
        }
    }
}

impl From<Failed> for TakeFault {
    ghost use Rattle.log_source.specs.declared.take.TakeFault.TheVariants.{Fault};

    ghost from_gives = { λ _ made. made ≡ Fault };

    fn from(_fault: Failed) -> TakeFault {
        TakeFault::Fault
    }
}

impl From<NoMemory> for TakeFault {
    ghost use Rattle.log_source.specs.declared.take.TakeFault.TheVariants.{Memory};

    ghost from_gives = { λ _ made. made ≡ Memory };

    fn from(_fault: NoMemory) -> TakeFault {
        TakeFault::Memory
    }
}

/// A feed that keeps all that it is handed.
#[derive(Drop)]
struct WholeLog {
    bytes: Vec<u8>,
}

impl Feed for WholeLog {
    ghost stands_for = { λ log bytes. log.bytes.items ≡ bytes };

    fn feed(&mut self, piece: &[u8]) -> Result<(), NoMemory> {
        self.bytes.extend_from_slice(piece)?;
        Ok(())
    }
}

/// Takes the log of this name whole. `limit` is the greatest number of bytes that it may have,
/// `LONGEST_READ` at most. `Fault` comes only where the slot's faults rose in this call,
/// or where the logs of the shelf are known and it has none of this name.
/// `TooLong` comes exactly where more than `limit` bytes were taken. Whatever the answer,
/// the slot may be started anew, and the other slot is as it was.
pub fn take_log<F: Shelf>(
    alloc: Global,
    shelf: &mut F,
    which: Which,
    name: &str,
    limit: u64,
) -> Result<Vec<u8>, TakeFault>
    requires { limit ≤ longest_read }
    ensures only { ChangesOneSlot F.tells F.log_of F.slot which shelf.old shelf.new }
    ensures slot { Takes F.Shelf which name.now limit shelf.old shelf.new result }
    ensures taken { IfOk result (λ log. (F.slot shelf.new which).taken ≡ vec_len log) }
    ensures given { IfOk result (λ log. (F.slot shelf.new which).gave log.items ≡ true) }
    ensures within { IfOk result (λ log. vec_len log ≤ limit) }
    ensures whole { IfOk result (λ log. IsWholeLog F.Shelf which name.now shelf.old log.items) }
{
    let mut log = WholeLog {
        bytes: Vec::new(alloc),
    };
    pump(shelf, which, name, limit, &mut log)?;
    Ok(log.bytes)
}
