//! Why a log cannot be read, and out of memory.
ghost use Rattle.std.specs.Prelude.{◌≡◌};

use std::alloc::{AllocError, AllocFailed};
use thiserror::Error;

/// There was not enough memory for the call.
#[derive(Clone, Copy, Debug, PartialEq, Eq, Error)]
#[error("out of memory")]
pub struct NoMemory;

impl From<AllocError> for NoMemory {
    ghost from_gives = { λ _ fault. fault ≡ record {} };

    fn from(_failed: AllocError) -> NoMemory {
        NoMemory
    }
}

impl<T: Drop> From<AllocFailed<T>> for NoMemory {
    ghost from_gives = { λ _ fault. fault ≡ record {} };

    fn from(_failed: AllocFailed<T>) -> NoMemory {
        NoMemory
    }
}

/// The first test that a malformed log fails.
#[derive(Clone, Copy, Debug, PartialEq, Eq, Hash)]
pub enum Reason {
    /// CSV: the header is missing or is not the nine names.
    Header,
    /// CSV: a byte that no line may hold, or an odd number of quotes.
    Break,
    /// CSV: not nine fields.
    Columns,
    /// CSV: the column, from 1 to 9, that is not in its form.
    Column(u8),
    /// FIX: no message begins here.
    Begin,
    /// FIX: the body length is not in its form.
    Length,
    /// FIX: the log ends within a message.
    Truncated,
    /// FIX: no checksum field follows the body.
    Trailer,
    /// FIX: the checksum is not the sum of the bytes.
    Checksum,
    /// FIX: the byte of the body, from 0, at which a field begins that cannot be read.
    Field(u32),
    /// FIX: the first field is not the message type.
    MsgType,
    /// FIX: a required tag that is absent.
    Missing(u32),
    /// FIX: a tag that occurs more than once.
    Repeated(u32),
    /// FIX: a tag whose value is not in its form.
    Value(u32),
    /// FIX: a tag whose value is not supported.
    Unsupported(u32),
}

/// The first bad place of a malformed log.
#[derive(Clone, Copy, Debug, PartialEq, Eq)]
pub struct BadPlace {
    /// One more than the number of records before it.
    pub place: u32,
    /// The offset in the log of its first byte.
    pub offset: u64,
    pub reason: Reason,
}

/// Why a log is not read.
#[derive(Clone, Copy, Debug, PartialEq, Eq, Error)]
pub enum LogFault {
    #[error("malformed log")]
    Bad(BadPlace),
    #[error("out of memory")]
    Memory,
}

impl From<NoMemory> for LogFault {
    ghost use Rattle.audit_base.specs.declared.faults.LogFault.TheVariants.{Memory};

    ghost from_gives = { λ _ fault. fault ≡ Memory };

    fn from(_fault: NoMemory) -> LogFault {
        LogFault::Memory
    }
}
