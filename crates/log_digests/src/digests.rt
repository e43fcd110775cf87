//! The digest of a log of a shelf.
ghost use Rattle.std.specs.Prelude.{◌≡◌, ◌≤◌, IfOk};
ghost use Rattle.log_digests.specs.Digests.{IsDigestOfLog};
ghost use Rattle.log_source.specs.Sources.{ChangesOneSlot, longest_read};
ghost use Rattle.log_source.specs.Taking.{Takes};

use crate::feeds::DigestFeed;
use audit_base::terms::Which;
use log_source::pump::pump;
use log_source::shelf::Shelf;
use log_source::take::TakeFault;
use std::marker::Model;

/// A digest under SHA-256. Contracts see the list of its 32 bytes.
#[derive(Clone, Copy, Debug, PartialEq, Eq)]
pub struct LogDigest {
    bytes: [u8; 32],
}

impl Model for LogDigest {
    ghost use Rattle.std.specs.Prelude.{ℕ, List};

    ghost Value = { List ℕ };

    ghost view = { λ digest. digest.bytes };

    ghost inverse = { λ bytes. record { bytes = bytes } };
}

impl LogDigest {
    ghost use Rattle.hex.specs.Hex.{encode_lower};

    /// The digest that has these bytes.
    pub(crate) fn of(bytes: [u8; 32]) -> LogDigest
        ensures { result ≡ bytes }
    {
        LogDigest { bytes }
    }

    /// Its bytes.
    pub fn bytes(&self) -> &[u8; 32]
        ensures { result.now ≡ self.now }
    {
        &self.bytes
    }

    /// Its digits, 64 in lower case: those that `sha256sum` writes. Takes no memory.
    pub fn digits(&self) -> [u8; 64]
        ensures { result ≡ encode_lower self.now }
    {
        let mut digits = [0u8; 64];
        let Ok(()) = hex::encode_to_slice(&self.bytes, &mut digits) else {
            unreachable!()
        };
        digits
    }
}

/// The digests of the two logs of an audit.
#[derive(Clone, Copy, Debug, PartialEq, Eq)]
pub struct LogDigests {
    pub orders: LogDigest,
    pub trades: LogDigest,
}

/// The digest of the log of this name, which is read to its end, whatever bytes it has, and of
/// which nothing is kept. `limit` is the greatest number of bytes that it may have,
/// `LONGEST_READ` at most. The causes of failure are those of `take_log`: `Fault` comes only where
/// the slot's faults rose in this call, or where the logs of the shelf are known and it has none
/// of this name, and `TooLong` exactly where more than `limit` bytes were taken. `Memory` comes
/// only where the shelf could not start the log for lack of it. Whatever the answer, the slot may
/// be started anew, and the other slot is as it was.
pub fn digest_log<F: Shelf>(
    shelf: &mut F,
    which: Which,
    name: &str,
    limit: u64,
) -> Result<LogDigest, TakeFault>
    requires { limit ≤ longest_read }
    ensures only { ChangesOneSlot F.tells F.log_of F.slot which shelf.old shelf.new }
    ensures slot { Takes F.Shelf which name.now limit shelf.old shelf.new result }
    ensures digest { IfOk result
        (IsDigestOfLog F.Shelf which name.now limit shelf.old shelf.new) }
{
    let mut feed = DigestFeed::new();
    pump(shelf, which, name, limit, &mut feed)?;
    Ok(feed.digest())
}
