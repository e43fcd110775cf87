//! Handing a whole log to a feed, piece by piece.
ghost use Rattle.std.specs.Prelude.{◌≤◌, [], OnOk, IsErrOf};
ghost use Rattle.log_source.specs.Sources.{ChangesOneSlot, longest_read};
ghost use Rattle.log_source.specs.Taking.{Takes};
ghost use Rattle.log_source.specs.Pumping.{StandsForWhole, StandsForTaken, StandsForFront};

use crate::feed::Feed;
use crate::shelf::Shelf;
use crate::take::TakeFault;
use audit_base::terms::Which;

/// The bytes of one read, 128 KiB: few enough for a small stack, where they lie, and for the caches
/// of a processor, and enough that what a read and a piece cost a feed is small beside their bytes.
const PIECE: usize = 131_072;

/// Hands the log of this name to the feed, piece by piece up to its end. `limit` is the greatest
/// number of bytes that the log may have, `LONGEST_READ` at most. The causes of failure are those
/// of `take_log`: `TooLong` comes exactly where more than `limit` bytes were taken.
///
/// After `Fault` the feed stands for exactly the bytes that were taken, a front of the log: none,
/// where the log was not started. The piece that takes the slot past `limit` bytes is not handed
/// on, so after `TooLong` the feed stands for a front of the log that is no longer than this.
/// In both cases the feed may be used on. After `Memory` it is given up. Whatever the answer,
/// the slot may be started anew, and the other slot is as it was.
pub fn pump<F: Shelf, D: Feed>(
    shelf: &mut F,
    which: Which,
    name: &str,
    limit: u64,
    feed: &mut D,
) -> Result<(), TakeFault>
    requires limit { limit ≤ longest_read }
    requires empty { D.stands_for feed.old [] }
    ensures only { ChangesOneSlot F.tells F.log_of F.slot which shelf.old shelf.new }
    ensures slot { Takes F.Shelf which name.now limit shelf.old shelf.new result }
    ensures whole { OnOk result
        (StandsForWhole F.Shelf D.Feed which name.now limit shelf.old shelf.new feed.new) }
    ensures fault { IsErrOf result TakeFault.Fault
        → StandsForTaken F.Shelf D.Feed which name.now limit shelf.old shelf.new feed.new }
    ensures too_long { IsErrOf result TakeFault.TooLong
        → StandsForFront F.Shelf D.Feed which name.now limit shelf.old shelf.new feed.new }
{
    shelf.start(which, name)?;
    let mut buffer = [0u8; PIECE];
    let mut taken: u64 = 0;
    'pieces: loop {
        let count = shelf.read(which, &mut buffer)?;
        if count == 0 {
            return Ok(());
        }
        if count as u64 > limit - taken {
            return Err(TakeFault::TooLong);
        }
        taken += count as u64;
        feed.feed(&buffer[..count])?;
    }
}
