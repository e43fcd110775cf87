//! A day of a shelf, made plain: its text is written to a sink while it is read.
ghost use Rattle.std.specs.Prelude.{◌≡◌, ◌≤◌, [], IfErr, IfOk, OnOk, IsTrue};
ghost use Rattle.fix_days.specs.Framed.{IsFramedReading};
ghost use Rattle.fix_days.specs.Laws.{written_line};
ghost use Rattle.fix_days.specs.Lines.{IsLineReading, is_soh_text};
ghost use Rattle.log_source.specs.Sinks.{SinkStays};
ghost use Rattle.log_source.specs.Sources.{ChangesOneSlot, longest_read};
ghost use Rattle.plain_logs.specs.BadReports.{IsReadAsReport, whole_line};
ghost use Rattle.plain_logs.specs.DayFeeds.{HasRoomForPiece};
ghost use Rattle.plain_logs.specs.LinesAlone.{IsReadWithoutBad};
ghost use Rattle.plain_logs.specs.Passing.{PassesPiece};
ghost use Rattle.plain_logs.specs.PlainLogs.{StopsWriting, TakesUpTo, WritesUpToEnd, WritesWholeLog};

use crate::by_lines::DayByLines;
use crate::day_ends::{DayEnd, PlainFault};
use crate::day_writers::{BadReport, GoodMessages};
use crate::feeds::{DayFeed, framed_feed, line_feed};
use audit_base::terms::Which;
use fix_days::lines::SohGhost;
use log_source::put::put_all;
use log_source::shelf::Shelf;
use log_source::sink::Sink;
use log_source::take::TakeFault;
use std::alloc::Global;

/// A day that is read: the log of this name, by this slot of the shelf.
#[derive(Clone, Copy, Debug)]
pub struct DaySource<'a> {
    pub which: Which,
    pub name: &'a str,
    /// The greatest number of bytes that the day may have, `LONGEST_READ` at most.
    pub limit: u64,
}

/// The bytes of one read, 128 KiB, as where a log is handed to a feed.
const PIECE: usize = 131_072;

/// Hands a piece to the feed, and writes the text that it gives. That text comes back, for its
/// memory.
fn pass_piece<D: DayFeed, K: Sink>(
    alloc: Global,
    feed: &mut D,
    piece: &[u8],
    spare: Vec<u8>,
    out: &mut K,
) -> Result<Vec<u8>, PlainFault>
    requires { HasRoomForPiece D.has_read feed.old piece.now }
    ensures passes { PassesPiece D.writes D.reads D.has_read feed.old feed.new piece.now
        (K.state out.old) (K.state out.new) result }
    ensures stays { SinkStays (K.state out.old) (K.state out.new) }
{
    let text = match feed.feed(alloc, piece, spare) {
        Ok(text) => text,
        Err(_) => return Err(PlainFault::Log(TakeFault::Memory)),
    };
    match put_all(out, &text) {
        Ok(()) => Ok(text),
        Err(_) => Err(PlainFault::Sink),
    }
}

/// Hands the day to the feed, piece by piece up to its end, and writes what the feed gives at each.
fn pass_log<D: DayFeed, F: Shelf, K: Sink>(
    alloc: Global,
    shelf: &mut F,
    day: &DaySource<'_>,
    feed: &mut D,
    out: &mut K,
) -> Result<(), PlainFault>
    requires limit { day.now.limit ≤ longest_read }
    requires empty { D.has_read feed.old [] [] }
    ensures only { ChangesOneSlot F.tells F.log_of F.slot day.now.which shelf.old shelf.new }
    ensures stays { SinkStays (K.state out.old) (K.state out.new) }
    ensures slot { TakesUpTo F.Shelf day.now.which day.now.name.now day.now.limit
        shelf.old shelf.new result }
    ensures whole { OnOk result (WritesWholeLog F.Shelf D.writes D.reads day.now.which
        day.now.name.now day.now.limit shelf.old shelf.new (K.state out.old) (K.state out.new)
        (D.has_read feed.new)) }
    ensures stops { IfErr result (StopsWriting F.Shelf D.writes D.reads day.now.which
        day.now.name.now shelf.old shelf.new (K.state out.old) (K.state out.new)) }
{
    shelf.start(day.which, day.name)?;
    let mut buffer = [0u8; PIECE];
    let mut spare = Vec::new(alloc);
    let mut taken: u64 = 0;
    'pieces: loop {
        let count = shelf.read(day.which, &mut buffer)?;
        if count == 0 {
            return Ok(());
        }
        if count as u64 > day.limit - taken {
            return Err(PlainFault::Log(TakeFault::TooLong));
        }
        taken += count as u64;
        spare = pass_piece(alloc, feed, &buffer[..count], spare, out)?;
    }
}

/// The same, up to the end of the day.
fn write_day<D: DayFeed, F: Shelf, K: Sink>(
    alloc: Global,
    shelf: &mut F,
    day: &DaySource<'_>,
    mut feed: D,
    out: &mut K,
) -> Result<DayEnd, PlainFault>
    requires limit { day.now.limit ≤ longest_read }
    requires empty { D.has_read feed [] [] }
    ensures only { ChangesOneSlot F.tells F.log_of F.slot day.now.which shelf.old shelf.new }
    ensures stays { SinkStays (K.state out.old) (K.state out.new) }
    ensures slot { TakesUpTo F.Shelf day.now.which day.now.name.now day.now.limit
        shelf.old shelf.new result }
    ensures ends { IfOk result (WritesUpToEnd F.Shelf D.writes D.reads day.now.which
        day.now.name.now day.now.limit shelf.old shelf.new (K.state out.old) (K.state out.new)) }
    ensures stops { IfErr result (StopsWriting F.Shelf D.writes D.reads day.now.which
        day.now.name.now shelf.old shelf.new (K.state out.old) (K.state out.new)) }
{
    pass_log(alloc, shelf, day, &mut feed, out)?;
    match feed.close() {
        Ok(end) => Ok(end),
        Err(_) => Err(PlainFault::Log(TakeFault::Memory)),
    }
}

/// Makes plain a day whose messages are framed one after another: the text of each is written as
/// soon as it is all there. What ends with the day is answered, and not written.
///
/// Where a write fails, reading stops. The other causes of failure are those of `take_log`; what
/// was read until then is written. Whatever the answer, the slot may be started anew, and the other
/// slot is as it was.
///
/// No more is held than the bytes of a message that isn't all there and the text of two pieces of
/// 128 KiB.
pub fn write_framed<F: Shelf, K: Sink>(
    alloc: Global,
    shelf: &mut F,
    day: &DaySource<'_>,
    out: &mut K,
) -> Result<DayEnd, PlainFault>
    requires { day.now.limit ≤ longest_read }
    ensures only { ChangesOneSlot F.tells F.log_of F.slot day.now.which shelf.old shelf.new }
    ensures stays { SinkStays (K.state out.old) (K.state out.new) }
    ensures slot { TakesUpTo F.Shelf day.now.which day.now.name.now day.now.limit
        shelf.old shelf.new result }
    ensures ends { IfOk result (WritesUpToEnd F.Shelf written_line IsFramedReading day.now.which
        day.now.name.now day.now.limit shelf.old shelf.new (K.state out.old) (K.state out.new)) }
    ensures stops { IfErr result (StopsWriting F.Shelf written_line IsFramedReading day.now.which
        day.now.name.now shelf.old shelf.new (K.state out.old) (K.state out.new)) }
{
    write_day(alloc, shelf, day, framed_feed(alloc), out)
}

/// The same of a day whose messages stand on lines, after anything. `soh` is the text that stands
/// for SOH in them.
pub fn write_on_lines<S: SohGhost, F: Shelf, K: Sink>(
    alloc: Global,
    shelf: &mut F,
    day: &DaySource<'_>,
    soh: Vec<u8>,
    out: &mut K,
) -> Result<DayEnd, PlainFault>
    requires limit { day.now.limit ≤ longest_read }
    requires soh { soh.items ≡ S.text }
    requires is { IsTrue (is_soh_text S.text) }
    ensures only { ChangesOneSlot F.tells F.log_of F.slot day.now.which shelf.old shelf.new }
    ensures stays { SinkStays (K.state out.old) (K.state out.new) }
    ensures slot { TakesUpTo F.Shelf day.now.which day.now.name.now day.now.limit
        shelf.old shelf.new result }
    ensures ends { IfOk result (WritesUpToEnd F.Shelf written_line (IsLineReading S.text) day.now.which
        day.now.name.now day.now.limit shelf.old shelf.new (K.state out.old) (K.state out.new)) }
    ensures stops { IfErr result (StopsWriting F.Shelf written_line (IsLineReading S.text) day.now.which
        day.now.name.now shelf.old shelf.new (K.state out.old) (K.state out.new)) }
{
    write_day(alloc, shelf, day, line_feed::<S>(alloc, soh), out)
}

/// The same of a day whose messages stand on lines, where bad messages are left out: each line is
/// read alone, and nothing of it behind a bad message. No bad message is answered.
pub fn write_good_on_lines<S: SohGhost, F: Shelf, K: Sink>(
    alloc: Global,
    shelf: &mut F,
    day: &DaySource<'_>,
    soh: Vec<u8>,
    out: &mut K,
) -> Result<DayEnd, PlainFault>
    requires limit { day.now.limit ≤ longest_read }
    requires soh { soh.items ≡ S.text }
    requires is { IsTrue (is_soh_text S.text) }
    ensures only { ChangesOneSlot F.tells F.log_of F.slot day.now.which shelf.old shelf.new }
    ensures stays { SinkStays (K.state out.old) (K.state out.new) }
    ensures slot { TakesUpTo F.Shelf day.now.which day.now.name.now day.now.limit
        shelf.old shelf.new result }
    ensures ends { IfOk result (WritesUpToEnd F.Shelf written_line (IsReadWithoutBad S.text)
        day.now.which day.now.name.now day.now.limit shelf.old shelf.new
        (K.state out.old) (K.state out.new)) }
    ensures stops { IfErr result (StopsWriting F.Shelf written_line (IsReadWithoutBad S.text)
        day.now.which day.now.name.now shelf.old shelf.new
        (K.state out.old) (K.state out.new)) }
{
    let feed = DayByLines::<GoodMessages, S>::over(alloc, soh);
    write_day(alloc, shelf, day, feed, out)
}

/// Writes which messages of a day on lines are bad, each on a line as soon as its own line has
/// ended; how many these are, and how many messages there are, is answered, and not written. Each
/// line is read alone. No bad message is answered.
pub fn write_bad_report<S: SohGhost, F: Shelf, K: Sink>(
    alloc: Global,
    shelf: &mut F,
    day: &DaySource<'_>,
    soh: Vec<u8>,
    out: &mut K,
) -> Result<DayEnd, PlainFault>
    requires limit { day.now.limit ≤ longest_read }
    requires soh { soh.items ≡ S.text }
    requires is { IsTrue (is_soh_text S.text) }
    ensures only { ChangesOneSlot F.tells F.log_of F.slot day.now.which shelf.old shelf.new }
    ensures stays { SinkStays (K.state out.old) (K.state out.new) }
    ensures slot { TakesUpTo F.Shelf day.now.which day.now.name.now day.now.limit
        shelf.old shelf.new result }
    ensures ends { IfOk result (WritesUpToEnd F.Shelf whole_line (IsReadAsReport S.text)
        day.now.which day.now.name.now day.now.limit shelf.old shelf.new
        (K.state out.old) (K.state out.new)) }
    ensures stops { IfErr result (StopsWriting F.Shelf whole_line (IsReadAsReport S.text)
        day.now.which day.now.name.now shelf.old shelf.new
        (K.state out.old) (K.state out.new)) }
{
    let feed = DayByLines::<BadReport, S>::over(alloc, soh);
    write_day(alloc, shelf, day, feed, out)
}
