//! Feeds of a day that give what is written of it as they are handed its bytes.
ghost use Rattle.std.specs.Prelude.{◌≡◌, [], ℕ, List, Option, IfOk, IsTrue, OnOk};
ghost use Rattle.fix_days.specs.declared.faults.BadMessage.{BadMessage as BadMessageSpec};
ghost use Rattle.fix_days.specs.Framed.{IsFramedReading};
ghost use Rattle.fix_days.specs.Fronts.{framed_count, line_count};
ghost use Rattle.fix_days.specs.Laws.{written_line};
ghost use Rattle.fix_days.specs.Lines.{IsLineReading, is_soh_text};
ghost use Rattle.plain_logs.specs.AloneFeeds.{EndsLine};
ghost use Rattle.plain_logs.specs.DayFeeds.{EndsDay, HasGivenFramed, HasGivenLines, HasReadWithinLimit, HasRoomForPiece, ReadsPiece};

use crate::day_ends::{DayEnd, LineEnd};
use crate::laws::bodies_fit_messages;
use crate::lines::{PlainLines, SkippedGhost};
use audit_base::faults::NoMemory;
use fix_days::framed::FramedFeed;
use fix_days::laws::{days_have_one_reading, days_on_lines_have_one_reading};
use fix_days::lines::{LineFeed, SohGhost};
use log_source::feed::Feed;
use std::alloc::Global;
use std::marker::Brand;

/// What is handed a day piece by piece, and gives at each the text of what is read with it: bodies,
/// each as a message of FIX 4.4 on a line, or other items.
pub(crate) trait DayFeed: Drop {
    // What is written of a body, or of another item.
    ghost writes: { List ℕ → List ℕ };

    // What is read of a whole day: bodies, or other items.
    ghost reads: { List ℕ → List (List ℕ) → Option BadMessageSpec → Type 0 };

    // The feed has been handed this day, has read exactly these bodies of it, and gave their text.
    ghost has_read: { Self → List ℕ → List (List ℕ) → Type 0 };

    /// Hands on the next piece, and gives the text of what came with it. `spare` is a text that is
    /// no longer needed, whose memory is used.
    fn feed(&mut self, alloc: Global, piece: &[u8], spare: Vec<u8>) -> Result<Vec<u8>, NoMemory>
        requires { HasRoomForPiece has_read self.old piece.now }
        ensures { IfOk result
            (λ text. ReadsPiece writes reads has_read self.old self.new piece.now text.items) };

    /// The text of what ends with the day, and the first bad message.
    fn close(self) -> Result<DayEnd, NoMemory>
        requires { HasReadWithinLimit has_read self }
        ensures { IfOk result (λ end. EndsDay writes reads has_read self end) };
}

/// A feed of a framed day that has been handed nothing.
pub(crate) fn framed_feed(alloc: Global) -> FramedFeed<PlainLines<Brand>>
    ensures { HasGivenFramed result [] [] }
{
    let lines = PlainLines::<Brand>::in_memory_of(alloc, Vec::new(alloc));
    FramedFeed::over(alloc, lines)
}

fn feed_framed<W: SkippedGhost>(
    alloc: Global,
    feed: &mut FramedFeed<PlainLines<W>>,
    piece: &[u8],
    spare: Vec<u8>,
) -> Result<Vec<u8>, NoMemory>
    requires room { HasRoomForPiece HasGivenFramed feed.old piece.now }
    requires skipped { W.skipped ≡ framed_count feed.old }
    ensures { IfOk result (λ text. ReadsPiece written_line IsFramedReading HasGivenFramed
        feed.old feed.new piece.now text.items) }
{
    // Laws that the text rests on. They compute nothing.
    bodies_fit_messages();
    days_have_one_reading();
    feed.feed(piece)?;
    let lines = feed.replace(PlainLines::in_memory_of(alloc, spare));
    Ok(lines.text)
}

fn close_framed<W: SkippedGhost>(feed: FramedFeed<PlainLines<W>>) -> Result<DayEnd, NoMemory>
    requires within { HasReadWithinLimit HasGivenFramed feed }
    requires skipped { W.skipped ≡ framed_count feed }
    ensures { IfOk result (λ end. EndsDay written_line IsFramedReading HasGivenFramed feed end) }
{
    bodies_fit_messages();
    let day = feed.close()?;
    Ok(DayEnd {
        text: day.bodies.text,
        bad: day.bad,
    })
}

impl DayFeed for FramedFeed<PlainLines<Brand>> {
    ghost writes = { written_line };

    ghost reads = { IsFramedReading };

    ghost has_read = { HasGivenFramed };

    fn feed(&mut self, alloc: Global, piece: &[u8], spare: Vec<u8>) -> Result<Vec<u8>, NoMemory> {
        feed_framed::<Brand>(alloc, self, piece, spare)
    }

    fn close(self) -> Result<DayEnd, NoMemory> {
        close_framed::<Brand>(self)
    }
}

/// A feed of a day on lines that has been handed nothing. `soh` is the text that stands for SOH.
pub(crate) fn line_feed<S: SohGhost>(alloc: Global, soh: Vec<u8>) -> LineFeed<PlainLines<Brand>, S>
    requires soh { soh.items ≡ S.text }
    requires is { IsTrue (is_soh_text S.text) }
    ensures { HasGivenLines S.text result [] [] }
{
    let lines = PlainLines::<Brand>::in_memory_of(alloc, Vec::new(alloc));
    LineFeed::over(alloc, soh, lines)
}

fn feed_lines<W: SkippedGhost, S: SohGhost>(
    alloc: Global,
    feed: &mut LineFeed<PlainLines<W>, S>,
    piece: &[u8],
    spare: Vec<u8>,
) -> Result<Vec<u8>, NoMemory>
    requires room { HasRoomForPiece (HasGivenLines S.text) feed.old piece.now }
    requires skipped { W.skipped ≡ line_count feed.old }
    ensures { IfOk result (λ text. ReadsPiece written_line (IsLineReading S.text) (HasGivenLines S.text)
        feed.old feed.new piece.now text.items) }
{
    bodies_fit_messages();
    days_on_lines_have_one_reading();
    feed.feed(piece)?;
    let lines = feed.replace(PlainLines::in_memory_of(alloc, spare));
    Ok(lines.text)
}

fn close_lines<W: SkippedGhost, S: SohGhost>(
    feed: LineFeed<PlainLines<W>, S>,
) -> Result<DayEnd, NoMemory>
    requires within { HasReadWithinLimit (HasGivenLines S.text) feed }
    requires skipped { W.skipped ≡ line_count feed }
    ensures { IfOk result (λ end. EndsDay written_line (IsLineReading S.text) (HasGivenLines S.text) feed end) }
{
    bodies_fit_messages();
    let day = feed.close()?;
    Ok(DayEnd {
        text: day.bodies.text,
        bad: day.bad,
    })
}

/// Ends the line that the feed was handed, which may then be handed another one.
pub(crate) fn end_line<W: SkippedGhost, S: SohGhost>(
    alloc: Global,
    feed: &mut LineFeed<PlainLines<W>, S>,
    spare: Vec<u8>,
) -> Result<LineEnd, NoMemory>
    requires within { HasReadWithinLimit (HasGivenLines S.text) feed.old }
    requires skipped { W.skipped ≡ line_count feed.old }
    ensures ends { IfOk result (EndsLine S.text feed.old) }
    ensures anew { OnOk result (HasGivenLines S.text feed.new [] []) }
{
    bodies_fit_messages();
    let end = feed.end_day()?;
    let lines = feed.replace(PlainLines::in_memory_of(alloc, spare));
    Ok(LineEnd {
        text: lines.text,
        bodies: end.bodies,
        bad: end.bad,
    })
}

impl<S: SohGhost> DayFeed for LineFeed<PlainLines<Brand>, S> {
    ghost writes = { written_line };

    ghost reads = { IsLineReading S.text };

    ghost has_read = { HasGivenLines S.text };

    fn feed(&mut self, alloc: Global, piece: &[u8], spare: Vec<u8>) -> Result<Vec<u8>, NoMemory> {
        feed_lines::<Brand, S>(alloc, self, piece, spare)
    }

    fn close(self) -> Result<DayEnd, NoMemory> {
        close_lines::<Brand, S>(self)
    }
}
