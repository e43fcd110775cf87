//! A feed of a day on lines of which each is read alone, that gives what is written of the day as it
//! is handed its bytes.
ghost use Rattle.std.specs.Prelude.{◌≡◌, ◌++◌, ◌<◌, ◌≤◌, [], ◌∷◌, IfOk, IsTrue, OnOk, length, map};
ghost use Rattle.std.specs.List.{flat_map};
ghost use Rattle.fix_days.specs.Lines.{HasNoLineEnd, is_soh_text};
ghost use Rattle.plain_logs.specs.AloneFeeds.{HasRoomAlone, passed_message};
ghost use Rattle.plain_logs.specs.DayFeeds.{HasReadWithinLimit, HasRoomForPiece};
ghost use Rattle.plain_logs.specs.LinesAlone.{IsReadAsItems};
ghost use Rattle.plain_logs.specs.Writers.{EndsLastLine, HasReadItems, TakesBytes, TakesFirst};

use crate::alone::AloneFeed;
use crate::day_ends::{DayEnd, PassedMessage};
use crate::day_writers::DayWriter;
use crate::feeds::DayFeed;
use audit_base::faults::NoMemory;
use fix_days::lines::SohGhost;
use memchr::memchr;
use std::alloc::Global;
use std::marker::PhantomData;
use std::mem;

/// What is kept of a day that comes in pieces, and the memory of a text.
#[derive(Drop)]
pub(crate) struct DayByLines<T, S> {
    alloc: Global,
    day: AloneFeed<S>,
    /// A text that is no longer needed, whose memory is used.
    spare: Vec<u8>,
    of: PhantomData<T>,
}

/// Appends what is written of a message that was passed over, if there is one.
fn append_passed<T: DayWriter>(
    alloc: Global,
    bad: &Option<PassedMessage>,
    out: &mut Vec<u8>,
) -> Result<(), NoMemory>
    ensures { OnOk result (out.new.items
        ≡ out.old.items ++ flat_map T.writes (flat_map T.items_of (passed_message bad.now))) }
{
    match bad {
        Some(bad) => T::append_bad(alloc, bad, out),
        None => Ok(()),
    }
}

impl<T: DayWriter, S: SohGhost> DayByLines<T, S> {
    /// A feed that has been handed no bytes. `soh` is the text that stands for SOH in the day.
    pub(crate) fn over(alloc: Global, soh: Vec<u8>) -> Self
        requires soh { soh.items ≡ S.text }
        requires is { IsTrue (is_soh_text S.text) }
        ensures { HasReadItems T.items_of S.text result [] [] }
    {
        DayByLines {
            alloc,
            day: AloneFeed::over(alloc, soh),
            spare: Vec::new(alloc),
            of: PhantomData,
        }
    }

    // The memory for a text.
    fn take_spare(&mut self) -> Vec<u8>
        ensures { self.new.day ≡ self.old.day }
    {
        mem::replace(&mut self.spare, Vec::new(self.alloc))
    }

    // Takes a part of a line.
    fn take_part(&mut self, part: &[u8], out: &mut Vec<u8>) -> Result<(), NoMemory>
        requires room { HasRoomAlone S.text self.old.day (length part.now) }
        requires one_line { HasNoLineEnd part.now }
        ensures { OnOk result (TakesBytes T.writes (HasReadItems T.items_of S.text)
            self.old self.new part.now out.old.items out.new.items) }
    {
        let spare = self.take_spare();
        self.spare = self.day.take_part(part, spare)?;
        T::append_good(&self.spare, out)
    }

    // Ends the line, as where an LF follows.
    fn end_line(&mut self, out: &mut Vec<u8>) -> Result<(), NoMemory>
        requires { HasRoomAlone S.text self.old.day 0 }
        ensures { OnOk result (EndsLastLine T.writes T.items_of S.text
            self.old self.new out.old.items out.new.items) }
    {
        let spare = self.take_spare();
        let end = self.day.end_line(spare)?;
        T::append_good(&end.text, out)?;
        self.spare = end.text;
        append_passed::<T>(self.alloc, &end.bad, out)
    }

    // Takes the first line of these bytes with its LF, or all of them where they have none, and
    // gives how many bytes these are.
    fn take_first(&mut self, bytes: &[u8], out: &mut Vec<u8>) -> Result<usize, NoMemory>
        requires some { 0 < length bytes.now }
        requires room { HasRoomForPiece (HasReadItems T.items_of S.text) self.old bytes.now }
        ensures { IfOk result (λ count. TakesFirst T.writes (HasReadItems T.items_of S.text)
            self.old self.new bytes.now count out.old.items out.new.items) }
    {
        let Some(end) = memchr(b'\n', bytes) else {
            self.take_part(bytes, out)?;
            return Ok(bytes.len());
        };
        self.take_part(&bytes[..end], out)?;
        self.end_line(out)?;
        Ok(end + 1)
    }

    // Takes all bytes of a piece.
    fn take_lines(&mut self, piece: &[u8], out: &mut Vec<u8>) -> Result<(), NoMemory>
        requires { HasRoomForPiece (HasReadItems T.items_of S.text) self.old piece.now }
        ensures { OnOk result (TakesBytes T.writes (HasReadItems T.items_of S.text)
            self.old self.new piece.now out.old.items out.new.items) }
    {
        let mut at = 0;
        'lines: while at < piece.len() {
            let count = self.take_first(&piece[at..], out)?;
            at += count;
        }
        Ok(())
    }
}

impl<T: DayWriter, S: SohGhost> DayFeed for DayByLines<T, S> {
    ghost writes = { T.writes };

    ghost reads = { IsReadAsItems T.items_of T.last_items S.text };

    ghost has_read = { HasReadItems T.items_of S.text };

    fn feed(&mut self, _alloc: Global, piece: &[u8], spare: Vec<u8>) -> Result<Vec<u8>, NoMemory> {
        let mut text = spare;
        text.clear();
        self.take_lines(piece, &mut text)?;
        Ok(text)
    }

    fn close(mut self) -> Result<DayEnd, NoMemory> {
        let mut text = Vec::new(self.alloc);
        self.end_line(&mut text)?;
        T::append_end(self.alloc, self.day.bad, self.day.count, &mut text)?;
        Ok(DayEnd { text, bad: None })
    }
}
