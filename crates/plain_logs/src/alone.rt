//! A feed of a day on lines, of which it reads each alone: a bad message ends its line, and not the
//! day.
ghost use Rattle.std.specs.Prelude.{◌≡◌, ◌≤◌, ◌<◌, ◌+◌, ◌^◌, [], IfOk, IfSome, IsTrue, length};
ghost use Rattle.fix_days.specs.Lines.{HasNoLineEnd, is_soh_text};
ghost use Rattle.plain_logs.specs.AloneFeeds.{EndsAlone, HasReadAlone, HasRoomAlone, passed_message, passed_over, ReadsPart};

use crate::day_ends::{DayLineEnd, PassedMessage};
use crate::feeds::{DayFeed, end_line, line_feed};
use crate::lines::PlainLines;
use audit_base::faults::NoMemory;
use fix_days::faults::BadMessage;
use fix_days::lines::{LineFeed, SohGhost};
use std::alloc::Global;
use std::marker::Brand;

/// What is kept of a day that comes in pieces: what is kept of the line that has not ended, and
/// numbers.
#[derive(Drop)]
pub(crate) struct AloneFeed<S> {
    alloc: Global,
    /// The line that has not ended.
    line: LineFeed<PlainLines<Brand>, S>,
    /// How many bytes the day has so far.
    taken: u64,
    /// How many of them are before that line.
    before: u64,
    /// How many messages, good and bad ones, the lines before it have.
    pub(crate) count: u64,
    /// How many of these are bad.
    pub(crate) bad: u64,
}

/// The bad message of a line, told of the day, where so many messages and bytes are before the line.
fn passed_over(count: u64, offset: u64, bad: Option<BadMessage>) -> Option<PassedMessage>
    requires count { count < 2 ^ 63 }
    requires offset { offset < 2 ^ 63 }
    requires bad { IfSome bad (λ b. b.offset < 2 ^ 63) }
    ensures { result ≡ passed_over count offset bad }
{
    let bad = bad?;
    Some(PassedMessage {
        place: count + u64::from(bad.place),
        offset: offset + bad.offset,
        fault: bad.fault,
    })
}

/// How many messages were passed over: one, or none.
fn count_passed(bad: &Option<PassedMessage>) -> u64
    ensures { result ≡ length (passed_message bad.now) }
{
    match bad {
        Some(_) => 1,
        None => 0,
    }
}

impl<S: SohGhost> AloneFeed<S> {
    /// A feed that has been handed no bytes. `soh` is the text that stands for SOH in the day.
    pub(crate) fn over(alloc: Global, soh: Vec<u8>) -> Self
        requires soh { soh.items ≡ S.text }
        requires is { IsTrue (is_soh_text S.text) }
        ensures { HasReadAlone S.text result [] [] [] }
    {
        AloneFeed {
            alloc,
            line: line_feed(alloc, soh),
            taken: 0,
            before: 0,
            count: 0,
            bad: 0,
        }
    }

    /// Hands on a part of a line, and gives the plain text of what came with it. `spare` is a text
    /// that is no longer needed, whose memory is used.
    pub(crate) fn take_part(&mut self, part: &[u8], spare: Vec<u8>) -> Result<Vec<u8>, NoMemory>
        requires room { HasRoomAlone S.text self.old (length part.now) }
        requires one_line { HasNoLineEnd part.now }
        ensures { IfOk result
            (λ text. ReadsPart S.text self.old self.new part.now text.items) }
    {
        self.taken += part.len() as u64;
        self.line.feed(self.alloc, part, spare)
    }

    /// Ends the line, as where an LF follows, and gives the plain text of what ends with it, and
    /// its bad message.
    pub(crate) fn end_line(&mut self, spare: Vec<u8>) -> Result<DayLineEnd, NoMemory>
        requires { HasRoomAlone S.text self.old 0 }
        ensures { IfOk result (EndsAlone S.text self.old self.new) }
    {
        let end = end_line::<Brand, S>(self.alloc, &mut self.line, spare)?;
        let bad = passed_over(self.count, self.before, end.bad);
        let passed = count_passed(&bad);
        self.count += u64::from(end.bodies) + passed;
        self.bad += passed;
        self.taken += 1;
        self.before = self.taken;
        Ok(DayLineEnd {
            text: end.text,
            bad,
        })
    }
}
