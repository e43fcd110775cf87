//! What is written of a day of which each line is read alone: its good messages, or a report of its
//! bad ones.
ghost use Rattle.std.specs.Prelude.{◌≡◌, ℕ, List, OnOk};
ghost use Rattle.fix_days.specs.Laws.{written_line};
ghost use Rattle.fix_days.specs.LinesAlone.{DayMessage as ADayMessage, body_of_good};
ghost use Rattle.plain_logs.specs.BadReports.{fault_word, items_if_bad, report_end, whole_line};
ghost use Rattle.plain_logs.specs.LinesAlone.{no_items};
ghost use Rattle.plain_logs.specs.Writers.{AppendsBad, AppendsEnd, AppendsGood};

use crate::day_ends::PassedMessage;
use audit_base::faults::NoMemory;
use audit_report::line_parts::{LinePart, append_line};
use fix_framing::frames::FrameFault;
use std::alloc::Global;

/// Writes of each message some items, and more of them at the end of the day.
pub(crate) trait DayWriter {
    // What is written of an item.
    ghost writes: { List ℕ → List ℕ };

    // The items of a message.
    ghost items_of: { ADayMessage → List (List ℕ) };

    // The items that end a day with these messages.
    ghost last_items: { List ADayMessage → List (List ℕ) };

    /// Appends what is written of good messages. The text is the plain text of them.
    fn append_good(text: &[u8], out: &mut Vec<u8>) -> Result<(), NoMemory>
        ensures { OnOk result (AppendsGood writes items_of text.now out.old.items out.new.items) };

    /// Appends what is written of a bad message.
    fn append_bad(alloc: Global, bad: &PassedMessage, out: &mut Vec<u8>) -> Result<(), NoMemory>
        ensures { OnOk result (AppendsBad writes items_of bad.now out.old.items out.new.items) };

    /// Appends what is written at the end of a day with so many messages, of which so many are bad.
    fn append_end(alloc: Global, bad: u64, count: u64, out: &mut Vec<u8>) -> Result<(), NoMemory>
        ensures { OnOk result
            (AppendsEnd writes last_items bad count out.old.items out.new.items) };
}

/// The good messages alone.
pub(crate) struct GoodMessages;

impl DayWriter for GoodMessages {
    ghost writes = { written_line };

    ghost items_of = { body_of_good };

    ghost last_items = { no_items };

    fn append_good(text: &[u8], out: &mut Vec<u8>) -> Result<(), NoMemory> {
        out.extend_from_slice(text)?;
        Ok(())
    }

    fn append_bad(
        _alloc: Global,
        _bad: &PassedMessage,
        _out: &mut Vec<u8>,
    ) -> Result<(), NoMemory> {
        Ok(())
    }

    fn append_end(
        _alloc: Global,
        _bad: u64,
        _count: u64,
        _out: &mut Vec<u8>,
    ) -> Result<(), NoMemory> {
        Ok(())
    }
}

/// The word for a fault of a frame.
fn fault_word(fault: FrameFault) -> &'static [u8]
    ensures { result.now ≡ fault_word fault }
{
    match fault {
        FrameFault::Begin => b"begin",
        FrameFault::Length => b"length",
        FrameFault::Truncated => b"truncated",
        FrameFault::Trailer => b"trailer",
        FrameFault::Checksum => b"checksum",
    }
}

/// A line for each bad message, and then how many there are, and how many messages in all.
pub(crate) struct BadReport;

impl DayWriter for BadReport {
    ghost writes = { whole_line };

    ghost items_of = { items_if_bad };

    ghost last_items = { report_end };

    fn append_good(_text: &[u8], _out: &mut Vec<u8>) -> Result<(), NoMemory> {
        Ok(())
    }

    fn append_bad(alloc: Global, bad: &PassedMessage, out: &mut Vec<u8>) -> Result<(), NoMemory> {
        let parts = [
            LinePart::Number(u128::from(bad.place)),
            LinePart::Number(u128::from(bad.offset)),
            LinePart::Word(fault_word(bad.fault)),
        ];
        append_line(alloc, b"bad", &parts, out)
    }

    fn append_end(alloc: Global, bad: u64, count: u64, out: &mut Vec<u8>) -> Result<(), NoMemory> {
        append_line(alloc, b"bad", &[LinePart::Number(u128::from(bad))], out)?;
        append_line(
            alloc,
            b"messages",
            &[LinePart::Number(u128::from(count))],
            out,
        )
    }
}
