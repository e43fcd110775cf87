//! Messages in each dress, and behind anything.
ghost use Rattle.std.specs.Prelude.{◌≤◌};

use crate::checks::answers::{RowFault, answer_of};
use crate::checks::inputs::log_of;
use audit_base::faults::NoMemory;
use log_source::quiet_shelf::QuietShelf;
use std::alloc::Global;
use std::test::Fail;

/// Messages such as the acceptance tests of QuickFIX send and expect (`test/definitions/server`, of
/// FIX 4.0 to 4.4 and FIX 5.0), which have a pattern for each time: with a time in its place, their
/// lengths and their sums, and `|` for SOH.
const MESSAGES: [&str; 14] = [
    "8=FIX.4.2|9=57|35=A|34=1|49=TW|52=20240102-09:00:00|56=ISLD|98=0|108=30|10=253|",
    "8=FIX.4.2|9=57|35=A|34=1|49=ISLD|52=20240102-09:00:00|56=TW|98=0|108=30|10=253|",
    "8=FIX.4.4|9=55|35=1|34=2|49=TW|52=20240102-09:00:00|56=ISLD|112=HELLO|10=027|",
    "8=FIX.4.4|9=59|35=0|34=2|49=ISLD|52=20240102-09:00:00.123|56=TW|112=HELLO|10=226|",
    "8=FIX.4.0|9=59|35=2|34=3|49=TW|52=20240102-09:00:00|56=ISLD|7=1|16=999999|10=120|",
    "8=FIX.4.1|9=83|35=4|34=1|43=Y|49=ISLD|52=20240102-09:00:00|56=TW|122=20240102-09:00:00|36=4|123=Y|10=003|",
    "8=FIX.4.2|9=108|35=D|34=2|49=TW|52=20240102-09:00:00|56=ISLD|11=ID|21=3|40=1|54=1|38=002000.00|55=INTC|60=20240102-09:00:00|10=233|",
    "8=FIX.4.3|9=119|35=3|34=2|49=ISLD|52=20240102-09:00:00|56=TW|45=2|58=Value is incorrect (out of range) for this tag|371=40|372=D|373=5|10=094|",
    "8=FIX.4.4|9=91|35=j|34=2|49=ISLD|52=20240102-09:00:00|56=TW|45=2|58=Unsupported Message Type|372=AN|380=3|10=087|",
    "8=FIX.4.2|9=130|35=E|34=2|49=TW|52=20240102-09:00:00|56=ISLD|66=list1|68=2|73=2|11=id1|67=1|21=1|55=INTC|54=1|11=id2|67=2|21=1|55=MSFT|54=2|394=3|10=116|",
    "8=FIX.4.4|9=128|35=D|34=2|43=Y|49=TW|52=20240102-09:00:00|56=ISLD|122=20240102-09:00:00|11=1|21=3|40=1|54=1|55=MSFT|38=100|60=20240102-09:00:00|10=164|",
    "8=FIX.4.0|9=94|35=5|34=2|49=ISLD|52=20240102-09:00:00|56=TW|58=MsgSeqNum too low, expecting 2 but received 1|10=111|",
    "8=FIXT.1.1|9=64|35=A|34=1|49=TW|52=20240102-09:00:00|56=ISLD|98=0|108=30|1137=9|10=142|",
    "8=FIXT.1.1|9=83|35=B|34=2|49=TW|52=20240102-09:00:00|56=ISLD|148=Headline|33=2|58=Line 1|58=Line 2|10=009|",
];

/// Each as a line of FIX 4.4.
const PLAIN: [&str; 14] = [
    "8=FIX.4.4|9=57|35=A|34=1|49=TW|52=20240102-09:00:00|56=ISLD|98=0|108=30|10=255|\n",
    "8=FIX.4.4|9=57|35=A|34=1|49=ISLD|52=20240102-09:00:00|56=TW|98=0|108=30|10=255|\n",
    "8=FIX.4.4|9=55|35=1|34=2|49=TW|52=20240102-09:00:00|56=ISLD|112=HELLO|10=027|\n",
    "8=FIX.4.4|9=59|35=0|34=2|49=ISLD|52=20240102-09:00:00.123|56=TW|112=HELLO|10=226|\n",
    "8=FIX.4.4|9=59|35=2|34=3|49=TW|52=20240102-09:00:00|56=ISLD|7=1|16=999999|10=124|\n",
    "8=FIX.4.4|9=83|35=4|34=1|43=Y|49=ISLD|52=20240102-09:00:00|56=TW|122=20240102-09:00:00|36=4|123=Y|10=006|\n",
    "8=FIX.4.4|9=108|35=D|34=2|49=TW|52=20240102-09:00:00|56=ISLD|11=ID|21=3|40=1|54=1|38=002000.00|55=INTC|60=20240102-09:00:00|10=235|\n",
    "8=FIX.4.4|9=119|35=3|34=2|49=ISLD|52=20240102-09:00:00|56=TW|45=2|58=Value is incorrect (out of range) for this tag|371=40|372=D|373=5|10=095|\n",
    "8=FIX.4.4|9=91|35=j|34=2|49=ISLD|52=20240102-09:00:00|56=TW|45=2|58=Unsupported Message Type|372=AN|380=3|10=087|\n",
    "8=FIX.4.4|9=130|35=E|34=2|49=TW|52=20240102-09:00:00|56=ISLD|66=list1|68=2|73=2|11=id1|67=1|21=1|55=INTC|54=1|11=id2|67=2|21=1|55=MSFT|54=2|394=3|10=118|\n",
    "8=FIX.4.4|9=128|35=D|34=2|43=Y|49=TW|52=20240102-09:00:00|56=ISLD|122=20240102-09:00:00|11=1|21=3|40=1|54=1|55=MSFT|38=100|60=20240102-09:00:00|10=164|\n",
    "8=FIX.4.4|9=94|35=5|34=2|49=ISLD|52=20240102-09:00:00|56=TW|58=MsgSeqNum too low, expecting 2 but received 1|10=115|\n",
    "8=FIX.4.4|9=64|35=A|34=1|49=TW|52=20240102-09:00:00|56=ISLD|98=0|108=30|1137=9|10=064|\n",
    "8=FIX.4.4|9=83|35=B|34=2|49=TW|52=20240102-09:00:00|56=ISLD|148=Headline|33=2|58=Line 1|58=Line 2|10=187|\n",
];

/// How messages are dressed: the words that read them, what stands for SOH, and what is before and
/// behind each.
#[derive(Clone, Copy)]
struct Dress {
    words: &'static str,
    soh: &'static [u8],
    before: &'static [u8],
    behind: &'static [u8],
}

const DRESSES: [Dress; 8] = [
    Dress {
        words: "plain day",
        soh: b"\x01",
        before: b"",
        behind: b"",
    },
    Dress {
        words: "plain day",
        soh: b"\x01",
        before: b"\n",
        behind: b"\r\n",
    },
    Dress {
        words: "plain day --lines",
        soh: b"\x01",
        before: b"20240102-09:00:00.123 : ",
        behind: b"\n",
    },
    Dress {
        words: "plain day --lines --soh |",
        soh: b"|",
        before: b"<20240102-09:00:00, FIX.4.2:ISLD->TW, outgoing>\n  (",
        behind: b")\r\n",
    },
    Dress {
        words: "plain day --lines --soh ^A",
        soh: b"^A",
        before: b"09:00:00 ^A",
        behind: b"^A\n",
    },
    Dress {
        words: "plain day --lines --soh SOH",
        soh: b"SOH",
        before: b"8=FIX ",
        behind: b" 8=FIX\n",
    },
    Dress {
        words: "plain day --lines --soh \\x01",
        soh: b"\\x01",
        before: b"",
        behind: b" \\x0 ",
    },
    Dress {
        words: "plain day --lines --soh <SOH>",
        soh: b"<SOH>",
        before: b"\xEF\xBB\xBF",
        behind: b"<SOH\n\n",
    },
];

/// Appends the message with this text for each `|`, between two others.
fn append_dressed(
    message: &str,
    soh: &[u8],
    before: &[u8],
    behind: &[u8],
    day: &mut Vec<u8>,
) -> Result<(), NoMemory> {
    day.extend_from_slice(before)?;
    for byte in message.as_bytes() {
        if *byte == b'|' {
            day.extend_from_slice(soh)?;
        } else {
            day.push(*byte)?;
        }
    }
    day.extend_from_slice(behind)?;
    Ok(())
}

/// The messages in this dress.
fn day_in(alloc: Global, dress: &Dress) -> Result<Vec<u8>, NoMemory> {
    let mut day = Vec::new(alloc);
    for message in &MESSAGES {
        append_dressed(message, dress.soh, dress.before, dress.behind, &mut day)?;
    }
    Ok(day)
}

/// A shelf of this day, which comes at most `piece` bytes at a time.
fn shelf_of(alloc: Global, day: &[u8], piece: usize) -> Result<QuietShelf, NoMemory>
    requires { 1 ≤ piece }
{
    let day = Vec::from_slice(alloc, day)?;
    Ok(QuietShelf::new(day, Vec::new(alloc), piece))
}

/// Checks what is answered to a day that comes at most `piece` bytes at a time.
fn check_day(
    alloc: Global,
    words: &str,
    day: &[u8],
    piece: usize,
    status: u8,
    text: &[u8],
) -> Result<(), RowFault>
    requires { 1 ≤ piece }
{
    let mut shelf = shelf_of(alloc, day, piece)?;
    let answered = answer_of(alloc, words, &mut shelf)?;
    answered.check(alloc, words, piece, status, text)
}

/// Checks that the messages are read in each dress, in pieces of every size from 1 to 64.
fn check_dresses(alloc: Global) -> Result<(), RowFault> {
    let text = log_of(alloc, &PLAIN)?;
    for dress in &DRESSES {
        let day = day_in(alloc, dress)?;
        for piece in 1..=64 {
            check_day(alloc, dress.words, &day, piece, 0, &text)?;
        }
    }
    Ok(())
}

#[test]
fn acceptance_messages_in_each_dress(rt: HostRuntime) -> Result<(), Fail> {
    Ok(check_dresses(rt.alloc())?)
}

/// What is before a message: words in which `8=FIX` stands, behind a digit or with another byte
/// after it, a time, and parts of a beginning.
const BEFORE: &[u8; 80] =
    b"[word8=FIXed 8=FIX 08=FIX.4.2 88=FIXT7] 2024-01-02T09:00:00.123456789Z 8=8=FIX: ";

/// What is written of a message behind these bytes, which is read but where a digit is right
/// before it.
fn text_behind(before: &[u8]) -> &'static [u8] {
    match before.last() {
        Some(byte) if byte.is_ascii_digit() => b"",
        _ => b"8=FIX.4.4\x019=5\x0135=0\x0110=163\x01\n",
    }
}

/// Checks a message behind these bytes.
fn check_behind(alloc: Global, before: &[u8], piece: usize) -> Result<(), RowFault>
    requires { 1 ≤ piece }
{
    let mut day = Vec::new(alloc);
    append_dressed("8=FIX.4.2|9=5|35=0|10=161|", b"|", before, b"\n", &mut day)?;
    let text = text_behind(before);
    check_day(alloc, "plain day --lines --soh |", &day, piece, 0, text)
}

/// Checks the message behind the first bytes of these, however many.
fn check_each_before(alloc: Global) -> Result<(), RowFault> {
    for size in 0..=80 {
        for piece in 1..=64 {
            check_behind(alloc, &BEFORE[..size], piece)?;
        }
    }
    Ok(())
}

#[test]
fn a_message_behind_up_to_eighty_bytes(rt: HostRuntime) -> Result<(), Fail> {
    Ok(check_each_before(rt.alloc())?)
}
