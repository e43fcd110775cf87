//! Days for `plain` that end too early, and calls that fail while the text is written: what was
//! written then begins whatever the day may go on to.
use crate::checks::answers::{RowFault, answer_into, answer_of};
use crate::checks::cuts::{Cut, CutLogs, check_cuts};
use crate::checks::inputs::log_of;
use audit_base::faults::NoMemory;
use audit_base::terms::Which;
use log_source::memory_shelf::MemoryShelf;
use log_source::memory_sink::MemorySink;
use std::alloc::Global;
use std::test::Fail;

const FRAMED: &str = "plain orders";

const LINES: &str = "plain orders --lines --soh ^A";

/// Two messages, with CR and LF behind the first.
const FRAMED_DAY: [&str; 1] = [
    "8=FIX.4.2|9=5|35=0|10=161|\r\n8=FIXT.1.1|9=14|35=1|112=TEST|10=052|\n",
];

/// The same on lines, between other bytes.
const LINE_DAY: [&str; 1] = [
    "in 8=FIX.4.2^A9=5^A35=0^A10=161^A\r\nout 8=FIXT.1.1^A9=14^A35=1^A112=TEST^A10=052^A <-\n",
];

/// What is written of both messages.
const BOTH: &[u8] =
    b"8=FIX.4.4\x019=5\x0135=0\x0110=163\x01\n8=FIX.4.4\x019=14\x0135=1\x01112=TEST\x0110=230\x01\n";

/// A message is bad from its first byte on until it is all there.
const FRAMED_CUTS: CutLogs = CutLogs {
    words: FRAMED,
    orders: &FRAMED_DAY,
    trades: &[],
    which: Which::Orders,
    cuts: &[
        Cut {
            last: 0,
            status: 0,
            report: "",
        },
        Cut {
            last: 25,
            status: 3,
            report: "malformed,orders,1,0,truncated\n",
        },
        Cut {
            last: 28,
            status: 0,
            report: "8=FIX.4.4\x019=5\x0135=0\x0110=163\x01\n",
        },
        Cut {
            last: 64,
            status: 3,
            report: "8=FIX.4.4\x019=5\x0135=0\x0110=163\x01\nmalformed,orders,2,28,truncated\n",
        },
        Cut {
            last: 66,
            status: 0,
            report: "8=FIX.4.4\x019=5\x0135=0\x0110=163\x01\n8=FIX.4.4\x019=14\x0135=1\x01112=TEST\x0110=230\x01\n",
        },
    ],
};

/// A message is bad from the byte behind `8=FIX` on. At the end of a day half a text for SOH stands
/// for itself.
const LINE_CUTS: CutLogs = CutLogs {
    words: LINES,
    orders: &LINE_DAY,
    trades: &[],
    which: Which::Orders,
    cuts: &[
        Cut {
            last: 8,
            status: 0,
            report: "",
        },
        Cut {
            last: 12,
            status: 3,
            report: "malformed,orders,1,3,truncated\n",
        },
        Cut {
            last: 13,
            status: 3,
            report: "malformed,orders,1,3,begin\n",
        },
        Cut {
            last: 17,
            status: 3,
            report: "malformed,orders,1,3,truncated\n",
        },
        Cut {
            last: 18,
            status: 3,
            report: "malformed,orders,1,3,length\n",
        },
        Cut {
            last: 31,
            status: 3,
            report: "malformed,orders,1,3,truncated\n",
        },
        Cut {
            last: 32,
            status: 3,
            report: "malformed,orders,1,3,trailer\n",
        },
        Cut {
            last: 44,
            status: 0,
            report: "8=FIX.4.4\x019=5\x0135=0\x0110=163\x01\n",
        },
        Cut {
            last: 49,
            status: 3,
            report: "8=FIX.4.4\x019=5\x0135=0\x0110=163\x01\nmalformed,orders,2,39,truncated\n",
        },
        Cut {
            last: 50,
            status: 3,
            report: "8=FIX.4.4\x019=5\x0135=0\x0110=163\x01\nmalformed,orders,2,39,begin\n",
        },
        Cut {
            last: 55,
            status: 3,
            report: "8=FIX.4.4\x019=5\x0135=0\x0110=163\x01\nmalformed,orders,2,39,truncated\n",
        },
        Cut {
            last: 56,
            status: 3,
            report: "8=FIX.4.4\x019=5\x0135=0\x0110=163\x01\nmalformed,orders,2,39,length\n",
        },
        Cut {
            last: 79,
            status: 3,
            report: "8=FIX.4.4\x019=5\x0135=0\x0110=163\x01\nmalformed,orders,2,39,truncated\n",
        },
        Cut {
            last: 80,
            status: 3,
            report: "8=FIX.4.4\x019=5\x0135=0\x0110=163\x01\nmalformed,orders,2,39,trailer\n",
        },
        Cut {
            last: 85,
            status: 0,
            report: "8=FIX.4.4\x019=5\x0135=0\x0110=163\x01\n8=FIX.4.4\x019=14\x0135=1\x01112=TEST\x0110=230\x01\n",
        },
    ],
};

#[test]
fn a_day_cut_anywhere(rt: HostRuntime) -> Result<(), Fail> {
    check_cuts(rt.alloc(), &FRAMED_CUTS)?;
    Ok(check_cuts(rt.alloc(), &LINE_CUTS)?)
}

/// What is written of a framed day that comes 20 bytes at a time where the call of this number
/// fails: its start, the read of a piece, or that of its end.
const FRAMED_READS: [(u32, &[u8]); 6] = [
    (1, b"readfault,orders\n"),
    (2, b"readfault,orders\n"),
    (3, b"readfault,orders\n"),
    (
        4,
        b"8=FIX.4.4\x019=5\x0135=0\x0110=163\x01\nreadfault,orders\n",
    ),
    (
        5,
        b"8=FIX.4.4\x019=5\x0135=0\x0110=163\x01\nreadfault,orders\n",
    ),
    (
        6,
        b"8=FIX.4.4\x019=5\x0135=0\x0110=163\x01\n8=FIX.4.4\x019=14\x0135=1\x01112=TEST\x0110=230\x01\nreadfault,orders\n",
    ),
];

/// The same of a day on lines.
const LINE_READS: [(u32, &[u8]); 7] = [
    (1, b"readfault,orders\n"),
    (2, b"readfault,orders\n"),
    (3, b"readfault,orders\n"),
    (
        4,
        b"8=FIX.4.4\x019=5\x0135=0\x0110=163\x01\nreadfault,orders\n",
    ),
    (
        5,
        b"8=FIX.4.4\x019=5\x0135=0\x0110=163\x01\nreadfault,orders\n",
    ),
    (
        6,
        b"8=FIX.4.4\x019=5\x0135=0\x0110=163\x01\nreadfault,orders\n",
    ),
    (
        7,
        b"8=FIX.4.4\x019=5\x0135=0\x0110=163\x01\n8=FIX.4.4\x019=14\x0135=1\x01112=TEST\x0110=230\x01\nreadfault,orders\n",
    ),
];

/// A shelf of this day, of which 20 bytes come at a time, and whose calls of these numbers fail.
fn shelf_of(alloc: Global, day: &[&str], fails: &[u32]) -> Result<MemoryShelf, NoMemory> {
    let mut shelf = MemoryShelf::new(alloc, 20, Vec::from_slice(alloc, fails)?);
    shelf.put(String::from_str(alloc, "orders")?, log_of(alloc, day)?)?;
    Ok(shelf)
}

/// Checks what is written of a day where one of these calls fails.
fn check_reads(
    alloc: Global,
    words: &str,
    day: &[&str],
    calls: &[(u32, &[u8])],
) -> Result<(), RowFault> {
    for &(fails, text) in calls {
        let mut shelf = shelf_of(alloc, day, &[fails])?;
        let answered = answer_of(alloc, words, &mut shelf)?;
        answered.check(alloc, words, fails as usize, 4, text)?;
    }
    Ok(())
}

#[test]
fn what_is_written_where_a_read_fails(rt: HostRuntime) -> Result<(), Fail> {
    check_reads(rt.alloc(), FRAMED, &FRAMED_DAY, &FRAMED_READS)?;
    Ok(check_reads(rt.alloc(), LINES, &LINE_DAY, &LINE_READS)?)
}

/// How many bytes of the text of both messages are written where the write of this number fails:
/// each takes at most ten bytes, and the text of one piece at a time is written.
const FAILING_WRITES: [(u32, usize); 7] = [
    (1, 0),
    (2, 10),
    (3, 20),
    (4, 27),
    (5, 37),
    (6, 47),
    (7, 57),
];

/// A sink that takes at most ten bytes at once, and whose write of this number fails.
fn sink_of(alloc: Global, fails: u32) -> Result<MemorySink, NoMemory> {
    let failing = Vec::from_slice(alloc, &[fails])?;
    MemorySink::new(alloc, 100, 10, failing)
}

/// Checks what is written of a day at each of its writes. The read of its end fails too, which is
/// not told where a write failed before it: the day is not read on.
fn check_writes(alloc: Global, words: &str, day: &[&str], end: u32) -> Result<(), RowFault> {
    for &(fails, written) in &FAILING_WRITES {
        let mut shelf = shelf_of(alloc, day, &[end])?;
        let out = sink_of(alloc, fails)?;
        let answered = answer_into(alloc, words, &mut shelf, out)?;
        let front = &BOTH[..written.min(BOTH.len())];
        answered.check(alloc, words, fails as usize, 5, front)?;
    }
    Ok(())
}

#[test]
fn what_is_written_where_a_write_fails(rt: HostRuntime) -> Result<(), Fail> {
    check_writes(rt.alloc(), FRAMED, &FRAMED_DAY, 6)?;
    Ok(check_writes(rt.alloc(), LINES, &LINE_DAY, 7)?)
}
