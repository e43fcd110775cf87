//! Days whose messages stand on lines, in a dress in which a text may stand for SOH.
ghost use Rattle.std.specs.Prelude.{◌≡◌, ◌≤◌, IsTrue};
ghost use Rattle.fix_days.specs.Lines.{is_soh_text};

use crate::days::joined_bodies::{JoinedBodies, is_read};
use audit_base::faults::NoMemory;
use audit_base::terms::Which;
use fix_days::faults::BadMessage;
use fix_days::lines::{LineFeed, SohGhost, is_soh_text};
use fix_days::read_day::ReadDay;
use fix_framing::frames::FrameFault;
use log_source::limits::LONGEST_READ;
use log_source::memory_shelf::MemoryShelf;
use log_source::pump::pump;
use std::alloc::Global;
use std::marker::Brand;
use std::process::Abort;

/// What may stand for SOH.
const SOH_TEXTS: [&[u8]; 6] = [b"\x01", b"|", b"^A", b"<SOH>", b"\\x01", b"!~"];

/// What may not.
const OTHER_TEXTS: [&[u8]; 7] = [b"", b"\x01\x01", b" ", b"\n", b"\x7F", b"123456", b"|\x01"];

/// The text for SOH, a day, and the bodies that are read of it, each with `;` after it.
const GOOD: [(&[u8], &[u8], &[u8]); 10] = [
    (b"\x01", b"", b""),
    (
        b"\x01",
        b"8=FIX.4.4\x019=5\x0135=0\x0110=163\x01",
        b"35=0\x01;",
    ),
    (
        b"\x01",
        b"\xEF\xBB\xBF2024-01-02 09:00:00 : 8=FIX.4.4\x019=5\x0135=0\x0110=163\x01\r\nno message\nx : 8=FIXT.1.1\x019=14\x0135=1\x01112=TEST\x0110=052\x01\n",
        b"35=0\x01;35=1\x01112=TEST\x01;",
    ),
    (
        b"|",
        b"20240102-09:00:00.123 [18=FIX.4] in : 8=FIX.4.2|9=5|35=0|10=161|\r\n08=FIX. 8=FIXT.1.1|9=14|35=1|112=TEST|10=052| end\r\n",
        b"35=0\x01;35=1\x01112=TEST\x01;",
    ),
    (
        b"^A",
        b"out 8=FIX.4.4^A9=5^A35=0^A10=163^A8=FIXT.1.1^A9=14^A35=1^A112=TEST^A10=052^A ^A\n",
        b"35=0\x01;35=1\x01112=TEST\x01;",
    ),
    (
        b"<SOH>",
        b"<8=FIX.4.4<SOH>9=5<SOH>35=0<SOH>10=163<SOH><SO8=FIXT.1.1<SOH>9=14<SOH>35=1<SOH>112=TEST<SOH>10=052<SOH>\n<SOH>8=FIX\n",
        b"35=0\x01;35=1\x01112=TEST\x01;",
    ),
    (
        b"\\x01",
        b"7 8=FIX.4.4\\x019=5\\x0135=0\\x0110=163\\x018=FIXT.1.1\\x019=14\\x0135=1\\x01112=TEST\\x0110=052\\x01 \\x0\n",
        b"35=0\x01;35=1\x01112=TEST\x01;",
    ),
    (
        b"#",
        b"AAAAAAAAAAAAAAAAAAAAAAAAAAAAAAAAAAAAAAAAAAAAAAAAAAAAAAAAAAAAAAAAAAAAAAAAAAAAAAAA8=FIXT.1.1#9=14#35=1#112=TEST#10=052#AAAAAAAAAAAAAAAAAAAAAAAAAAAAAAAAAAAAAAAAAAAAAAAAAAAAAAAAAAAAAAAAAAAAAAAAAAAAAAAA",
        b"35=1\x01112=TEST\x01;",
    ),
    (b"|", b"8=FI 8=FIX 8=FIXA 88=FIXT 8=FIX\n.4.4\n", b""),
    (
        b"|",
        b"8=FIX.4.4\x019=5\x0135=0\x0110=163\x01\n",
        b"35=0\x01;",
    ),
];

/// The text for SOH, a day, the bodies before its first bad message, each with `;` after it, and
/// that message: its place, its offset and its fault.
const BAD: [(&[u8], &[u8], &[u8], u32, u64, FrameFault); 9] = [
    (
        b"|",
        b"first 8=FIX.4.4|9=5|35=0|10=163|\nsecond 8=FIX.4.4\x019=12\x0135=0\x0158=a|b\x0110=187\x01\n",
        b"35=0\x01;",
        2,
        40,
        FrameFault::Checksum,
    ),
    (
        b"^A",
        b"x: 8=FIX.4.4^A9=13^A35=0^A58=a^Ab^A10=223^A\n",
        b"",
        1,
        3,
        FrameFault::Truncated,
    ),
    (
        b"<SOH>",
        b"\xEF\xBB\xBF1 : 8=FIX.4.4<SOH>9=5<SOH>35=0<SOH>10=163<SOH> 2 : 8=FIXT.1.1<SOH>9=14<SOH>35=1<SOH>112=TEST<SOH>10=052\n8=FIX.4.4<SOH>9=5<SOH>35=0<SOH>10=163<SOH>",
        b"35=0\x01;",
        2,
        54,
        FrameFault::Truncated,
    ),
    (
        b"|",
        b"ok 8=FIX.4.4|9=5|35=0|10=163|bad 8=FIX.4.5|9=5|\n",
        b"35=0\x01;",
        2,
        33,
        FrameFault::Begin,
    ),
    (
        b"|",
        b"cut 8=FIX.4.4|9=5|35=0\n|10=163|\n",
        b"",
        1,
        4,
        FrameFault::Truncated,
    ),
    (b"|", b"cr 8=FIX.4.4|9=5\r\n", b"", 1, 3, FrameFault::Length),
    (b"8=FIX", b"8=FIX.4.4", b"", 1, 0, FrameFault::Begin),
    (
        b"\\x01",
        b"1 8=FIX.4.4\\x019=5\\x0135=0\\x0110=163\\x01 2 8=FIXT.1.1\\x019=14\\x0135=1\\x01112=TEST\\x0110=053\\x01",
        b"35=0\x01;",
        2,
        43,
        FrameFault::Checksum,
    ),
    (
        b"|",
        b"sum 8=FIX.4.0|9=5|35=0x10=159|\n",
        b"",
        1,
        4,
        FrameFault::Checksum,
    ),
];

/// The day, read in pieces of this size, where the text of `S` stands for SOH.
fn read_dressed<S: SohGhost>(
    alloc: Global,
    soh: &[u8],
    day: &[u8],
    piece: usize,
) -> Result<ReadDay<JoinedBodies>, NoMemory>
    requires soh { soh.now ≡ S.text }
    requires is { IsTrue (is_soh_text S.text) }
    requires piece { 1 ≤ piece }
{
    let mut shelf = MemoryShelf::new(alloc, piece, Vec::new(alloc));
    shelf.put(String::new(alloc), Vec::from_slice(alloc, day)?)?;
    let soh = Vec::from_slice(alloc, soh)?;
    let mut feed = LineFeed::<JoinedBodies, S>::over(alloc, soh, JoinedBodies::new(alloc));
    if pump(&mut shelf, Which::Orders, "", LONGEST_READ, &mut feed).is_err() {
        return Err(NoMemory);
    }
    feed.close()
}

/// The day, read in pieces of this size.
fn read_in_pieces(
    alloc: Global,
    soh: &[u8],
    day: &[u8],
    piece: usize,
) -> Result<ReadDay<JoinedBodies>, NoMemory>
    requires is { IsTrue (is_soh_text soh.now) }
    requires piece { 1 ≤ piece }
{
    read_dressed::<Brand>(alloc, soh, day, piece)
}

#[test]
fn good_days_are_read_in_pieces_of_every_size(rt: HostRuntime) {
    for &(soh, day, want) in &GOOD {
        assert!(rt; is_soh_text(soh));
        for piece in 1..65 {
            let read = read_in_pieces(rt.alloc(), soh, day, piece);
            assert!(rt; is_read(&read, want, None));
        }
    }
}

#[test]
fn bad_days_are_refused_in_pieces_of_every_size(rt: HostRuntime) {
    for &(soh, day, want, place, offset, fault) in &BAD {
        let bad = BadMessage {
            place,
            offset,
            fault,
        };
        assert!(rt; is_soh_text(soh));
        for piece in 1..65 {
            let read = read_in_pieces(rt.alloc(), soh, day, piece);
            assert!(rt; is_read(&read, want, Some(bad)));
        }
    }
}

#[test]
fn a_text_for_soh_is_soh_or_graphic(rt: HostRuntime) {
    for &soh in &SOH_TEXTS {
        assert!(rt; is_soh_text(soh));
    }
    for &text in &OTHER_TEXTS {
        assert!(rt; !is_soh_text(text));
    }
}
