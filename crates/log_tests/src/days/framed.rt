//! Days whose messages stand one after another, after a byte order mark if there is one.
ghost use Rattle.std.specs.Prelude.{◌≤◌, length};

use crate::days::joined_bodies::{JoinedBodies, is_read};
use audit_base::faults::NoMemory;
use audit_base::terms::Which;
use fix_days::faults::BadMessage;
use fix_days::framed::FramedFeed;
use fix_days::read_day::ReadDay;
use fix_framing::frames::FrameFault;
use log_source::feed::Feed;
use log_source::limits::LONGEST_READ;
use log_source::memory_shelf::MemoryShelf;
use log_source::pump::pump;
use std::alloc::Global;
use std::process::Abort;

/// A day, and the bodies that are read of it, each with `;` after it.
const GOOD: [(&[u8], &[u8]); 6] = [
    (b"", b""),
    (b"\xEF\xBB\xBF", b""),
    (b"\r\n\n", b""),
    (b"8=FIX.4.4\x019=5\x0135=0\x0110=163\x01", b"35=0\x01;"),
    (
        b"\xEF\xBB\xBF8=FIX.4.4\x019=5\x0135=0\x0110=163\x01",
        b"35=0\x01;",
    ),
    (
        b"\xEF\xBB\xBF\r\n8=FIX.4.2\x019=5\x0135=0\x0110=161\x01\r\n8=FIXT.1.1\x019=14\x0135=1\x01112=TEST\x0110=052\x018=FIX.4.0\x019=5\x0135=0\x0110=159\x01\n",
        b"35=0\x01;35=1\x01112=TEST\x01;35=0\x01;",
    ),
];

/// A day, the bodies before its first bad message, each with `;` after it, and that message: its
/// place, its offset and its fault.
const BAD: [(&[u8], &[u8], u32, u64, FrameFault); 11] = [
    // A mark in the middle, a second one, and one that is not all there.
    (
        b"8=FIX.4.2\x019=5\x0135=0\x0110=161\x01\xEF\xBB\xBF8=FIX.4.4\x019=5\x0135=0\x0110=163\x01",
        b"35=0\x01;",
        2,
        26,
        FrameFault::Begin,
    ),
    (
        b"\xEF\xBB\xBF\xEF\xBB\xBF8=FIX.4.4\x019=5\x0135=0\x0110=163\x01",
        b"",
        1,
        3,
        FrameFault::Begin,
    ),
    (b"\xEF\xBB", b"", 1, 0, FrameFault::Begin),
    (
        b"\xEF\xBB8=FIX.4.4\x019=5\x0135=0\x0110=163\x01",
        b"",
        1,
        0,
        FrameFault::Begin,
    ),
    (
        b"\n\xEF\xBB\xBF8=FIX.4.4\x019=5\x0135=0\x0110=163\x01",
        b"",
        1,
        1,
        FrameFault::Begin,
    ),
    // After a mark, offsets count its bytes.
    (
        b"\xEF\xBB\xBF8=FIX.4.4\x019=5\x0135=0\x0110=163\x01\n8=FIX.4.5\x019=5",
        b"35=0\x01;",
        2,
        30,
        FrameFault::Begin,
    ),
    (
        b"\xEF\xBB\xBF8=FIX.4.4\x019=5\x0135=0\x0110=163\x01\r\n8=FIX.4.2\x019=5\x0135=0\x0110=161",
        b"35=0\x01;",
        2,
        31,
        FrameFault::Truncated,
    ),
    (b"8=", b"", 1, 0, FrameFault::Truncated),
    (b"\r8=FIX.4.1\x019=x", b"", 1, 1, FrameFault::Length),
    (
        b"8=FIX.4.4\x019=4\x0135=0\x0110=163\x01",
        b"",
        1,
        0,
        FrameFault::Trailer,
    ),
    (
        b"8=FIX.4.4\x019=5\x0135=0\x0110=163\x018=FIXT.1.1\x019=5\x0135=0\x0110=240\x01\x01",
        b"35=0\x01;",
        2,
        26,
        FrameFault::Checksum,
    ),
];

/// The bodies of the day, read in pieces of this size.
fn read_in_pieces(
    alloc: Global,
    day: &[u8],
    piece: usize,
) -> Result<ReadDay<JoinedBodies>, NoMemory>
    requires { 1 ≤ piece }
{
    let mut shelf = MemoryShelf::new(alloc, piece, Vec::new(alloc));
    shelf.put(String::new(alloc), Vec::from_slice(alloc, day)?)?;
    let mut feed = FramedFeed::over(alloc, JoinedBodies::new(alloc));
    if pump(&mut shelf, Which::Orders, "", LONGEST_READ, &mut feed).is_err() {
        return Err(NoMemory);
    }
    feed.close()
}

/// The bodies of the day, read in two pieces.
fn read_cut(alloc: Global, day: &[u8], cut: usize) -> Result<ReadDay<JoinedBodies>, NoMemory>
    requires within { cut ≤ length day.now }
    requires short { length day.now ≤ 1000 }
{
    let mut feed = FramedFeed::over(alloc, JoinedBodies::new(alloc));
    feed.feed(&day[..cut])?;
    feed.feed(&day[cut..])?;
    feed.close()
}

#[test]
fn good_days_are_read_in_pieces_of_every_size(rt: HostRuntime) {
    for &(day, want) in &GOOD {
        for piece in 1..65 {
            let read = read_in_pieces(rt.alloc(), day, piece);
            assert!(rt; is_read(&read, want, None));
        }
    }
}

#[test]
fn bad_days_are_refused_in_pieces_of_every_size(rt: HostRuntime) {
    for &(day, want, place, offset, fault) in &BAD {
        let bad = BadMessage {
            place,
            offset,
            fault,
        };
        for piece in 1..65 {
            let read = read_in_pieces(rt.alloc(), day, piece);
            assert!(rt; is_read(&read, want, Some(bad)));
        }
    }
}

#[test]
fn a_day_is_read_wherever_it_is_cut(rt: HostRuntime) {
    let (day, want) = GOOD[5];
    assert!(rt; day.len() <= 1000);
    for cut in 0..=day.len() {
        let read = read_cut(rt.alloc(), day, cut);
        assert!(rt; is_read(&read, want, None));
    }
}
