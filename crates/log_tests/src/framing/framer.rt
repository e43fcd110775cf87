//! Logs that come in pieces.
ghost use Rattle.std.specs.Prelude.{ℕ, ◌<◌, ◌≤◌, List, length};
ghost use Rattle.fix_framing.specs.Framing.{FramerHasRoom};

use crate::framing::vectors::{DAY, MIXED_DAY, TWO_ORDERS};
use fix_framing::framer::{Framer, Step};
use fix_framing::headers::{AnyVersion, Fix44, Headers};
use std::process::Abort;
use std::test::Fail;

/// A log and its messages: where each begins, and from where to where its body runs.
struct Log<'a> {
    text: &'a [u8],
    messages: &'a [(u64, usize, usize)],
}

/// The day of FIX 4.4.
const ONE_VERSION: Log<'static> = Log {
    text: DAY,
    messages: &[
        (0, 16, 158),
        (167, 181, 186),
        (195, 210, 279),
        (288, 303, 366),
    ],
};

/// The day whose messages differ in version.
const MIXED: Log<'static> = Log {
    text: MIXED_DAY,
    messages: &[(0, 14, 19), (28, 44, 58), (67, 81, 86), (95, 110, 115)],
};

/// Takes all messages that are whole, each one the next of the log, after `given` of them.
fn take_messages<H: Headers>(
    rt: &impl Abort,
    framer: &mut Framer<H>,
    log: &Log<'_>,
    given: usize,
) -> usize
    ensures { (piece : List ℕ) → FramerHasRoom H.headers framer.old piece
        → FramerHasRoom H.headers framer.new piece }
{
    let mut given = given;
    'messages: loop {
        match framer.next_frame() {
            Step::Whole { start, body, to } => {
                assert!(rt; given < log.messages.len());
                let (offset, from, end) = log.messages[given];
                assert_eq!(rt; start, offset);
                assert!(rt; log.text.get(from..end) == framer.held().get(body..to));
                given += 1;
            }
            Step::Wait => return given,
            Step::Fault { .. } => panic!(rt; "a fault"),
        }
    }
}

/// Feeds the log in pieces of this size, and gives how many messages it has.
fn feed_in_pieces<H: Headers>(rt: &(impl AllocGlobal + Abort), log: &Log<'_>, size: usize) -> usize
    requires some { 0 < size }
    requires most { length log.now.text.now ≤ 67108864 }
{
    let mut framer = Framer::<H>::new(rt.alloc());
    let mut given = 0;
    let mut from = 0;
    let text = log.text;
    'pieces: while from < text.len() {
        let count = size.min(text.len() - from);
        let Ok(()) = framer.feed(&text[from..from + count]) else {
            panic!(rt; "out of memory");
        };
        from += count;
        given = take_messages(rt, &mut framer, log, given);
        // What is held is the message that is not all there.
        assert!(rt; framer.held().len() < 165);
    }
    assert_eq!(rt; framer.finish(), Ok(()));
    given
}

#[test]
fn a_day_is_framed_in_pieces_of_every_size(rt: HostRuntime) {
    for size in 1..=DAY.len() {
        assert_eq!(rt; feed_in_pieces::<Fix44>(&rt, &ONE_VERSION, size), 4);
    }
    for size in 1..=MIXED_DAY.len() {
        assert_eq!(rt; feed_in_pieces::<AnyVersion>(&rt, &MIXED, size), 4);
    }
}

/// Two orders, of which the second begins at byte 86.
const ORDERS: Log<'static> = Log {
    text: TWO_ORDERS,
    messages: &[(0, 15, 79), (86, 101, 164)],
};

// After the first piece the 86 bytes are dropped, and five of the second order are held.
#[test]
fn a_framer_goes_on_within_a_message(rt: HostRuntime) -> Result<(), Fail> {
    let mut framer = Framer::<Fix44>::new(rt.alloc());
    framer.feed(&TWO_ORDERS[..91])?;
    assert_eq!(rt; take_messages(&rt, &mut framer, &ORDERS, 0), 1);
    assert!(rt; framer.held() == b"8=FIX".as_slice());
    framer.feed(&TWO_ORDERS[91..])?;
    assert_eq!(rt;
        framer.next_frame(),
        Step::Whole {
            start: 86,
            body: 15,
            to: 78
        }
    );
    Ok(())
}
