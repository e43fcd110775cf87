//! Frames of FIX 4.4, and the first test that a broken one fails.
use crate::framing::checks::assert_prefixes_truncated;
use crate::framing::vectors::{H, M1, M2, M3, M4, P, Q, R1, R2, TWO_ORDERS};
use fix_framing::frames::{Frame, FrameFault, frame_at};
use fix_framing::headers::Fix44;

/// The texts of the four damaged logs: M1 with another sum, with a shorter and with a longer
/// length, and M1 and M2 without the last byte of M2.
const BROKEN_CHECKSUM: &[u8] =
    b"8=FIX.4.4\x019=64\x0135=D\x0149=A\x0111=1\x0160=20240102-09:00:00\x0155=Z\x0154=1\x0138=100\x0140=2\x0144=10\x0110=146\x01";

const BODY_LENGTH_SHORT: &[u8] =
    b"8=FIX.4.4\x019=63\x0135=D\x0149=A\x0111=1\x0160=20240102-09:00:00\x0155=Z\x0154=1\x0138=100\x0140=2\x0144=10\x0110=145\x01";

const BODY_LENGTH_LONG: &[u8] =
    b"8=FIX.4.4\x019=65\x0135=D\x0149=A\x0111=1\x0160=20240102-09:00:00\x0155=Z\x0154=1\x0138=100\x0140=2\x0144=10\x0110=145\x01";

const LAST_BYTE_MISSING: &[u8] =
    b"8=FIX.4.4\x019=64\x0135=D\x0149=A\x0111=1\x0160=20240102-09:00:00\x0155=Z\x0154=1\x0138=100\x0140=2\x0144=10\x0110=145\x018=FIX.4.4\x019=63\x0135=D\x0149=B\x0111=2\x0160=20240102-09:00:01\x0155=Z\x0154=2\x0138=100\x0140=2\x0144=9\x0110=108";

/// Messages, and where their bodies begin.
const WHOLE: [(&[u8], usize); 12] = [
    (M1, 15),
    (M2, 15),
    (M3, 15),
    (M4, 15),
    (H, 14),
    (Q, 15),
    (P, 16),
    (R1, 15),
    (R2, 15),
    // No body at all, and leading zeros in the length.
    (b"8=FIX.4.4\x019=0\x0110=200\x01", 14),
    (b"8=FIX.4.4\x019=05\x0135=0\x0110=211\x01", 15),
    (b"8=FIX.4.4\x019=000000005\x0135=0\x0110=035\x01", 22),
];

#[test]
fn messages_are_found_whole_and_after_others(rt: HostRuntime) {
    for &(text, body) in &WHOLE {
        let end = text.len();
        let want = Frame {
            start: 0,
            body,
            end,
        };
        assert_eq!(rt; frame_at::<Fix44>(text, 0), Ok(want), "{body} {end}");
    }
    let second = Frame {
        start: 86,
        body: 101,
        end: 171,
    };
    assert_eq!(rt; frame_at::<Fix44>(TWO_ORDERS, 86), Ok(second));
}

/// Bytes, a place in them, and the first test that fails from there on.
const DAMAGED: [(&[u8], usize, FrameFault); 20] = [
    (BROKEN_CHECKSUM, 0, FrameFault::Checksum),
    (BODY_LENGTH_SHORT, 0, FrameFault::Trailer),
    (BODY_LENGTH_LONG, 0, FrameFault::Truncated),
    (LAST_BYTE_MISSING, 86, FrameFault::Truncated),
    // Test 1, also where nothing else would fail.
    (
        b"8=FIX.4.2\x019=5\x0135=0\x0110=161\x01",
        0,
        FrameFault::Begin,
    ),
    (b"8=FIX.4.5", 0, FrameFault::Begin),
    // Test 2.
    (b"8=FIX.4.4\x019", 0, FrameFault::Truncated),
    // Test 3, also at the end and where the value is small.
    (b"8=FIX.4.4\x019=1234567890", 0, FrameFault::Length),
    (
        b"8=FIX.4.4\x019=0000000005\x0135=0\x0110=083\x01",
        0,
        FrameFault::Length,
    ),
    // Test 4.
    (b"8=FIX.4.4\x019=", 0, FrameFault::Truncated),
    (b"8=FIX.4.4\x019=123456789", 0, FrameFault::Truncated),
    // Test 5.
    (b"8=FIX.4.4\x019=\x01", 0, FrameFault::Length),
    (b"8=FIX.4.4\x019=5x", 0, FrameFault::Length),
    (b"8=FIX.4.4\x019=1048577\x01", 0, FrameFault::Length),
    // Test 6.
    (b"8=FIX.4.4\x019=1048576\x01", 0, FrameFault::Truncated),
    (
        b"8=FIX.4.4\x019=5\x0135=0\x0110=163",
        0,
        FrameFault::Truncated,
    ),
    // Test 7.
    (
        b"8=FIX.4.4\x019=5\x0135=0\x0111=163\x01",
        0,
        FrameFault::Trailer,
    ),
    (
        b"8=FIX.4.4\x019=5\x0135=0\x0110=16x\x01",
        0,
        FrameFault::Trailer,
    ),
    (
        b"8=FIX.4.4\x019=5\x0135=0\x0110=163|",
        0,
        FrameFault::Trailer,
    ),
    // Test 8: a sum is never above 255.
    (
        b"8=FIX.4.4\x019=5\x0135=0\x0110=419\x01",
        0,
        FrameFault::Checksum,
    ),
];

#[test]
fn damaged_messages_give_the_first_failing_test(rt: HostRuntime) {
    for &(text, at, fault) in &DAMAGED {
        assert!(rt; at <= text.len());
        assert_eq!(rt; frame_at::<Fix44>(text, at), Err(fault));
    }
}

#[test]
fn each_proper_prefix_of_a_message_is_truncated(rt: HostRuntime) {
    assert_prefixes_truncated::<Fix44>(&rt, H);
    assert_prefixes_truncated::<Fix44>(&rt, M1);
    assert_prefixes_truncated::<Fix44>(&rt, P);
}
