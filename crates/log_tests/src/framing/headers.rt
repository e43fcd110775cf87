//! The versions that a message may have.
use crate::framing::checks::assert_prefixes_truncated;
use crate::framing::vectors::HEARTBEATS;
use fix_framing::frames::{Frame, FrameFault, frame_at};
use fix_framing::headers::{AnyVersion, Fix44};

#[test]
fn a_message_of_each_version_is_found_and_no_prefix_of_it(rt: HostRuntime) {
    for &(text, body) in &HEARTBEATS {
        let end = text.len();
        let want = Frame {
            start: 0,
            body,
            end,
        };
        assert_eq!(rt; frame_at::<AnyVersion>(text, 0), Ok(want), "{end}");
        assert_prefixes_truncated::<AnyVersion>(&rt, text);
    }
}

/// Texts that are messages but for their BeginString, and fronts of such.
const OTHER_VERSIONS: [&[u8]; 8] = [
    b"8=FIX.4.5\x019=5\x0135=0\x0110=164\x01",
    b"8=FIX.5.0\x019=5\x0135=0\x0110=160\x01",
    b"8=FIXT.1.2\x019=5\x0135=0\x0110=242\x01",
    b"8=FIX.4.\x019=5\x0135=0\x0110=111\x01",
    b"8=FIXT.1.1 \x019=5\x0135=0\x0110=017\x01",
    b"8=FIX.4.5",
    b"8=FIX.5",
    b"8=FIXT.1.2",
];

#[test]
fn no_message_begins_with_another_version(rt: HostRuntime) {
    for text in OTHER_VERSIONS {
        assert_eq!(rt; frame_at::<AnyVersion>(text, 0), Err(FrameFault::Begin));
    }
}

#[test]
fn fix_44_alone_has_one_version(rt: HostRuntime) {
    for &(text, body) in &HEARTBEATS {
        let found = frame_at::<Fix44>(text, 0);
        let is_44 = text.starts_with(b"8=FIX.4.4\x019=");
        assert_eq!(rt; found.is_ok(), is_44, "{body}");
        assert_eq!(rt; found == Err(FrameFault::Begin), !is_44, "{body}");
    }
}
