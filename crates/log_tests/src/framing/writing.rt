//! Messages that are written.
use crate::framing::vectors::{H, M1, P, R1};
use fix_framing::frames::{Frame, frame_at};
use fix_framing::headers::Fix44;
use fix_framing::writing::write_frame;

#[test]
fn written_messages_are_the_vectors(rt: HostRuntime) {
    let mut out = Vec::new(rt.alloc());
    for (message, body) in [(H, 14), (M1, 15), (P, 16), (R1, 15)] {
        out.clear();
        assert!(rt; body + 7 <= message.len() && message.len() < 1000);
        let written = write_frame(rt.alloc(), &message[body..message.len() - 7], &mut out);
        assert_eq!(rt; written, Ok(()));
        assert!(rt; out.as_slice() == message);
    }
}

#[test]
fn the_longest_body_is_written_and_found(rt: HostRuntime) {
    let mut out = Vec::new(rt.alloc());
    let body = vec![in rt.alloc(); b'A'; 1_048_576];
    let Ok(body) = body else {
        assert!(rt; false, "memory");
        return;
    };
    assert_eq!(rt; write_frame(rt.alloc(), &body, &mut out), Ok(()));
    let want = Frame {
        start: 0,
        body: 20,
        end: 1_048_603,
    };
    assert_eq!(rt; frame_at::<Fix44>(&out, 0), Ok(want));
    assert!(rt; out.ends_with(b"A10=007\x01"));
}
