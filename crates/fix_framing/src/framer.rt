//! The frames of a log that comes in pieces. A `Framer` is fed the pieces as they come and gives
//! one message after the other. It keeps neither the bytes that it has framed nor the frames that
//! it gave, so a log is framed in the memory of a piece and a message, however long it is.
//!
//! Framed bytes are dropped where a message is not all there: only the bytes of that message move
//! to the front then, and they move no second time before it is given.
//!
//! Only the bytes of the unfinished message are kept, and only an answer that more is needed moves
//! them.
ghost use Rattle.std.specs.Prelude.{◌≡◌, ◌≢◌, ℕ, ◌+◌, ◌<◌, ◌≤◌, ◌^◌, ◌↔◌, List, [], length, drop, Some, None, IsTrue, IsOk, IfErr, OnOk, OnErr, vec_len};
ghost use Rattle.std.specs.List.{list_all};
ghost use Rattle.fix_framing.specs.Breaks.{is_line_end_byte};

use crate::breaks::skip_breaks;
use crate::frames::{FrameFault, TRAILER, frame_at};
use crate::headers::Headers;
use audit_base::faults::NoMemory;
use std::alloc::Global;
use std::marker::PhantomData;

/// What a Framer says about the bytes fed that it has not yet framed.
#[derive(Clone, Copy, Debug, PartialEq, Eq)]
pub enum Step {
    /// The next message. `start` is the offset of its first byte in all bytes fed. Its body runs
    /// from `body` to `to` in the bytes held, and it ends at `to + 7` there. Both places are valid
    /// until the next `feed` or `next_frame`.
    Whole { start: u64, body: usize, to: usize },
    /// The next message is not all there, or there is none.
    Wait,
    /// At the offset `at` in all bytes fed, after CR and LF bytes, no message begins: `fault` is
    /// the first test that fails there.
    Fault { at: u64, fault: FrameFault },
}

/// Bytes that come in pieces, of which some are framed. `H` says what their messages begin with.
#[derive(Drop)]
pub struct Framer<H> {
    /// The bytes that are held: the last ones of all bytes fed.
    bytes: Vec<u8>,
    /// How many bytes were dropped before them.
    base: u64,
    /// How many of the bytes held are framed.
    next: usize,
    /// What the messages may begin with.
    headers: PhantomData<H>,
    ghost within: { next ≤ vec_len bytes },
    ghost countable: { base + vec_len bytes < 2 ^ 64 },
}

/// Drops the first bytes.
fn drop_front(bytes: &mut Vec<u8>, count: usize)
    requires { count ≤ vec_len bytes.old }
    ensures { bytes.new.items ≡ drop count bytes.old.items }
{
    if count > 0 {
        let length = bytes.len();
        bytes.copy_within(count..length, 0);
        bytes.truncate(length - count);
    }
}

impl<H: Headers> Framer<H> {
    ghost use Rattle.fix_framing.specs.Framing.{bytes_held, bytes_unframed, next_text, next_offset, IsFramerWith, IsNextOffset, FramerHasRoom, FeedsPiece, AppendsUnframed, KeepsFraming, IsUnfinished, IsWholeFrame, StepSays};
    ghost use Rattle.fix_framing.specs.Frames.{frame_fault_with};
    ghost use Rattle.fix_framing.specs.declared.frames.FrameFault.{FrameFault};

    /// A Framer that was fed nothing.
    pub fn new(alloc: Global) -> Self
        ensures stands { IsFramerWith H.headers result [] [] }
        ensures empty { bytes_held result ≡ [] }
    {
        Framer {
            bytes: Vec::new(alloc),
            base: 0,
            next: 0,
            headers: PhantomData,
        }
    }

    /// Takes the next piece of the bytes, which are fewer than 2^64 in
    /// all. Out of memory, nothing changes.
    pub fn feed(&mut self, piece: &[u8]) -> Result<(), NoMemory>
        requires { FramerHasRoom H.headers self.old piece.now }
        ensures ok { OnOk result (FeedsPiece H.headers self.old self.new piece.now) }
        ensures appended { OnOk result (AppendsUnframed self.old self.new piece.now) }
        ensures err { OnErr result (KeepsFraming H.headers self.old self.new) }
    {
        self.bytes.extend_from_slice(piece)?;
        Ok(())
    }

    /// The next message of the bytes fed, or why there is none. It takes no memory. After
    /// `Step::Fault` it says the same again, whatever is fed.
    pub fn next_frame(&mut self) -> Step
        ensures answers { StepSays H.headers self.old self.new result }
        // Each answer comes exactly where the bytes say so.
        ensures whole { IsWholeFrame result
            ↔ (frame_fault_with H.headers (next_text self.old) ≡ None) }
        ensures waits { (result ≡ Step.Wait) ↔ IsUnfinished H.headers self.old }
        ensures refuses { (at : ℕ) (fault : FrameFault) → (result ≡ Step.Fault at fault)
            ↔ ((frame_fault_with H.headers (next_text self.old) ≡ Some fault)
            × (fault ≢ FrameFault.Truncated) × (at ≡ next_offset self.old)) }
    {
        H::are_headers();
        let at = skip_breaks(&self.bytes, self.next);
        match frame_at::<H>(&self.bytes, at) {
            Ok(frame) => {
                self.next = frame.end;
                Step::Whole {
                    start: self.base + frame.start as u64,
                    body: frame.body,
                    to: frame.end - TRAILER,
                }
            }
            Err(fault) if fault != FrameFault::Truncated => Step::Fault {
                at: self.base + at as u64,
                fault,
            },
            // A truncated message may go on in the next piece: it is held, and nothing before it.
            Err(_) => {
                drop_front(&mut self.bytes, at);
                self.base += at as u64;
                self.next = 0;
                Step::Wait
            }
        }
    }

    /// Whether all bytes fed are framed, but for CR and LF bytes: else the offset of the first byte
    /// of the unfinished message, after these.
    pub fn finish(&self) -> Result<(), u64>
        ensures ok { IsOk result ↔ IsTrue (list_all is_line_end_byte (bytes_unframed self.now)) }
        ensures err { IfErr result (IsNextOffset H.headers self.now) }
    {
        let at = skip_breaks(&self.bytes, self.next);
        if at < self.bytes.len() {
            return Err(self.base + at as u64);
        }
        Ok(())
    }

    /// The bytes that are held, in which `Step::Whole` has its places.
    pub fn held(&self) -> &[u8]
        ensures { result.now ≡ bytes_held self.now }
    {
        &self.bytes
    }
}
