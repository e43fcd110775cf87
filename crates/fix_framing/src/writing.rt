//! Writing a message: the frame around a body. FIX 4.4, BodyLength (9) and CheckSum (10).
//!
//! The frame is written behind the output, and what there is of it is taken away again where memory
//! runs out, so that the output has the whole frame or none of it.
ghost use Rattle.std.specs.Prelude.{◌≡◌, ◌≤◌, ◌<◌, ◌++◌, decimal, length, take, OnOk, OnErr};
ghost use Rattle.audit_base.specs.Sizes.{longest_body};
ghost use Rattle.fix_framing.specs.Frames.{before_checksum, IsFrame, frame_text, three_digits};
ghost use Rattle.fix_framing.specs.Headers.{header};

use crate::frames::checksum;
use crate::headers::HEADER;
use audit_base::faults::NoMemory;
use audit_base::sizes::SOH;
use itoa::Buffer;
use std::alloc::{AllocError, Global};

/// The three digits that write a sum modulo 256.
fn digits_of(sum: u8) -> [u8; 3]
    ensures { result ≡ three_digits sum }
{
    [b'0' + sum / 100, b'0' + sum / 10 % 10, b'0' + sum % 10]
}

/// Appends the frame of a body up to the field of its sum. Out of memory, a part of that may stand
/// behind the text.
#[tactic(auto, unfolding(crate::specs::Headers::header))]
fn append_front(body: &[u8], out: &mut Vec<u8>) -> Result<(), AllocError>
    ensures ok { let front = before_checksum header (decimal (length body.now)) body.now in
        OnOk result (out.new.items ≡ out.old.items ++ front) }
    ensures begins { take (length out.old.items) out.new.items ≡ out.old.items }
{
    let mut buffer = Buffer::new();
    out.extend_from_slice(HEADER)?;
    out.extend_from_slice(buffer.format(body.len()).as_bytes())?;
    out.push(SOH)?;
    out.extend_from_slice(body)?;
    Ok(())
}

/// Appends the frame of a body. Out of memory, a part of it may stand behind the text.
#[tactic(auto, using(crate::proofs::WritingLemmas::rest_behind))]
fn append_frame(body: &[u8], out: &mut Vec<u8>) -> Result<(), AllocError>
    ensures ok { OnOk result (out.new.items ≡ out.old.items ++ frame_text body.now) }
    ensures begins { take (length out.old.items) out.new.items ≡ out.old.items }
{
    let start = out.len();
    append_front(body, out)?;
    let sum = checksum(&out[start..]);
    out.extend_from_slice(b"10=")?;
    out.extend_from_slice(&digits_of(sum))?;
    out.push(SOH)?;
    Ok(())
}

/// Appends the message with this body. Its length has no leading zero.
/// Out of memory, `out` stays as it was.
#[tactic(auto, using(crate::proofs::WritingLemmas::frame_text_is_frame))]
pub fn write_frame(alloc: Global, body: &[u8], out: &mut Vec<u8>) -> Result<(), NoMemory>
    requires { length body.now ≤ longest_body }
    ensures ok { OnOk result (out.new.items ≡ out.old.items ++ frame_text body.now) }
    // What is appended is a message with this body.
    ensures message { IsFrame (frame_text body.now) body.now }
    ensures err { OnErr result (out.new.items ≡ out.old.items) }
{
    let start = out.len();
    match append_frame(body, out) {
        Ok(()) => Ok(()),
        Err(fault) => {
            out.truncate(start);
            Err(NoMemory::from(fault))
        }
    }
}
