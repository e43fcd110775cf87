//! The frames of a log whose bytes are all there: where a message begins and ends, or the first
//! test that the bytes fail. FIX 4.4, BeginString (8), BodyLength (9) and CheckSum (10).
//!
//! The body's length comes before the body, so a message is found by counting and never by
//! looking for its end. `frame_at` reads the bytes of a message in one pass, for the sum.
ghost use Rattle.std.specs.Prelude.{◌≡◌, ℕ, ◌+◌, ◌-◌, ◌<◌, ◌≤◌, ◌%◌, ◌^◌, [], ◌∷◌, ◌++◌, List, length, take, drop, sum, false, Some, None, IsTrue, IfOk, IfErr, OnOk, MatchResult, IsOkAnd};
ghost use Rattle.std.specs.List.{slice_range, list_all};
ghost use Rattle.std.specs.Char.{is_ascii_digit};
ghost use Rattle.std.specs.Str.Parse.{digits_value};
ghost use Rattle.std.specs.Result.{result_err};
ghost use Rattle.fix_framing.specs.Headers.{header_size};
ghost use Rattle.fix_framing.specs.Frames.{length_tests, trailer_tests, first_failing, frame_fault_with, is_trailer, body_place, trailer_place, frame_size_with, IsFrameWith, IsFrameAt};
ghost use Rattle.fix_framing.specs.LengthField.{IsLengthField};

use crate::headers::Headers;
use audit_base::digits::{are_digits, value_of};
use audit_base::sizes::{LONGEST_BODY, SOH};
use memchr::memchr;
use thiserror::Error;

/// Where a message is: its frame runs from `start` to `end`, its body from `body` to `end - 7`.
#[derive(Clone, Copy, Debug, PartialEq, Eq)]
pub struct Frame {
    /// The place of its first byte, the `8` of BeginString (8).
    pub start: usize,
    /// The place of the first byte of its body, after the SOH that ends BodyLength.
    pub body: usize,
    /// The place after the SOH that ends CheckSum.
    pub end: usize,
}

/// Why no message begins at a place: the first test that the bytes from there on fail.
#[derive(Clone, Copy, Debug, PartialEq, Eq, Hash, Error)]
pub enum FrameFault {
    /// The bytes do not begin with a header, as `8=FIX.4.4`, SOH, `9=`.
    #[error("no message begins here")]
    Begin,
    /// The body length is not 1 to 9 digits and SOH, or exceeds 1,048,576.
    #[error("the body length is not in its form")]
    Length,
    /// The bytes end within a message.
    #[error("the bytes end within a message")]
    Truncated,
    /// After the body there is no `10=`, three digits, SOH.
    #[error("no checksum field follows the body")]
    Trailer,
    /// The checksum is not the sum of the bytes before its field, modulo 256.
    #[error("the checksum is not the sum of the bytes")]
    Checksum,
}

/// The size of the checksum field, in bytes.
pub(crate) const TRAILER: usize = 7;

/// The sum of the bytes, modulo 256.
pub(crate) fn checksum(bytes: &[u8]) -> u8
    ensures { result ≡ sum bytes.now % 256 }
{
    let mut total = 0u8;
    for byte in bytes {
        total = total.wrapping_add(*byte);
    }
    total
}

/// Whether the seven bytes are `10=`, three digits and SOH.
fn is_checksum_field(seven: &[u8]) -> bool
    requires { length seven.now ≡ 7 }
    ensures { result ≡ is_trailer seven.now }
{
    seven.starts_with(b"10=") && are_digits(&seven[3..6]) && seven[6] == SOH
}

/// Where the length and the SOH after it have to be: up to ten bytes after the header.
fn length_window(text: &[u8], header: usize) -> &[u8]
    requires { header ≤ length text.now }
    ensures { result.now ≡ take 10 (drop header text.now) }
{
    let rest = &text[header..];
    &rest[..rest.len().min(10)]
}

/// How many digits follow the header, before the SOH that ends
/// them: tests 3 to 5 but for their value.
fn length_field(text: &[u8], header: usize) -> Result<usize, FrameFault>
    requires { header ≤ length text.now }
    ensures ok { IfOk result (λ digits. IsLengthField (drop header text.now) digits) }
    ensures err { IfErr result (λ fault.
        first_failing (length_tests header text.now) ≡ Some fault) }
{
    let window = length_window(text, header);
    match memchr(SOH, window) {
        Some(digits) if 0 < digits && are_digits(&window[..digits]) => Ok(digits),
        None if window.len() < 10 && are_digits(window) => Err(FrameFault::Truncated),
        _ => Err(FrameFault::Length),
    }
}

/// Whether exactly this many digits follow the header, and SOH.
fn is_length_of(text: &[u8], header: usize, digits: usize) -> bool
    requires header { header ≤ length text.now }
    requires some { 0 < digits }
    requires bounded { digits ≤ 9 }
    ensures { IsTrue result → IsLengthField (drop header text.now) digits }
{
    let rest = &text[header..];
    digits < rest.len() && rest[digits] == SOH && are_digits(&rest[..digits])
}

/// The number that these digits after the header write.
fn size_of(text: &[u8], header: usize, digits: usize) -> usize
    requires { IsLengthField (drop header text.now) digits }
    ensures { result ≡ digits_value 10 (take digits (drop header text.now)) }
{
    let rest = &text[header..];
    value_of(&rest[..digits]) as usize
}

/// The body's length as it is written: how many digits it has, and their value.
#[derive(Clone, Copy)]
struct BodyLength {
    digits: usize,
    size: usize,
}

/// Tests 3 to 5 but for the greatest value. Most lengths have three digits, so this number of
/// them is tried before SOH is sought.
fn body_length(text: &[u8], header: usize) -> Result<BodyLength, FrameFault>
    requires { header ≤ length text.now }
    ensures ok { IfOk result (λ l. IsLengthField (drop header text.now) l.digits
        × (l.size ≡ digits_value 10 (take l.digits (drop header text.now)))) }
    ensures err { IfErr result (λ fault.
        first_failing (length_tests header text.now) ≡ Some fault) }
{
    if is_length_of(text, header, 3) {
        let size = size_of(text, header, 3);
        return Ok(BodyLength { digits: 3, size });
    }
    let digits = length_field(text, header)?;
    let size = size_of(text, header, digits);
    Ok(BodyLength { digits, size })
}

/// The places of the body and of the checksum field in a message that passes tests 1 to 5.
#[derive(Clone, Copy)]
struct Places {
    body: usize,
    trailer: usize,
}

/// Tests 3 to 5: the body's length follows the header, in its form.
fn find_places(text: &[u8], header: usize) -> Result<Places, FrameFault>
    requires inside { header ≤ length text.now }
    requires bounded { header ≤ 13 }
    ensures ok { IfOk result (λ p. (first_failing (length_tests header text.now) ≡ None)
        × (p.body ≡ body_place header text.now) × (p.trailer ≡ trailer_place header text.now)) }
    ensures most { IfOk result (λ p. p.trailer ≤ 1048599) }
    ensures err { IfErr result (λ fault.
        first_failing (length_tests header text.now) ≡ Some fault) }
{
    let length = body_length(text, header)?;
    if length.size > LONGEST_BODY {
        return Err(FrameFault::Length);
    }
    let body = header + length.digits + 1;
    Ok(Places {
        body,
        trailer: body + length.size,
    })
}

/// Tests 6 to 8: the checksum field follows the body, and writes the sum.
fn check_trailer(text: &[u8], trailer: usize) -> Result<(), FrameFault>
    requires { trailer < 2 ^ 63 }
    ensures inside { OnOk result (trailer + 7 ≤ length text.now) }
    // Whatever the size of the header, if this is the place of the checksum field after it.
    ensures tests { (header : ℕ) → trailer ≡ trailer_place header text.now
        → result_err result ≡ first_failing (trailer_tests header text.now) }
{
    if text.len() < trailer + TRAILER {
        return Err(FrameFault::Truncated);
    }
    let field = &text[trailer..trailer + TRAILER];
    if !is_checksum_field(field) {
        return Err(FrameFault::Trailer);
    }
    if value_of(&field[3..6]) != u64::from(checksum(&text[..trailer])) {
        return Err(FrameFault::Checksum);
    }
    Ok(())
}

/// The places of the message that the text begins with.
fn message_places<H: Headers>(text: &[u8]) -> Result<Places, FrameFault>
    ensures ok { IfOk result (λ p. (frame_fault_with H.headers text.now ≡ None)
        × (p.body ≡ body_place (header_size H.headers text.now) text.now)
        × (p.trailer ≡ trailer_place (header_size H.headers text.now) text.now)) }
    ensures inside { IfOk result (λ p. p.trailer + 7 ≤ length text.now) }
    ensures err { IfErr result (λ fault. frame_fault_with H.headers text.now ≡ Some fault) }
{
    H::are_headers();
    let header = H::header_size(text)?;
    let places = find_places(text, header)?;
    check_trailer(text, places.trailer)?;
    Ok(places)
}

/// The message that begins at `at`, or the first test that the bytes from there on fail. The sum is
/// taken once, after all other tests, and no memory is taken.
pub fn frame_at<H: Headers>(bytes: &[u8], at: usize) -> Result<Frame, FrameFault>
    requires { at ≤ length bytes.now }
    // What is found is a message with its body, and begins at `at`.
    ensures found { IfOk result (λ f. IsFrameAt H.headers bytes.now at f) }
    // A message that begins at `at` is found.
    ensures only { (text body more : List ℕ)
        → IsFrameWith H.headers text body → drop at bytes.now ≡ text ++ more
        → IsOkAnd result (λ f. (f.end ≡ at + length text) × (f.end ≡ f.body + length body + 7)) }
    // A fault is that of the first test that fails.
    ensures fault { result_err result ≡ frame_fault_with H.headers (drop at bytes.now) }
    // The places, counted from the bytes.
    ensures places { let rest = drop at bytes.now in
        IfOk result (λ f. (f.body ≡ at + body_place (header_size H.headers rest) rest)
        × (f.end ≡ at + frame_size_with H.headers rest)) }
{
    H::are_headers();
    let places = message_places::<H>(&bytes[at..])?;
    Ok(Frame {
        start: at,
        body: at + places.body,
        end: at + places.trailer + TRAILER,
    })
}
