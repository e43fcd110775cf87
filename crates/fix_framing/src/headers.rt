//! What a message begins with: `8=`, the name of a version, SOH, `9=`. FIX 4.4, BeginString (8) and
//! BodyLength (9).
//!
//! Which versions a log may have is a type: `Fix44` is FIX 4.4 alone, `AnyVersion` is FIX 4.0 to
//! 4.4 and FIXT 1.1, message by message.
ghost use Rattle.std.specs.Prelude.{◌≡◌, ℕ, List, map, nat_eq, IfOk};
ghost use Rattle.std.specs.List.{list_any, position, starts_with};
ghost use Rattle.std.specs.Result.{result_err};
ghost use Rattle.fix_framing.specs.Headers.{AreHeaders, header_size, fix44, any_version};
ghost use Rattle.fix_framing.specs.Frames.{header_tests, first_failing};

use crate::frames::FrameFault;

/// What every message of FIX 4.4 begins with.
pub(crate) const HEADER: &[u8; 12] = b"8=FIX.4.4\x019=";

/// What the messages of a log of any version begin with.
const HEADERS: [&[u8]; 6] = [
    b"8=FIX.4.0\x019=",
    b"8=FIX.4.1\x019=",
    b"8=FIX.4.2\x019=",
    b"8=FIX.4.3\x019=",
    b"8=FIX.4.4\x019=",
    b"8=FIXT.1.1\x019=",
];

/// What the messages of a log may begin with.
pub trait Headers {
    /// The headers.
    ghost headers: { List (List ℕ) };

    /// There is one or more, each has from 1 to 13 bytes, and none is a prefix of another. This
    /// call does nothing: it only has its contract.
    fn are_headers()
        ensures { AreHeaders headers };

    /// The number of bytes of the header that the text begins with. Where it begins with none, the
    /// text ends within one (`Truncated`), or no message begins so (`Begin`).
    fn header_size(text: &[u8]) -> Result<usize, FrameFault>
        ensures size { IfOk result (λ size. size ≡ header_size headers text.now) }
        ensures tests { result_err result ≡ first_failing (header_tests headers text.now) };
}

/// FIX 4.4 alone.
pub struct Fix44;

impl Headers for Fix44 {
    ghost headers = { fix44 };

    #[tactic(auto, unfolding(crate::specs::Headers::header))]
    fn are_headers() {}

    #[tactic(auto, unfolding(crate::specs::Headers::header))]
    fn header_size(text: &[u8]) -> Result<usize, FrameFault> {
        if text.starts_with(HEADER) {
            return Ok(12);
        }
        if HEADER.starts_with(text) {
            return Err(FrameFault::Truncated);
        }
        Err(FrameFault::Begin)
    }
}

/// FIX 4.0 to 4.4 and FIXT 1.1, which may differ from message to message.
pub struct AnyVersion;

/// The index of the first of these headers that the text begins with.
fn header_index(headers: &[&[u8]], text: &[u8]) -> Option<usize>
    ensures { result ≡ position (λ head. starts_with nat_eq text.now head.now) headers.now }
{
    headers.iter().position(|header| text.starts_with(header))
}

/// Whether the text is a prefix of one of these headers.
fn ends_within(headers: &[&[u8]], text: &[u8]) -> bool
    ensures { result ≡ list_any (λ head. starts_with nat_eq head.now text.now) headers.now }
{
    headers.iter().any(|header| header.starts_with(text))
}

/// The size of the one of these headers that the text begins with, or the first of tests 1 and 2
/// that it fails.
fn size_among(headers: &[&[u8]], text: &[u8]) -> Result<usize, FrameFault>
    requires { AreHeaders (map (λ head. head.now) headers.now) }
    ensures size { IfOk result (λ size. size
        ≡ header_size (map (λ head. head.now) headers.now) text.now) }
    ensures tests { result_err result
        ≡ first_failing (header_tests (map (λ head. head.now) headers.now) text.now) }
{
    match header_index(headers, text) {
        Some(index) => Ok(headers[index].len()),
        None if ends_within(headers, text) => Err(FrameFault::Truncated),
        None => Err(FrameFault::Begin),
    }
}

impl Headers for AnyVersion {
    ghost headers = { any_version };

    #[tactic(auto, unfolding(crate::specs::Headers::any_version))]
    fn are_headers() {}

    #[tactic(auto, unfolding(crate::specs::Headers::any_version))]
    fn header_size(text: &[u8]) -> Result<usize, FrameFault> {
        size_among(&HEADERS, text)
    }
}
