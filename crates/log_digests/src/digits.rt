//! Reading digests of 64 lower-case hexadecimal digits.
ghost use Rattle.std.specs.Prelude.{◌≡◌, IsTrue, IfSome, is_some};
ghost use Rattle.std.specs.List.{list_all};
ghost use Rattle.hex.specs.Hex.{encode_lower};
ghost use Rattle.log_digests.specs.DigestDigits as form;

use crate::digests::LogDigest;

/// Whether a byte is a hexadecimal digit in lower case.
fn is_lower_digit(byte: u8) -> bool
    ensures { result ≡ form.is_lower_digit byte }
{
    byte.is_ascii_digit() || (b'a' <= byte && byte <= b'f')
}

/// Whether each byte is such a digit.
fn are_lower_digits(text: &[u8]) -> bool
    ensures { result ≡ list_all form.is_lower_digit text.now }
{
    text.iter().all(|byte| is_lower_digit(*byte))
}

/// Whether these are 64 such digits.
fn are_digest_digits(text: &[u8]) -> bool
    ensures { result ≡ form.are_digest_digits text.now }
{
    text.len() == 64 && are_lower_digits(text)
}

/// The bytes that these digits write.
fn bytes_of(digits: &[u8]) -> [u8; 32]
    requires { IsTrue (form.are_digest_digits digits.now) }
    ensures { digits.now ≡ encode_lower result }
{
    let mut bytes = [0u8; 32];
    let Ok(()) = hex::decode_to_slice(digits, &mut bytes) else {
        unreachable!()
    };
    bytes
}

/// The digest with exactly these digits, where they are 64 hexadecimal digits in lower case. Any
/// other text is that of no digest. Takes no memory.
pub fn read_digest(digits: &[u8]) -> Option<LogDigest>
    ensures read { is_some result ≡ form.are_digest_digits digits.now }
    ensures digits { IfSome result (λ digest. digits.now ≡ encode_lower digest) }
{
    if are_digest_digits(digits) {
        Some(LogDigest::of(bytes_of(digits)))
    } else {
        None
    }
}
