//! Writing digests.
ghost use Rattle.std.specs.Prelude.{◌≡◌, ◌++◌, IfOk, OnOk};
ghost use Rattle.log_digests.specs.DigestLines as text;

use crate::digests::LogDigest;
use audit_base::faults::NoMemory;
use audit_base::terms::Which;
use audit_report::line_parts::{LinePart, append_line};
use audit_report::words::log_word;
use std::alloc::Global;

/// Appends `sha256`, which log it is and these digits.
fn append_digits(
    alloc: Global,
    log: Which,
    digits: &[u8],
    out: &mut Vec<u8>,
) -> Result<(), NoMemory>
    ensures { OnOk result (out.new.items ≡ out.old.items ++ text.digits_line log digits.now) }
{
    append_line(
        alloc,
        b"sha256",
        &[LinePart::Word(log_word(log)), LinePart::Word(digits)],
        out,
    )
}

/// Appends `sha256`, which log it is and its digest, as 64 lower-case hexadecimal digits: those
/// that `sha256sum` writes of the same bytes.
pub fn append_digest_line(
    alloc: Global,
    log: Which,
    digest: &LogDigest,
    out: &mut Vec<u8>,
) -> Result<(), NoMemory>
    ensures { OnOk result (out.new.items ≡ out.old.items ++ text.digest_line log digest.now) }
{
    let digits = hex::encode(alloc, digest.bytes())?;
    append_digits(alloc, log, digits.as_bytes(), out)
}

/// The lines of the digests of both logs, that of the order log first.
pub fn digest_text(
    alloc: Global,
    orders: &LogDigest,
    trades: &LogDigest,
) -> Result<Vec<u8>, NoMemory>
    ensures { IfOk result (λ made. made.items ≡ text.digest_text orders.now trades.now) }
{
    let mut out = Vec::new(alloc);
    append_digest_line(alloc, Which::Orders, orders, &mut out)?;
    append_digest_line(alloc, Which::Trades, trades, &mut out)?;
    Ok(out)
}
