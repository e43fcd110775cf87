//! Lines and their parts. A line is its parts joined by commas, and ends with LF.
//! Lines are appended to one vector, and no part is made apart.
ghost use Rattle.std.specs.Prelude.{◌≡◌, ◌++◌, ◌∷◌, [], OnOk, map, decimal};
ghost use Rattle.std.specs.List.{join_with_byte};
ghost use Rattle.audit_report.specs.Lines.{line_text};
ghost use Rattle.audit_report.specs.LineParts.{part_text, later_parts_text};

use audit_base::faults::NoMemory;
use audit_base::numbers::Price;
use audit_base::texts::{write_number, write_price};
use std::alloc::Global;

/// A part of a line. No word or name of a part holds a comma or an LF.
#[derive(Clone, Copy, Debug)]
pub enum LinePart<'a> {
    /// A word or a name.
    Word(&'a [u8]),
    /// A number, in decimal without leading zeros.
    Number(u128),
    /// A price, in its canonical text.
    Price(Price),
    /// A kind, a colon and a name.
    Named(&'a [u8], &'a [u8]),
    /// A kind, a colon and a number.
    Numbered(&'a [u8], u32),
}

/// Appends the line of a first word and further parts.
pub fn append_line(
    alloc: Global,
    word: &[u8],
    parts: &[LinePart<'_>],
    out: &mut Vec<u8>,
) -> Result<(), NoMemory>
    ensures { OnOk result
        (out.new.items ≡ out.old.items ++ line_text (word.now ∷ map part_text parts.now)) }
{
    append_joined(alloc, word, parts, out)?;
    append(b"\n", out)
}

/// Appends a first word and further parts, joined by commas, with no line end.
#[tactic(auto, using(crate::proofs::LineLemmas::joined_parts, std::proofs::Common::append_assoc))]
pub fn append_joined(
    alloc: Global,
    word: &[u8],
    parts: &[LinePart<'_>],
    out: &mut Vec<u8>,
) -> Result<(), NoMemory>
    ensures { OnOk result
        (out.new.items ≡ out.old.items ++ join_with_byte 44 (word.now ∷ map part_text parts.now)) }
{
    append(word, out)?;
    append_rest(alloc, parts, out)
}

/// Appends the parts, each with a comma before it.
pub fn append_rest(alloc: Global, parts: &[LinePart<'_>], out: &mut Vec<u8>) -> Result<(), NoMemory>
    ensures { OnOk result
        (out.new.items ≡ out.old.items ++ later_parts_text (map part_text parts.now)) }
{
    for part in parts {
        append_after_comma(alloc, part, out)?;
    }
    Ok(())
}

/// Appends a comma and the part.
fn append_after_comma(alloc: Global, part: &LinePart<'_>, out: &mut Vec<u8>) -> Result<(), NoMemory>
    ensures { OnOk result (out.new.items ≡ out.old.items ++ 44 ∷ part_text part.now) }
{
    append(b",", out)?;
    append_part(alloc, part, out)
}

/// Appends what the part writes.
fn append_part(alloc: Global, part: &LinePart<'_>, out: &mut Vec<u8>) -> Result<(), NoMemory>
    ensures { OnOk result (out.new.items ≡ out.old.items ++ part_text part.now) }
{
    match part {
        LinePart::Word(word) => append(word, out),
        LinePart::Number(number) => write_number(alloc, *number, out),
        LinePart::Price(price) => write_price(alloc, price.units(), out),
        LinePart::Named(kind, name) => append_named(kind, name, out),
        LinePart::Numbered(kind, number) => append_numbered(alloc, kind, *number, out),
    }
}

/// Appends a kind, a colon and a name.
fn append_named(kind: &[u8], name: &[u8], out: &mut Vec<u8>) -> Result<(), NoMemory>
    ensures { OnOk result (out.new.items ≡ out.old.items ++ (kind.now ++ 58 ∷ name.now)) }
{
    append(kind, out)?;
    append(b":", out)?;
    append(name, out)
}

/// Appends a kind, a colon and a number.
fn append_numbered(
    alloc: Global,
    kind: &[u8],
    number: u32,
    out: &mut Vec<u8>,
) -> Result<(), NoMemory>
    ensures { OnOk result (out.new.items ≡ out.old.items ++ (kind.now ++ 58 ∷ decimal number)) }
{
    append(kind, out)?;
    append(b":", out)?;
    write_number(alloc, u128::from(number), out)
}

/// Appends the bytes.
pub fn append(bytes: &[u8], out: &mut Vec<u8>) -> Result<(), NoMemory>
    ensures { OnOk result (out.new.items ≡ out.old.items ++ bytes.now) }
{
    out.extend_from_slice(bytes)?;
    Ok(())
}
