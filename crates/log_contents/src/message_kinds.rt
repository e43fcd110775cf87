//! The kind of a message, with a value of it as that is told.
ghost use Rattle.std.specs.Prelude.{◌≡◌, ◌++◌, IfOk, codes};
ghost use Rattle.std.specs.Char.{is_ascii_alphanumeric};
ghost use Rattle.std.specs.List.{list_all};
ghost use Rattle.fix_fields.specs.TagNotes.{HasNotes};
ghost use Rattle.fix_messages.specs.BodyFields.{fields_of};
ghost use Rattle.log_contents.specs.Kinds as spec;

use crate::message_values::{first_value, has_value, type_value};
use audit_base::faults::NoMemory;
use fix_fields::notes::TagNotes;
use std::alloc::Global;

/// What the kind of a message that is passed over begins with.
const PASSED: &[u8] = b"passed:";

/// The value of tag 43 of a possible duplicate.
const DUPLICATE: &[u8] = b"Y";

/// The type of an execution report.
const REPORT: &[u8] = b"8";

/// The most bytes of a value that is told as it is.
const LONGEST_TOLD: usize = 16;

/// Whether each byte is a letter or a digit.
fn has_only_letters_and_digits(value: &[u8]) -> bool
    ensures { result ≡ list_all is_ascii_alphanumeric value.now }
{
    value.iter().all(|byte| byte.is_ascii_alphanumeric())
}

/// Whether a value is told as it is: 1 to 16 letters and digits.
fn is_told(value: &[u8]) -> bool
    ensures { result ≡ spec.is_told value.now }
{
    !value.is_empty() && value.len() <= LONGEST_TOLD && has_only_letters_and_digits(value)
}

/// A value of a message as it is told. Any other than 1 to 16 letters and digits is told as `?`: it
/// may hold a comma or a line end, and so could write lines of its own.
pub(crate) fn told_value(value: &[u8]) -> &[u8]
    ensures { result.now ≡ spec.told_value value.now }
{
    if is_told(value) { value } else { b"?" }
}

/// `passed:`, the front of a reason, and the value that it ends with.
fn joined(alloc: Global, front: &[u8], value: &[u8]) -> Result<Vec<u8>, NoMemory>
    ensures { IfOk result (λ kind. kind.items ≡ codes "passed:" ++ (front.now ++ value.now)) }
{
    let mut kind = Vec::new(alloc);
    kind.extend_from_slice(PASSED)?;
    kind.extend_from_slice(front)?;
    kind.extend_from_slice(value)?;
    Ok(kind)
}

/// The kind of a message that is passed over, by its body and the notes of its fields: it is a
/// possible duplicate (tag 43), or a report of its first execution type (tag 150), or of its type.
pub(crate) fn passed_kind(alloc: Global, body: &[u8], notes: &TagNotes) -> Result<Vec<u8>, NoMemory>
    requires { HasNotes body.now notes.now }
    ensures { IfOk result (λ kind. kind.items ≡ spec.passed_kind (fields_of body.now)) }
{
    let kind = type_value(body, notes);
    if first_value(43, body, notes) == DUPLICATE {
        joined(alloc, b"43=Y", b"")
    } else if kind != REPORT {
        joined(alloc, b"35=", told_value(kind))
    } else if has_value(150, body, notes) {
        joined(alloc, b"150=", told_value(first_value(150, body, notes)))
    } else {
        joined(alloc, b"150", b"")
    }
}
