//! How the reason of a bad place is written.
ghost use Rattle.std.specs.Prelude.{◌≡◌};
ghost use Rattle.audit_report.specs.LineParts.{part_text};
ghost use Rattle.audit_report.specs.Reasons.{reason_text};

use super::line_parts::LinePart;
use audit_base::columns::column_name;
use audit_base::faults::Reason;
use audit_base::terms::Which;

/// The reason as the last part of a malformed line: a word, and, where it is said of a column,
/// a byte or a tag, a colon and this.
pub fn reason_part(log: Which, reason: Reason) -> LinePart<'static>
    ensures { part_text result ≡ reason_text log reason }
{
    match reason {
        Reason::Header => LinePart::Word(b"header"),
        Reason::Break => LinePart::Word(b"break"),
        Reason::Columns => LinePart::Word(b"columns"),
        Reason::Column(column) => LinePart::Named(b"value", column_name(log, column)),
        Reason::Begin => LinePart::Word(b"begin"),
        Reason::Length => LinePart::Word(b"length"),
        Reason::Truncated => LinePart::Word(b"truncated"),
        Reason::Trailer => LinePart::Word(b"trailer"),
        Reason::Checksum => LinePart::Word(b"checksum"),
        Reason::Field(byte) => LinePart::Numbered(b"field", byte),
        Reason::MsgType => LinePart::Word(b"msgtype"),
        Reason::Missing(tag) => LinePart::Numbered(b"missing", tag),
        Reason::Repeated(tag) => LinePart::Numbered(b"repeated", tag),
        Reason::Value(tag) => LinePart::Numbered(b"value", tag),
        Reason::Unsupported(tag) => LinePart::Numbered(b"unsupported", tag),
    }
}
