//! What is said of a log that is not in its grammar: its first bad place by byte and by line or
//! message, and why it is bad; where that is its beginning, also what is there and what may help.
use crate::asked::Asked;
use crate::log_bytes::{FoundBytes, LogUnit, ShownBytes, bytes_at, number_at};
use crate::notes::Notes;
use crate::usage_notes::has_form_options;
use audit_base::columns::{column_name, columns};
use audit_base::faults::{BadPlace, Reason};
use audit_base::terms::Which;
use std::{fmt, str};

/// The word for the reason of a bad place, as a report has it.
fn reason_word(reason: Reason) -> &'static str {
    match reason {
        Reason::Header => "header",
        Reason::Break => "break",
        Reason::Columns => "columns",
        Reason::Column(_) | Reason::Value(_) => "value",
        Reason::Begin => "begin",
        Reason::Length => "length",
        Reason::Truncated => "truncated",
        Reason::Trailer => "trailer",
        Reason::Checksum => "checksum",
        Reason::Field(_) => "field",
        Reason::MsgType => "msgtype",
        Reason::Missing(_) => "missing",
        Reason::Repeated(_) => "repeated",
        Reason::Unsupported(_) => "unsupported",
    }
}

/// The tag that the reason of a bad place is said of, or the byte of the body; or none.
fn reason_number(reason: Reason) -> Option<u32> {
    match reason {
        Reason::Field(byte) => Some(byte),
        Reason::Missing(tag) => Some(tag),
        Reason::Repeated(tag) => Some(tag),
        Reason::Value(tag) => Some(tag),
        Reason::Unsupported(tag) => Some(tag),
        _ => None,
    }
}

/// The name of the column that the reason of a bad place is said of, or none.
fn reason_column(log: Which, reason: Reason) -> Option<&'static str> {
    match reason {
        Reason::Column(column) => str::from_utf8(column_name(log, column)).ok(),
        _ => None,
    }
}

/// Whether only a CSV log is bad for this reason.
fn is_of_lines(reason: Reason) -> bool {
    match reason {
        Reason::Header | Reason::Break | Reason::Columns | Reason::Column(_) => true,
        _ => false,
    }
}

/// The reason of a bad place of a log.
#[derive(Clone, Copy)]
struct ReasonText {
    log: Which,
    reason: Reason,
}

impl fmt::Display for ReasonText {
    fn fmt<W: fmt::Write>(&self, f: &mut fmt::Formatter<W>) -> fmt::Result {
        f.write_str(reason_word(self.reason))?;
        if let Some(number) = reason_number(self.reason) {
            write!(f, ":{number}")?;
        }
        if let Some(column) = reason_column(self.log, self.reason) {
            write!(f, ":{column}")?;
        }
        Ok(())
    }
}

/// The number of a line or a message, where it is known.
#[derive(Clone, Copy)]
struct NumberText {
    unit: LogUnit,
    number: Option<u64>,
}

impl fmt::Display for NumberText {
    fn fmt<W: fmt::Write>(&self, f: &mut fmt::Formatter<W>) -> fmt::Result {
        match (self.unit, self.number) {
            (_, None) => Ok(()),
            (LogUnit::Line, Some(number)) => write!(f, ", line {number}"),
            (LogUnit::Message, Some(number)) => write!(f, ", message {number}"),
        }
    }
}

/// The header of a CSV log.
#[derive(Clone, Copy)]
struct HeaderText {
    log: Which,
}

impl fmt::Display for HeaderText {
    fn fmt<W: fmt::Write>(&self, f: &mut fmt::Formatter<W>) -> fmt::Result {
        let mut between = "";
        for name in columns(self.log) {
            f.write_str(between)?;
            f.write_str(str::from_utf8(name).unwrap_or(""))?;
            between = ",";
        }
        Ok(())
    }
}

/// Whether a line is the header of a CSV log.
fn is_header(line: &[u8], log: Which) -> bool {
    let mut rest = line.split(|byte| *byte == b',');
    for name in columns(log) {
        match rest.next() {
            Some(field) if field == name => {}
            _ => return false,
        }
    }
    rest.next().is_none()
}

/// The other log.
fn other_log(log: Which) -> Which {
    match log {
        Which::Orders => Which::Trades,
        Which::Trades => Which::Orders,
    }
}

/// What may help where a log does not begin as it should.
#[derive(Clone, Copy)]
enum Help {
    Nothing,
    /// It has the header of the other log.
    Swap,
    /// It begins as a log of the other form does, which an option says.
    Option(Which, &'static str),
    /// It begins as a log of the other form does, which a word says.
    Word(&'static str),
    /// It has messages in another dress than logs have.
    Dress,
}

impl fmt::Display for Help {
    fn fmt<W: fmt::Write>(&self, f: &mut fmt::Formatter<W>) -> fmt::Result {
        match self {
            Help::Nothing => Ok(()),
            Help::Swap => f.write_str(": the logs seem swapped"),
            Help::Option(Which::Orders, form) => {
                write!(
                    f,
                    ": its form seems to be {form}: give --orders-form {form}"
                )
            }
            Help::Option(Which::Trades, form) => {
                write!(
                    f,
                    ": its form seems to be {form}: give --trades-form {form}"
                )
            }
            Help::Word(form) => write!(f, ": its form seems to be {form}"),
            Help::Dress => f.write_str(": desk plain writes other messages as a log"),
        }
    }
}

/// The form that may help, as the words of the command say it.
fn form_help(asked: &Asked<'_>, log: Which, form: &'static str) -> Help {
    if has_form_options(asked) {
        Help::Option(log, form)
    } else {
        Help::Word(form)
    }
}

/// What may help where a CSV log has not its header, but this line.
fn help_with_header(asked: &Asked<'_>, log: Which, line: &[u8]) -> Help {
    if is_header(line, other_log(log)) {
        Help::Swap
    } else if line.starts_with(b"8=FIX") {
        form_help(asked, log, "fix")
    } else {
        Help::Nothing
    }
}

/// What may help where a FIX log does not begin with a message, but with this line.
fn help_with_beginning(asked: &Asked<'_>, log: Which, line: &[u8]) -> Help {
    if asked.has_command("plain") {
        Help::Nothing
    } else if is_header(line, log) || is_header(line, other_log(log)) {
        form_help(asked, log, "csv")
    } else if line.starts_with(b"8=FIX") {
        Help::Dress
    } else {
        Help::Nothing
    }
}

/// A bad place, of which all but its bytes is known.
#[derive(Clone, Copy)]
struct BadText<'a> {
    path: &'a str,
    log: Which,
    bad: &'a BadPlace,
    number: NumberText,
}

impl fmt::Display for BadText<'_> {
    fn fmt<W: fmt::Write>(&self, f: &mut fmt::Formatter<W>) -> fmt::Result {
        let reason = ReasonText {
            log: self.log,
            reason: self.bad.reason,
        };
        let (path, offset, number) = (self.path, self.bad.offset, &self.number);
        write!(f, "{path}: malformed at byte {offset}{number}: {reason}")
    }
}

/// The note on a CSV log that has not its header.
fn print_header<N: Notes>(
    notes: &N,
    asked: &Asked<'_>,
    text: &BadText<'_>,
    found: &Option<FoundBytes>,
) {
    let (program, wanted) = (asked.program.word(), HeaderText { log: text.log });
    let _written = match found {
        None => eprintln!(notes; "{program}: {text}: it should be '{wanted}'"),
        Some(found) if found.as_slice().is_empty() => {
            eprintln!(notes; "{program}: {text}: it should be '{wanted}', and there is none")
        }
        Some(found) => {
            let help = help_with_header(asked, text.log, found.line());
            let shown = found.shown();
            eprintln!(notes; "{program}: {text}: it should be '{wanted}', and is '{shown}'{help}")
        }
    };
}

/// The note on a FIX log at whose bad place no message begins.
fn print_beginning<N: Notes>(
    notes: &N,
    asked: &Asked<'_>,
    text: &BadText<'_>,
    found: &Option<FoundBytes>,
) {
    let program = asked.program.word();
    let _written = match found {
        None => eprintln!(notes; "{program}: {text}"),
        Some(found) => {
            let help = help_with_beginning(asked, text.log, found.line());
            let shown = found.shown();
            eprintln!(notes; "{program}: {text}: there is '{shown}'{help}")
        }
    };
}

/// What is counted up to a bad place: the lines of a CSV log, or of a day that has its messages on
/// lines; else messages.
fn unit_of(asked: &Asked<'_>, reason: Reason) -> LogUnit {
    if is_of_lines(reason) || asked.has_command("plain") && asked.has_word("--lines") {
        LogUnit::Line
    } else {
        LogUnit::Message
    }
}

/// The note on a log that is not in its grammar, with its first bad place.
pub(crate) fn print_malformed_log<N: Notes>(
    notes: &N,
    asked: &Asked<'_>,
    path: &str,
    log: Which,
    bad: &BadPlace,
) {
    let unit = unit_of(asked, bad.reason);
    let number = number_at(notes, path, unit, bad.offset);
    let text = BadText {
        path,
        log,
        bad,
        number: NumberText { unit, number },
    };
    match bad.reason {
        Reason::Header => print_header(notes, asked, &text, &bytes_at(notes, path, bad.offset)),
        Reason::Begin => print_beginning(notes, asked, &text, &bytes_at(notes, path, bad.offset)),
        _ => {
            let program = asked.program.word();
            let _written = eprintln!(notes; "{program}: {text}");
        }
    }
}
