//! What stands in a log that is a file, which is read once more for a note: its bytes at a place,
//! and the number of the line or message there. Of a pipe nothing is read.
//!
//! What has changed meanwhile is shown as it is now. The bytes of a log are shown as printable
//! characters alone, so that none of them acts on a terminal.
ghost use Rattle.std.specs.Prelude.{◌≡◌, IsTrue};
ghost use Rattle.std.specs.Char.{is_ascii_graphic};

use crate::notes::Notes;
use std::io::{Read, Seek, SeekFrom};
use std::os::unix::fs::FileTypeExt;
use std::{fmt, fs};

/// How many bytes of a log are shown at most.
const MOST_SHOWN: usize = 120;

/// How many bytes are read at once.
const PIECE: usize = 65_536;

/// Whether there is a file under a path, whose bytes can be read again.
pub(crate) fn is_plain_file<N: Notes>(notes: &N, path: &str) -> bool {
    match fs::metadata(notes, path) {
        Ok(found) => found.is_file(),
        Err(_) => false,
    }
}

/// Whether a pipe is under a path, or a socket, whose bytes come once.
pub(crate) fn is_pipe<N: Notes>(notes: &N, path: &str) -> bool {
    match fs::metadata(notes, path) {
        Ok(found) => found.file_type().is_fifo() || found.file_type().is_socket(),
        Err(_) => false,
    }
}

/// The first bytes at a place of a log, of which at most `MOST_SHOWN` are known.
#[derive(Drop)]
pub(crate) struct FoundBytes {
    bytes: [u8; MOST_SHOWN],
    count: usize,
}

impl FoundBytes {
    /// The bytes.
    pub(crate) fn as_slice(&self) -> &[u8] {
        if self.count <= MOST_SHOWN {
            &self.bytes[..self.count]
        } else {
            &[]
        }
    }

    /// The bytes of the line that begins with them, without the mark of byte order before it.
    pub(crate) fn line(&self) -> &[u8] {
        let bytes = self.as_slice();
        let text = match bytes.strip_prefix(b"\xef\xbb\xbf") {
            Some(rest) => rest,
            None => bytes,
        };
        let line = match text.iter().position(|byte| *byte == b'\n') {
            Some(end) => &text[..end],
            None => text,
        };
        match line.strip_suffix(b"\r") {
            Some(rest) => rest,
            None => line,
        }
    }

    /// The line, as a note shows it. It may go on behind what is known of it.
    pub(crate) fn shown(&self) -> ShownBytes<'_> {
        ShownBytes {
            bytes: self.line(),
            is_cut: self.count == MOST_SHOWN && !self.as_slice().contains(&b'\n'),
        }
    }
}

/// The first bytes at a place of a log that is a file.
pub(crate) fn bytes_at<N: Notes>(notes: &N, path: &str, offset: u64) -> Option<FoundBytes> {
    if !is_plain_file(notes, path) {
        return None;
    }
    let mut file = fs::open(notes, path).ok()?;
    file.seek(SeekFrom::Start(offset)).ok()?;
    let mut bytes = [0; MOST_SHOWN];
    let count = file.read(&mut bytes).ok()?;
    Some(FoundBytes { bytes, count })
}

/// The character that stands for a byte of a log: its own where that is printable, and no blank.
fn shown_byte(byte: u8) -> char
    ensures { IsTrue (is_ascii_graphic result) }
{
    if byte.is_ascii_graphic() {
        char::from(byte)
    } else {
        '?'
    }
}

/// Bytes of a log, as a note shows them.
#[derive(Clone, Copy)]
pub(crate) struct ShownBytes<'a> {
    bytes: &'a [u8],
    /// Whether there are more, which are not known.
    is_cut: bool,
}

impl fmt::Display for ShownBytes<'_> {
    fn fmt<W: fmt::Write>(&self, f: &mut fmt::Formatter<W>) -> fmt::Result {
        for byte in self.bytes {
            f.write_char(shown_byte(*byte))?;
        }
        if self.is_cut {
            f.write_str("..")?;
        }
        Ok(())
    }
}

/// What is counted up to a place of a log.
#[derive(Clone, Copy, Debug, PartialEq, Eq)]
pub(crate) enum LogUnit {
    Line,
    Message,
}

/// Where in a line or a message a count is.
#[derive(Clone, Copy)]
enum UnitPlace {
    Line,
    /// Before the first SOH of a message.
    Version,
    /// In the second field, behind whose `=` the length of the body is.
    Length(Option<u64>),
    /// So many bytes before the end of the message.
    Body(u64),
}

/// How many lines or messages ended.
#[derive(Clone, Copy)]
struct UnitCount {
    ended: u64,
    at: UnitPlace,
}

const SOH: u8 = 1;

/// How many bytes the last field of a message has, which says its checksum.
const TRAILER_BYTES: u64 = 7;

/// The length that the second field of a message gives so far, once this byte is read too.
fn length_with(length: Option<u64>, byte: u8) -> Option<u64> {
    match length {
        None if byte == b'=' => Some(0),
        None => None,
        Some(number) => {
            let digit = u64::from(byte.wrapping_sub(b'0'));
            Some(number.saturating_mul(10).saturating_add(digit))
        }
    }
}

impl UnitCount {
    /// Nothing is counted yet.
    fn new(unit: LogUnit) -> UnitCount {
        let at = match unit {
            LogUnit::Line => UnitPlace::Line,
            LogUnit::Message => UnitPlace::Version,
        };
        UnitCount { ended: 0, at }
    }

    /// One more ended, and the next begins so.
    fn one_more(&mut self, at: UnitPlace) {
        self.ended = self.ended.saturating_add(1);
        self.at = at;
    }

    /// Goes on over the next byte.
    fn take(&mut self, byte: u8) {
        match self.at {
            UnitPlace::Line => {
                if byte == b'\n' {
                    self.one_more(UnitPlace::Line);
                }
            }
            UnitPlace::Version => {
                if byte == SOH {
                    self.at = UnitPlace::Length(None);
                }
            }
            UnitPlace::Length(length) => {
                self.at = if byte == SOH {
                    UnitPlace::Body(length.unwrap_or(0).saturating_add(TRAILER_BYTES))
                } else {
                    UnitPlace::Length(length_with(length, byte))
                };
            }
            UnitPlace::Body(left) => {
                if left <= 1 {
                    self.one_more(UnitPlace::Version);
                } else {
                    self.at = UnitPlace::Body(left - 1);
                }
            }
        }
    }

    /// Goes on over these bytes.
    fn take_all(&mut self, bytes: &[u8]) {
        for byte in bytes {
            self.take(*byte);
        }
    }
}

/// The number, from 1, of the line or message that begins at a place of a log that is a file.
pub(crate) fn number_at<N: Notes>(
    notes: &N,
    path: &str,
    unit: LogUnit,
    offset: u64,
) -> Option<u64> {
    if !is_plain_file(notes, path) {
        return None;
    }
    let mut file = fs::open(notes, path).ok()?;
    let mut buffer = [0; PIECE];
    let mut count = UnitCount::new(unit);
    let mut left = offset;
    for _ in 0..=offset {
        if left == 0 {
            break;
        }
        let wanted = left.min(PIECE as u64) as usize;
        let read = file.read(&mut buffer[..wanted]).ok()?;
        if read == 0 {
            return None;
        }
        count.take_all(&buffer[..read]);
        left = left.saturating_sub(read as u64);
    }
    Some(count.ended.saturating_add(1))
}
