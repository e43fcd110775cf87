//! Words of a command, as they are typed into a shell.
ghost use Rattle.std.specs.Prelude.{◌≡◌, ◌++◌, OnOk};
ghost use Rattle.std.specs.List.{flat_map, list_all};
ghost use Rattle.page_parts.specs.ShellWords as spec;

use audit_base::faults::NoMemory;

/// Whether a byte is one of `_`, `.` and `/`.
fn is_path_byte(byte: u8) -> bool
    ensures { result ≡ spec.is_path_byte byte }
{
    byte == b'_' || byte == b'.' || byte == b'/'
}

/// Whether a byte is one of `-`, `@` and `,`.
fn is_sign_byte(byte: u8) -> bool
    ensures { result ≡ spec.is_sign_byte byte }
{
    byte == b'-' || byte == b'@' || byte == b','
}

/// Whether a byte means itself to a shell.
fn is_bare_byte(byte: u8) -> bool
    ensures { result ≡ spec.is_bare_byte byte }
{
    byte.is_ascii_alphanumeric() || is_path_byte(byte) || is_sign_byte(byte)
}

/// Whether each byte of a word means itself to a shell.
fn is_bare(word: &[u8]) -> bool
    ensures { result ≡ list_all spec.is_bare_byte word.now }
{
    word.iter().all(|byte| is_bare_byte(*byte))
}

/// Appends a byte between quotes.
fn append_quoted_byte(byte: u8, out: &mut Vec<u8>) -> Result<(), NoMemory>
    ensures { OnOk result (out.new.items ≡ out.old.items ++ spec.quoted_byte byte) }
{
    if byte == b'\'' {
        out.extend_from_slice(b"'\\''")?;
    } else {
        out.push(byte)?;
    }
    Ok(())
}

/// Appends the bytes of a word between quotes.
fn append_quoted_bytes(word: &[u8], out: &mut Vec<u8>) -> Result<(), NoMemory>
    ensures { OnOk result
        (out.new.items ≡ out.old.items ++ flat_map spec.quoted_byte word.now) }
{
    for byte in word {
        append_quoted_byte(*byte, out)?;
    }
    Ok(())
}

/// Appends a word as it is typed: as it is, or between quotes where a byte of it means more than
/// itself.
fn append_typed(word: &[u8], out: &mut Vec<u8>) -> Result<(), NoMemory>
    ensures { OnOk result (out.new.items ≡ out.old.items ++ spec.typed word.now) }
{
    if is_bare(word) {
        out.extend_from_slice(word)?;
    } else {
        out.push(b'\'')?;
        append_quoted_bytes(word, out)?;
        out.push(b'\'')?;
    }
    Ok(())
}

/// Appends a further word of a command.
pub fn append_word(word: &[u8], out: &mut Vec<u8>) -> Result<(), NoMemory>
    ensures { OnOk result (out.new.items ≡ out.old.items ++ spec.next_word word.now) }
{
    out.push(b' ')?;
    append_typed(word, out)
}
