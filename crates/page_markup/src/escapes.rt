//! Writing text so that nothing in it is read as markup.
ghost use Rattle.std.specs.Prelude.{◌≡◌, ◌++◌, OnOk};
ghost use Rattle.page_markup.specs.Escapes.{escape_of, escaped};

use audit_base::faults::NoMemory;

/// Appends what is written for a byte.
fn append_byte(byte: u8, out: &mut Vec<u8>) -> Result<(), NoMemory>
    ensures { OnOk result (out.new.items ≡ out.old.items ++ escape_of byte) }
{
    match byte {
        b'&' => out.extend_from_slice(b"&amp;")?,
        b'<' => out.extend_from_slice(b"&lt;")?,
        b'>' => out.extend_from_slice(b"&gt;")?,
        b'"' => out.extend_from_slice(b"&quot;")?,
        b'\'' => out.extend_from_slice(b"&#39;")?,
        _ => out.push(byte)?,
    }
    Ok(())
}

/// Appends what is written for a text in markup, also for the value of an attribute: `&`, `<`, `>`,
/// `"` and `'` as entities, every other byte as it is.
pub fn append_escaped(text: &[u8], out: &mut Vec<u8>) -> Result<(), NoMemory>
    ensures { OnOk result (out.new.items ≡ out.old.items ++ escaped text.now) }
{
    for byte in text {
        append_byte(*byte, out)?;
    }
    Ok(())
}
