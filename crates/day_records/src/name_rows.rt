//! Names one after another in a row of bytes.
ghost use Rattle.std.specs.Prelude.{◌≡◌, IfOk};
ghost use Rattle.day_records.specs.NameRows as spec;

use audit_base::faults::NoMemory;
use audit_base::names::{Name, is_name, name_of};

/// A part of the bytes; where they end before it, what there is of it.
fn part(bytes: &[u8], start: usize, size: usize) -> &[u8]
    ensures { result.now ≡ spec.part_of bytes.now start size }
{
    let start = start.min(bytes.len());
    let size = size.min(bytes.len() - start);
    &bytes[start..start + size]
}

/// A part of the bytes as a name; where it is none, `?`.
pub(crate) fn name_at(bytes: &[u8], start: usize, size: usize) -> Name
    ensures { result ≡ spec.name_at bytes.now start size }
{
    let text = part(bytes, start, size);
    if is_name(text) {
        name_of(text)
    } else {
        name_of(b"?")
    }
}

/// Where the names of a record begin, as it is kept. `NoMemory` where 32 bits do not hold it, which
/// only a symbol with more than 2^32 bytes of names can bring about.
pub(crate) fn kept_start(start: usize) -> Result<u32, NoMemory>
    ensures { IfOk result (λ kept. kept ≡ start) }
{
    match u32::try_from(start) {
        Ok(kept) => Ok(kept),
        Err(_) => Err(NoMemory),
    }
}
