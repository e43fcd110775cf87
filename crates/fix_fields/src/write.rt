//! Appends a field to a body.
ghost use Rattle.std.specs.Prelude.{◌≡◌, ◌∷◌, ◌++◌, [], take, OnOk, OnErr, vec_len};
ghost use Rattle.audit_base.specs.Sizes.{soh};
ghost use Rattle.fix_fields.specs.Grammar.{IsTag, IsDelimited, field_bytes};

use audit_base::faults::NoMemory;
use audit_base::sizes::SOH;
use itoa::Buffer;
use std::alloc::{AllocError, Global};

/// Appends `tag=value` SOH, for a tag from 1 to 999,999,999 and a value of one or more bytes, none
/// of them SOH. Out of memory leaves `out` as before. (`out` grows by the allocator that it has.)
pub fn write_field(
    _alloc: Global,
    tag: u32,
    value: &[u8],
    out: &mut Vec<u8>,
) -> Result<(), NoMemory>
    requires tag { IsTag tag }
    requires value { IsDelimited value.now }
    ensures ok { OnOk result (out.new.items
        ≡ out.old.items ++ field_bytes (record { tag = tag; value = value.now })) }
    ensures err { OnErr result (out.new.items ≡ out.old.items) }
{
    let start = out.len();
    let mut buffer = Buffer::new();
    let tag = buffer.format(tag).as_bytes();
    if append(tag, value, out).is_err() {
        out.truncate(start);
        return Err(NoMemory);
    }
    Ok(())
}

/// Appends the bytes of a field. Out of memory, `out` still begins as before.
fn append(tag: &[u8], value: &[u8], out: &mut Vec<u8>) -> Result<(), AllocError>
    ensures ok { OnOk result (out.new.items
        ≡ out.old.items ++ (tag.now ++ 61 ∷ (value.now ++ soh ∷ []))) }
    ensures err { OnErr result (take (vec_len out.old) out.new.items ≡ out.old.items) }
{
    out.extend_from_slice(tag)?;
    out.push(b'=')?;
    out.extend_from_slice(value)?;
    out.push(SOH)?;
    Ok(())
}
