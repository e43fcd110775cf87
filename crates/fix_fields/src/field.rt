//! A field, why a body is not read, and where a tag is.
ghost use Rattle.std.specs.Prelude.{◌≡◌};
ghost use Rattle.fix_fields.specs.declared.field.FieldFault.TheVariants.{Memory};

use std::alloc::AllocFailed;
use thiserror::Error;

/// A field of a body: its tag, and the bytes of the body in which its value is, from the byte
/// `from` on and up to the byte `to`, which is the SOH after it. Bytes are counted from 0.
#[derive(Clone, Copy, Debug, PartialEq, Eq)]
pub struct Field {
    pub tag: u32,
    pub from: usize,
    pub to: usize,
}

/// Why a body has no list of fields.
#[derive(Clone, Copy, Debug, PartialEq, Eq, Error)]
pub enum FieldFault {
    /// The first field that cannot be read begins at this byte of the body, from 0.
    #[error("no field can be read from byte {0} of the body")]
    Field(u32),
    /// There is no field, or the first one is not the message type (tag 35).
    #[error("the first field is not the message type")]
    MsgType,
    #[error("out of memory")]
    Memory,
}

impl<T: Drop> From<AllocFailed<T>> for FieldFault {
    ghost from_gives = { λ _ fault. fault ≡ Memory };

    fn from(_failed: AllocFailed<T>) -> FieldFault {
        FieldFault::Memory
    }
}

/// Where the value of the first field with a tag is, and whether there are more: in the bytes of
/// the body from the byte `from` on and up to the byte `to`.
#[derive(Clone, Copy, Debug, PartialEq, Eq)]
pub enum ValueSpan {
    Absent,
    One { from: usize, to: usize },
    Many { from: usize, to: usize },
}

/// The index of the first field with a tag, from 0, and whether there are more.
#[derive(Clone, Copy, Debug, PartialEq, Eq)]
pub enum Found {
    Absent,
    One(usize),
    Many(usize),
}
