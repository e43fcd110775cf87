//! Names of firms, orders, symbols and trades.
//!
//! A name is a block of 64 bytes and a length, so a record is copied without an allocation.
ghost use Rattle.std.specs.Prelude.{◌≡◌, ◌+◌, ◌-◌, ◌≤◌, ◌++◌, IsTrue, drop, length, replicate};
ghost use Rattle.std.specs.List.{list_all};
ghost use Rattle.audit_base.specs.Names as form;

use std::cmp::Ordering;
use std::hash::{Hash, Hasher};
use std::marker::Model;

/// A name: 1 to 64 bytes, each from 0x20 to 0x7E and neither `,` nor `"`. Contracts see the list of
/// its bytes. Names are ordered byte by byte.
#[derive(Clone, Copy, Debug)]
pub struct Name {
    bytes: [u8; 64],
    size: u8,
}

impl Model for Name {
    ghost use Rattle.std.specs.Prelude.{ℕ, List};

    ghost Value = { List ℕ };

    ghost use Rattle.audit_base.specs.NameBlocks.{name_in_block, block_of_name, IsNameBlock, block-of-name-in-block};

    ghost view = { name_in_block };

    ghost invariant = { IsNameBlock };

    ghost inverse = { block_of_name };

    ghost inverse_ok = { block-of-name-in-block };
}

impl Name {
    ghost use Rattle.audit_base.specs.Names.{is_name};

    /// The bytes of the name.
    pub fn bytes(&self) -> &[u8]
        ensures same { result.now ≡ self.now }
        ensures in_form { IsTrue (is_name self.now) }
    {
        &self.bytes[..self.size as usize]
    }
}

impl PartialEq for Name {
    ghost use Rattle.std.specs.Prelude.{◌==◌};
    ghost use Rattle.std.specs.Cmp.Lexicographic.{pointwise};
    ghost use Rattle.std.specs.Cmp.Rules.{comparing};
    ghost use Rattle.std.proofs.Common.{rules};

    ghost eq = { pointwise ◌==◌ };

    ghost laws = { Prim.search (comparing, rules) };

    fn eq(&self, other: &Name) -> bool {
        self.bytes() == other.bytes()
    }
}

impl Eq for Name {
    ghost use Rattle.std.specs.Cmp.Rules.{comparing};
    ghost use Rattle.std.proofs.Common.{rules};

    ghost laws = { Prim.search (comparing, rules) };
}

impl PartialOrd for Name {
    ghost use Rattle.std.specs.Ordering.{as_partial_cmp, nat_cmp};
    ghost use Rattle.std.specs.Cmp.Lexicographic.{slice_cmp};
    ghost use Rattle.std.specs.Cmp.{partial_order_from_own_ties};
    ghost use Rattle.std.specs.Cmp.Rules.{comparing};
    ghost use Rattle.std.proofs.Common.{rules};

    ghost partial_cmp = { as_partial_cmp (slice_cmp nat_cmp) };

    ghost laws = { partial_order_from_own_ties (Prim.search (comparing, rules)) (Prim.search (comparing, rules)) };

    fn partial_cmp(&self, other: &Name) -> Option<Ordering> {
        Some(self.cmp(other))
    }
}

impl Ord for Name {
    ghost use Rattle.std.specs.Ordering.{nat_cmp};
    ghost use Rattle.std.specs.Cmp.Lexicographic.{slice_cmp};
    ghost use Rattle.std.specs.Cmp.Rules.{comparing};
    ghost use Rattle.std.proofs.Common.{rules};

    ghost cmp = { slice_cmp nat_cmp };

    ghost total = { Prim.search (comparing, rules) };

    ghost matches_partial_cmp = { Prim.search (comparing, rules) };

    ghost matches_eq = { Prim.search (comparing, rules) };

    fn cmp(&self, other: &Name) -> Ordering {
        self.bytes().cmp(other.bytes())
    }
}

impl Hash for Name {
    ghost use Rattle.std.specs.Prelude.{[], ◌∷◌};
    ghost use Rattle.std.specs.Cmp.Rules.{hashing};
    ghost use Rattle.std.proofs.Common.{rules};

    ghost hash_input = { λ bytes. bytes ∷ [] };

    ghost respects_eq = { Prim.search (hashing, rules) };

    fn hash<H: Hasher>(&self, state: &mut H) {
        state.write(self.bytes());
    }
}

/// The name of a record: the firm that sent it, and the id that the firm gave it. No two records of
/// one history have one key (FIX tags 49 and 11).
#[derive(Clone, Copy, Debug, PartialEq, Eq, Hash, PartialOrd, Ord)]
pub struct Key {
    pub firm: Name,
    pub id: Name,
}

/// Whether a name may hold each byte, from 0 to 255: those from 0x20 to 0x7E but for `"` and `,`.
static NAME_BYTES: [bool; 256] = [
    false, false, false, false, false, false, false, false, false, false, false, false, false,
    false, false, false, false, false, false, false, false, false, false, false, false, false,
    false, false, false, false, false, false, true, true, false, true, true, true, true, true,
    true, true, true, true, false, true, true, true, true, true, true, true, true, true, true,
    true, true, true, true, true, true, true, true, true, true, true, true, true, true, true, true,
    true, true, true, true, true, true, true, true, true, true, true, true, true, true, true, true,
    true, true, true, true, true, true, true, true, true, true, true, true, true, true, true, true,
    true, true, true, true, true, true, true, true, true, true, true, true, true, true, true, true,
    true, true, true, true, true, true, true, true, false, false, false, false, false, false,
    false, false, false, false, false, false, false, false, false, false, false, false, false,
    false, false, false, false, false, false, false, false, false, false, false, false, false,
    false, false, false, false, false, false, false, false, false, false, false, false, false,
    false, false, false, false, false, false, false, false, false, false, false, false, false,
    false, false, false, false, false, false, false, false, false, false, false, false, false,
    false, false, false, false, false, false, false, false, false, false, false, false, false,
    false, false, false, false, false, false, false, false, false, false, false, false, false,
    false, false, false, false, false, false, false, false, false, false, false, false, false,
    false, false, false, false, false, false, false, false, false, false, false, false, false,
    false, false, false, false, false, false,
];

/// Whether a name may hold the byte. One look into the table costs less than four comparisons.
fn is_name_byte(byte: u8) -> bool
    ensures { result ≡ form.is_name_byte byte }
{
    NAME_BYTES[byte as usize]
}

/// Whether a name may hold each of the bytes. All are looked at, since a way out of the loop
/// would cost more than it saves.
fn all_name_bytes(text: &[u8]) -> bool
    ensures { result ≡ list_all form.is_name_byte text.now }
{
    let mut all = true;
    for byte in text {
        all &= is_name_byte(*byte);
    }
    all
}

/// Whether the text is a name.
pub fn is_name(text: &[u8]) -> bool
    ensures { result ≡ form.is_name text.now }
{
    1 <= text.len() && text.len() <= 64 && all_name_bytes(text)
}

/// Writes a text over the first bytes of a block, in two parts of this width that may overlap.
#[inline(always)]
fn put_ends(block: &mut [u8], text: &[u8], width: usize)
    requires room { length text.now ≤ length block.old }
    requires width { width ≤ length text.now }
    requires whole { length text.now ≤ width + width }
    ensures { block.new ≡ text.now ++ drop (length text.now) block.old }
{
    let start = text.len() - width;
    block[..width].copy_from_slice(&text[..width]);
    block[start..text.len()].copy_from_slice(&text[start..]);
}

/// Writes a text over the first bytes of a block. Most names have 4 to 16 bytes,
/// and two copies of a known width cost less than one of any.
#[inline(always)]
fn put_first(block: &mut [u8], text: &[u8])
    requires { length text.now ≤ length block.old }
    ensures { block.new ≡ text.now ++ drop (length text.now) block.old }
{
    if 8 <= text.len() && text.len() <= 16 {
        put_ends(block, text, 8);
    } else if 4 <= text.len() && text.len() < 8 {
        put_ends(block, text, 4);
    } else {
        block[..text.len()].copy_from_slice(text);
    }
}

/// The block of 64 bytes that begins with the text and goes on with zeros.
fn block_of(text: &[u8]) -> [u8; 64]
    requires { length text.now ≤ 64 }
    ensures { result ≡ text.now ++ replicate (64 - length text.now) 0 }
{
    let mut bytes = [0; 64];
    put_first(&mut bytes, text);
    bytes
}

/// The name of a text that is known to be one.
pub fn name_of(text: &[u8]) -> Name
    requires { IsTrue (form.is_name text.now) }
    ensures { result ≡ text.now }
{
    Name {
        bytes: block_of(text),
        size: text.len() as u8,
    }
}

/// The name that the text writes, which is the text itself. None exactly where it is empty,
/// has more than 64 bytes, or holds a byte outside 0x20 to 0x7E, a `,` or a `"`.
pub fn read_name(text: &[u8]) -> Option<Name>
    ensures { result ≡ form.name_form text.now }
{
    if is_name(text) {
        Some(name_of(text))
    } else {
        None
    }
}

/// Whether a text is a name, where each of its bytes is known to be one that a name may hold:
/// only its size is tested.
pub fn is_name_by_size(text: &[u8]) -> bool
    requires { IsTrue (list_all form.is_name_byte text.now) }
    ensures { result ≡ form.is_name text.now }
{
    1 <= text.len() && text.len() <= 64
}

/// The name that a text writes, where each of its bytes is known to be one that a name may hold.
/// None exactly where it is empty or has more than 64 bytes.
pub fn read_name_by_size(text: &[u8]) -> Option<Name>
    requires { IsTrue (list_all form.is_name_byte text.now) }
    ensures { result ≡ form.name_form text.now }
{
    if is_name_by_size(text) {
        Some(name_of(text))
    } else {
        None
    }
}
