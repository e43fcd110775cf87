//! The texts of the lines, appended to one buffer. No LF is written here.
ghost use Rattle.std.specs.Prelude.{◌≡◌, ◌≤◌, ◌++◌, OnOk};
ghost use Rattle.audit_base.specs.Numbers.{price_end};
ghost use Rattle.audit_certificate.specs.Texts as text;

use audit_base::faults::NoMemory;
use audit_base::names::Name;
use audit_base::terms::{Side, VolumeRule};
use audit_base::texts::{write_number, write_price};
use std::alloc::Global;

/// Appends bytes.
pub fn append(bytes: &[u8], out: &mut Vec<u8>) -> Result<(), NoMemory>
    ensures { OnOk result (out.new.items ≡ out.old.items ++ bytes.now) }
{
    out.extend_from_slice(bytes)?;
    Ok(())
}

/// Appends `certificate,RULE,SYMBOL`.
#[tactic(auto, using(std::proofs::Common::append_assoc))]
pub fn append_head(rule: VolumeRule, symbol: &Name, out: &mut Vec<u8>) -> Result<(), NoMemory>
    ensures { OnOk result (out.new.items ≡ out.old.items ++ text.head_text rule symbol.now) }
{
    append(b"certificate,", out)?;
    append(rule.rule().word(), out)?;
    append(b",", out)?;
    append(symbol.bytes(), out)
}

/// Appends `bound,PRICE,VOLUME`. The price is at most 10^18 units.
#[tactic(auto, using(std::proofs::Common::append_assoc))]
pub fn append_bound(
    alloc: Global,
    price: u64,
    volume: u128,
    out: &mut Vec<u8>,
) -> Result<(), NoMemory>
    requires { price ≤ price_end }
    ensures { OnOk result (out.new.items ≡ out.old.items ++ text.bound_text price volume) }
{
    append(b"bound,", out)?;
    write_price(alloc, price, out)?;
    append(b",", out)?;
    write_number(alloc, volume, out)
}

/// Appends the place, or `none`.
fn append_place(alloc: Global, place: Option<u32>, out: &mut Vec<u8>) -> Result<(), NoMemory>
    ensures { OnOk result (out.new.items ≡ out.old.items ++ text.place_or_none place) }
{
    match place {
        None => append(b"none", out),
        Some(place) => write_number(alloc, u128::from(place), out),
    }
}

/// The words before the place of the last order of a side that trades.
fn last_words(side: Side) -> &'static [u8]
    ensures { result.now ≡ text.last_words side }
{
    match side {
        Side::Buy => b"last,buy,",
        Side::Sell => b"last,sell,",
    }
}

/// Appends `last,buy,PLACE` or `last,sell,PLACE`, with `none` for no place.
#[tactic(auto, using(std::proofs::Common::append_assoc))]
pub fn append_last(
    alloc: Global,
    side: Side,
    place: Option<u32>,
    out: &mut Vec<u8>,
) -> Result<(), NoMemory>
    ensures { OnOk result (out.new.items ≡ out.old.items ++ text.last_text side place) }
{
    append(last_words(side), out)?;
    append_place(alloc, place, out)
}

/// Appends `order,PLACE,TRADED`.
#[tactic(auto, using(std::proofs::Common::append_assoc))]
pub fn append_order(
    alloc: Global,
    place: u32,
    traded: u128,
    out: &mut Vec<u8>,
) -> Result<(), NoMemory>
    ensures { OnOk result (out.new.items ≡ out.old.items ++ text.order_line_text place traded) }
{
    append(b"order,", out)?;
    write_number(alloc, u128::from(place), out)?;
    append(b",", out)?;
    write_number(alloc, traded, out)
}
