//! The text of a value as a field of a log holds it.
//! It is the canonical one, in the form of a name, and is read again as the value.
//! Each call also says the range of the value, which its type keeps.
ghost use Rattle.std.specs.Prelude.{◌≡◌, ◌<◌, ◌^◌, IfOk, IsTrue, Some, decimal};
ghost use Rattle.std.specs.List.{list_all};
ghost use Rattle.audit_base.specs.Moments.{end_of_time};
ghost use Rattle.audit_base.specs.Names.{is_name, is_name_byte};
ghost use Rattle.audit_base.specs.Numbers.{IsPrice, IsQuantity, price_form, price_text, quantity_form};
ghost use Rattle.audit_base.specs.Stamps.{stamp_form, stamp_text};

use super::faults::NoMemory;
use super::numbers::{Price, Quantity};
use super::stamps::Stamp;
use super::texts::{write_number, write_price, write_stamp};
use std::alloc::Global;

/// The text of a point in time.
#[tactic(auto, using(crate::proofs::FieldTextLemmas::stamp_is_name))]
pub fn stamp_text(alloc: Global, stamp: Stamp) -> Result<Vec<u8>, NoMemory>
    ensures text { IfOk result (λ text. text.items ≡ stamp_text stamp) }
    ensures name { IfOk result (λ text. IsTrue (is_name text.items)) }
    ensures again { stamp_form (stamp_text stamp) ≡ Some stamp }
    ensures unquoted { IsTrue (list_all is_name_byte (stamp_text stamp)) }
    ensures second { stamp.second < end_of_time }
    ensures nano { stamp.nano < 10 ^ 9 }
{
    let Stamp { second, nano } = stamp;
    prove!(second < 326_764_800_000 && nano < 1_000_000_000);
    let mut text = Vec::new(alloc);
    write_stamp(alloc, stamp, &mut text)?;
    Ok(text)
}

/// The text of a quantity.
#[tactic(auto, using(crate::proofs::FieldTextLemmas::quantity_is_name))]
pub fn quantity_text(alloc: Global, quantity: Quantity) -> Result<Vec<u8>, NoMemory>
    ensures text { IfOk result (λ text. text.items ≡ decimal quantity) }
    ensures name { IfOk result (λ text. IsTrue (is_name text.items)) }
    ensures again { quantity_form (decimal quantity) ≡ Some quantity }
    ensures unquoted { IsTrue (list_all is_name_byte (decimal quantity)) }
    ensures in_range { IsQuantity quantity }
{
    let mut text = Vec::new(alloc);
    write_number(alloc, u128::from(quantity.value()), &mut text)?;
    Ok(text)
}

/// The text of a price.
#[tactic(auto, using(crate::proofs::FieldTextLemmas::price_is_name))]
pub fn price_text(alloc: Global, price: Price) -> Result<Vec<u8>, NoMemory>
    ensures text { IfOk result (λ text. text.items ≡ price_text price) }
    ensures name { IfOk result (λ text. IsTrue (is_name text.items)) }
    ensures again { price_form (price_text price) ≡ Some price }
    ensures unquoted { IsTrue (list_all is_name_byte (price_text price)) }
    ensures in_range { IsPrice price }
{
    let mut text = Vec::new(alloc);
    write_price(alloc, price.units(), &mut text)?;
    Ok(text)
}
