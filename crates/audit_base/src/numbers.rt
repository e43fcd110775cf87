//! Prices and quantities.
ghost use Rattle.std.specs.Prelude.{◌≡◌, ℕ, ◌<◌, ◌≤◌, ◌^◌, ◌&&◌, nat_lt, nat_le, if◌then◌else◌, Option, IfSome, length, take, drop};
ghost use Rattle.std.specs.List.{list_all, position};
ghost use Rattle.audit_base.specs.Digits.{digits_form};
ghost use Rattle.audit_base.specs.Numbers as form;

use super::digits::{read_digits, scaled};
use super::terms::Side;
use std::marker::Model;

/// A price in units of 10^-8, from 0 to 999,999,999,999,999,999.
#[derive(Clone, Copy, Debug, PartialEq, Eq, Hash, PartialOrd, Ord)]
pub struct Price {
    units: u64,
}

impl Model for Price {
    ghost use Rattle.std.specs.Prelude.{ℕ};
    ghost use Rattle.audit_base.specs.Numbers.{IsPrice};

    ghost Value = { ℕ };

    ghost view = { λ p. p.units };

    ghost invariant = { λ p. IsPrice p.units };

    ghost inverse = { λ n. record { units = n } };
}

impl Price {
    /// The price of this many units; None exactly from 10^18 on.
    pub fn of(units: u64) -> Option<Self>
        ensures { result ≡ (if nat_lt units form.price_end then Some units else None) }
    {
        if units < 1_000_000_000_000_000_000 {
            Some(Price { units })
        } else {
            None
        }
    }

    /// The price in units of 10^-8, below 10^18.
    pub fn units(self) -> u64
        ensures same { result ≡ self }
        ensures in_range { form.IsPrice self }
    {
        self.units
    }
}

/// The price of a market order of this side: 999,999,999,999,999,999 units of a bid,
/// 0 of an ask. So it takes any price.
pub fn market_price(side: Side) -> Price
    ensures { result ≡ form.market_price side }
{
    match side {
        Side::Buy => Price {
            units: 999_999_999_999_999_999,
        },
        Side::Sell => Price { units: 0 },
    }
}

/// A whole number of what is traded, from 1 to 1,000,000,000,000.
#[derive(Clone, Copy, Debug, PartialEq, Eq, Hash, PartialOrd, Ord)]
pub struct Quantity {
    value: u64,
}

impl Model for Quantity {
    ghost use Rattle.std.specs.Prelude.{ℕ};
    ghost use Rattle.audit_base.specs.Numbers.{IsQuantity};

    ghost Value = { ℕ };

    ghost view = { λ q. q.value };

    ghost invariant = { λ q. IsQuantity q.value };

    ghost inverse = { λ n. record { value = n } };
}

impl Quantity {
    /// The quantity of this number; None exactly at 0 and above 1,000,000,000,000.
    pub fn of(value: u64) -> Option<Self>
        ensures { result ≡ (if form.is_quantity value then Some value else None) }
    {
        if 0 < value && value <= 1_000_000_000_000 {
            Some(Quantity { value })
        } else {
            None
        }
    }

    /// The number, from 1 to 1,000,000,000,000.
    pub fn value(self) -> u64
        ensures same { result ≡ self }
        ensures in_range { form.IsQuantity self }
    {
        self.value
    }
}

/// The first point of the text.
fn point_in(text: &[u8]) -> Option<usize>
    ensures { result ≡ position form.is_point text.now }
{
    text.iter().position(|byte| *byte == b'.')
}

/// A price of a whole number of currency units.
fn whole_price(whole: Option<u64>) -> Option<Price>
    requires { IfSome whole (λ w. w < 10 ^ 10) }
    ensures { result ≡ form.whole_price whole }
{
    Some(Price {
        units: whole? * 100_000_000,
    })
}

/// A price with a fraction of this many places.
fn price_with_fraction(whole: Option<u64>, places: usize, fraction: Option<u64>) -> Option<Price>
    requires whole { IfSome whole (λ w. w < 10 ^ 10) }
    requires fraction { IfSome fraction (λ f. (places ≤ 8) × (f < 10 ^ places)) }
    ensures { result ≡ form.price_with_fraction whole places fraction }
{
    let whole = whole?;
    let fraction = fraction?;
    Some(Price {
        units: whole * 100_000_000 + scaled(fraction, places, 8),
    })
}

/// 1 to 10 digits.
fn read_whole(text: &[u8]) -> Option<u64>
    ensures value { result ≡ digits_form 10 text.now }
    ensures in_range { IfSome result (λ w. w < 10 ^ 10) }
{
    read_digits(text, 10)
}

/// The price that the text writes: 1 to 10 digits, then optionally `.` and 1 to 8 digits. None
/// exactly where it is not in this form.
pub fn read_price(text: &[u8]) -> Option<Price>
    ensures { result ≡ form.price_form text.now }
{
    match point_in(text) {
        None => whole_price(read_whole(text)),
        Some(point) => {
            let fraction = &text[point + 1..];
            price_with_fraction(
                read_whole(&text[..point]),
                fraction.len(),
                read_digits(fraction, 8),
            )
        }
    }
}

/// Whether each byte is a zero.
fn all_zero_digits(text: &[u8]) -> bool
    ensures { result ≡ list_all form.is_zero_digit text.now }
{
    text.iter().all(|byte| *byte == b'0')
}

/// Whether the text is one or more zeros.
fn are_zero_digits(text: &[u8]) -> bool
    ensures { result ≡ form.are_zero_digits text.now }
{
    1 <= text.len() && all_zero_digits(text)
}

/// The number as a quantity.
fn quantity_in_range(value: Option<u64>) -> Option<Quantity>
    ensures { result ≡ form.quantity_in_range value }
{
    Quantity::of(value?)
}

/// The quantity that a text writes, whether or not it has a point.
fn read_around_point(text: &[u8]) -> Option<Quantity>
    ensures { result ≡ form.quantity_form text.now }
{
    match point_in(text) {
        None => quantity_in_range(read_digits(text, 13)),
        Some(point) => {
            if are_zero_digits(&text[point + 1..]) {
                quantity_in_range(read_digits(&text[..point], 13))
            } else {
                None
            }
        }
    }
}

/// The quantity that the text writes: 1 to 13 digits, then optionally `.` and one or more zeros,
/// with a whole part from 1 to 1,000,000,000,000. None exactly where it is not in this form.
pub fn read_quantity(text: &[u8]) -> Option<Quantity>
    ensures { result ≡ form.quantity_form text.now }
{
    // Most quantities have no point, so none is sought before the digits are read.
    match read_digits(text, 13) {
        Some(value) => Quantity::of(value),
        None => read_around_point(text),
    }
}
