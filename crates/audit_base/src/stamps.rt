//! Points in time, as logs write them.
//!
//! A stamp has two public numbers and a model, so contracts speak of a moment and each has one
//! canonical text.
ghost use Rattle.std.specs.Prelude.{◌≡◌, ◌<◌, ◌≤◌, ◌^◌, IfSome, length};
ghost use Rattle.audit_base.specs.Moments.{is_before};
ghost use Rattle.audit_base.specs.Stamps as form;

use super::digits::{
    are_digits, read_digits, read_digits_between, read_nine, scaled, value_between,
};
use std::marker::Model;

/// A point in time. `second` orders stamps and is no count of seconds: it is
/// `((((year * 12 + month - 1) * 31 + day - 1) * 24 + hour) * 60 + minute) * 61 + second`,
/// below 326,764,800,000. `nano` is the fraction, below 1,000,000,000. `is_before` orders stamps
/// by `second`, then by `nano`, and each has exactly one canonical text (FIX 4.4, UTCTimestamp).
#[derive(Clone, Copy, Debug, PartialEq, Eq, Hash)]
pub struct Stamp {
    pub second: u64,
    pub nano: u32,
}

impl Model for Stamp {
    ghost use Rattle.std.specs.Prelude.{◌<◌, ◌^◌};
    ghost use Rattle.audit_base.specs.Moments.{Moment, end_of_time};

    ghost Value = { Moment };

    ghost view = { λ s. record { second = s.second; nano = s.nano } };

    ghost invariant = { λ s. (s.second < end_of_time) × (s.nano < 10 ^ 9) };

    ghost inverse = { λ m. record { second = m.second; nano = m.nano } };
}

impl Stamp {
    /// Whether it is earlier than the other.
    pub fn is_before(self, other: Stamp) -> bool
        ensures { result ≡ is_before self other }
    {
        self.second < other.second || (self.second == other.second && self.nano < other.nano)
    }
}

/// `YYYYMMDD`.
fn read_date(text: &[u8]) -> Option<u64>
    requires { length text.now ≡ 8 }
    ensures value { result ≡ form.date_form text.now }
    ensures in_range { IfSome result (λ n. n < 3720000) }
{
    if !are_digits(text) {
        return None;
    }
    // Days are counted as if each month had 31.
    let year = value_between(&text[..4], 4, 0, 9999)?;
    let month = value_between(&text[4..6], 2, 1, 12)?;
    let day = value_between(&text[6..], 2, 1, 31)?;
    Some((year * 12 + (month - 1)) * 31 + (day - 1))
}

/// `HH:MM:SS`.
fn read_clock(text: &[u8]) -> Option<u64>
    requires { length text.now ≡ 8 }
    ensures value { result ≡ form.clock_form text.now }
    ensures in_range { IfSome result (λ n. n < 87840) }
{
    if text[2] != b':' || text[5] != b':' {
        return None;
    }
    // Each minute is counted with 61 seconds.
    let hour = read_digits_between(&text[..2], 2, 0, 23)?;
    let minute = read_digits_between(&text[3..5], 2, 0, 59)?;
    let second = read_digits_between(&text[6..], 2, 0, 60)?;
    Some((hour * 60 + minute) * 61 + second)
}

/// A fraction of this many digits in nanoseconds.
fn nano_of_fraction(places: usize, fraction: Option<u64>) -> Option<u64>
    requires { IfSome fraction (λ f. (places ≤ 9) × (f < 10 ^ places)) }
    ensures value { result ≡ form.nano_of_fraction places fraction }
    ensures in_range { IfSome result (λ n. n < 10 ^ 9) }
{
    Some(scaled(fraction?, places, 9))
}

/// Three, six or nine digits. Nine, which most logs have, are read without a loop.
fn fraction_of(digits: &[u8]) -> Option<u64>
    ensures value { result ≡ form.fraction_of digits.now }
    ensures in_range { IfSome result (λ n. n < 10 ^ 9) }
{
    if digits.len() == 9 {
        nano_of_fraction(9, read_nine(digits))
    } else if digits.len() == 3 || digits.len() == 6 {
        nano_of_fraction(digits.len(), read_digits(digits, 9))
    } else {
        None
    }
}

/// Nothing, or a point and a fraction.
pub(crate) fn read_fraction(text: &[u8]) -> Option<u64>
    ensures value { result ≡ form.fraction_form text.now }
    ensures in_range { IfSome result (λ n. n < 10 ^ 9) }
{
    match text {
        [] => Some(0),
        [point, digits @ ..] => {
            if *point == b'.' {
                fraction_of(digits)
            } else {
                None
            }
        }
    }
}

/// The point in time that the text writes: `YYYYMMDD-HH:MM:SS`, then optionally `.` and 3,
/// 6 or 9 digits (FIX 4.4, UTCTimestamp). The month is from 01 to 12, the day from 01 to 31,
/// the hour from 00 to 23, the minute from 00 to 59 and the second from 00 to 60;
/// no further calendar rule is tested. None exactly where the text is not in this form.
pub fn read_stamp(text: &[u8]) -> Option<Stamp>
    ensures { result ≡ form.stamp_form text.now }
{
    if text.len() < 17 || text[8] != b'-' {
        return None;
    }
    let day = read_date(&text[..8])?;
    let clock = read_clock(&text[9..17])?;
    let nano = read_fraction(&text[17..])?;
    Some(Stamp {
        second: day * (24 * 60 * 61) + clock,
        nano: nano as u32,
    })
}
