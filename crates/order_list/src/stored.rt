//! What an order list keeps of an order: 48 bytes, with a number in place of the key.
//!
//! Reading needs no condition: a number with no key gives the key `?`, numbers that are no time the
//! first moment. 2^32 - 1 means no target.
ghost use Rattle.std.specs.Prelude.{◌≡◌, ◌<◌, IfSome, Some, None};
ghost use Rattle.audit_base.specs.declared.names.Key.{Key as KeySpec};
ghost use Rattle.order_list.specs.Changed.{with_terms, with_ending};
ghost use Rattle.order_list.specs.Stored.{number_of, time_from, cancelled_from, target_from, order_of_stored_and_key, order_with};

use super::keys::KeyNumber;
use audit_base::numbers::{Price, Quantity};
use audit_base::stamps::Stamp;
use audit_base::terms::{Life, Side};

/// The number that means no target. No index of an order list is as great.
const NO_TARGET: u32 = 4_294_967_295;

/// What an order list keeps of an order: all but its key, which has a number in a table of keys.
// The fields are in the order of their sizes, so that none of the 48 bytes is a gap.
#[derive(Clone, Copy, Debug)]
pub struct StoredOrder {
    pub(crate) quantity: Quantity,
    pub(crate) limit: Price,
    pub(crate) second: u64,
    pub(crate) nano: u32,
    pub(crate) place: u32,
    /// The index of the key among the short keys, or among the others.
    pub(crate) key: u32,
    /// The place of the record that ends it, if one does.
    pub(crate) cancelled: u32,
    pub(crate) target: u32,
    pub(crate) side: Side,
    pub(crate) life: Life,
    pub(crate) is_short: bool,
    pub(crate) is_ended: bool,
}

const _: () = prove!(size_of::<StoredOrder>() == 48);

/// An order, whose key has a number.
#[derive(Clone, Copy, Debug)]
pub struct OrderParts {
    pub number: KeyNumber,
    pub place: u32,
    pub time: Stamp,
    pub side: Side,
    pub life: Life,
    pub quantity: Quantity,
    pub limit: Price,
    pub cancelled: Option<u32>,
    pub target: Option<usize>,
}

/// The terms of an order that may be others in a list of its own.
#[derive(Clone, Copy, Debug)]
pub struct ChangedTerms {
    pub quantity: Quantity,
    /// The place of the record that ends it, if one does.
    pub cancelled: Option<u32>,
    /// The index of the order that it replaces.
    pub target: Option<usize>,
}

/// A target as it is kept.
#[inline(always)]
fn kept_target(target: Option<usize>) -> u32
    requires { IfSome target (λ t. t < 4294967295) }
    ensures { target_from result ≡ target }
{
    match target {
        Some(index) => index as u32,
        None => NO_TARGET,
    }
}

impl StoredOrder {
    /// What is kept of the order of these parts.
    pub fn of(parts: &OrderParts) -> StoredOrder
        requires { IfSome parts.now.target (λ t. t < 4294967295) }
        ensures order { (key : KeySpec) → order_of_stored_and_key key result ≡ order_with key parts.now }
        ensures number { number_of result ≡ parts.now.number }
    {
        let Stamp { second, nano } = parts.time;
        StoredOrder {
            quantity: parts.quantity,
            limit: parts.limit,
            second,
            nano,
            place: parts.place,
            key: parts.number.index,
            cancelled: parts.cancelled.unwrap_or(0),
            target: kept_target(parts.target),
            side: parts.side,
            life: parts.life,
            is_short: parts.number.is_short,
            is_ended: parts.cancelled.is_some(),
        }
    }

    /// The same order with other terms.
    pub(crate) fn with_terms(&self, terms: ChangedTerms) -> StoredOrder
        requires { IfSome terms.target (λ t. t < 4294967295) }
        ensures order { (key : KeySpec) → order_of_stored_and_key key result
            ≡ with_terms terms.quantity terms.cancelled terms.target (order_of_stored_and_key key self.now) }
        ensures number { number_of result ≡ number_of self.now }
    {
        StoredOrder {
            quantity: terms.quantity,
            cancelled: terms.cancelled.unwrap_or(0),
            is_ended: terms.cancelled.is_some(),
            target: kept_target(terms.target),
            ..*self
        }
    }

    /// Ends the order at a place, unless an earlier record did.
    pub fn end(&mut self, place: u32)
        ensures order { (key : KeySpec) → order_of_stored_and_key key self.new
            ≡ with_ending place (order_of_stored_and_key key self.old) }
        ensures number { number_of self.new ≡ number_of self.old }
    {
        if !self.is_ended {
            self.cancelled = place;
            self.is_ended = true;
        }
    }

    /// Bid or ask.
    #[inline(always)]
    pub fn side(&self) -> Side
        ensures { result ≡ self.now.side }
    {
        self.side
    }

    /// The place of the record that ends it, if one does.
    #[inline(always)]
    pub fn cancelled(&self) -> Option<u32>
        ensures { result ≡ cancelled_from self.now.is_ended self.now.cancelled }
    {
        if self.is_ended {
            Some(self.cancelled)
        } else {
            None
        }
    }

    /// The time of its record.
    pub(crate) fn time(&self) -> Stamp
        ensures { result ≡ time_from self.now.second self.now.nano }
    {
        if self.second < 326_764_800_000 && self.nano < 1_000_000_000 {
            Stamp {
                second: self.second,
                nano: self.nano,
            }
        } else {
            Stamp { second: 0, nano: 0 }
        }
    }

    /// The index of the order that it replaces.
    #[inline(always)]
    pub(crate) fn target(&self) -> Option<usize>
        ensures same { result ≡ target_from self.now.target }
        ensures small { IfSome result (λ t. t < 4294967295) }
    {
        if self.target < NO_TARGET {
            Some(self.target as usize)
        } else {
            None
        }
    }

    /// The number of its key.
    #[inline(always)]
    pub(crate) fn number(&self) -> KeyNumber
        ensures { result ≡ number_of self.now }
    {
        KeyNumber {
            index: self.key,
            is_short: self.is_short,
        }
    }
}
