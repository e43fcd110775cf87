//! The words of a page: what a record breaks, and what an order is to the finding.
ghost use Rattle.std.specs.Prelude.{◌≡◌};
ghost use Rattle.page_parts.specs.Wording as spec;

use audit_base::findings::Property;
use audit_base::terms::{Side, Which};

/// What the record of a finding does, after the words that name it.
#[tactic(auto, unfolding(crate::specs::Wording::broken_words))]
pub fn broken_words(property: Property) -> &'static [u8]
    ensures { result.now ≡ spec.broken_words property }
{
    match property {
        Property::DuplicateId => b"has the firm and id of an earlier record of the symbol",
        Property::TimeBack => b"has an earlier time than the record of the symbol before it",
        Property::UnknownTarget => {
            b"cancels or replaces what is no earlier order of its firm, \
              or replaces an order of the other side"
        }
        Property::Unpaired => {
            b"is a trade report that does not agree with the first one of its trade, \
              or one that has no second"
        }
        Property::DuplicateTrade => b"has the id of an earlier trade of the symbol",
        Property::UnknownOrder => b"names an order that the symbol does not have on that side",
        Property::Inactive => b"trades an order that is not there to trade",
        Property::Limit => b"has a price outside a limit",
        Property::UniformPrice => b"has another price than the first trade of the symbol",
        Property::BuyQuantity => b"lets its bid trade more than its quantity",
        Property::SellQuantity => b"lets its ask trade more than its quantity",
        Property::BuyPriority => b"trades a bid while a better one is not fully traded",
        Property::SellPriority => b"trades an ask while a better one is not fully traded",
        Property::Volume => b"would be the next: the volume is not the greatest",
        Property::Spread => b"leaves a bid and an ask whose limits cross or lock",
        Property::InstantOrder => b"is an immediate or a market order, which no call takes",
    }
}

/// The words that name a log.
pub fn log_words(log: Which) -> &'static [u8]
    ensures { result.now ≡ spec.log_words log }
{
    match log {
        Which::Orders => b"order log",
        Which::Trades => b"trade log",
    }
}

/// What the trade's own order of a side is called.
fn own_words(side: Side) -> &'static [u8]
    ensures { result.now ≡ spec.own_words side }
{
    match side {
        Side::Buy => b"its bid",
        Side::Sell => b"its ask",
    }
}

/// What the best order of a side is called.
fn best_words(side: Side) -> &'static [u8]
    ensures { result.now ≡ spec.best_words side }
{
    match side {
        Side::Buy => b"the best bid",
        Side::Sell => b"the best ask",
    }
}

/// What the best order of a side that is not fully traded is called.
fn best_untraded_words(side: Side) -> &'static [u8]
    ensures { result.now ≡ spec.best_untraded_words side }
{
    match side {
        Side::Buy => b"the best bid that is not fully traded",
        Side::Sell => b"the best ask that is not fully traded",
    }
}

/// What an order of a side is to a finding of this property, where it is shown first or second.
pub fn role_words(property: Property, is_first: bool, side: Side) -> &'static [u8]
    ensures { result.now ≡ spec.role_words property is_first side }
{
    match property {
        Property::BuyPriority | Property::SellPriority => {
            if is_first {
                b"the better order that is not fully traded"
            } else {
                own_words(side)
            }
        }
        Property::Volume => best_untraded_words(side),
        Property::Spread => best_words(side),
        _ => own_words(side),
    }
}
