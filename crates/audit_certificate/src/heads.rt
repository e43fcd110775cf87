//! Line 1: the rule and the symbol, and deals that keep what every matching keeps.
ghost use Rattle.std.specs.Prelude.{◌≡◌, ◌<◌, ◌↔◌, All, IfOk, IsTrue, length};
ghost use Rattle.audit_base.specs.Deals.{IsDealList};
ghost use Rattle.audit_base.specs.Calls.{IsMatchingDeal, OnePrice};
ghost use Rattle.audit_certificate.specs.Agreement.{OnePriceIfUniform};
ghost use Rattle.audit_certificate.specs.Answers.{IsNamedRule, IsHeadAnswer};
ghost use Rattle.audit_certificate.specs.Texts.{head_text};

use super::texts::append_head;
use audit_base::faults::NoMemory;
use audit_base::names::Name;
use audit_base::numbers::Price;
use audit_base::orders::Deal;
use audit_base::terms::{Side, VolumeRule};
use order_list::listed::is_within;
use order_list::lists::OrderList;
use std::alloc::Global;

/// Whether a deal is between a bid and an ask that no record cancels, at a price
/// within both limits.
fn keeps(orders: &OrderList<'_>, deal: &Deal) -> bool
    requires bid { deal.now.bid < length orders.now }
    requires ask { deal.now.ask < length orders.now }
    ensures { IsTrue result ↔ IsMatchingDeal orders.now deal.now }
{
    let bid = orders.at(deal.bid);
    let ask = orders.at(deal.ask);
    bid.is_uncancelled_on(Side::Buy)
        && ask.is_uncancelled_on(Side::Sell)
        && is_within(deal, &bid, &ask)
}

/// Whether all deals are such ones.
fn all_keep(orders: &OrderList<'_>, deals: &[Deal]) -> bool
    requires { IsDealList orders.now deals.now }
    ensures { IsTrue result ↔ All (IsMatchingDeal orders.now) deals.now }
{
    deals.iter().all(|deal| keeps(orders, deal))
}

/// Whether all deals have this price.
fn all_at(deals: &[Deal], price: Price) -> bool
    ensures { IsTrue result ↔ All (λ d. d.price ≡ price) deals.now }
{
    deals.iter().all(|deal| deal.price == price)
}

/// Whether all deals have one price.
fn have_one_price(deals: &[Deal]) -> bool
    ensures { IsTrue result ↔ OnePrice deals.now }
{
    match deals {
        [] => true,
        [first, ..] => all_at(deals, first.price),
    }
}

/// Whether the line is that of the rule and the symbol. `text` is a buffer that
/// each call uses anew.
fn names_rule(
    rule: VolumeRule,
    symbol: &Name,
    line: &[u8],
    text: &mut Vec<u8>,
) -> Result<bool, NoMemory>
    ensures { IfOk result (λ named. IsTrue named ↔ (line.now ≡ head_text rule symbol.now)) }
{
    text.clear();
    append_head(rule, symbol, text)?;
    Ok(text.as_slice() == line)
}

/// The rule that the line names beside the symbol.
fn named_rule(
    symbol: &Name,
    line: &[u8],
    text: &mut Vec<u8>,
) -> Result<Option<VolumeRule>, NoMemory>
    ensures { IfOk result (IsNamedRule symbol.now line.now) }
{
    if names_rule(VolumeRule::Uniform, symbol, line, text)? {
        return Ok(Some(VolumeRule::Uniform));
    }
    if names_rule(VolumeRule::Maximum, symbol, line, text)? {
        return Ok(Some(VolumeRule::Maximum));
    }
    Ok(None)
}

/// Whether the deals have one price, where the rule asks for one.
fn prices_fit(rule: VolumeRule, deals: &[Deal]) -> bool
    ensures { IsTrue result ↔ OnePriceIfUniform rule deals.now }
{
    match rule {
        VolumeRule::Uniform => have_one_price(deals),
        VolumeRule::Maximum => true,
    }
}

/// The rule of line 1, where the line passes; None where it passes under no rule.
pub fn head_rule(
    symbol: &Name,
    orders: &OrderList<'_>,
    deals: &[Deal],
    line: &[u8],
    text: &mut Vec<u8>,
) -> Result<Option<VolumeRule>, NoMemory>
    requires { IsDealList orders.now deals.now }
    ensures { IfOk result (IsHeadAnswer symbol.now orders.now deals.now line.now) }
{
    match named_rule(symbol, line, text)? {
        None => Ok(None),
        Some(rule) => {
            if all_keep(orders, deals) && prices_fit(rule, deals) {
                Ok(Some(rule))
            } else {
                Ok(None)
            }
        }
    }
}
