//! The picture of a rule.
ghost use Rattle.std.specs.Prelude.{◌≡◌, IfOk};
ghost use Rattle.audit_base.specs.Deals.{IsDealList};
ghost use Rattle.audit_base.specs.Orders.{IsOrderList};
ghost use Rattle.rule_drawing.specs.RulePictures as spec;

use crate::offending::{end_of_orders, offending_place};
use audit_base::faults::NoMemory;
use audit_base::findings::Finding;
use audit_base::numbers::Price;
use audit_base::orders::Deal;
use audit_base::terms::{CallRule, Rule, VolumeRule};
use call_drawing::sections::{MarkedCall, call_section};
use continuous_drawing::sections::{MarkedTrading, continuous_sections};
use order_list::lists::OrderList;
use page_markup::markup::Markup;
use std::alloc::Global;

/// The price of the first trade, if there is one.
fn first_price(deals: &[Deal]) -> Option<Price>
    ensures { result ≡ spec.first_price deals.now }
{
    match deals.first() {
        Some(deal) => Some(deal.price),
        None => None,
    }
}

/// The one price of the trades, where the rule asks for one.
fn price_of_rule(rule: CallRule, deals: &[Deal]) -> Option<Price>
    ensures { result ≡ spec.price_of_rule rule deals.now }
{
    match rule {
        CallRule::Greatest(VolumeRule::Uniform) => first_price(deals),
        CallRule::Greatest(VolumeRule::Maximum) => None,
        CallRule::Matching => None,
        CallRule::Fair => None,
    }
}

/// The picture of a call under a rule, with what was found.
fn picture_of_call(
    alloc: Global,
    rule: CallRule,
    orders: &OrderList<'_>,
    deals: &[Deal],
    finding: &Option<Finding>,
) -> Result<Markup, NoMemory>
    requires order_list { IsOrderList orders.now }
    requires deal_list { IsDealList orders.now deals.now }
    ensures { IfOk result (spec.IsPictureOfCall rule orders.now deals.now finding.now) }
{
    let marked = MarkedCall::by(finding, price_of_rule(rule, deals));
    call_section(alloc, orders, deals, &marked)
}

/// The pictures of continuous trading, with what was found.
fn picture_of_continuous(
    alloc: Global,
    orders: &OrderList<'_>,
    deals: &[Deal],
    finding: &Option<Finding>,
) -> Result<Markup, NoMemory>
    requires order_list { IsOrderList orders.now }
    requires deal_list { IsDealList orders.now deals.now }
    ensures { IfOk result (spec.IsPictureOfContinuous orders.now deals.now finding.now) }
{
    let marked = MarkedTrading::by(finding, offending_place(orders, deals, finding));
    continuous_sections(alloc, orders, deals, end_of_orders(orders), &marked)
}

/// The picture of a rule over these orders and deals, as sections of a page, with what was found of
/// them: of a call the orders of both sides as steps in rank order with the volume, of continuous
/// trading the best limits by record with the trades, and the book right before the record at which
/// the finding broke. Err only out of memory.
pub fn rule_picture(
    alloc: Global,
    rule: Rule,
    orders: &OrderList<'_>,
    deals: &[Deal],
    finding: &Option<Finding>,
) -> Result<Markup, NoMemory>
    requires order_list { IsOrderList orders.now }
    requires deal_list { IsDealList orders.now deals.now }
    ensures { IfOk result (spec.IsRulePicture rule orders.now deals.now finding.now) }
{
    match rule.call_rule() {
        Some(rule) => picture_of_call(alloc, rule, orders, deals, finding),
        None => picture_of_continuous(alloc, orders, deals, finding),
    }
}
