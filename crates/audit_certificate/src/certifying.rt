//! The certificate of deals that conform.
ghost use Rattle.std.specs.Prelude.{◌≡◌, ◌≤◌, ◌++◌, ◌∷◌, [], IfOk, IsTrue, OnOk, length};
ghost use Rattle.audit_base.specs.Numbers.{price_end};
ghost use Rattle.audit_base.specs.Deals.{IsDealList};
ghost use Rattle.audit_base.specs.Orders.{IsOrderList};
ghost use Rattle.audit_base.specs.Rules.{Conforms};
ghost use Rattle.audit_base.specs.RuleKinds.{asks_for_greatest};
ghost use Rattle.audit_certificate.specs.Agreement.{AgreesUnder, IsCertificateUnder};
ghost use Rattle.audit_certificate.specs.Certifying as spec;

use super::bounds::least_price;
use super::counting::{Counts, count};
use super::last_orders::{last_trading, place_of};
use super::order_lines::append_order_lines;
use super::texts::{append, append_bound, append_head, append_last};
use audit_base::faults::NoMemory;
use audit_base::names::Name;
use audit_base::orders::Deal;
use audit_base::ranges::deals_in_range;
use audit_base::terms::{Rule, Side, VolumeRule};
use call_laws::laws::short_orders_do_not_meet;
use call_laws::optimum::greatest_matching_reaches_the_least_cut;
use order_list::lists::OrderList;
use std::alloc::Global;

/// Appends line 3 or 4.
fn append_last_line(
    alloc: Global,
    orders: &OrderList<'_>,
    traded: &[u128],
    side: Side,
    out: &mut Vec<u8>,
) -> Result<(), NoMemory>
    requires { length traded.now ≡ length orders.now }
    ensures { OnOk result (out.new.items
        ≡ out.old.items ++ spec.last_trading_line orders.now traded.now side) }
{
    let last = last_trading(orders, traded, side);
    append_last(alloc, side, place_of(orders, last), out)?;
    append(b"\n", out)
}

/// Appends the first two lines.
fn append_front(
    alloc: Global,
    rule: VolumeRule,
    symbol: &Name,
    price: u64,
    volume: u128,
    out: &mut Vec<u8>,
) -> Result<(), NoMemory>
    requires { price ≤ price_end }
    ensures { OnOk result (out.new.items
        ≡ out.old.items ++ spec.front_lines rule symbol.now price volume) }
{
    append_head(rule, symbol, out)?;
    append(b"\n", out)?;
    append_bound(alloc, price, volume, out)?;
    append(b"\n", out)
}

/// The lines of a certificate with this price.
fn certificate_of(
    alloc: Global,
    rule: VolumeRule,
    symbol: &Name,
    orders: &OrderList<'_>,
    counts: &Counts,
    price: u64,
) -> Result<Vec<u8>, NoMemory>
    requires count { length counts.now.traded.items ≡ length orders.now }
    requires price { price ≤ price_end }
    ensures { IfOk result (λ text. text.items
        ≡ spec.written_text rule symbol.now orders.now counts.now price) }
{
    let mut out = Vec::new(alloc);
    append_front(alloc, rule, symbol, price, counts.volume, &mut out)?;
    append_last_line(alloc, orders, &counts.traded, Side::Buy, &mut out)?;
    append_last_line(alloc, orders, &counts.traded, Side::Sell, &mut out)?;
    append_order_lines(alloc, orders, &counts.traded, &mut out)?;
    Ok(out)
}

/// The certificate of deals that conform to `uniform` or `maximum`, with the least price that
/// passes its line 2. It agrees, so `verify` accepts it. Err only out of memory.
pub fn certify(
    alloc: Global,
    rule: Rule,
    symbol: &Name,
    orders: &OrderList<'_>,
    deals: &[Deal],
) -> Result<Vec<u8>, NoMemory>
    requires order_list { IsOrderList orders.now }
    requires deal_list { IsDealList orders.now deals.now }
    requires rule { IsTrue (asks_for_greatest rule) }
    requires conforms { Conforms rule orders.now deals.now }
    ensures certificate { IfOk result (λ text.
        IsCertificateUnder rule symbol.now orders.now deals.now text.items) }
    ensures agrees { IfOk result (λ text.
        AgreesUnder rule symbol.now orders.now deals.now text.items) }
{
    // Laws that the answer rests on. They compute nothing.
    greatest_matching_reaches_the_least_cut();
    short_orders_do_not_meet();
    // These calls give the proof the ranges of the numbers and the form that a name keeps.
    orders.numbers_are_in_range();
    deals_in_range(deals);
    let _ = symbol.bytes();
    let rule = rule.volume_rule().unwrap();
    let counts = count(alloc, orders, deals)?;
    let price = least_price(alloc, rule, orders, &counts.traded)?;
    certificate_of(alloc, rule, symbol, orders, &counts, price)
}
