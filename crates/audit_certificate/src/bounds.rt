//! Line 2: a price that shows the volume to be the greatest.
ghost use Rattle.std.specs.Prelude.{◌≡◌, ◌<◌, ◌≤◌, ◌↔◌, ◌^◌, ℕ, List, IfOk, IsTrue, length};
ghost use Rattle.std.specs.List.{position};
ghost use Rattle.audit_base.specs.Numbers.{price_end};
ghost use Rattle.audit_certificate.specs.Agreement.{IsBoundLine, ShowsNoGreaterVolume};
ghost use Rattle.audit_certificate.specs.Bounds as bound;
ghost use Rattle.audit_certificate.specs.Texts.{bound_text};

use super::texts::append_bound;
use audit_base::faults::NoMemory;
use audit_base::numbers::read_price;
use audit_base::terms::{Side, VolumeRule};
use order_list::listed::ListedOrder;
use order_list::lists::OrderList;
use std::alloc::Global;
use volume_bound::direct::{demand_at, supply_below};
use volume_bound::extremes::least_cut;

/// One more than the greatest price. The bound may be this price, since nobody bids as much.
const ABOVE_ALL_PRICES: u64 = 1_000_000_000_000_000_000;

/// Whether the price shows that no volume is greater than this one.
fn shows_no_greater_volume(
    rule: VolumeRule,
    orders: &OrderList<'_>,
    volume: u128,
    price: u64,
) -> bool
    requires { length orders.now < 2 ^ 32 }
    ensures { IsTrue result ↔ ShowsNoGreaterVolume rule orders.now volume price }
{
    let demand = demand_at(orders, price);
    let below = supply_below(orders, price);
    match rule {
        VolumeRule::Maximum => demand <= volume && volume - demand == below,
        VolumeRule::Uniform => demand <= volume && below <= volume,
    }
}

/// The place of the first comma.
fn comma_in(text: &[u8]) -> Option<usize>
    ensures { result ≡ position bound.is_comma text.now }
{
    text.iter().position(|byte| *byte == b',')
}

/// What is before the first comma.
fn before_comma(text: &[u8]) -> &[u8]
    ensures { result.now ≡ bound.before_comma text.now }
{
    match comma_in(text) {
        None => text,
        Some(at) => &text[..at],
    }
}

/// The price that the text writes; where it writes none, the one whose text is not read as a price.
fn price_in_text(text: &[u8]) -> u64
    ensures same { result ≡ bound.price_in_text text.now }
    ensures in_range { result ≤ price_end }
{
    match read_price(text) {
        Some(price) => price.units(),
        None => ABOVE_ALL_PRICES,
    }
}

/// The price that a line 2 has after `bound,`; of any other line some price.
fn named_price(line: &[u8]) -> u64
    ensures same { result ≡ bound.named_price line.now }
    ensures in_range { result ≤ price_end }
{
    if line.len() < 6 {
        return ABOVE_ALL_PRICES;
    }
    price_in_text(before_comma(&line[6..]))
}

/// Whether the line is the canonical one of the price and the volume.
fn is_bound_text(
    alloc: Global,
    price: u64,
    volume: u128,
    line: &[u8],
    text: &mut Vec<u8>,
) -> Result<bool, NoMemory>
    requires { price ≤ price_end }
    ensures { IfOk result (λ same. IsTrue same ↔ (line.now ≡ bound_text price volume)) }
{
    text.clear();
    append_bound(alloc, price, volume, text)?;
    Ok(text.as_slice() == line)
}

/// Whether the line is a line 2 of this volume with a price that shows it. `text` is a buffer that
/// each call uses anew.
pub fn is_bound_line(
    alloc: Global,
    rule: VolumeRule,
    orders: &OrderList<'_>,
    volume: u128,
    line: &[u8],
    text: &mut Vec<u8>,
) -> Result<bool, NoMemory>
    requires { length orders.now < 2 ^ 32 }
    ensures { IfOk result (λ passes. IsTrue passes ↔ IsBoundLine rule orders.now volume line.now) }
{
    let price = named_price(line);
    if !is_bound_text(alloc, price, volume, line, text)? {
        return Ok(false);
    }
    Ok(shows_no_greater_volume(rule, orders, volume, price))
}

/// One unit above the limit of an order, if it is a bid that takes part and trades less than its
/// quantity; else 0.
fn above_if_short(order: &ListedOrder<'_>, traded: u128) -> u64
    ensures same { result ≡ bound.above_if_short order.now traded }
    ensures in_range { result ≤ price_end }
{
    let quantity = order.quantity().value();
    if order.is_uncancelled_on(Side::Buy) && traded < u128::from(quantity) {
        order.limit().units() + 1
    } else {
        0
    }
}

/// One unit above the greatest limit of a bid that is not fully traded; 0 where there is none.
fn above_short_bids(orders: &OrderList<'_>, traded: &[u128]) -> u64
    requires { length traded.now ≡ length orders.now }
    ensures same { result ≡ bound.above_short_bids orders.now traded.now (length orders.now) }
    ensures in_range { result ≤ price_end }
{
    let mut price = 0;
    for index in 0..orders.len() {
        price = above_if_short(&orders.at(index), traded[index]).max(price);
    }
    price
}

/// The least price that passes line 2, where the deals that trade this conform. Under `maximum` it
/// is that of the least cut. Under `uniform` it is one unit above the best bid that is not fully
/// traded: up to its limit the demand is above the volume. Err only out of memory.
pub fn least_price(
    alloc: Global,
    rule: VolumeRule,
    orders: &OrderList<'_>,
    traded: &[u128],
) -> Result<u64, NoMemory>
    requires fits_indices { length orders.now < 2 ^ 32 }
    requires count { length traded.now ≡ length orders.now }
    ensures price { IfOk result (bound.IsCertificatePrice rule orders.now traded.now) }
    ensures in_range { IfOk result (λ price. price ≤ price_end) }
{
    match rule {
        VolumeRule::Maximum => Ok(least_cut(alloc, orders)?.price),
        VolumeRule::Uniform => Ok(above_short_bids(orders, traded)),
    }
}
