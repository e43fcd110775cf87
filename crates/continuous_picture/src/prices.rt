//! The prices of trades, by the incoming deals.
ghost use Rattle.std.specs.Prelude.{◌≡◌, ◌<◌, ◌≤◌, length};
ghost use Rattle.continuous_picture.specs.Columns.{IsRangeIfThere};
ghost use Rattle.continuous_picture.specs.Prices.{IsPriceAmong};
ghost use Rattle.order_arrivals.specs.DealtOrders.{IsMarket, incoming_deal_at};

use crate::ranges::{LimitRange, with_limit};
use audit_base::numbers::Price;
use order_arrivals::dealt_orders::DealtOrders;

/// The price of one of the incoming deals.
fn price_of(market: &DealtOrders<'_>, index: usize) -> Price
    requires market { IsMarket market.now }
    requires index { index < length market.now.incoming_deals.now }
    ensures { result ≡ (incoming_deal_at market.now index).price }
{
    let incoming = market.incoming_deals[index];
    market.deals[incoming.deal as usize].price
}

/// The least and the greatest price of the incoming deals from one to before another.
pub(crate) fn prices_of(market: &DealtOrders<'_>, first: usize, next: usize) -> Option<LimitRange>
    requires market { IsMarket market.now }
    requires next { next ≤ length market.now.incoming_deals.now }
    ensures { IsRangeIfThere (IsPriceAmong market.now first next) result }
{
    let mut prices = None;
    for index in first..next {
        prices = with_limit(prices, Some(price_of(market, index)));
    }
    prices
}
