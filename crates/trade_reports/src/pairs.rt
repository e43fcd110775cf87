//! What a pair of reports gives.
ghost use Rattle.std.specs.Prelude.{◌≡◌};
ghost use Rattle.trade_reports.specs.Pairings.{reports_agree, trade_of_reports};

use crate::reports::Report;
use audit_base::records::TradeRecord;
use audit_base::terms::Side;

/// Whether two reports agree: one is of the buy side and the other of the sell side, and quantity,
/// price and symbol are equal.
pub(crate) fn agree(first: &Report, second: &Report) -> bool
    ensures { result ≡ reports_agree first.now second.now }
{
    first.side != second.side
        && first.quantity == second.quantity
        && first.price == second.price
        && first.symbol == second.symbol
}

/// The trade of a pair: the keys of its two reports, and the time of the second one.
pub(crate) fn trade_of(first: &Report, second: &Report) -> TradeRecord
    ensures { result ≡ trade_of_reports first.now second.now }
{
    let (buyer, seller) = match first.side {
        Side::Buy => (first, second),
        Side::Sell => (second, first),
    };
    TradeRecord {
        trade: second.trade,
        time: second.time,
        symbol: second.symbol,
        buy: buyer.key,
        sell: seller.key,
        quantity: second.quantity,
        price: second.price,
    }
}
