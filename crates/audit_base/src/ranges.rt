//! The ranges of the numbers of records, as facts. Nothing is computed here:
//! the types keep the ranges, and reading a number gives it to a proof.
ghost use Rattle.audit_base.specs.Deals.{DealInRange, DealsInRange};
ghost use Rattle.audit_base.specs.Trades.{TradeInRange, TradesInRange};

use super::orders::Deal;
use super::records::TradeRecord;

/// The numbers of a deal are in their ranges.
pub fn deal_in_range(deal: &Deal)
    ensures { DealInRange deal.now }
{
    let _quantity = deal.quantity.value();
    let _price = deal.price.units();
}

/// The numbers of all deals are in their ranges.
pub fn deals_in_range(deals: &[Deal])
    ensures { DealsInRange deals.now }
{
    for deal in deals {
        deal_in_range(deal);
    }
}

/// The numbers of a trade are in their ranges.
pub fn trade_in_range(trade: &TradeRecord)
    ensures { TradeInRange trade.now }
{
    let _quantity = trade.quantity.value();
    let _price = trade.price.units();
}

/// The numbers of all trades are in their ranges.
pub fn trades_in_range(trades: &[TradeRecord])
    ensures { TradesInRange trades.now }
{
    for trade in trades {
        trade_in_range(trade);
    }
}
