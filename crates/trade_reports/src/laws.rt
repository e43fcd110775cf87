//! What holds of the reports of all trades. Nothing is computed here:
//! a law is a function's contract, so that the check proves it.
ghost use Rattle.std.specs.Prelude.{◌≡◌, List, Ok};
ghost use Rattle.std.specs.List.{flat_map};
ghost use Rattle.audit_base.specs.declared.records.TradeRecord.{TradeRecord};
ghost use Rattle.trade_reports.specs.Pairings.{pairing};
ghost use Rattle.trade_reports.specs.Ranges.{PairedTradesAreInRange};
ghost use Rattle.trade_reports.specs.Reports.{reports_of};

/// The two reports of each of some trades, trade by trade, pair into these trades.
pub fn reports_are_paired_again()
    ensures { (trades : List TradeRecord) → pairing (flat_map reports_of trades) ≡ Ok trades }
{}

/// Reports with quantities from 1 to 10^12 and prices from 0 to 10^18 - 1 pair
/// into trades with such numbers.
pub fn paired_trades_are_in_range()
    ensures { PairedTradesAreInRange }
{}
