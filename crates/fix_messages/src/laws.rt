//! What holds of all written messages, in one sentence each. Nothing is computed here: a law is a
//! function's contract, so that the check proves it.
ghost use Rattle.std.specs.Prelude.{◌≡◌, All, List, Ok};
ghost use Rattle.std.specs.List.{flat_map};
ghost use Rattle.audit_base.specs.declared.records.OrderRecord.{OrderRecord};
ghost use Rattle.audit_base.specs.declared.records.TradeRecord.{TradeRecord};
ghost use Rattle.fix_fields.specs.Grammar.{Fields, bytes_of};
ghost use Rattle.fix_messages.specs.Logs.{fix_order_records, fix_report_records};
ghost use Rattle.fix_messages.specs.OrderTables.{order_meaning};
ghost use Rattle.trade_reports.specs.Pairings.{pairing};
ghost use Rattle.fix_messages.specs.ReportTable.{report_meaning};
ghost use Rattle.trade_reports.specs.Reports.{reports_of};
ghost use Rattle.fix_messages.specs.Written.{IsOrderInForm, IsReportInForm, IsTradeInForm, IsWritable, order_fields, fix_orders_text, report_fields, fix_trades_text};
ghost use Rattle.trade_reports.specs.declared.reports.Report.{Report};

use crate::meanings::{OrderMeaning, ReportMeaning};
use trade_reports::laws::reports_are_paired_again;

/// The body that is written of an order is its fields, and these mean the order.
pub fn written_orders_mean_themselves()
    ensures fields { (order : OrderRecord) → IsOrderInForm order
        → Fields (bytes_of (order_fields order)) (order_fields order) }
    ensures means { (order : OrderRecord) → IsWritable order
        → order_meaning (order_fields order) ≡ Ok (OrderMeaning.Entry order) }
{}

/// The body that is written of a report is its fields, and these mean the report.
pub fn written_reports_mean_themselves()
    ensures fields { (report : Report) → IsReportInForm report
        → Fields (bytes_of (report_fields report)) (report_fields report) }
    ensures means { (report : Report) → IsReportInForm report
        → report_meaning (report_fields report) ≡ Ok (ReportMeaning.Entry report) }
{}

/// Logs that are written order by order and trade by trade are read again: the order log says these
/// orders, and the trade log two reports for each trade, which pair into these trades.
pub fn written_logs_are_read_again()
    ensures orders { (orders : List OrderRecord) → All IsWritable orders
        → fix_order_records (fix_orders_text orders) ≡ Ok orders }
    ensures reports { (trades : List TradeRecord) → All IsTradeInForm trades
        → fix_report_records (fix_trades_text trades) ≡ Ok (flat_map reports_of trades) }
    ensures pairs { (trades : List TradeRecord) → pairing (flat_map reports_of trades) ≡ Ok trades }
{
    reports_are_paired_again();
}
