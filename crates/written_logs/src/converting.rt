//! The records of a log of a shelf, written in either form.
ghost use Rattle.std.specs.Prelude.{◌≡◌, ◌≤◌, ◌≢◌, Err};
ghost use Rattle.log_source.specs.Sources.{longest_read};
ghost use Rattle.log_verdict.specs.Collecting.{CollectsLog, CollectsTrades, TouchesOnly};
ghost use Rattle.log_verdict.specs.LogVerdicts.{records_of_order_log, trades_of_trade_log};
ghost use Rattle.log_verdict.specs.Steps.{reading_by, KeepsShelfLogs};
ghost use Rattle.written_logs.specs.Texts.{IsMadeOfOrders, IsMadeOfTrades};

use crate::laws::written_logs_are_read_again;
use crate::message_log::MessageLog;
use audit_base::records::{OrderRecord, TradeRecord};
use audit_base::terms::{Form, Which};
use csv_logs::log_text::ConvertedLog;
use log_source::shelf::Shelf;
use log_verdict::reading::{CollectedTrades, ReadingFault, collect_orders, collect_trades};
use log_verdict::sources::Source;
use std::alloc::Global;

fn orders_as_csv<F: Shelf>(
    alloc: Global,
    shelf: &mut F,
    source: &Source<'_>,
) -> Result<Vec<u8>, ReadingFault>
    requires limit { source.now.limit ≤ longest_read }
    ensures logs { KeepsShelfLogs F.Shelf shelf.old shelf.new }
    ensures only { TouchesOnly (reading_by source.now F.Shelf shelf.old shelf.new) Which.Orders }
    ensures read { CollectsLog (IsMadeOfOrders Form.Csv) (records_of_order_log source.now.form)
        (reading_by source.now F.Shelf shelf.old shelf.new) Which.Orders
        source.now.name.now result }
    ensures within { (F.slot shelf.old Which.Orders).taken ≤ source.now.limit
        → result ≢ Err ReadingFault.TooLong
        → (F.slot shelf.new Which.Orders).taken ≤ source.now.limit }
{
    let log = match ConvertedLog::new(alloc) {
        Ok(log) => log,
        Err(_) => return Err(ReadingFault::Memory),
    };
    match collect_orders::<F, ConvertedLog<OrderRecord>>(alloc, shelf, source, log) {
        Ok(log) => match log.end() {
            Ok(text) => Ok(text),
            Err(_) => Err(ReadingFault::Memory),
        },
        Err(unread) => Err(unread),
    }
}

fn orders_as_fix<F: Shelf>(
    alloc: Global,
    shelf: &mut F,
    source: &Source<'_>,
) -> Result<Vec<u8>, ReadingFault>
    requires limit { source.now.limit ≤ longest_read }
    ensures logs { KeepsShelfLogs F.Shelf shelf.old shelf.new }
    ensures only { TouchesOnly (reading_by source.now F.Shelf shelf.old shelf.new) Which.Orders }
    ensures read { CollectsLog (IsMadeOfOrders Form.Fix) (records_of_order_log source.now.form)
        (reading_by source.now F.Shelf shelf.old shelf.new) Which.Orders
        source.now.name.now result }
    ensures within { result ≢ Err ReadingFault.TooLong
        → (F.slot shelf.new Which.Orders).taken ≤ source.now.limit }
{
    // A law that the text rests on. It computes nothing.
    written_logs_are_read_again();
    let log = MessageLog::new(alloc);
    match collect_orders::<F, MessageLog<OrderRecord>>(alloc, shelf, source, log) {
        Ok(log) => Ok(log.text),
        Err(unread) => Err(unread),
    }
}

/// The records of an order log, written as a log of this form. The text is made whole, so memory
/// goes by its length. Err where the log was not read into records, and why.
pub fn convert_orders<F: Shelf>(
    alloc: Global,
    shelf: &mut F,
    source: &Source<'_>,
    form: Form,
) -> Result<Vec<u8>, ReadingFault>
    requires limit { source.now.limit ≤ longest_read }
    ensures logs { KeepsShelfLogs F.Shelf shelf.old shelf.new }
    ensures only { TouchesOnly (reading_by source.now F.Shelf shelf.old shelf.new) Which.Orders }
    ensures read { CollectsLog (IsMadeOfOrders form) (records_of_order_log source.now.form)
        (reading_by source.now F.Shelf shelf.old shelf.new) Which.Orders
        source.now.name.now result }
    ensures within { (F.slot shelf.old Which.Orders).taken ≤ source.now.limit
        → result ≢ Err ReadingFault.TooLong
        → (F.slot shelf.new Which.Orders).taken ≤ source.now.limit }
{
    match form {
        Form::Csv => orders_as_csv(alloc, shelf, source),
        Form::Fix => orders_as_fix(alloc, shelf, source),
    }
}

fn trades_as_csv<F: Shelf>(
    alloc: Global,
    shelf: &mut F,
    source: &Source<'_>,
) -> Result<CollectedTrades<Vec<u8>>, ReadingFault>
    requires limit { source.now.limit ≤ longest_read }
    ensures logs { KeepsShelfLogs F.Shelf shelf.old shelf.new }
    ensures only { TouchesOnly (reading_by source.now F.Shelf shelf.old shelf.new) Which.Trades }
    ensures read { CollectsTrades (IsMadeOfTrades Form.Csv) (trades_of_trade_log source.now.form)
        (reading_by source.now F.Shelf shelf.old shelf.new) Which.Trades
        source.now.name.now result }
    ensures within { (F.slot shelf.old Which.Trades).taken ≤ source.now.limit
        → result ≢ Err ReadingFault.TooLong
        → (F.slot shelf.new Which.Trades).taken ≤ source.now.limit }
{
    let log = match ConvertedLog::new(alloc) {
        Ok(log) => log,
        Err(_) => return Err(ReadingFault::Memory),
    };
    match collect_trades::<F, ConvertedLog<TradeRecord>>(alloc, shelf, source, log) {
        Ok(CollectedTrades::Trades(log)) => match log.end() {
            Ok(text) => Ok(CollectedTrades::Trades(text)),
            Err(_) => Err(ReadingFault::Memory),
        },
        Ok(CollectedTrades::Alone(finding)) => Ok(CollectedTrades::Alone(finding)),
        Err(unread) => Err(unread),
    }
}

fn trades_as_fix<F: Shelf>(
    alloc: Global,
    shelf: &mut F,
    source: &Source<'_>,
) -> Result<CollectedTrades<Vec<u8>>, ReadingFault>
    requires limit { source.now.limit ≤ longest_read }
    ensures logs { KeepsShelfLogs F.Shelf shelf.old shelf.new }
    ensures only { TouchesOnly (reading_by source.now F.Shelf shelf.old shelf.new) Which.Trades }
    ensures read { CollectsTrades (IsMadeOfTrades Form.Fix) (trades_of_trade_log source.now.form)
        (reading_by source.now F.Shelf shelf.old shelf.new) Which.Trades
        source.now.name.now result }
    ensures within { result ≢ Err ReadingFault.TooLong
        → (F.slot shelf.new Which.Trades).taken ≤ source.now.limit }
{
    // A law that the text rests on. It computes nothing.
    written_logs_are_read_again();
    let log = MessageLog::new(alloc);
    match collect_trades::<F, MessageLog<TradeRecord>>(alloc, shelf, source, log) {
        Ok(CollectedTrades::Trades(log)) => Ok(CollectedTrades::Trades(log.text)),
        Ok(CollectedTrades::Alone(finding)) => Ok(CollectedTrades::Alone(finding)),
        Err(unread) => Err(unread),
    }
}

/// The trades of a trade log, written as a log of this form; or finding 4 where its reports do not
/// pair. The text is made whole, so memory goes by its length. Err where the log was not read into
/// records, and why.
pub fn convert_trades<F: Shelf>(
    alloc: Global,
    shelf: &mut F,
    source: &Source<'_>,
    form: Form,
) -> Result<CollectedTrades<Vec<u8>>, ReadingFault>
    requires limit { source.now.limit ≤ longest_read }
    ensures logs { KeepsShelfLogs F.Shelf shelf.old shelf.new }
    ensures only { TouchesOnly (reading_by source.now F.Shelf shelf.old shelf.new) Which.Trades }
    ensures read { CollectsTrades (IsMadeOfTrades form) (trades_of_trade_log source.now.form)
        (reading_by source.now F.Shelf shelf.old shelf.new) Which.Trades
        source.now.name.now result }
    ensures within { (F.slot shelf.old Which.Trades).taken ≤ source.now.limit
        → result ≢ Err ReadingFault.TooLong
        → (F.slot shelf.new Which.Trades).taken ≤ source.now.limit }
{
    match form {
        Form::Csv => trades_as_csv(alloc, shelf, source),
        Form::Fix => trades_as_fix(alloc, shelf, source),
    }
}
