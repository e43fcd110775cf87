//! Reading a log of a shelf for what is in it, piece by piece, in the form that it is read in.
ghost use Rattle.std.specs.Prelude.{◌≡◌, ◌≤◌, ◌≢◌};
ghost use Rattle.audit_base.specs.declared.terms.Which.{Which};
ghost use Rattle.csv_logs.specs.Logs.{read_csv_log};
ghost use Rattle.log_contents.specs.DayItems.{csv_items, fix_items, order_log_items, trade_log_items};
ghost use Rattle.log_contents.specs.DayReading.{GivesSummary};
ghost use Rattle.fix_messages.specs.Logs.{read_fix_log};
ghost use Rattle.log_contents.specs.Kinds.{kinds_of_messages};
ghost use Rattle.log_source.specs.Sources.{longest_read};
ghost use Rattle.log_verdict.specs.Collecting.{TouchesOnly};
ghost use Rattle.log_verdict.specs.LogVerdicts.{records_of_order_log};
ghost use Rattle.log_verdict.specs.Steps.{reading_by, KeepsShelfLogs};

use crate::contents::Contents;
use crate::csv_contents::KindRecord;
use crate::message_feed::MessageFeed;
use crate::record_facts::TimedRecord;
use crate::summaries::Summary;
use audit_base::records::{OrderRecord, TradeRecord};
use audit_base::terms::{Form, Which};
use csv_logs::entries::CsvRecord;
use csv_logs::feeds::CsvFeed;
use fix_messages::entries::FixRecord;
use fix_messages::meanings::Report;
use log_source::pump::pump;
use log_source::shelf::Shelf;
use log_verdict::reading::ReadingFault;
use log_verdict::sources::Source;
use std::alloc::Global;

/// What is told of the CSV log of this name. Where the log is not in its grammar it is still read
/// to its end.
fn read_csv<F: Shelf, R: CsvRecord + KindRecord>(
    alloc: Global,
    shelf: &mut F,
    which: Which,
    source: &Source<'_>,
) -> Result<Summary, ReadingFault>
    requires limit { source.now.limit ≤ longest_read }
    ensures logs { KeepsShelfLogs F.Shelf shelf.old shelf.new }
    ensures only { TouchesOnly (reading_by source.now F.Shelf shelf.old shelf.new) which }
    ensures read { let records = read_csv_log R.names R.meaning in
        let items = csv_items R.symbol_of R.time_of R.kind_of in
        GivesSummary (λ bytes. items (records bytes)) records
        (reading_by source.now F.Shelf shelf.old shelf.new) which source.now.name.now result }
    ensures within { result ≢ Err ReadingFault.TooLong
        → (F.slot shelf.new which).taken ≤ source.now.limit }
{
    let contents: Contents<R> = Contents::new(alloc, source.seed);
    let mut feed: CsvFeed<Contents<R>> = CsvFeed::over(alloc, contents);
    pump(shelf, which, source.name, source.limit, &mut feed)?;
    match feed.close() {
        Ok(contents) => Ok(contents.summary()),
        Err(fault) => Err(ReadingFault::from(fault)),
    }
}

/// The same of a FIX log.
fn read_fix<F: Shelf, R: FixRecord + TimedRecord>(
    alloc: Global,
    shelf: &mut F,
    which: Which,
    source: &Source<'_>,
) -> Result<Summary, ReadingFault>
    requires limit { source.now.limit ≤ longest_read }
    ensures logs { KeepsShelfLogs F.Shelf shelf.old shelf.new }
    ensures only { TouchesOnly (reading_by source.now F.Shelf shelf.old shelf.new) which }
    ensures read { let records = read_fix_log R.meaning in
        let items = fix_items R.symbol_of R.time_of in
        let kinds = kinds_of_messages R.meaning in
        GivesSummary (λ bytes. items (records bytes) (kinds bytes)) records
        (reading_by source.now F.Shelf shelf.old shelf.new) which source.now.name.now result }
    ensures within { result ≢ Err ReadingFault.TooLong
        → (F.slot shelf.new which).taken ≤ source.now.limit }
{
    let mut feed: MessageFeed<R> = MessageFeed::new(alloc, source.seed);
    pump(shelf, which, source.name, source.limit, &mut feed)?;
    match feed.close() {
        Ok(contents) => Ok(contents.summary()),
        Err(fault) => Err(ReadingFault::from(fault)),
    }
}

/// What is told of an order log of at most `source.limit` bytes, or why it was not read. `Bad`
/// comes exactly where the log is not in its grammar, with the first bad place, which is that of an
/// audit.
pub fn summary_of_orders<F: Shelf>(
    alloc: Global,
    shelf: &mut F,
    source: &Source<'_>,
) -> Result<Summary, ReadingFault>
    requires limit { source.now.limit ≤ longest_read }
    ensures logs { KeepsShelfLogs F.Shelf shelf.old shelf.new }
    ensures only { TouchesOnly (reading_by source.now F.Shelf shelf.old shelf.new) Which.Orders }
    ensures read { GivesSummary (order_log_items source.now.form)
        (records_of_order_log source.now.form)
        (reading_by source.now F.Shelf shelf.old shelf.new) Which.Orders
        source.now.name.now result }
    ensures within { result ≢ Err ReadingFault.TooLong
        → (F.slot shelf.new Which.Orders).taken ≤ source.now.limit }
{
    match source.form {
        Form::Csv => read_csv::<F, OrderRecord>(alloc, shelf, Which::Orders, source),
        Form::Fix => read_fix::<F, OrderRecord>(alloc, shelf, Which::Orders, source),
    }
}

/// The same of a trade log. Its reports need not pair.
pub fn summary_of_trades<F: Shelf>(
    alloc: Global,
    shelf: &mut F,
    source: &Source<'_>,
) -> Result<Summary, ReadingFault>
    requires limit { source.now.limit ≤ longest_read }
    ensures logs { KeepsShelfLogs F.Shelf shelf.old shelf.new }
    ensures only { TouchesOnly (reading_by source.now F.Shelf shelf.old shelf.new) Which.Trades }
    ensures read { GivesSummary (trade_log_items source.now.form) (trade_log_items source.now.form)
        (reading_by source.now F.Shelf shelf.old shelf.new) Which.Trades
        source.now.name.now result }
    ensures within { result ≢ Err ReadingFault.TooLong
        → (F.slot shelf.new Which.Trades).taken ≤ source.now.limit }
{
    match source.form {
        Form::Csv => read_csv::<F, TradeRecord>(alloc, shelf, Which::Trades, source),
        Form::Fix => read_fix::<F, Report>(alloc, shelf, Which::Trades, source),
    }
}
