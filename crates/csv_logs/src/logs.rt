//! Reading a log that is there as a whole.
ghost use Rattle.std.specs.Prelude.{◌-◌, ◌<◌, ◌≤◌, ◌^◌, All, IfOk, length, vec_len};
ghost use Rattle.audit_base.specs.Columns.{order_columns, trade_columns};
ghost use Rattle.csv_logs.specs.Logs.{read_csv_log, csv_order_records, csv_trade_records, IsOnlyCsvReading};
ghost use Rattle.csv_logs.specs.OrderLines.{order_of_row};
ghost use Rattle.csv_logs.specs.TradeLines.{trade_of_row};
ghost use Rattle.csv_logs.specs.Feeds.{AnswersLogRecords};
ghost use Rattle.audit_base.specs.Histories.{HasMarketPrice};
ghost use Rattle.log_source.specs.Collectors.{HasNineBytesEach};
ghost use Rattle.log_source.specs.Sources.{longest_read};

use crate::entries::CsvRecord;
use crate::feeds::CsvFeed;
use audit_base::faults::LogFault;
use audit_base::records::{OrderRecord, TradeRecord};
use log_source::feed::Feed;
use std::alloc::Global;

/// One feed and its end.
fn entries_of<R: CsvRecord>(alloc: Global, bytes: &[u8]) -> Result<Vec<R>, LogFault>
    requires { length bytes.now ≤ longest_read }
    ensures reads { AnswersLogRecords (read_csv_log R.names R.meaning bytes.now) result }
    ensures sound { IfOk result (λ entries. All R.sound entries.items) }
    ensures fits_places { IfOk result (λ entries. vec_len entries < 2 ^ 32 - 1) }
    ensures nine { IfOk result (λ entries. HasNineBytesEach entries.items bytes.now) }
    ensures unique { let reading = read_csv_log R.names R.meaning bytes.now in
        IsOnlyCsvReading R.names R.meaning bytes.now reading }
{
    let mut feed = CsvFeed::new(alloc);
    feed.feed(bytes)?;
    feed.finish()
}

/// The orders, cancels and replacements of an order log of at most 34,359,738,368 bytes, in
/// order. The answer is `Bad` exactly where the log is bad: its place is one more than the number
/// of records before the first bad line, over all symbols; its offset is that of the line's first
/// byte, the byte order mark and empty lines counted; its reason is the first test that the line
/// fails. A missing header is bad at the log's length. Each log is good with one list or bad at
/// one place, and never both. A market order has the market price of its side. The answer is
/// `Memory` where there was too little. Each record has at least nine bytes of the log, so the
/// places of all records fit 32 bits.
pub fn csv_orders_of(alloc: Global, bytes: &[u8]) -> Result<Vec<OrderRecord>, LogFault>
    requires { length bytes.now ≤ longest_read }
    ensures reads { AnswersLogRecords (csv_order_records bytes.now) result }
    ensures priced { IfOk result (λ entries. All HasMarketPrice entries.items) }
    ensures fits_places { IfOk result (λ entries. vec_len entries < 2 ^ 32 - 1) }
    ensures nine { IfOk result (λ entries. HasNineBytesEach entries.items bytes.now) }
    ensures unique { IsOnlyCsvReading order_columns order_of_row bytes.now
        (csv_order_records bytes.now) }
{
    entries_of(alloc, bytes)
}

/// The trades of a trade log of at most 34,359,738,368 bytes, in order. `Bad` and `Memory` come
/// as for an order log, and each record has at least nine bytes as there.
pub fn csv_trades_of(alloc: Global, bytes: &[u8]) -> Result<Vec<TradeRecord>, LogFault>
    requires { length bytes.now ≤ longest_read }
    ensures reads { AnswersLogRecords (csv_trade_records bytes.now) result }
    ensures fits_places { IfOk result (λ entries. vec_len entries < 2 ^ 32 - 1) }
    ensures nine { IfOk result (λ entries. HasNineBytesEach entries.items bytes.now) }
    ensures unique { IsOnlyCsvReading trade_columns trade_of_row bytes.now
        (csv_trade_records bytes.now) }
{
    entries_of(alloc, bytes)
}
