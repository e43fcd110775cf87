//! Reading a log that is there as a whole.
ghost use Rattle.std.specs.Prelude.{◌-◌, ◌<◌, ◌≤◌, ◌^◌, All, IfOk, length, vec_len};
ghost use Rattle.audit_base.specs.Histories.{HasMarketPrice};
ghost use Rattle.fix_messages.specs.OrderTables.{order_of_message};
ghost use Rattle.fix_messages.specs.ReportTable.{report_of_message};
ghost use Rattle.fix_messages.specs.Feeds.{AnswersMessageRecords};
ghost use Rattle.fix_messages.specs.Logs.{read_fix_log, fix_order_records, fix_report_records, IsOnlyFixReading};
ghost use Rattle.log_source.specs.Collectors.{HasNineBytesEach};
ghost use Rattle.log_source.specs.Sources.{longest_read};

use crate::entries::FixRecord;
use crate::feeds::FixFeed;
use crate::meanings::Report;
use audit_base::faults::LogFault;
use audit_base::records::OrderRecord;
use log_source::feed::Feed;
use std::alloc::Global;

/// One feed and its end.
fn entries_of<R: FixRecord>(alloc: Global, bytes: &[u8]) -> Result<Vec<R>, LogFault>
    requires { length bytes.now ≤ longest_read }
    ensures reads { AnswersMessageRecords (read_fix_log R.meaning bytes.now) result }
    ensures sound { IfOk result (λ entries. All R.sound entries.items) }
    ensures fits_places { IfOk result (λ entries. vec_len entries < 2 ^ 32 - 1) }
    ensures nine { IfOk result (λ entries. HasNineBytesEach entries.items bytes.now) }
    ensures unique { IsOnlyFixReading R.meaning bytes.now (read_fix_log R.meaning bytes.now) }
{
    let mut feed = FixFeed::new(alloc);
    feed.feed(bytes)?;
    feed.finish()
}

/// The new orders, cancels and replacements of an order log of at most 34,359,738,368 bytes, in
/// order. Messages of other types and possible duplicates are passed over.
///
/// The answer is `Bad` exactly where the log is bad: its place is one more than the number of
/// records before the first bad message, over all symbols; its offset is that of the message's
/// first byte, after CR and LF bytes; its reason is the first test that the message fails: the
/// tests of its frame, of its fields, and of the table of its type. Each log is good with one
/// list or bad at one place, and never both. A market order has the market price of its side. The
/// answer is `Memory` where there was too little. Each record has at least nine bytes of the log,
/// so the places of all records fit 32 bits.
pub fn fix_orders_of(alloc: Global, bytes: &[u8]) -> Result<Vec<OrderRecord>, LogFault>
    requires { length bytes.now ≤ longest_read }
    ensures reads { AnswersMessageRecords (fix_order_records bytes.now) result }
    ensures priced { IfOk result (λ entries. All HasMarketPrice entries.items) }
    ensures fits_places { IfOk result (λ entries. vec_len entries < 2 ^ 32 - 1) }
    ensures nine { IfOk result (λ entries. HasNineBytesEach entries.items bytes.now) }
    ensures unique { IsOnlyFixReading order_of_message bytes.now (fix_order_records bytes.now) }
{
    entries_of(alloc, bytes)
}

/// The trade reports of a trade log of at most 34,359,738,368 bytes, in order: execution reports
/// of execution type F. Messages of other types, possible duplicates and reports of other
/// execution types are passed over. `Bad` and `Memory` come as for an order log, and each report
/// has at least nine bytes as there.
pub fn fix_reports_of(alloc: Global, bytes: &[u8]) -> Result<Vec<Report>, LogFault>
    requires { length bytes.now ≤ longest_read }
    ensures reads { AnswersMessageRecords (fix_report_records bytes.now) result }
    ensures fits_places { IfOk result (λ reports. vec_len reports < 2 ^ 32 - 1) }
    ensures nine { IfOk result (λ reports. HasNineBytesEach reports.items bytes.now) }
    ensures unique { IsOnlyFixReading report_of_message bytes.now (fix_report_records bytes.now) }
{
    entries_of(alloc, bytes)
}
