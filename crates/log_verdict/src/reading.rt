//! Handing the records of a log of a shelf to a collector, piece by piece,
//! in the form that the log is read in.
ghost use Rattle.std.specs.Prelude.{◌≡◌, ◌≤◌, ◌≢◌, [], IfOk};
ghost use Rattle.audit_base.specs.declared.terms.Which.{Which};
ghost use Rattle.csv_logs.specs.Logs.{read_csv_log};
ghost use Rattle.fix_messages.specs.Logs as fix;
ghost use Rattle.log_source.specs.Collectors.{HasPlace};
ghost use Rattle.log_source.specs.Sources.{longest_read};
ghost use Rattle.log_verdict.specs.LogVerdicts.{records_of_order_log, trades_of_trade_log, paired_reports};
ghost use Rattle.log_verdict.specs.Collecting.{CollectsLog, CollectsTrades, HasFewCollected, TouchesOnly};
ghost use Rattle.log_verdict.specs.Steps.{reading_by, KeepsShelfLogs};

use crate::sources::Source;
use audit_base::faults::{BadPlace, LogFault};
use audit_base::findings::Finding;
use audit_base::records::{OrderRecord, TradeRecord};
use audit_base::terms::{Form, Which};
use csv_logs::entries::CsvRecord;
use csv_logs::feeds::CsvFeed;
use fix_messages::entries::FixRecord;
use fix_messages::feeds::FixFeed;
use fix_messages::meanings::Report;
use fix_messages::pairing_draft::PairingDraft;
use log_source::collector::Collector;
use log_source::pump::pump;
use log_source::shelf::Shelf;
use log_source::take::TakeFault;
use std::alloc::Global;

/// Why a log was not read into records.
#[derive(Clone, Copy, Debug, PartialEq, Eq)]
pub enum ReadingFault {
    /// The log is not in its grammar, and this is its first bad place.
    Bad(BadPlace),
    /// A start or a read failed.
    ReadFault,
    /// The log has more bytes than it may have.
    TooLong,
    Memory,
}

impl From<TakeFault> for ReadingFault {
    ghost use Rattle.log_verdict.specs.Collecting.{unread_of_take};

    ghost from_gives = { λ fault made. made ≡ unread_of_take fault };

    fn from(fault: TakeFault) -> ReadingFault {
        match fault {
            TakeFault::Fault => ReadingFault::ReadFault,
            TakeFault::TooLong => ReadingFault::TooLong,
            TakeFault::Memory => ReadingFault::Memory,
        }
    }
}

impl From<LogFault> for ReadingFault {
    ghost use Rattle.log_verdict.specs.Collecting.{unread_of_log};

    ghost from_gives = { λ fault made. made ≡ unread_of_log fault };

    fn from(fault: LogFault) -> ReadingFault {
        match fault {
            LogFault::Bad(bad) => ReadingFault::Bad(bad),
            LogFault::Memory => ReadingFault::Memory,
        }
    }
}

/// Hands the records of the CSV log of this name to a collector. Where the log is not in its
/// grammar it is still read to its end.
fn collect_csv<F: Shelf, R: CsvRecord, K: Collector<Entry = R>>(
    alloc: Global,
    shelf: &mut F,
    which: Which,
    source: &Source<'_>,
    collector: K,
) -> Result<K, ReadingFault>
    requires limit { source.now.limit ≤ longest_read }
    requires fresh { K.has_taken collector [] }
    ensures logs { KeepsShelfLogs F.Shelf shelf.old shelf.new }
    ensures only { TouchesOnly (reading_by source.now F.Shelf shelf.old shelf.new) which }
    ensures read { CollectsLog K.has_taken (read_csv_log R.names R.meaning)
        (reading_by source.now F.Shelf shelf.old shelf.new) which source.now.name.now result }
    ensures within { result ≢ Err ReadingFault.TooLong
        → (F.slot shelf.new which).taken ≤ source.now.limit }
    ensures fits_places { IfOk result (HasPlace K.has_taken) }
{
    let mut feed: CsvFeed<K> = CsvFeed::over(alloc, collector);
    pump(shelf, which, source.name, source.limit, &mut feed)?;
    match feed.close() {
        Ok(collector) => Ok(collector),
        Err(fault) => Err(ReadingFault::from(fault)),
    }
}

/// The same of a FIX log.
fn collect_fix<F: Shelf, R: FixRecord, K: Collector<Entry = R>>(
    alloc: Global,
    shelf: &mut F,
    which: Which,
    source: &Source<'_>,
    collector: K,
) -> Result<K, ReadingFault>
    requires limit { source.now.limit ≤ longest_read }
    requires fresh { K.has_taken collector [] }
    ensures logs { KeepsShelfLogs F.Shelf shelf.old shelf.new }
    ensures only { TouchesOnly (reading_by source.now F.Shelf shelf.old shelf.new) which }
    ensures read { CollectsLog K.has_taken (fix.read_fix_log R.meaning)
        (reading_by source.now F.Shelf shelf.old shelf.new) which source.now.name.now result }
    ensures within { result ≢ Err ReadingFault.TooLong
        → (F.slot shelf.new which).taken ≤ source.now.limit }
    ensures fits_places { IfOk result (HasPlace K.has_taken) }
{
    let mut feed: FixFeed<K> = FixFeed::over(alloc, collector);
    pump(shelf, which, source.name, source.limit, &mut feed)?;
    match feed.close() {
        Ok(collector) => Ok(collector),
        Err(fault) => Err(ReadingFault::from(fault)),
    }
}

/// What came of the trades of a log.
#[derive(Drop)]
pub enum CollectedTrades<K> {
    /// The collector has been handed them.
    Trades(K),
    /// A report has no partner (`unpaired`), and the log has no trades.
    Alone(Finding),
}

/// Hands the records of an order log to a collector.
pub fn collect_orders<F: Shelf, K: Collector<Entry = OrderRecord>>(
    alloc: Global,
    shelf: &mut F,
    source: &Source<'_>,
    collector: K,
) -> Result<K, ReadingFault>
    requires limit { source.now.limit ≤ longest_read }
    requires fresh { K.has_taken collector [] }
    ensures logs { KeepsShelfLogs F.Shelf shelf.old shelf.new }
    ensures only { TouchesOnly (reading_by source.now F.Shelf shelf.old shelf.new) Which.Orders }
    ensures read { CollectsLog K.has_taken (records_of_order_log source.now.form)
        (reading_by source.now F.Shelf shelf.old shelf.new) Which.Orders
        source.now.name.now result }
    ensures within { result ≢ Err ReadingFault.TooLong
        → (F.slot shelf.new Which.Orders).taken ≤ source.now.limit }
    ensures fits_places { IfOk result (HasPlace K.has_taken) }
{
    match source.form {
        Form::Csv => collect_csv::<F, OrderRecord, K>(
            alloc,
            shelf,
            Which::Orders,
            source,
            collector,
        ),
        Form::Fix => collect_fix::<F, OrderRecord, K>(
            alloc,
            shelf,
            Which::Orders,
            source,
            collector,
        ),
    }
}

/// Hands the trades of a FIX trade log, which are pairs of reports, to a collector.
fn collect_pairs<F: Shelf, K: Collector<Entry = TradeRecord>>(
    alloc: Global,
    shelf: &mut F,
    source: &Source<'_>,
    collector: K,
) -> Result<CollectedTrades<K>, ReadingFault>
    requires limit { source.now.limit ≤ longest_read }
    requires fresh { K.has_taken collector [] }
    ensures logs { KeepsShelfLogs F.Shelf shelf.old shelf.new }
    ensures only { TouchesOnly (reading_by source.now F.Shelf shelf.old shelf.new) Which.Trades }
    ensures read { CollectsTrades K.has_taken
        (λ bytes. paired_reports (fix.fix_report_records bytes))
        (reading_by source.now F.Shelf shelf.old shelf.new) Which.Trades
        source.now.name.now result }
    ensures within { result ≢ Err ReadingFault.TooLong
        → (F.slot shelf.new Which.Trades).taken ≤ source.now.limit }
    ensures fits_places { IfOk result (HasFewCollected K.has_taken) }
{
    let draft = PairingDraft::over(alloc, source.seed, collector);
    let draft = collect_fix::<F, Report, PairingDraft<K>>(
        alloc,
        shelf,
        Which::Trades,
        source,
        draft,
    )?;
    match draft.end() {
        Ok(collector) => Ok(CollectedTrades::Trades(collector)),
        Err(finding) => Ok(CollectedTrades::Alone(finding)),
    }
}

/// Hands the trades of a trade log to a collector.
pub fn collect_trades<F: Shelf, K: Collector<Entry = TradeRecord>>(
    alloc: Global,
    shelf: &mut F,
    source: &Source<'_>,
    collector: K,
) -> Result<CollectedTrades<K>, ReadingFault>
    requires limit { source.now.limit ≤ longest_read }
    requires fresh { K.has_taken collector [] }
    ensures logs { KeepsShelfLogs F.Shelf shelf.old shelf.new }
    ensures only { TouchesOnly (reading_by source.now F.Shelf shelf.old shelf.new) Which.Trades }
    ensures read { CollectsTrades K.has_taken (trades_of_trade_log source.now.form)
        (reading_by source.now F.Shelf shelf.old shelf.new) Which.Trades
        source.now.name.now result }
    ensures within { result ≢ Err ReadingFault.TooLong
        → (F.slot shelf.new Which.Trades).taken ≤ source.now.limit }
    ensures fits_places { IfOk result (HasFewCollected K.has_taken) }
{
    match source.form {
        Form::Csv => {
            let collector = collect_csv::<F, TradeRecord, K>(
                alloc,
                shelf,
                Which::Trades,
                source,
                collector,
            )?;
            Ok(CollectedTrades::Trades(collector))
        }
        Form::Fix => collect_pairs(alloc, shelf, source, collector),
    }
}
