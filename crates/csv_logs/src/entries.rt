//! What a kind of log has of its own, the names of its columns and what nine fields
//! mean, and what its lines say by that.
ghost use Rattle.std.specs.Prelude.{◌≡◌, ℕ, IfOk, List, Ok, Result, false};
ghost use Rattle.audit_base.specs.declared.faults.Reason.{Reason};
ghost use Rattle.csv_logs.specs.Columns.{test_result};
ghost use Rattle.csv_logs.specs.Logs.{IsSymbolOf, same_fields};
ghost use Rattle.csv_logs.specs.Steps.{TakesFields, entry_says, fields_say, line_says};
ghost use Rattle.log_source.specs.Collectors.{HasPlace};

use crate::columns::{column_text, have_names};
use crate::fields::Fields;
use crate::lines::{is_broken, line_fields};
use crate::nine_fields::NineFields;
use crate::orders::{take_order, test_order};
use crate::trades::{take_trade, test_trade};
use audit_base::columns::columns;
use audit_base::faults::{NoMemory, Reason};
use audit_base::records::{LogRecord, OrderRecord, TradeRecord};
use audit_base::stamp_reader::StampReader;
use audit_base::terms::Which;
use log_source::collector::Collector;
use std::alloc::Global;

/// A record of a log: an order or a trade.
pub trait CsvRecord: LogRecord {
    // The names of the nine columns.
    ghost names: { List (List ℕ) };

    // What nine fields mean.
    ghost meaning: { List (List ℕ) → Result Self Reason };

    // What holds of every record that fields mean.
    ghost sound: { Self → Type 0 };

    /// Whether these are the names of the columns.
    fn are_names(fields: &Fields) -> bool
        ensures { result ≡ same_fields fields.now names };

    /// Hands the record that these nine fields mean to a collector, or gives the first column
    /// that is not in its form.
    fn take_nine<K: Collector<Entry = Self>>(
        entries: &mut K,
        fields: &NineFields<'_>,
        stamps: &mut StampReader,
    ) -> Result<Result<(), Reason>, NoMemory>
        requires { HasPlace K.has_taken entries.old }
        ensures { let says = entry_says (meaning fields.now) in
            IfOk result (TakesFields says (K.has_taken entries.old) (K.has_taken entries.new)) };

    /// The symbol of the record that these nine fields mean, if they mean one.
    fn symbol_in<'l>(fields: &NineFields<'l>) -> &'l [u8]
        ensures { IsSymbolOf Self.symbol_of (meaning fields.now) result.now };

    /// Whether these nine fields mean a record, or else the first column that is not in its form.
    fn test(fields: &NineFields<'_>, stamps: &mut StampReader) -> Result<(), Reason>
        ensures { result ≡ test_result (meaning fields.now) };

    /// Every record that fields mean is sound. This call does nothing: it only has its contract.
    fn means_sound_records()
        ensures { (fields : List (List ℕ)) → IfOk (meaning fields) sound };
}

impl CsvRecord for OrderRecord {
    ghost use Rattle.audit_base.specs.Columns.{order_columns};
    ghost use Rattle.csv_logs.specs.OrderLines.{order_of_row};
    ghost use Rattle.audit_base.specs.Histories.{HasMarketPrice};

    ghost names = { order_columns };

    ghost meaning = { order_of_row };

    ghost sound = { HasMarketPrice };

    fn are_names(fields: &Fields) -> bool {
        have_names(fields, &columns(Which::Orders))
    }

    fn take_nine<K: Collector<Entry = OrderRecord>>(
        entries: &mut K,
        fields: &NineFields<'_>,
        stamps: &mut StampReader,
    ) -> Result<Result<(), Reason>, NoMemory> {
        take_order(entries, fields, stamps)
    }

    fn symbol_in<'l>(fields: &NineFields<'l>) -> &'l [u8] {
        column_text(fields, 5)
    }

    fn test(fields: &NineFields<'_>, stamps: &mut StampReader) -> Result<(), Reason> {
        test_order(fields, stamps)
    }

    fn means_sound_records() {}
}

impl CsvRecord for TradeRecord {
    ghost use Rattle.std.specs.Prelude.{⊤};
    ghost use Rattle.audit_base.specs.Columns.{trade_columns};
    ghost use Rattle.csv_logs.specs.TradeLines.{trade_of_row};

    ghost names = { trade_columns };

    ghost meaning = { trade_of_row };

    ghost sound = { λ _. ⊤ };

    fn are_names(fields: &Fields) -> bool {
        have_names(fields, &columns(Which::Trades))
    }

    fn take_nine<K: Collector<Entry = TradeRecord>>(
        entries: &mut K,
        fields: &NineFields<'_>,
        stamps: &mut StampReader,
    ) -> Result<Result<(), Reason>, NoMemory> {
        take_trade(entries, fields, stamps)
    }

    fn symbol_in<'l>(fields: &NineFields<'l>) -> &'l [u8] {
        column_text(fields, 3)
    }

    fn test(fields: &NineFields<'_>, stamps: &mut StampReader) -> Result<(), Reason> {
        test_trade(fields, stamps)
    }

    fn means_sound_records() {}
}

/// Hands on that there is a record which the collector does not look at, where nine fields mean
/// one, or gives the first column that is not in its form.
fn pass_entry<R: CsvRecord, K: Collector<Entry = R>>(
    entries: &mut K,
    fields: &NineFields<'_>,
    stamps: &mut StampReader,
) -> Result<(), Reason>
    requires place { HasPlace K.has_taken entries.old }
    requires unwanted { (entry : R) → R.meaning fields.now ≡ Ok entry
        → K.wants entries.old (R.symbol_of entry) ≡ false }
    ensures { let says = entry_says (R.meaning fields.now) in
        TakesFields says (K.has_taken entries.old) (K.has_taken entries.new) result }
{
    R::test(fields, stamps)?;
    entries.pass_over();
    Ok(())
}

/// Hands on the record that nine fields mean, or gives the first column that is not in its form.
/// Where the collector does not look at records of the symbol, none is made.
fn take_entry<R: CsvRecord, K: Collector<Entry = R>>(
    entries: &mut K,
    fields: &NineFields<'_>,
    stamps: &mut StampReader,
) -> Result<Result<(), Reason>, NoMemory>
    requires { HasPlace K.has_taken entries.old }
    ensures { let says = entry_says (R.meaning fields.now) in
        IfOk result (TakesFields says (K.has_taken entries.old) (K.has_taken entries.new)) }
{
    if entries.wants(R::symbol_in(fields)) {
        R::take_nine(entries, fields, stamps)
    } else {
        Ok(pass_entry(entries, fields, stamps))
    }
}

/// Takes the fields of a line, where the header has come or is to come.
pub(crate) fn take_fields<R: CsvRecord, K: Collector<Entry = R>>(
    entries: &mut K,
    header: bool,
    fields: &Fields,
    stamps: &mut StampReader,
) -> Result<Result<(), Reason>, NoMemory>
    requires { HasPlace K.has_taken entries.old }
    ensures { let says = fields_say R.names R.meaning header fields.now in
        IfOk result (TakesFields says (K.has_taken entries.old) (K.has_taken entries.new)) }
{
    if !header {
        if R::are_names(fields) {
            Ok(Ok(()))
        } else {
            Ok(Err(Reason::Header))
        }
    } else if fields.len() == 9 {
        take_entry(entries, &NineFields::of(fields), stamps)
    } else {
        Ok(Err(Reason::Columns))
    }
}

/// Takes a line that is not empty.
#[tactic(auto, unfolding(crate::specs::Logs::line_meaning, crate::specs::Logs::is_header))]
pub(crate) fn take_text<R: CsvRecord, K: Collector<Entry = R>>(
    alloc: Global,
    entries: &mut K,
    header: bool,
    line: &[u8],
    stamps: &mut StampReader,
) -> Result<Result<(), Reason>, NoMemory>
    requires { HasPlace K.has_taken entries.old }
    ensures { let says = line_says R.names R.meaning header line.now in
        IfOk result (TakesFields says (K.has_taken entries.old) (K.has_taken entries.new)) }
{
    if is_broken(line) {
        let why = if header {
            Reason::Break
        } else {
            Reason::Header
        };
        return Ok(Err(why));
    }
    let fields = line_fields(alloc, line)?;
    take_fields(entries, header, &fields, stamps)
}
