//! Writing logs: the header, then one line for each record, of canonical texts.
ghost use Rattle.std.specs.Prelude.{◌≡◌, ◌++◌, IfOk, Ok, OnErr, OnOk};
ghost use Rattle.csv_logs.specs.Logs.{csv_trade_records};
ghost use Rattle.csv_logs.specs.Written.{AreOrdersReadAgain, IsReadBack, log_text, csv_orders_text, csv_trades_text};

use crate::log_text::LogText;
use crate::written_lines::LogLine;
use audit_base::faults::NoMemory;
use audit_base::records::{OrderRecord, TradeRecord};
use std::alloc::Global;

/// The text of a log.
fn text_of<R: LogLine>(alloc: Global, entries: &[R]) -> Result<Vec<u8>, NoMemory>
    ensures text { IfOk result (λ text. text.items ≡ log_text R.names R.fields entries.now) }
    ensures again { OnOk result (IsReadBack R.names R.meaning R.sound R.fields entries.now) }
{
    let mut text = LogText::new(alloc)?;
    for entry in entries {
        text.add(entry)?;
    }
    text.end()
}

/// Appends the text of a log, which is made whole first, so that a failure leaves `out` as it was.
fn append<R: LogLine>(alloc: Global, entries: &[R], out: &mut Vec<u8>) -> Result<(), NoMemory>
    ensures appended { let text = log_text R.names R.fields entries.now in
        OnOk result (out.new.items ≡ out.old.items ++ text) }
    ensures unchanged { OnErr result (out.new.items ≡ out.old.items) }
    ensures again { OnOk result (IsReadBack R.names R.meaning R.sound R.fields entries.now) }
{
    let text = text_of(alloc, entries)?;
    out.extend_from_slice(&text)?;
    Ok(())
}

/// Appends the canonical order log of these records: the header, and a line for each. Out of
/// memory leaves `out` as before. What is written is read again as the same records, where those
/// of life Market have the market price.
pub fn write_orders(
    alloc: Global,
    entries: &[OrderRecord],
    out: &mut Vec<u8>,
) -> Result<(), NoMemory>
    ensures appended { OnOk result (out.new.items ≡ out.old.items ++ csv_orders_text entries.now) }
    ensures unchanged { OnErr result (out.new.items ≡ out.old.items) }
    ensures again { OnOk result (AreOrdersReadAgain entries.now) }
{
    append(alloc, entries, out)
}

/// Appends the canonical trade log of these records: the header, and a line for each. Out of
/// memory leaves `out` as before. What is written is read again as the same records.
pub fn write_trades(
    alloc: Global,
    trades: &[TradeRecord],
    out: &mut Vec<u8>,
) -> Result<(), NoMemory>
    ensures appended { OnOk result (out.new.items ≡ out.old.items ++ csv_trades_text trades.now) }
    ensures unchanged { OnErr result (out.new.items ≡ out.old.items) }
    ensures again { OnOk result (csv_trade_records (csv_trades_text trades.now) ≡ Ok trades.now) }
{
    append(alloc, trades, out)
}
