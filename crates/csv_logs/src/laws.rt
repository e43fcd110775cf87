//! That each log is read in one way, and what its records hold, apart from every call: so this
//! holds of logs of any length, and where a call would run out of memory.
ghost use Rattle.audit_base.specs.Columns.{order_columns, trade_columns};
ghost use Rattle.csv_logs.specs.Laws.{CsvLogsAreReadOnce, CsvOrdersAreInRange, CsvOrdersHaveNineBytes, CsvTradesAreInRange, CsvTradesHaveNineBytes};
ghost use Rattle.csv_logs.specs.OrderLines.{order_of_row};
ghost use Rattle.csv_logs.specs.TradeLines.{trade_of_row};

/// Each list of bytes is as an order log, and as a trade log, good with exactly one list of
/// records, or bad at exactly one place, with its offset and its reason, and never both.
pub fn logs_are_read_once()
    ensures orders { CsvLogsAreReadOnce order_columns order_of_row }
    ensures trades { CsvLogsAreReadOnce trade_columns trade_of_row }
{}

/// The records of a good log have quantities from 1 to 10^12 and prices from 0 to 10^18 - 1.
pub fn records_are_in_range()
    ensures orders { CsvOrdersAreInRange }
    ensures trades { CsvTradesAreInRange }
{}

/// Each record of a good log has at least nine bytes of it, so a log of n bytes has
/// at most n / 9 records.
pub fn records_have_nine_bytes()
    ensures orders { CsvOrdersHaveNineBytes }
    ensures trades { CsvTradesHaveNineBytes }
{}
