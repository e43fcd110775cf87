//! That each body says one thing, that each log is read in one way, and what its
//! records hold, apart from every call: so these hold of logs of any length, and
//! where a call would run out of memory.
ghost use Rattle.fix_messages.specs.Laws.{BodySaysOnce, FixLogsAreReadOnce, FixOrdersAreInRange, FixOrdersHaveNineBytes, ReportsAreInRange, ReportsHaveNineBytes, FixTradesAreInRange};
ghost use Rattle.fix_messages.specs.OrderTables.{order_of_message};
ghost use Rattle.fix_messages.specs.ReportTable.{report_of_message};

use trade_reports::laws::paired_trades_are_in_range;

/// What is found of a body from its front is what the grammar of its fields says of the
/// body, and nothing else is: either the body is fields, which mean a record, nothing or
/// the first test that they fail; or the first field that cannot be read begins at one
/// byte; or the body has no message type.
pub fn bodies_say_one_thing()
    ensures orders { BodySaysOnce order_of_message }
    ensures reports { BodySaysOnce report_of_message }
{}

/// Each list of bytes is as an order log, and as a log of trade reports, good with exactly one
/// list of records, or bad at exactly one place, with its offset and its reason, and never both.
pub fn logs_are_read_once()
    ensures orders { FixLogsAreReadOnce order_of_message }
    ensures reports { FixLogsAreReadOnce report_of_message }
{}

/// The records of a good log have quantities from 1 to 10^12 and prices from 0 to 10^18 - 1, and
/// so have the trades that its reports pair into.
pub fn records_are_in_range()
    ensures orders { FixOrdersAreInRange }
    ensures reports { ReportsAreInRange }
    ensures trades { FixTradesAreInRange }
{
    paired_trades_are_in_range();
}

/// Each record of a good log has at least nine bytes of it, so a log of
/// n bytes has at most n / 9 records.
pub fn records_have_nine_bytes()
    ensures orders { FixOrdersHaveNineBytes }
    ensures reports { ReportsHaveNineBytes }
{}
