//! That two logs have one verdict, whatever forms they are in, that they have one, and what their
//! records hold, each law as a contract with no body.
ghost use Rattle.log_verdict.specs.Existence.{LogVerdictExists};
ghost use Rattle.log_verdict.specs.Laws.{FormsAgree, OneVerdict};
ghost use Rattle.log_verdict.specs.Ranges.{OrderLogsAreInRange, OrderLogsHaveNineBytes, TradeLogsAreInRange};

use csv_logs::laws as csv_laws;
use fix_messages::reading_laws as fix_laws;
use record_verdict::existence::a_record_verdict_exists;
use record_verdict::laws::record_verdict_is_one;

/// Two verdicts on one question about one pair of logs are the same verdict,
/// so their statuses and their texts are the same too.
pub fn one_verdict()
    ensures { OneVerdict }
{
    record_verdict_is_one();
}

/// Two pairs of logs, in whatever forms, whose order logs have the same records and whose trade
/// logs have the same trades, have the same verdict.
pub fn forms_agree()
    ensures { FormsAgree }
{
    record_verdict_is_one();
}

/// The records of a good log, in either form and of any length, have quantities from 1 to 10^12
/// and prices from 0 to 10^18 - 1; so have the trades that the reports of a FIX log pair into.
pub fn records_are_in_range()
    ensures orders { OrderLogsAreInRange }
    ensures trades { TradeLogsAreInRange }
{
    csv_laws::records_are_in_range();
    fix_laws::records_are_in_range();
}

/// Each record of a good order log, in either form and of any length,
/// has at least nine bytes of it.
pub fn order_logs_have_nine_bytes()
    ensures { OrderLogsHaveNineBytes }
{
    csv_laws::records_have_nine_bytes();
    fix_laws::records_have_nine_bytes();
}

/// Whatever bytes two logs have, in whatever forms, they have exactly one verdict on each
/// question, under each of the five rules. The order log has at most 34,359,738,368 bytes, so
/// that the places of its records fit 32 bits.
pub fn two_logs_have_a_verdict()
    ensures { LogVerdictExists }
{
    one_verdict();
    a_record_verdict_exists();
    records_are_in_range();
    order_logs_have_nine_bytes();
}
