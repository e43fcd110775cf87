//! Reading a log that is there as a whole into records, in its form.
ghost use Rattle.std.specs.Prelude.{◌≡◌, ◌<◌, ◌≤◌, ◌-◌, ◌^◌, length, vec_len, IfOk, MatchResult, Ok};
ghost use Rattle.audit_base.specs.Verdicts.{paired_trades};
ghost use Rattle.fix_messages.specs.Pairings.{result_of_paired};
ghost use Rattle.log_source.specs.Sources.{longest_log};
ghost use Rattle.log_verdict.specs.LogVerdicts.{records_of_order_log, trades_of_trade_log, IsDecodeFault};

use audit_base::faults::LogFault;
use audit_base::records::OrderRecord;
use audit_base::terms::Form;
use csv_logs::logs::{csv_orders_of, csv_trades_of};
use fix_messages::logs::{fix_orders_of, fix_reports_of};
use fix_messages::pairing::{Paired, TradeList, pair_reports};
use std::alloc::Global;

/// The records of an order log of at most 67,108,864 bytes, in order. `Bad` comes exactly where the
/// log is bad, with its first bad place. There are fewer records than 2^32 - 1, as `judge` asks
/// for, also of a trade log.
pub fn decode_orders(alloc: Global, form: Form, bytes: &[u8]) -> Result<Vec<OrderRecord>, LogFault>
    requires within { length bytes.now ≤ longest_log }
    ensures says { MatchResult result
        (λ entries. records_of_order_log form bytes.now ≡ Ok entries.items)
        (IsDecodeFault (records_of_order_log form bytes.now)) }
    ensures fits_places { IfOk result (λ entries. vec_len entries < 2 ^ 32 - 1) }
{
    match form {
        Form::Csv => csv_orders_of(alloc, bytes),
        Form::Fix => fix_orders_of(alloc, bytes),
    }
}

/// The trades of a trade log of at most 67,108,864 bytes, in order, or `Alone` with finding 4
/// where a report has no partner. `Bad` comes as for an order log.
pub fn decode_trades(alloc: Global, form: Form, bytes: &[u8]) -> Result<Paired, LogFault>
    requires within { length bytes.now ≤ longest_log }
    ensures says { MatchResult result
        (λ paired. trades_of_trade_log form bytes.now ≡ Ok (result_of_paired paired))
        (IsDecodeFault (trades_of_trade_log form bytes.now)) }
    ensures fits_places { IfOk result
        (λ paired. length (paired_trades (result_of_paired paired)) < 2 ^ 32 - 1) }
{
    match form {
        Form::Csv => Ok(Paired::Trades(TradeList::of(csv_trades_of(alloc, bytes)?))),
        Form::Fix => Ok(pair_reports(alloc, &fix_reports_of(alloc, bytes)?)?),
    }
}
