//! The trades of a trade log. In a FIX log a trade is two execution reports with one
//! SecondaryExecID (tag 527), so a log may have a finding in the place of trades;
//! a CSV log always has trades.
ghost use Rattle.std.specs.Prelude.{◌≡◌, ◌<◌, ◌-◌, ◌^◌, [], IfOk, length};
ghost use Rattle.audit_base.specs.Verdicts.{paired_trades};
ghost use Rattle.log_source.specs.Collectors.{HasPlace};
ghost use Rattle.trade_reports.specs.Drafts.{IsPairingDraft};
ghost use Rattle.trade_reports.specs.Pairings.{IsPairedAs, pairing, result_of_paired};

use crate::pairing_draft::PairingDraft;
use crate::reports::Report;
use audit_base::faults::NoMemory;
use audit_base::findings::Finding;
use audit_base::records::TradeRecord;
use log_source::collector::Collector;
use seeded_hash::seed::HashSeed;
use std::alloc::Global;
use std::marker::Model;

/// The trades of a log, in its order. Contracts see the list of them.
#[derive(Debug, Drop)]
pub struct TradeList {
    trades: Vec<TradeRecord>,
}

impl Model for TradeList {
    ghost use Rattle.std.specs.Prelude.{List};
    ghost use Rattle.audit_base.specs.declared.records.TradeRecord.{TradeRecord};

    ghost Value = { List TradeRecord };

    ghost view = { λ t. t.trades.items };
}

impl TradeList {
    /// The list of these trades. Takes no memory.
    pub fn of(trades: Vec<TradeRecord>) -> TradeList
        ensures { result ≡ trades.items }
    {
        TradeList { trades }
    }

    /// The trades of the list. Takes no memory.
    pub fn as_slice(&self) -> &[TradeRecord]
        ensures { result.now ≡ self.now }
    {
        self.trades.as_slice()
    }
}

/// What a trade log that has been read gives.
#[derive(Debug, Drop)]
pub enum Paired {
    /// Each report has its partner, as each record of a CSV log is a trade.
    Trades(TradeList),
    /// A report has none, or its second disagrees with it (`unpaired`).
    Alone(Finding),
}

/// Hands reports to a draft that has been handed none, and ends it.
/// Nothing is known of the collector here, so what the loop is proved with is small.
fn pair_by<K: Collector<Entry = TradeRecord>>(
    mut draft: PairingDraft<K>,
    reports: &[Report],
) -> Result<Result<K, Finding>, NoMemory>
    requires empty { IsPairingDraft K.has_taken draft [] }
    requires fits_places { length reports.now < 2 ^ 32 - 1 }
    ensures pairs { IfOk result (IsPairedAs K.has_taken (pairing reports.now)) }
    ensures fits_places { IfOk result (λ paired. IfOk paired (HasPlace K.has_taken)) }
{
    for report in reports {
        draft.take(*report)?;
    }
    Ok(draft.end())
}

/// The trades of fewer than 2^32 - 1 reports, in the order of their second reports.
/// The reports of one trade id, in log order, are taken two by two, over all symbols. `Alone` comes
/// exactly where there is finding 4: at the least second report that does not agree with its first,
/// which is shown; where there is none, at the least first report that has no second.
/// There are no more trades than reports.
pub fn pair_reports(alloc: Global, reports: &[Report]) -> Result<Paired, NoMemory>
    requires { length reports.now < 2 ^ 32 - 1 }
    ensures pairs { IfOk result (λ paired. result_of_paired paired ≡ pairing reports.now) }
    ensures fits_places { IfOk result
        (λ paired. length (paired_trades (result_of_paired paired)) < 2 ^ 32 - 1) }
{
    let draft = PairingDraft::over(alloc, HashSeed::fixed(), Vec::new(alloc));
    match pair_by(draft, reports)? {
        Ok(trades) => Ok(Paired::Trades(TradeList::of(trades))),
        Err(finding) => Ok(Paired::Alone(finding)),
    }
}
