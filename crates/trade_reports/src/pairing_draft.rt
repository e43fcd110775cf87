//! Pairing the trade reports of a log as they come.
//!
//! The finding is changed where it lies, since it is hundreds of bytes long. An empty map of
//! earlier reports is not asked, which would hash the id.
ghost use Rattle.std.specs.Prelude.{◌≡◌, ◌∷◌, ◌+◌, [], List, IfOk, OnOk, None, false, length};
ghost use Rattle.log_source.specs.Collectors.{HasPlace};
ghost use Rattle.log_source.specs.Handing.{HandsOnMore};
ghost use Rattle.trade_reports.specs.Drafts.{IsKnownOfReports, IsPairingDraft, TakesPair, latest_has_id, latest_waiting, report_at};
ghost use Rattle.trade_reports.specs.Pairings.{IsPairedAs, pairing, trade_of_reports};
ghost use Rattle.trade_reports.specs.declared.reports.Report.{Report};

use crate::first_reports::FirstReports;
use crate::pairs::{agree, trade_of};
use crate::reports::{PlacedReport, Report, UnpairedReport};
use audit_base::faults::NoMemory;
use audit_base::findings::Finding;
use audit_base::records::TradeRecord;
use log_source::collector::Collector;
use seeded_hash::seed::HashSeed;
use std::alloc::Global;

/// What is known of the reports of a trade log after some of them:
/// which wait for a second one, and whether a pair disagrees.
/// The trades of the pairs are handed on in the order of their second reports.
#[derive(Drop)]
pub struct PairingDraft<K> {
    count: u32,
    firsts: FirstReports,
    lone: Option<UnpairedReport>,
    trades: K,
}

// Hands on the trade of a pair. Where the collector does not look at trades of its symbol,
// none is made.
fn hand_on_pair<K: Collector<Entry = TradeRecord>>(
    trades: &mut K,
    first: &Report,
    second: &Report,
) -> Result<(), NoMemory>
    requires { HasPlace K.has_taken trades.old }
    ensures { let trade = trade_of_reports first.now second.now in
        OnOk result (HandsOnMore (K.has_taken trades.old) (K.has_taken trades.new) (trade ∷ [])) }
{
    if trades.wants(second.symbol.bytes()) {
        trades.take(trade_of(first, second))
    } else {
        trades.pass_over();
        Ok(())
    }
}

// Takes a pair: hands on its trade, unless it or a pair before it disagrees.
fn take_pair<K: Collector<Entry = TradeRecord>>(
    trades: &mut K,
    lone: &mut Option<UnpairedReport>,
    first: &PlacedReport,
    place: u32,
    second: &Report,
) -> Result<(), NoMemory>
    requires { lone.old ≡ None → HasPlace K.has_taken trades.old }
    ensures { let second = report_at place second.now in OnOk result
        (TakesPair K.has_taken lone.old first.now second trades.old trades.new lone.new) }
{
    if lone.is_some() {
        return Ok(());
    }
    if !agree(&first.report, second) {
        let first = Some(first.place);
        *lone = Some(UnpairedReport { place, first });
        return Ok(());
    }
    hand_on_pair(trades, &first.report, second)
}

// Takes a report whose id is not that of the report that came last, where earlier ones may wait.
// Room for an earlier one is made ready where this is called, so it is a function of its own.
fn take_with_earlier<K: Collector<Entry = TradeRecord>>(
    firsts: &mut FirstReports,
    trades: &mut K,
    lone: &mut Option<UnpairedReport>,
    place: u32,
    report: &Report,
) -> Result<(), NoMemory>
    requires other { latest_has_id (latest_waiting firsts.old) report.now.trade ≡ false }
    requires place { lone.old ≡ None → HasPlace K.has_taken trades.old }
    ensures { OnOk result ((all : List Report) → place ≡ length all + 1
        → IsKnownOfReports K.has_taken firsts.old lone.old trades.old all
        → IsKnownOfReports K.has_taken firsts.new lone.new trades.new (report.now ∷ all)) }
{
    match firsts.take_earlier(&report.trade) {
        None => firsts.add(place, report),
        Some(first) => take_pair(trades, lone, &first, place, report),
    }
}

// Takes a report whose id is not that of the report that came last. Mostly no earlier one waits,
// and then its id need not be hashed.
fn take_other<K: Collector<Entry = TradeRecord>>(
    firsts: &mut FirstReports,
    trades: &mut K,
    lone: &mut Option<UnpairedReport>,
    place: u32,
    report: &Report,
) -> Result<(), NoMemory>
    requires other { latest_has_id (latest_waiting firsts.old) report.now.trade ≡ false }
    requires place { lone.old ≡ None → HasPlace K.has_taken trades.old }
    ensures { OnOk result ((all : List Report) → place ≡ length all + 1
        → IsKnownOfReports K.has_taken firsts.old lone.old trades.old all
        → IsKnownOfReports K.has_taken firsts.new lone.new trades.new (report.now ∷ all)) }
{
    if firsts.has_no_earlier() {
        firsts.add(place, report)
    } else {
        take_with_earlier(firsts, trades, lone, place, report)
    }
}

// Takes one more report. Mostly the report that came last is the first one of its trade,
// and is looked at where it is kept.
fn take_report<K: Collector<Entry = TradeRecord>>(
    firsts: &mut FirstReports,
    trades: &mut K,
    lone: &mut Option<UnpairedReport>,
    place: u32,
    report: &Report,
) -> Result<(), NoMemory>
    requires { lone.old ≡ None → HasPlace K.has_taken trades.old }
    ensures { OnOk result ((all : List Report) → place ≡ length all + 1
        → IsKnownOfReports K.has_taken firsts.old lone.old trades.old all
        → IsKnownOfReports K.has_taken firsts.new lone.new trades.new (report.now ∷ all)) }
{
    let Some(first) = firsts.latest_with(&report.trade) else {
        return take_other(firsts, trades, lone, place, report);
    };
    take_pair(trades, lone, first, place, report)?;
    firsts.forget_latest();
    Ok(())
}

impl<K: Collector<Entry = TradeRecord>> PairingDraft<K> {
    /// No reports, over a collector of trades that has been handed nothing.
    /// Ids are found by hashes of this seed.
    pub fn over(alloc: Global, seed: HashSeed, trades: K) -> Self
        requires { K.has_taken trades [] }
        ensures { IsPairingDraft K.has_taken result [] }
    {
        PairingDraft {
            count: 0,
            firsts: FirstReports::new(alloc, seed),
            lone: None,
            trades,
        }
    }

    /// The collector, which has been handed exactly the trades of the reports, or finding 4 in
    /// their place: what the pairing of all reports gives, for every list that the draft has been
    /// handed. There are no more trades than reports.
    pub fn end(self) -> Result<K, Finding>
        ensures pairs { (reports : List Report) → IsPairingDraft K.has_taken self reports
            → IsPairedAs K.has_taken (pairing reports) result }
        ensures fits_places { HasPlace (IsPairingDraft K.has_taken) self
            → IfOk result (HasPlace K.has_taken) }
    {
        let PairingDraft {
            firsts,
            lone,
            trades,
            ..
        } = self;
        if let Some(lone) = lone {
            return Err(lone.finding());
        }
        match firsts.least() {
            Some(first) => Err(first.without_second().finding()),
            None => Ok(trades),
        }
    }
}

impl<K: Collector<Entry = TradeRecord>> Collector for PairingDraft<K> {
    ghost use Rattle.std.specs.Prelude.{true};

    type Entry = Report;

    ghost has_taken = { IsPairingDraft K.has_taken };

    ghost wants = { λ draft symbol. true };

    fn take(&mut self, report: Report) -> Result<(), NoMemory> {
        let place = self.count + 1;
        take_report(
            &mut self.firsts,
            &mut self.trades,
            &mut self.lone,
            place,
            &report,
        )?;
        self.count = place;
        Ok(())
    }

    fn wants(&self, _symbol: &[u8]) -> bool {
        true
    }

    fn pass_over(&mut self) {}

    fn count(&self) -> u32 {
        self.count
    }
}
