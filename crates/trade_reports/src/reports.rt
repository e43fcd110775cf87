//! Trade reports.
ghost use Rattle.std.specs.Prelude.{◌≡◌, Some};
ghost use Rattle.trade_reports.specs.Drafts.{report_at};
ghost use Rattle.trade_reports.specs.Reports.{report_to};
ghost use Rattle.trade_reports.specs.Pairings.{unpaired_finding, unpaired_without_second};

use audit_base::findings::Finding;
use audit_base::flaws::{Evidence, Flaw};
use audit_base::names::{Key, Name};
use audit_base::numbers::{Price, Quantity};
use audit_base::records::{LogRecord, TradeRecord};
use audit_base::stamps::Stamp;
use audit_base::terms::Side;

/// One side's report of a trade (message type 8, execution type F).
#[derive(Clone, Copy, Debug, PartialEq, Eq)]
pub struct Report {
    /// Tag 527, which the two reports of a trade share.
    pub trade: Name,
    pub key: Key,
    pub time: Stamp,
    pub symbol: Name,
    pub side: Side,
    pub quantity: Quantity,
    pub price: Price,
}

impl LogRecord for Report {
    ghost symbol_of = { λ report. report.symbol };

    fn symbol(&self) -> &Name {
        &self.symbol
    }
}

/// One side's report of a trade.
pub fn report_to(side: Side, trade: &TradeRecord) -> Report
    ensures { result ≡ report_to side trade.now }
{
    let key = match side {
        Side::Buy => trade.buy,
        Side::Sell => trade.sell,
    };
    Report {
        trade: trade.trade,
        key,
        time: trade.time,
        symbol: trade.symbol,
        side,
        quantity: trade.quantity,
        price: trade.price,
    }
}

/// A trade report, and its number among the trade reports of its log, from 1.
#[derive(Clone, Copy, Debug)]
pub struct PlacedReport {
    pub place: u32,
    pub report: Report,
}

/// A report that no other agrees with, by its place, and the place of the first report of its pair
/// where it is the second.
#[derive(Clone, Copy)]
pub struct UnpairedReport {
    pub place: u32,
    pub first: Option<u32>,
}

impl UnpairedReport {
    /// Finding 4.
    pub(crate) fn finding(self) -> Finding
        ensures { result ≡ unpaired_finding self }
    {
        let evidence = Evidence::Unpaired(self.first);
        let place = self.place;
        Flaw { place, evidence }.finding()
    }
}

impl PlacedReport {
    /// What it is where it has no second report.
    pub(crate) fn without_second(&self) -> UnpairedReport
        ensures { result ≡ unpaired_without_second self.now }
    {
        UnpairedReport {
            place: self.place,
            first: None,
        }
    }
}

// Keeps a report. Room for a report is made ready where this is called, so it is a function apart
// from the writing over one that is kept.
fn keep(kept: &mut Option<PlacedReport>, place: u32, report: &Report)
    ensures { kept.new ≡ Some (report_at place report.now) }
{
    *kept = Some(PlacedReport {
        place,
        report: *report,
    });
}

/// Keeps a report in place of the one that is kept, if there is one:
/// there it is copied only once, since it is large.
pub(crate) fn write_over(kept: &mut Option<PlacedReport>, place: u32, report: &Report)
    ensures { kept.new ≡ Some (report_at place report.now) }
{
    match kept {
        Some(last) => {
            last.place = place;
            last.report = *report;
        }
        None => keep(kept, place, report),
    }
}
