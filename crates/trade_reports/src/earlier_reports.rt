//! Reports that wait for a second one, by their trade ids.
ghost use Rattle.std.specs.Prelude.{◌≡◌, ◌≤◌, ℕ, List, None, Some, IfNone, IfSome, IsTrue, OnOk, if◌then◌else◌};
ghost use Rattle.audit_base.specs.Orders.{same_name};
ghost use Rattle.trade_reports.specs.Drafts.{earlier_report, report_held_in};
ghost use Rattle.trade_reports.specs.declared.reports.PlacedReport.{PlacedReport};

use crate::reports::PlacedReport;
use audit_base::faults::NoMemory;
use audit_base::names::Name;
use indexmap::IndexMap;
use seeded_hash::seed::HashSeed;
use std::alloc::Global;

/// Reports by their trade ids.
#[derive(Drop)]
pub(crate) struct EarlierReports {
    map: IndexMap<Name, PlacedReport, HashSeed>,
}

impl EarlierReports {
    /// No reports. Takes no memory.
    pub fn new(alloc: Global, seed: HashSeed) -> EarlierReports
        ensures { (id : List ℕ) → report_held_in result id ≡ None }
    {
        EarlierReports {
            map: IndexMap::with_hasher(alloc, seed),
        }
    }

    /// Whether there are none.
    pub fn is_empty(&self) -> bool
        ensures { IsTrue result → (id : List ℕ) → report_held_in self.now id ≡ None }
    {
        self.map.is_empty()
    }

    /// Takes out the report with the id, if there is one.
    pub fn take(&mut self, id: &Name) -> Option<PlacedReport>
        ensures first { result ≡ report_held_in self.old id.now }
        ensures others { (q : List ℕ) → report_held_in self.new q ≡ (if same_name id.now q then None
            else report_held_in self.old q) }
    {
        self.map.swap_remove(id)
    }

    /// One more report.
    pub fn add(&mut self, first: &PlacedReport) -> Result<(), NoMemory>
        ensures { OnOk result ((q : List ℕ) → report_held_in self.new q
            ≡ (if same_name first.now.report.trade q then Some first.now
            else report_held_in self.old q)) }
    {
        self.map.insert(first.report.trade, *first)?;
        Ok(())
    }

    /// The report that came first.
    pub fn least(&self) -> Option<PlacedReport>
        ensures none { IfNone result ((id : List ℕ) → report_held_in self.now id ≡ None) }
        ensures some { IfSome result (λ first. (id : List ℕ) × (report_held_in self.now id
            ≡ Some first)) }
        ensures least { IfSome result (λ first. (id : List ℕ) (other : PlacedReport)
            → report_held_in self.now id ≡ Some other → first.place ≤ other.place) }
    {
        let mut least: Option<PlacedReport> = None;
        for i in 0..self.map.len() {
            let Some((_, first)) = self.map.get_index(i) else {
                break;
            };
            least = Some(earlier(least, *first));
        }
        least
    }
}

/// The report with the smaller place.
pub(crate) fn earlier(least: Option<PlacedReport>, first: PlacedReport) -> PlacedReport
    ensures { result ≡ earlier_report least first }
{
    match least {
        Some(found) if found.place <= first.place => found,
        _ => first,
    }
}
