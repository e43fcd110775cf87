//! The reports that wait for a second one. The second report of a trade mostly comes right after
//! the first, so the report that came last waits outside the map of the earlier ones.
ghost use Rattle.std.specs.Prelude.{◌≡◌, None, true};
ghost use Rattle.std.specs.Option.{ForSome};
ghost use Rattle.std.specs.HashMap.{get};
ghost use Rattle.audit_base.specs.Orders.{same_name};

use crate::earlier_reports::{EarlierReports, earlier};
use crate::reports::{PlacedReport, Report, write_over};
use audit_base::faults::NoMemory;
use audit_base::names::Name;
use seeded_hash::seed::HashSeed;
use std::alloc::Global;

/// The reports that wait for a second one, by their trade ids.
#[derive(Drop)]
pub(crate) struct FirstReports {
    /// The report that was added last. It is large, so it stays here until another one is added.
    latest: Option<PlacedReport>,
    /// Whether that report still waits.
    waits: bool,
    earlier: EarlierReports,
    ghost apart: { waits ≡ true → ForSome latest
        (λ first. get same_name earlier.map first.report.trade ≡ None) },
}

impl FirstReports {
    ghost use Rattle.std.specs.Prelude.{◌≤◌, ℕ, List, Some, IfNone, IfSome, IsTrue, OnOk, if◌then◌else◌, false};
    ghost use Rattle.trade_reports.specs.Drafts.{first_report_in, latest_has_id, latest_waiting, report_at};
    ghost use Rattle.trade_reports.specs.declared.reports.PlacedReport.{PlacedReport};

    /// No reports. Takes no memory.
    pub fn new(alloc: Global, seed: HashSeed) -> FirstReports
        ensures { (id : List ℕ) → first_report_in result id ≡ None }
    {
        FirstReports {
            latest: None,
            waits: false,
            earlier: EarlierReports::new(alloc, seed),
        }
    }

    /// The report that came last, if it waits and has the id.
    pub fn latest_with(&self, id: &Name) -> Option<&PlacedReport>
        ensures first { IfSome result (λ first. first_report_in self.now id.now ≡ Some first.now) }
        ensures none { IfNone result (latest_has_id (latest_waiting self.now) id.now ≡ false) }
        ensures some { IfSome result (λ _. latest_has_id (latest_waiting self.now) id.now ≡ true) }
    {
        if !self.waits {
            return None;
        }
        match &self.latest {
            Some(latest) if latest.report.trade == *id => Some(latest),
            _ => None,
        }
    }

    /// The report that came last waits no longer.
    pub fn forget_latest(&mut self)
        ensures { (id q : List ℕ) → latest_has_id (latest_waiting self.old) id ≡ true
            → first_report_in self.new q
            ≡ (if same_name id q then None else first_report_in self.old q) }
    {
        self.waits = false;
    }

    /// Whether no other report waits than the one that came last.
    pub fn has_no_earlier(&self) -> bool
        ensures { IsTrue result → (id : List ℕ) → latest_has_id (latest_waiting self.now) id ≡ false
            → first_report_in self.now id ≡ None }
    {
        self.earlier.is_empty()
    }

    /// Takes out the report with the id, if one waits,
    /// where the report that came last has another id.
    pub fn take_earlier(&mut self, id: &Name) -> Option<PlacedReport>
        requires { latest_has_id (latest_waiting self.old) id.now ≡ false }
        ensures first { result ≡ first_report_in self.old id.now }
        ensures others { (q : List ℕ) → first_report_in self.new q
            ≡ (if same_name id.now q then None else first_report_in self.old q) }
    {
        self.earlier.take(id)
    }

    // Moves the report that came last to the earlier ones.
    fn put_by(&mut self) -> Result<(), NoMemory>
        ensures nothing { self.new.waits ≡ false }
        ensures same { OnOk result
            ((q : List ℕ) → first_report_in self.new q ≡ first_report_in self.old q) }
    {
        if !self.waits {
            return Ok(());
        }
        self.waits = false;
        match &self.latest {
            Some(latest) => self.earlier.add(latest),
            None => Ok(()),
        }
    }

    /// One more report that waits, where none waits with its id.
    pub fn add(&mut self, place: u32, report: &Report) -> Result<(), NoMemory>
        requires { first_report_in self.old report.now.trade ≡ None }
        ensures { let id = report.now.trade in let first = report_at place report.now in
            OnOk result ((q : List ℕ) → first_report_in self.new q
            ≡ (if same_name id q then Some first else first_report_in self.old q)) }
    {
        self.put_by()?;
        write_over(&mut self.latest, place, report);
        self.waits = true;
        Ok(())
    }

    /// The report that came first of those that wait.
    pub fn least(&self) -> Option<PlacedReport>
        ensures none { IfNone result ((id : List ℕ) → first_report_in self.now id ≡ None) }
        ensures some { IfSome result (λ first. (id : List ℕ) × (first_report_in self.now id
            ≡ Some first)) }
        ensures least { IfSome result (λ first. (id : List ℕ) (other : PlacedReport)
            → first_report_in self.now id ≡ Some other → first.place ≤ other.place) }
    {
        match self.latest {
            Some(latest) if self.waits => Some(earlier(self.earlier.least(), latest)),
            _ => self.earlier.least(),
        }
    }
}
