//! What was found of a symbol: the offence against its rule, or the failure of a further check.
ghost use Rattle.std.specs.Prelude.{◌≡◌};
ghost use Rattle.further_checks.specs.SymbolFindings as spec;

use crate::findings::FurtherFinding;
use audit_base::findings::{Finding, Shown};
use audit_base::terms::Which;

/// A finding about a symbol, by its rule or by a further check.
#[derive(Clone, Copy, Debug)]
pub enum SymbolFinding {
    /// One of the sixteen of the rules.
    Rule(Finding),
    /// One of the two of the further checks, which are looked for behind the rule.
    Further(FurtherFinding),
}

impl SymbolFinding {
    /// The word that reports use for the property.
    pub fn word(&self) -> &'static [u8]
        ensures { result.now ≡ spec.finding_word self.now }
    {
        match self {
            SymbolFinding::Rule(finding) => finding.property.word(),
            SymbolFinding::Further(failure) => failure.word(),
        }
    }

    /// The log of the offending record.
    pub fn log(&self) -> Which
        ensures { result ≡ spec.finding_log self.now }
    {
        match self {
            SymbolFinding::Rule(finding) => finding.log,
            SymbolFinding::Further(_) => Which::Trades,
        }
    }

    /// The number of the offending record in its log, from 1.
    pub fn place(&self) -> u32
        ensures { result ≡ spec.finding_place self.now }
    {
        match self {
            SymbolFinding::Rule(finding) => finding.place,
            SymbolFinding::Further(failure) => failure.place(),
        }
    }

    /// What is shown first, if anything is.
    pub fn first(&self) -> Option<Shown>
        ensures { result ≡ spec.shown_first self.now }
    {
        match self {
            SymbolFinding::Rule(finding) => finding.first,
            SymbolFinding::Further(failure) => Some(Shown::Order(failure.first_order())),
        }
    }

    /// What is shown second, if anything is.
    pub fn second(&self) -> Option<Shown>
        ensures { result ≡ spec.shown_second self.now }
    {
        match self {
            SymbolFinding::Rule(finding) => finding.second,
            SymbolFinding::Further(FurtherFinding::RestingPrice { incoming, .. }) => {
                Some(Shown::Order(*incoming))
            }
            SymbolFinding::Further(FurtherFinding::TradeTime { .. }) => None,
        }
    }
}
