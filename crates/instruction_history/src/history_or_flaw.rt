//! What is known of the history of one symbol after some records of an order log.
//!
//! It knows neither its symbol nor how many records there were, so that whoever audits many symbols
//! at once can hold one of each: it is handed the records of the symbol alone, each with its place
//! in the whole log.
ghost use Rattle.std.specs.Prelude.{◌≡◌, [], ℕ, List, IfOk, IfErr, OnOk, Some};
ghost use Rattle.audit_base.specs.Histories.{history_finding, order_list, WellFormed};
ghost use Rattle.instruction_history.specs.MarketPrices.{AreRecordsMarketPriced, AreMarketPriced};
ghost use Rattle.instruction_history.specs.HistoryOrFlaw.{ForRecords, HasFewRecords, IsHistoryOrFlaw, TakesOwnRecord};

use super::history::History;
use super::history_so_far::HistorySoFar;
use audit_base::faults::NoMemory;
use audit_base::findings::Finding;
use audit_base::flaws::Flaw;
use audit_base::records::OrderRecord;
use seeded_hash::seed::HashSeed;
use std::alloc::Global;

/// What is known of the history of a symbol after some records: its orders so far, or its first
/// flaw.
#[derive(Drop)]
pub struct HistoryOrFlaw {
    /// What is known where there is no flaw.
    so_far: HistorySoFar,
    flaw: Option<Flaw>,
}

impl HistoryOrFlaw {
    /// No records, of whatever symbol. Keys are found by hashes of this seed. Takes no memory.
    pub fn new(alloc: Global, seed: HashSeed) -> HistoryOrFlaw
        ensures { (symbol : List ℕ) → IsHistoryOrFlaw symbol result [] }
    {
        HistoryOrFlaw {
            so_far: HistorySoFar::new(alloc, seed),
            flaw: None,
        }
    }

    /// Takes the next record of the symbol, at its place in the log. After a flaw nothing more is kept. After
    /// `NoMemory` nothing is known of the history.
    pub fn take(&mut self, entry: &OrderRecord, place: u32) -> Result<(), NoMemory>
        requires { HasFewRecords self.old }
        ensures { OnOk result (TakesOwnRecord self.old self.new place entry.now) }
    {
        if let Some(_) = self.flaw {
            return Ok(());
        }
        let Some(Flaw { place, evidence }) = self.so_far.take(entry, place)? else {
            return Ok(());
        };
        self.flaw = Some(Flaw { place, evidence });
        Ok(())
    }

    /// The history, where it is well-formed, or else its first finding. Takes no memory.
    pub fn end(self) -> Result<History, Finding>
        requires { HasFewRecords self }
        ensures well_formed { OnOk result (ForRecords self WellFormed) }
        ensures orders { IfOk result (λ orders.
            ForRecords self (λ symbol entries. orders ≡ order_list symbol entries)) }
        ensures market { IfOk result (λ orders. ForRecords self
            (λ _ entries. AreRecordsMarketPriced entries → AreMarketPriced orders)) }
        ensures found { IfErr result (λ finding.
            ForRecords self (λ symbol entries. history_finding symbol entries ≡ Some finding)) }
    {
        let HistoryOrFlaw { so_far, flaw } = self;
        match flaw {
            Some(flaw) => Err(flaw.finding()),
            None => {
                // This call gives the proof the ranges of the numbers.
                so_far.list().numbers_are_in_range();
                Ok(History::of(so_far))
            }
        }
    }
}
