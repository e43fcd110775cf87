//! The draft of a history: what is handed the records of an order log one after another, and keeps
//! what the history of its symbol needs of them.
//!
//! A draft counts every record, since places are counted over all symbols. A record of another
//! symbol is only counted, and after the first finding so is every record. No room is reserved,
//! since only the end of the log says how many orders there are: the order list and the keys grow
//! with them, by doubling.
ghost use Rattle.std.specs.Prelude.{◌≡◌, ◌+◌, ◌<◌, ◌^◌, [], ℕ, List, None, IfOk, IfErr, OnOk, Some, length};
ghost use Rattle.audit_base.specs.Histories.{symbol_of, WellFormed};
ghost use Rattle.audit_base.specs.Orders.{same_name};
ghost use Rattle.audit_base.specs.declared.records.OrderRecord.{OrderRecord};
ghost use Rattle.instruction_history.specs.HistoryDraft.{IsHistoryDraft, ForHandedRecords, AreOrdersOf, KeepsMarketPrices, IsFindingOfRecords, TakesRecord};
ghost use Rattle.log_source.specs.Collectors.{HasPlace};

use super::history::History;
use super::history_or_flaw::HistoryOrFlaw;
use audit_base::faults::NoMemory;
use audit_base::findings::Finding;
use audit_base::names::Name;
use audit_base::records::{LogRecord, OrderRecord};
use log_source::collector::Collector;
use seeded_hash::seed::HashSeed;
use std::alloc::Global;
use std::marker::{Brand, PhantomData};

/// The symbol of a draft, for proofs alone. What hands records to collectors of any kind can say of
/// one only which records it has been handed, and not which symbol it was made for. So the type of
/// a draft says that. Whoever makes a draft picks the symbol, at `Brand`, and nothing of it is
/// there when the program runs.
pub trait SymbolGhost {
    ghost symbol: { List ℕ };
}

impl SymbolGhost for Brand {
    ghost symbol = { [] };
}

/// Whether the record is one of this symbol.
fn has_symbol(entry: &OrderRecord, symbol: &Name) -> bool
    ensures { result ≡ same_name (symbol_of entry.now) symbol.now }
{
    *entry.symbol() == *symbol
}

/// What is known of the history of a symbol after some records of an order log: its orders so far,
/// or its first flaw.
#[derive(Drop)]
pub struct HistoryDraft<S> {
    symbol: Name,
    /// How many records of the log there were, of all symbols.
    count: u32,
    kept: HistoryOrFlaw,
    of: PhantomData<S>,
}

impl<S: SymbolGhost> HistoryDraft<S> {
    /// A draft that has been handed no records, and finds keys by hashes of this
    /// seed. Takes no memory.
    pub fn new(alloc: Global, seed: HashSeed, symbol: Name) -> HistoryDraft<S>
        requires { symbol ≡ S.symbol }
        ensures { IsHistoryDraft S.symbol result [] }
    {
        HistoryDraft {
            symbol,
            count: 0,
            kept: HistoryOrFlaw::new(alloc, seed),
            of: PhantomData,
        }
    }

    /// Takes the next record of the log. After `NoMemory` nothing is known of the draft.
    pub(crate) fn take_entry(&mut self, entry: &OrderRecord) -> Result<(), NoMemory>
        requires { HasPlace (IsHistoryDraft S.symbol) self.old }
        ensures { OnOk result (TakesRecord S.symbol self.old self.new entry.now) }
    {
        self.count += 1;
        if !has_symbol(entry, &self.symbol) {
            return Ok(());
        }
        self.kept.take(entry, self.count)
    }

    /// The history, where it is well-formed, or else its first finding. Takes no memory.
    pub fn end(self) -> Result<History, Finding>
        requires { (entries : List OrderRecord) × IsHistoryDraft S.symbol self entries }
        ensures well_formed { OnOk result (ForHandedRecords S.symbol self (WellFormed S.symbol)) }
        ensures orders { IfOk result (AreOrdersOf S.symbol self) }
        ensures market { IfOk result (KeepsMarketPrices S.symbol self) }
        ensures found { IfErr result (IsFindingOfRecords S.symbol self) }
    {
        // This read gives the proof that there are fewer than 2^32 records.
        let _ = self.count;
        self.kept.end()
    }
}

impl<S: SymbolGhost> Collector for HistoryDraft<S> {
    ghost use Rattle.audit_base.specs.Orders.{same_name};

    type Entry = OrderRecord;

    ghost has_taken = { IsHistoryDraft S.symbol };

    ghost wants = { λ draft symbol. same_name symbol draft.symbol };

    fn take(&mut self, entry: OrderRecord) -> Result<(), NoMemory> {
        self.take_entry(&entry)
    }

    fn wants(&self, symbol: &[u8]) -> bool {
        symbol == self.symbol.bytes()
    }

    fn pass_over(&mut self) {
        self.count += 1;
    }

    fn count(&self) -> u32 {
        self.count
    }
}

/// The draft that has been handed these records.
pub(crate) fn draft_of<S: SymbolGhost>(
    alloc: Global,
    entries: &[OrderRecord],
    symbol: &Name,
) -> Result<HistoryDraft<S>, NoMemory>
    requires symbol { symbol.now ≡ S.symbol }
    requires fits_indices { length entries.now < 2 ^ 32 }
    ensures { IfOk result (λ draft. IsHistoryDraft S.symbol draft entries.now) }
{
    let mut draft = HistoryDraft::new(alloc, HashSeed::fixed(), *symbol);
    for entry in entries {
        draft.take_entry(entry)?;
    }
    Ok(draft)
}
