//! What is kept of the order log of one symbol beside its history: its records, where they are quoted.
ghost use Rattle.std.specs.Prelude.{◌≡◌, ◌∷◌, [], OnOk};
ghost use Rattle.audit_base.specs.Histories.{symbol_of};
ghost use Rattle.audit_base.specs.Orders.{same_name};
ghost use Rattle.log_source.specs.Collectors.{HasPlace};
ghost use Rattle.log_source.specs.Handing.{HandsOnMore};
ghost use Rattle.symbol_offences.specs.OrderLog.{IsOrdersOfSymbol, with_entry_if};

use crate::questions::QuestionGhost;
use audit_base::faults::NoMemory;
use audit_base::names::Name;
use audit_base::records::{LogRecord, OrderRecord};
use day_records::kept_orders::KeptOrders;
use log_source::collector::Collector;
use std::alloc::Global;
use std::marker::PhantomData;

/// Whether the record is one of this symbol.
fn has_symbol(entry: &OrderRecord, symbol: &Name) -> bool
    ensures { result ≡ same_name (symbol_of entry.now) symbol.now }
{
    *entry.symbol() == *symbol
}

/// Keeps one record more, where records are kept.
fn keep_entry(
    keeps: bool,
    kept: &mut KeptOrders,
    entry: &OrderRecord,
    place: u32,
) -> Result<(), NoMemory>
    requires { symbol_of entry.now ≡ kept.old.symbol }
    ensures { OnOk result (kept.new ≡ with_entry_if keeps kept.old place entry.now) }
{
    if !keeps {
        return Ok(());
    }
    kept.push(entry, place)
}

/// What is kept of a symbol after some records of an order log.
#[derive(Drop)]
pub struct OrdersOfSymbol<Q> {
    symbol: Name,
    /// How many records of the log there were, of all symbols.
    count: u32,
    keeps_records: bool,
    /// Those of the symbol, where they are kept.
    pub(crate) records: KeptOrders,
    of: PhantomData<Q>,
}

impl<Q: QuestionGhost> OrdersOfSymbol<Q> {
    /// No records. Takes no memory.
    pub fn new(alloc: Global, symbol: Name, keeps_records: bool) -> OrdersOfSymbol<Q>
        requires symbol { symbol ≡ Q.symbol }
        requires keeps { keeps_records ≡ Q.keeping.records }
        ensures { IsOrdersOfSymbol Q.symbol Q.keeping.records result [] }
    {
        OrdersOfSymbol {
            symbol,
            count: 0,
            keeps_records,
            records: KeptOrders::new(alloc, symbol),
            of: PhantomData,
        }
    }

    /// Takes the next record of the log. After `NoMemory` nothing is known of the symbol.
    fn take_entry(&mut self, entry: &OrderRecord) -> Result<(), NoMemory>
        requires { HasPlace (IsOrdersOfSymbol Q.symbol Q.keeping.records) self.old }
        ensures { let has_taken = IsOrdersOfSymbol Q.symbol Q.keeping.records in
            OnOk result (HandsOnMore (has_taken self.old) (has_taken self.new) (entry.now ∷ [])) }
    {
        self.count += 1;
        if !has_symbol(entry, &self.symbol) {
            return Ok(());
        }
        keep_entry(self.keeps_records, &mut self.records, entry, self.count)
    }
}

impl<Q: QuestionGhost> Collector for OrdersOfSymbol<Q> {
    ghost use Rattle.audit_base.specs.Orders.{same_name};

    type Entry = OrderRecord;

    ghost has_taken = { IsOrdersOfSymbol Q.symbol Q.keeping.records };

    ghost wants = { λ kept symbol. same_name symbol kept.symbol };

    fn take(&mut self, entry: OrderRecord) -> Result<(), NoMemory> {
        self.take_entry(&entry)
    }

    fn wants(&self, symbol: &[u8]) -> bool {
        symbol == self.symbol.bytes()
    }

    fn pass_over(&mut self) {
        self.count += 1;
    }

    fn count(&self) -> u32 {
        self.count
    }
}
