//! The order records of the symbols of a day, record by record.
//!
//! Of the whole day `wants` is true without a look-up, so a record costs one. Of a share K/N with N
//! above 1 a kept record costs two, and one outside it one.
ghost use Rattle.std.specs.Prelude.{◌≡◌, ◌+◌, ◌<◌, ◌∷◌, [], OnOk, slice_get, Some};
ghost use Rattle.log_source.specs.Collectors.{HasPlace};
ghost use Rattle.log_source.specs.Handing.{HandsOnMore};
ghost use Rattle.day_symbols.specs.Kept.{HasRoomAt};
ghost use Rattle.day_symbols.specs.Shares.{DayShare, whole_day};
ghost use Rattle.day_records.specs.DayOrders.{ForEntries, HasOrders, IsDayOrders, IsEmptyOf, KeepsAllButHistories};

use crate::kept_orders::KeptOrders;
use audit_base::faults::NoMemory;
use audit_base::names::Name;
use audit_base::records::{LogRecord, OrderRecord};
use day_symbols::shares::DayShare;
use day_symbols::symbols::Symbols;
use log_source::collector::Collector;
use seeded_hash::seed::HashSeed;
use std::alloc::Global;
use std::marker::{Brand, PhantomData};

/// The share of a day that is audited, for proofs alone. What hands records to collectors of any
/// kind can say of one only which records it has been handed, and not which share it was made for.
/// So the type of a day says that. Whoever makes one picks the share, at `Brand`, and nothing of it
/// is there when the program runs.
pub trait ShareGhost {
    ghost share: { DayShare };
}

impl ShareGhost for Brand {
    ghost share = { whole_day };
}

/// What is known of the order log of a day after some of its records: its symbols, and the records
/// of each that is in the share.
#[derive(Drop)]
pub struct DayOrders<D> {
    alloc: Global,
    share: DayShare,
    /// How many records of the log there were, of all symbols.
    count: u32,
    symbols: Symbols,
    /// Those of the symbols of the share, in their order.
    kept: Vec<KeptOrders>,
    of: PhantomData<D>,
}

/// The order log of a day, whose records have all come.
#[derive(Drop)]
pub struct DayOrderLog {
    pub symbols: Symbols,
    /// Those of the symbols of the share, in their order.
    pub kept: Vec<KeptOrders>,
}

impl<D: ShareGhost> DayOrders<D> {
    /// No records. Symbols are found by hashes of this seed. Takes no memory.
    pub fn new(alloc: Global, seed: HashSeed, share: DayShare) -> DayOrders<D>
        requires { share ≡ D.share }
        ensures { IsDayOrders D.share result [] }
    {
        DayOrders {
            alloc,
            share,
            count: 0,
            symbols: Symbols::new(alloc, seed),
            kept: Vec::new(alloc),
            of: PhantomData,
        }
    }

    /// No records of the symbol at this index, where the list ends there.
    fn make_room(&mut self, share_index: usize, symbol: Name) -> Result<(), NoMemory>
        ensures room { let room = HasRoomAt (IsEmptyOf symbol) share_index in
            OnOk result (room self.old.kept.items self.new.kept.items) }
        ensures only { KeepsAllButHistories self.old self.new }
    {
        if share_index == self.kept.len() {
            self.kept.push(KeptOrders::new(self.alloc, symbol))?;
        }
        Ok(())
    }

    /// Takes the next record of the log. After `NoMemory` nothing is known of the day.
    fn take_entry(&mut self, entry: &OrderRecord) -> Result<(), NoMemory>
        requires { HasPlace (IsDayOrders D.share) self.old }
        ensures { let has_taken = IsDayOrders D.share in
            OnOk result (HandsOnMore (has_taken self.old) (has_taken self.new) (entry.now ∷ [])) }
    {
        self.count += 1;
        let symbol = entry.symbol();
        let index = self.symbols.meet(symbol)?;
        if !self.share.has(index) {
            return Ok(());
        }
        let share_index = self.share.index_in_share(index);
        self.make_room(share_index, *symbol)?;
        self.kept[share_index].push(entry, self.count)
    }

    /// The symbols of the log and the records of those in the share. Takes no memory.
    pub fn end(self) -> DayOrderLog
        ensures { ForEntries D.share self (HasOrders D.share result) }
    {
        let DayOrders { symbols, kept, .. } = self;
        DayOrderLog { symbols, kept }
    }
}

impl<D: ShareGhost> Collector for DayOrders<D> {
    ghost use Rattle.day_symbols.specs.Shares.{is_looked_at};

    type Entry = OrderRecord;

    ghost has_taken = { IsDayOrders D.share };

    ghost wants = { λ day symbol. is_looked_at day.share day.symbols symbol };

    fn take(&mut self, entry: OrderRecord) -> Result<(), NoMemory> {
        self.take_entry(&entry)
    }

    fn wants(&self, symbol: &[u8]) -> bool {
        self.share.looks_at(&self.symbols, symbol)
    }

    fn pass_over(&mut self) {
        self.count += 1;
    }

    fn count(&self) -> u32 {
        self.count
    }
}
