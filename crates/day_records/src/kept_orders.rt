//! The order records of one symbol, kept small.
ghost use Rattle.std.specs.Prelude.{◌≡◌, ◌<◌, ◌≤◌, ◌∷◌, ◌++◌, [], OnOk, length, slice_get, Some};
ghost use Rattle.audit_base.specs.Histories.{symbol_of};
ghost use Rattle.day_records.specs.KeptOrders as spec;
ghost use Rattle.day_records.specs.NameRows.{HasMoreBytes};

use crate::name_rows::{kept_start, name_at};
use audit_base::faults::NoMemory;
use audit_base::names::{Key, Name};
use audit_base::numbers::{Price, Quantity, market_price};
use audit_base::records::OrderRecord;
use audit_base::stamps::Stamp;
use audit_base::terms::{Life, Side};
use std::alloc::Global;
use std::marker::Model;

/// Which of the three kinds an order record is.
#[derive(Clone, Copy)]
pub(crate) enum KeptKind {
    New,
    Cancel,
    Replace,
}

/// What an order record says beside its names, its time and its place. Of a cancel the kind alone
/// says something, of a replacement all but the life.
#[derive(Clone, Copy)]
pub(crate) struct KeptTerms {
    quantity: Quantity,
    price: Price,
    kind: KeptKind,
    side: Side,
    life: Life,
}

/// An order record without its names, and where these lie: the firm, the id and the target one
/// after another, from a start on. A new order has no target.
#[derive(Clone, Copy)]
pub(crate) struct KeptOrder {
    terms: KeptTerms,
    time: Stamp,
    start: u32,
    place: u32,
    firm_size: u8,
    id_size: u8,
    target_size: u8,
}

/// The quantity of what has none.
fn any_quantity() -> Quantity
    ensures { result ≡ 1 }
{
    match Quantity::of(1) {
        Some(quantity) => quantity,
        None => unreachable!(),
    }
}

/// What is kept of the terms of a record.
fn terms_of(entry: &OrderRecord) -> KeptTerms
    ensures { result ≡ spec.terms_of entry.now }
{
    match *entry {
        OrderRecord::New {
            quantity,
            price,
            side,
            life,
            ..
        } => KeptTerms {
            quantity,
            price,
            kind: KeptKind::New,
            side,
            life,
        },
        OrderRecord::Cancel { .. } => KeptTerms {
            quantity: any_quantity(),
            price: market_price(Side::Sell),
            kind: KeptKind::Cancel,
            side: Side::Sell,
            life: Life::Rests,
        },
        OrderRecord::Replace {
            quantity,
            price,
            side,
            ..
        } => KeptTerms {
            quantity,
            price,
            kind: KeptKind::Replace,
            side,
            life: Life::Rests,
        },
    }
}

/// The id of the record's target; of a new order nothing.
fn target_text(entry: &OrderRecord) -> &[u8]
    ensures same { result.now ≡ spec.target_text entry.now }
    ensures short { length result.now ≤ 64 }
{
    match entry {
        OrderRecord::New { .. } => b"",
        OrderRecord::Cancel { target, .. } => target.bytes(),
        OrderRecord::Replace { target, .. } => target.bytes(),
    }
}

impl KeptOrder {
    /// The record, whose names lie among these bytes.
    fn record(&self, bytes: &[u8], symbol: &Name) -> OrderRecord
        ensures { result ≡ spec.record_of symbol.now bytes.now self.now }
    {
        let start = self.start as usize;
        let id_start = start + self.firm_size as usize;
        let target_start = id_start + self.id_size as usize;
        let key = Key {
            firm: name_at(bytes, start, self.firm_size as usize),
            id: name_at(bytes, id_start, self.id_size as usize),
        };
        let target = name_at(bytes, target_start, self.target_size as usize);
        let time = self.time;
        let symbol = *symbol;
        let KeptTerms {
            quantity,
            price,
            kind,
            side,
            life,
        } = self.terms;
        match kind {
            KeptKind::New => OrderRecord::New {
                key,
                time,
                symbol,
                side,
                quantity,
                price,
                life,
            },
            KeptKind::Cancel => OrderRecord::Cancel {
                key,
                time,
                symbol,
                target,
            },
            KeptKind::Replace => OrderRecord::Replace {
                key,
                time,
                symbol,
                target,
                side,
                quantity,
                price,
            },
        }
    }
}

/// The names of a record are names. Nothing is computed here.
fn have_names(entry: &OrderRecord)
    ensures { spec.HasNames entry.now }
{
    match entry {
        OrderRecord::New { key, .. } => {
            let _ = key.firm.bytes();
            let _ = key.id.bytes();
        }
        OrderRecord::Cancel { key, target, .. } => {
            let _ = key.firm.bytes();
            let _ = key.id.bytes();
            let _ = target.bytes();
        }
        OrderRecord::Replace { key, target, .. } => {
            let _ = key.firm.bytes();
            let _ = key.id.bytes();
            let _ = target.bytes();
        }
    }
}

/// What is kept of a record at its place, whose names begin here.
fn kept_order(entry: &OrderRecord, start: u32, place: u32) -> KeptOrder
    ensures { result ≡ spec.kept_order entry.now start place }
{
    let key = entry.key();
    KeptOrder {
        terms: terms_of(entry),
        time: entry.time(),
        start,
        place,
        firm_size: key.firm.bytes().len() as u8,
        id_size: key.id.bytes().len() as u8,
        target_size: target_text(entry).len() as u8,
    }
}

/// Puts the names of a record after the bytes.
fn put_names(bytes: &mut Vec<u8>, entry: &OrderRecord) -> Result<(), NoMemory>
    ensures adds { OnOk result (bytes.new.items ≡ bytes.old.items ++ spec.names_of entry.now) }
    ensures longer { HasMoreBytes bytes.old.items bytes.new.items }
{
    let key = entry.key();
    bytes.extend_from_slice(key.firm.bytes())?;
    bytes.extend_from_slice(key.id.bytes())?;
    bytes.extend_from_slice(target_text(entry))?;
    Ok(())
}

/// One record more, its names after those of the others.
fn append(
    bytes: &mut Vec<u8>,
    orders: &mut Vec<KeptOrder>,
    entry: &OrderRecord,
    place: u32,
) -> Result<(), NoMemory>
    requires { spec.AreInside bytes.old.items orders.old.items }
    ensures inside { spec.AreInside bytes.new.items orders.new.items }
    ensures adds { let symbol = symbol_of entry.now in
        OnOk result (spec.entries_of symbol bytes.new.items orders.new.items
        ≡ spec.entries_of symbol bytes.old.items orders.old.items ++ (place, entry.now) ∷ []) }
{
    have_names(entry);
    let own = kept_order(entry, kept_start(bytes.as_slice().len())?, place);
    put_names(bytes, entry)?;
    orders.push(own)?;
    Ok(())
}

/// The order records of one symbol with their places. Contracts see the symbol and their list.
#[derive(Drop)]
pub struct KeptOrders {
    symbol: Name,
    /// The names of the records, one after another.
    bytes: Vec<u8>,
    orders: Vec<KeptOrder>,
}

impl Model for KeptOrders {
    ghost use Rattle.day_records.specs.KeptOrders.{KeptEntries, entries_of, AreInside};

    ghost Value = { KeptEntries };

    ghost view = { λ kept. record {
      symbol = kept.symbol;
      entries = entries_of kept.symbol kept.bytes.items kept.orders.items;
    } };

    ghost invariant = { λ kept. AreInside kept.bytes.items kept.orders.items };
}

impl KeptOrders {
    /// No records of the symbol. Takes no memory.
    pub fn new(alloc: Global, symbol: Name) -> KeptOrders
        ensures { result ≡ record { symbol = symbol; entries = [] } }
    {
        KeptOrders {
            symbol,
            bytes: Vec::new(alloc),
            orders: Vec::new(alloc),
        }
    }

    /// One record of the symbol more, with its place in the log. After `NoMemory` nothing is known
    /// of the records.
    pub fn push(&mut self, entry: &OrderRecord, place: u32) -> Result<(), NoMemory>
        requires { symbol_of entry.now ≡ self.old.symbol }
        ensures { OnOk result (self.new ≡ spec.with_entry self.old place entry.now) }
    {
        append(&mut self.bytes, &mut self.orders, entry, place)
    }

    /// The symbol.
    pub fn symbol(&self) -> Name
        ensures { result ≡ self.now.symbol }
    {
        self.symbol
    }

    /// How many records there are.
    pub fn len(&self) -> usize
        ensures { result ≡ length self.now.entries }
    {
        self.orders.len()
    }

    /// The place and the record at an index.
    pub fn at(&self, index: usize) -> (u32, OrderRecord)
        requires { index < length self.now.entries }
        ensures { slice_get self.now.entries index ≡ Some result }
    {
        let kept = &self.orders[index];
        (kept.place, kept.record(&self.bytes, &self.symbol))
    }
}
