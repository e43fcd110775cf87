//! The trade records of one symbol, kept small.
ghost use Rattle.std.specs.Prelude.{◌≡◌, ◌<◌, ◌∷◌, ◌++◌, [], OnOk, length, slice_get, Some};
ghost use Rattle.day_records.specs.KeptTrades as spec;
ghost use Rattle.day_records.specs.NameRows.{HasMoreBytes};

use crate::name_rows::{kept_start, name_at};
use audit_base::faults::NoMemory;
use audit_base::names::{Key, Name};
use audit_base::numbers::{Price, Quantity};
use audit_base::records::TradeRecord;
use audit_base::stamps::Stamp;
use std::alloc::Global;
use std::marker::Model;

/// A trade record without its names, and where these lie one after another, from a start on: the
/// id of the trade, then the firm and the id of the bid, and those of the ask.
#[derive(Clone, Copy)]
pub(crate) struct KeptTrade {
    quantity: Quantity,
    price: Price,
    time: Stamp,
    start: u32,
    place: u32,
    trade_size: u8,
    buy_firm_size: u8,
    buy_id_size: u8,
    sell_firm_size: u8,
    sell_id_size: u8,
}

impl KeptTrade {
    /// The record, whose names lie among these bytes.
    fn record(&self, bytes: &[u8], symbol: &Name) -> TradeRecord
        ensures { result ≡ spec.trade_of symbol.now bytes.now self.now }
    {
        let start = self.start as usize;
        let buy_firm_start = start + self.trade_size as usize;
        let buy_id_start = buy_firm_start + self.buy_firm_size as usize;
        let sell_firm_start = buy_id_start + self.buy_id_size as usize;
        let sell_id_start = sell_firm_start + self.sell_firm_size as usize;
        TradeRecord {
            trade: name_at(bytes, start, self.trade_size as usize),
            time: self.time,
            symbol: *symbol,
            buy: Key {
                firm: name_at(bytes, buy_firm_start, self.buy_firm_size as usize),
                id: name_at(bytes, buy_id_start, self.buy_id_size as usize),
            },
            sell: Key {
                firm: name_at(bytes, sell_firm_start, self.sell_firm_size as usize),
                id: name_at(bytes, sell_id_start, self.sell_id_size as usize),
            },
            quantity: self.quantity,
            price: self.price,
        }
    }
}

/// The names of a trade are names. Nothing is computed here.
fn have_names(trade: &TradeRecord)
    ensures { spec.TradeHasNames trade.now }
{
    let _ = trade.trade.bytes();
    let _ = trade.buy.firm.bytes();
    let _ = trade.buy.id.bytes();
    let _ = trade.sell.firm.bytes();
    let _ = trade.sell.id.bytes();
}

/// What is kept of a trade at its place, whose names begin here.
fn kept_trade(trade: &TradeRecord, start: u32, place: u32) -> KeptTrade
    ensures { result ≡ spec.kept_trade trade.now start place }
{
    KeptTrade {
        quantity: trade.quantity,
        price: trade.price,
        time: trade.time,
        start,
        place,
        trade_size: trade.trade.bytes().len() as u8,
        buy_firm_size: trade.buy.firm.bytes().len() as u8,
        buy_id_size: trade.buy.id.bytes().len() as u8,
        sell_firm_size: trade.sell.firm.bytes().len() as u8,
        sell_id_size: trade.sell.id.bytes().len() as u8,
    }
}

/// Puts the two names of a key after the bytes.
fn put_key(bytes: &mut Vec<u8>, key: &Key) -> Result<(), NoMemory>
    ensures adds { OnOk result (bytes.new.items ≡ bytes.old.items ++ (key.now.firm ++ key.now.id)) }
    ensures longer { HasMoreBytes bytes.old.items bytes.new.items }
{
    bytes.extend_from_slice(key.firm.bytes())?;
    bytes.extend_from_slice(key.id.bytes())?;
    Ok(())
}

/// Puts the names of a trade after the bytes.
fn put_names(bytes: &mut Vec<u8>, trade: &TradeRecord) -> Result<(), NoMemory>
    ensures adds { OnOk result (bytes.new.items ≡ bytes.old.items ++ spec.trade_names trade.now) }
    ensures longer { HasMoreBytes bytes.old.items bytes.new.items }
{
    bytes.extend_from_slice(trade.trade.bytes())?;
    put_key(bytes, &trade.buy)?;
    put_key(bytes, &trade.sell)
}

/// One trade more, its names after those of the others.
fn append(
    bytes: &mut Vec<u8>,
    trades: &mut Vec<KeptTrade>,
    trade: &TradeRecord,
    place: u32,
) -> Result<(), NoMemory>
    requires { spec.AreTradesInside bytes.old.items trades.old.items }
    ensures inside { spec.AreTradesInside bytes.new.items trades.new.items }
    ensures adds { let symbol = trade.now.symbol in
        OnOk result (spec.trades_of symbol bytes.new.items trades.new.items
        ≡ spec.trades_of symbol bytes.old.items trades.old.items ++ (place, trade.now) ∷ []) }
{
    have_names(trade);
    let own = kept_trade(trade, kept_start(bytes.as_slice().len())?, place);
    put_names(bytes, trade)?;
    trades.push(own)?;
    Ok(())
}

/// The trade records of one symbol with their places. Contracts see the symbol and their list.
#[derive(Drop)]
pub struct KeptTrades {
    symbol: Name,
    /// The names of the trades, one after another.
    bytes: Vec<u8>,
    trades: Vec<KeptTrade>,
}

impl Model for KeptTrades {
    ghost use Rattle.day_records.specs.KeptTrades.{KeptTradeList, trades_of, AreTradesInside};

    ghost Value = { KeptTradeList };

    ghost view = { λ kept. record {
      symbol = kept.symbol;
      trades = trades_of kept.symbol kept.bytes.items kept.trades.items;
    } };

    ghost invariant = { λ kept. AreTradesInside kept.bytes.items kept.trades.items };
}

impl KeptTrades {
    /// No trades of the symbol. Takes no memory.
    pub fn new(alloc: Global, symbol: Name) -> KeptTrades
        ensures { result ≡ record { symbol = symbol; trades = [] } }
    {
        KeptTrades {
            symbol,
            bytes: Vec::new(alloc),
            trades: Vec::new(alloc),
        }
    }

    /// One trade of the symbol more, with its place in the log. After `NoMemory` nothing is known
    /// of the trades.
    pub fn push(&mut self, trade: &TradeRecord, place: u32) -> Result<(), NoMemory>
        requires { trade.now.symbol ≡ self.old.symbol }
        ensures { OnOk result (self.new ≡ spec.with_trade self.old place trade.now) }
    {
        append(&mut self.bytes, &mut self.trades, trade, place)
    }

    /// The symbol.
    pub fn symbol(&self) -> Name
        ensures { result ≡ self.now.symbol }
    {
        self.symbol
    }

    /// How many trades there are.
    pub fn len(&self) -> usize
        ensures { result ≡ length self.now.trades }
    {
        self.trades.len()
    }

    /// The place and the trade at an index.
    pub fn at(&self, index: usize) -> (u32, TradeRecord)
        requires { index < length self.now.trades }
        ensures { slice_get self.now.trades index ≡ Some result }
    {
        let kept = &self.trades[index];
        (kept.place, kept.record(&self.bytes, &self.symbol))
    }
}
