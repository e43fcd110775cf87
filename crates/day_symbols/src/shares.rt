//! Shares of a day's symbols, by which several runs or machines divide a day among them.
use crate::symbols::Symbols;
use audit_base::names::{Name, read_name};
use std::marker::Model;

/// The greatest number of shares of a day.
pub const MOST_SHARES: u32 = 65_536;

/// The share K/N: of the symbols in their order those with the numbers K, K + N, K + 2N and so
/// on, from 1. K is from 1 to N, and N at most 65,536.
#[derive(Clone, Copy, Debug, PartialEq, Eq)]
pub struct DayShare {
    number: u32,
    count: u32,
}

impl Model for DayShare {
    ghost use Rattle.day_symbols.specs.Shares.{DayShare, IsDayShare};

    ghost Value = { DayShare };

    ghost view = { λ share. record { number = share.number; count = share.count } };

    ghost invariant = { λ share.
        IsDayShare (record { number = share.number; count = share.count }) };

    ghost inverse = { λ share. record { number = share.number; count = share.count } };
}

impl DayShare {
    ghost use Rattle.std.specs.Prelude.{◌≡◌, ◌<◌, true, length, option_map, slice_get};
    ghost use Rattle.day_symbols.specs.Shares.{is_in_share, is_looked_at, index_in_share, day_share_of, symbols_in, whole_day};

    /// The share number/count, where there is one.
    pub fn of(number: u32, count: u32) -> Option<DayShare>
        ensures { result ≡ day_share_of number count }
    {
        if 1 <= number && number <= count && count <= MOST_SHARES {
            Some(DayShare { number, count })
        } else {
            None
        }
    }

    /// The whole day: 1/1.
    pub fn whole() -> DayShare
        ensures { result ≡ whole_day }
    {
        DayShare {
            number: 1,
            count: 1,
        }
    }

    /// Whether the symbol at this index, whose number is one more, is in the share.
    pub fn has(self, index: usize) -> bool
        ensures { result ≡ is_in_share self index }
    {
        index % self.count as usize == (self.number - 1) as usize
    }
    /// The index in the share of the symbol at this index of the day, which is in the share: how
    /// many symbols of the share are before it.
    pub fn index_in_share(self, index: usize) -> usize
        requires { is_in_share self index ≡ true }
        ensures { result ≡ index_in_share self index }
    {
        index / self.count as usize
    }
    /// Whether the records of the symbol are looked at: all but those of a symbol that was met
    /// before and is outside the share. Of the whole day no symbol is looked up.
    pub fn looks_at(self, symbols: &Symbols, symbol: &[u8]) -> bool
        ensures { result ≡ is_looked_at self symbols.now symbol.now }
    {
        if self.count == 1 {
            return true;
        }
        let Some(name) = read_name(symbol) else {
            return true;
        };
        match symbols.find(&name) {
            Some(index) => self.has(index),
            None => true,
        }
    }
    /// The symbol at an index among those of the share.
    pub fn symbol_at(self, symbols: &Symbols, share_index: usize) -> Option<&Name>
        requires { share_index < length (symbols_in self symbols.now) }
        ensures { option_map (λ name. name.now) result
            ≡ slice_get (symbols_in self symbols.now) share_index }
    {
        // By this call the proof knows that the index is below 2^64.
        let _ = symbols.len();
        symbols.at(share_index * self.count as usize + (self.number - 1) as usize)
    }
}
