//! Records and orders, found by their places, which rise: each look-up halves the list.
ghost use Rattle.std.specs.Prelude.{◌≡◌, ◌<◌, ℕ, List, length, slice_index};
ghost use Rattle.symbol_offences.specs.Quotes.{index_with_place};
ghost use Rattle.symbol_offences.specs.SymbolBeforeRule.{ArePlacesRising};

use day_records::kept_orders::KeptOrders;
use day_records::kept_trades::KeptTrades;
use order_list::lists::OrderList;

/// A list whose members have places.
pub(crate) trait PlacedList {
    ghost places: { Self → List ℕ };

    /// How many members there are.
    fn count(&self) -> usize
        ensures { result ≡ length (places self.now) };

    /// The place of the member at an index.
    fn place_at(&self, index: usize) -> u32
        requires { index < length (places self.now) }
        ensures { result ≡ slice_index (places self.now) index };
}

impl PlacedList for KeptOrders {
    ghost use Rattle.symbol_offences.specs.SymbolBeforeRule.{places_of_records};

    ghost places = { λ kept. places_of_records kept.entries };

    fn count(&self) -> usize {
        self.len()
    }

    fn place_at(&self, index: usize) -> u32 {
        self.at(index).0
    }
}

impl PlacedList for KeptTrades {
    ghost use Rattle.symbol_offences.specs.SymbolBeforeRule.{places_of_records};

    ghost places = { λ kept. places_of_records kept.trades };

    fn count(&self) -> usize {
        self.len()
    }

    fn place_at(&self, index: usize) -> u32 {
        self.at(index).0
    }
}

impl<'a> PlacedList for OrderList<'a> {
    ghost use Rattle.symbol_offences.specs.Quotes.{places_of_orders};

    ghost places = { λ orders. places_of_orders orders };

    fn count(&self) -> usize {
        self.len()
    }

    fn place_at(&self, index: usize) -> u32 {
        self.at(index).place()
    }
}

/// The index of the member at this place; None exactly where none is there. Takes no memory.
pub(crate) fn find_place<P: PlacedList>(list: &P, place: u32) -> Option<usize>
    requires { ArePlacesRising (P.places list.now) }
    ensures { result ≡ index_with_place (P.places list.now) place }
{
    let mut from = 0;
    let mut to = list.count();
    'halves: while from < to {
        let middle = from + (to - from) / 2;
        let found = list.place_at(middle);
        if found == place {
            return Some(middle);
        }
        if found < place {
            from = middle + 1;
        } else {
            to = middle;
        }
    }
    None
}
