//! The history of a symbol, and its order list.
ghost use Rattle.std.specs.Prelude.{◌≡◌, ◌<◌, ◌^◌, Some, IfOk, OnOk, length};
ghost use Rattle.audit_base.specs.Histories.{history_finding, order_list, WellFormed, Regular};
ghost use Rattle.audit_base.specs.Orders.{order_with_key, order_on_side_with_key, IsOrderList, OrdersInRange, HaveOwnKeys};
ghost use Rattle.instruction_history.specs.Answers.{IfHistoryFinding, IsHistoryAnswer, IsExactAnswer};
ghost use Rattle.instruction_history.specs.MarketPrices.{AreRecordsMarketPriced, AreMarketPriced};

use super::faults::HistoryFault;
use super::history_draft::{SymbolGhost, draft_of};
use super::history_orders::HistoryOrders;
use super::history_so_far::HistorySoFar;
use audit_base::names::{Key, Name};
use audit_base::records::OrderRecord;
use audit_base::terms::Side;
use order_list::keys::Keys;
use order_list::lists::OrderList;
use order_list::stored::StoredOrder;
use std::alloc::Global;
use std::marker::{Brand, Model};

/// The order list of a well-formed history: its new orders and replacements, in log order.
/// Contracts see that list. An order is found by its key.
#[derive(Drop)]
pub struct History {
    orders: Vec<StoredOrder>,
    keys: Keys,
}

impl Model for History {
    ghost use Rattle.std.specs.Prelude.{List};
    ghost use Rattle.audit_base.specs.declared.orders.Order.{Order};

    ghost Value = { List Order };

    ghost use Rattle.instruction_history.specs.History.{IsHistory};
    ghost use Rattle.order_list.specs.Stored.{orders_of};

    ghost view = { λ h. orders_of h.keys h.orders.items };

    ghost invariant = { λ h. IsHistory (orders_of h.keys h.orders.items) h.keys };
}

/// The history of the symbol in these records, by a draft that is handed them.
fn history_of<S: SymbolGhost>(
    alloc: Global,
    entries: &[OrderRecord],
    symbol: &Name,
) -> Result<History, HistoryFault>
    requires symbol { symbol.now ≡ S.symbol }
    requires fits_indices { length entries.now < 2 ^ 32 }
    ensures { IsHistoryAnswer symbol.now entries.now result }
{
    let draft = draft_of::<S>(alloc, entries, symbol)?;
    Ok(draft.end()?)
}

impl History {
    /// The history of what is known of all its records.
    pub(crate) fn of(so_far: HistorySoFar) -> History
        requires { IsHistory (orders_of so_far.keys so_far.orders.items) so_far.keys }
        ensures { result ≡ orders_of so_far.keys so_far.orders.items }
    {
        let HistorySoFar { orders, keys, .. } = so_far;
        History { orders, keys }
    }

    ghost use Rattle.instruction_history.specs.History.{IsHistory};
    ghost use Rattle.order_list.specs.Stored.{orders_of};

    /// The history of the symbol in an order log of fewer than 2^32 records, which have the places
    /// 1, 2 and so on. Ok exactly where the history is well-formed and Found exactly where it has a
    /// finding of number 1, 2 or 3, out of memory aside.
    pub fn build(
        alloc: Global,
        entries: &[OrderRecord],
        symbol: &Name,
    ) -> Result<History, HistoryFault>
        requires { length entries.now < 2 ^ 32 }
        ensures well_formed { OnOk result (WellFormed symbol.now entries.now) }
        ensures orders { IfOk result (λ history. history ≡ order_list symbol.now entries.now) }
        ensures market { AreRecordsMarketPriced entries.now → IfOk result AreMarketPriced }
        ensures found { IfHistoryFinding result
            (λ f. history_finding symbol.now entries.now ≡ Some f) }

        // The other way round: the history alone decides, unless memory runs out.
        ensures exact { IsExactAnswer symbol.now entries.now result }
    {
        history_of::<Brand>(alloc, entries, symbol)
    }

    /// The order list: the new orders and the replacements, in log order. It is regular, and no two
    /// of its orders have one key. Takes no memory.
    pub fn orders(&self) -> OrderList<'_>
        ensures same { result ≡ self.now }
        ensures order_list { IsOrderList result }
        ensures regular { Regular result }
        ensures numbers { OrdersInRange result }
        ensures keys { HaveOwnKeys result }
    {
        OrderList::of(&self.orders, &self.keys)
    }

    /// The order list alone, once no order is asked for by its key any more. Never fails: what
    /// finds many keys is given back where there is memory for a copy of them.
    pub fn into_orders(self) -> HistoryOrders
        ensures { result ≡ self }
    {
        let History { orders, keys } = self;
        HistoryOrders::of(orders, keys)
    }

    /// The index in the order list of the order with the key, which no other order has; None
    /// exactly where none has it. Takes no memory.
    pub fn find(&self, key: &Key) -> Option<usize>
        ensures index { result ≡ order_with_key self.now key.now }
        ensures keys { HaveOwnKeys self.now }
    {
        let index = self.keys.find(&key.firm, &key.id)?.index?;
        Some(index as usize)
    }

    /// The index in the order list of the order of the side with the key; None exactly where none
    /// of that side has it. Takes no memory.
    pub fn find_on_side(&self, side: Side, key: &Key) -> Option<usize>
        ensures { result ≡ order_on_side_with_key self.now side key.now }
    {
        let index = self.keys.find(&key.firm, &key.id)?.index_on(side)?;
        Some(index as usize)
    }
}
