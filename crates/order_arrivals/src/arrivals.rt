//! What is known of each order from its own record on: Before, Entered and Size.
ghost use Rattle.std.specs.Prelude.{◌≡◌, ◌<◌, ◌≤◌, ◌-◌, suc, ℕ, List, Some, IfOk, OnOk, length, sum_by, if◌then◌else◌};
ghost use Rattle.audit_base.specs.declared.orders.Order.{Order};
ghost use Rattle.audit_base.specs.Continuous.{chain};
ghost use Rattle.audit_base.specs.Deals.{number_at};
ghost use Rattle.audit_base.specs.Orders.{IsOrderList, order_at};
ghost use Rattle.order_arrivals.specs.Families.{AreFamilies};
ghost use Rattle.order_arrivals.specs.Sums.{amount_total};
ghost use Rattle.order_arrivals.specs.Arrivals.{AreArrivals, AreTradedSums, enters_where, target_rests_with};
ghost use Rattle.order_arrivals.specs.DealtOrders.{IsMarket};

use crate::dealt_orders::DealtOrders;
use crate::resting::rests;
use crate::sums::ChainSums;
use audit_base::faults::NoMemory;
use audit_base::numbers::Quantity;
use matching_core::totals::left_of;
use order_list::listed::ListedOrder;
use order_list::lists::OrderList;
use std::alloc::Global;

/// Before, Entered and Size of the first orders, by their indices.
#[derive(Drop)]
pub struct Arrivals {
    /// Before: what the chain of an order has traded before its own place.
    pub chain_traded: Vec<u128>,
    pub entered: Vec<bool>,
    pub sizes: Vec<u64>,
}

/// What each order has traded in the first of the incoming deals, with sums along chains.
#[derive(Drop)]
struct TradedSums {
    sums: ChainSums,
    /// How many of the incoming deals are added.
    added: usize,
}

/// Whether an order has no target, or its target rests before its place.
fn target_rests(
    orders: &OrderList<'_>,
    sizes: &[u64],
    traded: &[u128],
    order: &ListedOrder<'_>,
) -> bool
    requires inside { (t : ℕ) → order.now.target ≡ Some t → t < length orders.now }
    requires sizes { (t : ℕ) → order.now.target ≡ Some t → t < length sizes.now }
    requires traded { (t : ℕ) → order.now.target ≡ Some t → t < length traded.now }
    ensures { result ≡ target_rests_with orders.now sizes.now traded.now order.now.place
        order.now.target }
{
    match order.target() {
        Some(target) => {
            let place = u64::from(order.place());
            rests(&orders.at(target), place, sizes[target], traded[target])
        }
        None => true,
    }
}

/// Before: what the chain of an order has traded, which is nothing where it has no target.
fn chain_traded_of(sums: &ChainSums, order: usize, target: Option<usize>) -> u128
    requires { order < length sums.now.amounts }
    ensures chain { (orders : List Order) → IsOrderList orders
        → length orders ≡ length sums.now.amounts → AreFamilies orders sums.now.families
        → (order_at orders order).target ≡ target
        → result ≡ sum_by (number_at sums.now.amounts) (chain orders order) }
    ensures most { result ≤ amount_total sums.now.amounts }
{
    match target {
        Some(_) => sums.along_chain(order),
        None => 0,
    }
}

/// Whether an order enters: it is placed, and its target rests if it has one.
fn enters(order: &ListedOrder<'_>, target_rests: bool) -> bool
    ensures { result ≡ enters_where order.now target_rests }
{
    match order.cancelled() {
        Some(end) => end != order.place() && target_rests,
        None => target_rests,
    }
}

/// Size: of an order that entered what its chain leaves of its quantity, else 0.
fn size_of(entered: bool, quantity: Quantity, chain_traded: u128) -> u64
    ensures { result ≡ (if entered then quantity - chain_traded else 0) }
{
    if entered {
        left_of(quantity.value(), chain_traded)
    } else {
        0
    }
}

impl Arrivals {
    /// Notes the arrival of the order at `order`, by what each order has traded before it.
    fn arrive(
        &mut self,
        market: &DealtOrders<'_>,
        sums: &TradedSums,
        order: usize,
    ) -> Result<(), NoMemory>
        requires market { IsMarket market.now }
        requires order { order < length market.now.orders.now }
        requires sums { AreTradedSums market.now order sums.now }
        requires known { AreArrivals market.now.orders.now market.now.deals.now order self.old }
        ensures { OnOk result
            (AreArrivals market.now.orders.now market.now.deals.now (suc order) self.new) }
    {
        let orders = market.orders;
        let own = orders.at(order);
        let chain_traded = chain_traded_of(&sums.sums, order, own.target());
        let target_rests = target_rests(orders, &self.sizes, sums.sums.amounts(), &own);
        let entered = enters(&own, target_rests);
        self.chain_traded.push(chain_traded)?;
        self.entered.push(entered)?;
        self.sizes
            .push(size_of(entered, own.quantity(), chain_traded))?;
        Ok(())
    }
}

impl TradedSums {
    /// Adds the deals of the order at `order`, where those of the orders before it are added.
    fn add_deals_of(&mut self, market: &DealtOrders<'_>, order: usize)
        requires market { IsMarket market.now }
        requires order { order < length market.now.orders.now }
        requires before { AreTradedSums market.now order self.old }
        ensures { AreTradedSums market.now (suc order) self.new }
    {
        let (deals, incoming_deals) = (market.deals, market.incoming_deals);
        while self.added < incoming_deals.len() {
            let incoming = incoming_deals[self.added];
            if incoming.order as usize != order {
                return;
            }
            let deal = &deals[incoming.deal as usize];
            let quantity = deal.quantity.value() as u128;
            self.sums.add(deal.bid, quantity);
            self.sums.add(deal.ask, quantity);
            self.added += 1;
        }
    }
}

/// Before, Entered and Size of each order. In n log n steps for n orders and deals.
pub fn arrivals_of(alloc: Global, market: &DealtOrders<'_>) -> Result<Arrivals, NoMemory>
    requires { IsMarket market.now }
    ensures { IfOk result (AreArrivals market.now.orders.now market.now.deals.now
        (length market.now.orders.now)) }
{
    let orders = market.orders;
    let sums = ChainSums::new(alloc, orders)?;
    let mut sums = TradedSums { sums, added: 0 };
    let mut arrivals = Arrivals {
        chain_traded: Vec::with_capacity(alloc, orders.len())?,
        entered: Vec::with_capacity(alloc, orders.len())?,
        sizes: Vec::with_capacity(alloc, orders.len())?,
    };
    for order in 0..orders.len() {
        arrivals.arrive(market, &sums, order)?;
        sums.add_deals_of(market, order);
    }
    Ok(arrivals)
}
