//! What is known of each order, by its index.
ghost use Rattle.std.specs.Prelude.{◌≡◌, ◌<◌, ◌+◌, ◌^◌, IfOk, vec_len};
ghost use Rattle.audit_base.specs.Deals.{number_at};
ghost use Rattle.continuous_audit.specs.Chains.{flag_in};
ghost use Rattle.continuous_audit.specs.DealFindings.{account_of};
ghost use Rattle.continuous_audit.specs.OrderNumbers.{AreBlankNumbers, IsArrivalNoted};

use super::arrival::Arrival;
use super::checking::Account;
use audit_base::faults::NoMemory;
use audit_base::flaws::TradedOrder;
use matching_core::totals::zeros;
use std::alloc::Global;

/// What is known of each order that has arrived, by its index.
#[derive(Drop)]
pub struct OrderNumbers {
    /// Before of each order: what its chain has traded.
    pub chain_traded: Vec<u128>,
    /// Set only where the record of the order, or an earlier one, ends each order of its chain.
    pub chain_ended: Vec<bool>,
    pub sizes: Vec<u64>,
    pub left: Vec<u64>,
}

impl OrderNumbers {
    /// The numbers of this many orders, of which none has arrived.
    pub fn new(alloc: Global, count: usize) -> Result<OrderNumbers, NoMemory>
        ensures { IfOk result (AreBlankNumbers count) }
    {
        Ok(OrderNumbers {
            chain_traded: zeros(alloc, count)?,
            chain_ended: vec![in alloc; false; count]?,
            sizes: vec![in alloc; 0u64; count]?,
            left: vec![in alloc; 0u64; count]?,
        })
    }

    /// Notes the arrival of an order at its own record.
    pub fn note(&mut self, order: usize, arrival: &Arrival)
        requires chain_traded { order < vec_len self.old.chain_traded }
        requires chain_ended { order < vec_len self.old.chain_ended }
        requires sizes { order < vec_len self.old.sizes }
        ensures { IsArrivalNoted order arrival.now self.old self.new }
    {
        self.chain_traded[order] = arrival.chain_traded;
        self.chain_ended[order] = arrival.chain_ended;
        self.sizes[order] = arrival.size;
    }

    /// What is known of an order that has traded this much.
    pub fn account(&self, order: usize, traded: u128) -> Account
        requires chain_traded { order < vec_len self.now.chain_traded }
        requires size { order < vec_len self.now.sizes }
        requires left { order < vec_len self.now.left }
        requires fits { traded + number_at self.now.chain_traded.items order < 2 ^ 128 }
        ensures { result ≡ account_of self.now order traded }
    {
        let shown = TradedOrder {
            index: order,
            traded: traded + self.chain_traded[order],
        };
        Account {
            shown,
            traded,
            size: self.sizes[order],
            left: self.left[order],
        }
    }

    /// Before of an order: what its chain has traded.
    pub fn chain_traded_of(&self, order: usize) -> u128
        requires { order < vec_len self.now.chain_traded }
        ensures { result ≡ number_at self.now.chain_traded.items order }
    {
        self.chain_traded[order]
    }

    /// Whether an order's flag is set: its record, or an earlier one, ends each order of its chain.
    pub fn is_chain_ended(&self, order: usize) -> bool
        requires { order < vec_len self.now.chain_ended }
        ensures { result ≡ flag_in self.now.chain_ended.items order }
    {
        self.chain_ended[order]
    }
}
