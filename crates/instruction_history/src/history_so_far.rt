//! What is known of a history after some of its records, record by record.
//!
//! Of an order everything is kept but its key, which the numbering of the keys has. A replacement
//! that is not placed has its own place as `cancelled` from the start.
ghost use Rattle.std.specs.Prelude.{◌≡◌, ◌<◌, ◌^◌, [], ◌∷◌, ◌++◌, List, vec_len, length, IfSome, IfOk, OnOk, Some};
ghost use Rattle.std.specs.Option.{ForSome};
ghost use Rattle.audit_base.specs.Histories.{key_of};
ghost use Rattle.audit_base.specs.declared.orders.Order.{Order};
ghost use Rattle.instruction_history.specs.Draft as draft;
ghost use Rattle.instruction_history.specs.Flaws.{flaw_finding, NamesNoOrder};
ghost use Rattle.order_list.specs.declared.keys.Keys.{Keys as KeysSpec};
ghost use Rattle.order_list.specs.Keys.{record_seen_in, key_in, HasNumber, IsNumbered};
ghost use Rattle.order_list.specs.Stored.{order_with, orders_of, AreKeysNumbered};

use super::findings::{LastRecord, record_evidence};
use audit_base::faults::NoMemory;
use audit_base::flaws::Flaw;
use audit_base::names::Name;
use audit_base::records::OrderRecord;
use order_list::keys::{KeyNumber, Keys, SeenRecord};
use order_list::lists::OrderList;
use order_list::stored::{OrderParts, StoredOrder};
use seeded_hash::seed::HashSeed;
use std::alloc::Global;

/// The index, if the order there may be the target of the record.
fn fitting_target(orders: &OrderList<'_>, entry: &OrderRecord, index: usize) -> Option<usize>
    ensures value { result ≡ draft.fitting_target orders.now entry.now index }
    ensures in_range { IfSome result (λ i. i < length orders.now) }
{
    let order = orders.get(index)?;
    if entry.fits_side(order.side()) {
        Some(index)
    } else {
        None
    }
}

/// The index of the order that has the key of these names, if it may be the target of the record.
fn named_target(
    orders: &OrderList<'_>,
    keys: &Keys,
    entry: &OrderRecord,
    firm: &Name,
    id: &Name,
) -> Option<usize>
    ensures value { let seen = record_seen_in keys.now (record { firm = firm.now; id = id.now }) in
        result ≡ draft.seen_target orders.now entry.now seen }
    ensures in_range { IfSome result (λ i. i < length orders.now) }
{
    let seen = keys.find(firm, id)?;
    let index = seen.index?;
    fitting_target(orders, entry, index as usize)
}

/// The index of the target of the record.
fn target_of(orders: &OrderList<'_>, keys: &Keys, entry: &OrderRecord) -> Option<usize>
    ensures value { result ≡ draft.target_among orders.now (record_seen_in keys.now) entry.now }
    ensures in_range { IfSome result (λ i. i < length orders.now) }
{
    match entry {
        OrderRecord::New { .. } => None,
        OrderRecord::Cancel { key, target, .. } => {
            named_target(orders, keys, entry, &key.firm, target)
        }
        OrderRecord::Replace { key, target, .. } => {
            named_target(orders, keys, entry, &key.firm, target)
        }
    }
}

/// Ends the order at an index, unless an earlier record did.
fn end(orders: &mut Vec<StoredOrder>, target: usize, place: u32)
    requires { target < vec_len orders.old }
    ensures items { (keys : KeysSpec) → orders_of keys orders.new.items
        ≡ draft.with_target_ended (orders_of keys orders.old.items) (Some target) place }
    ensures numbered { (keys : KeysSpec) → AreKeysNumbered keys orders.old.items
        → AreKeysNumbered keys orders.new.items }
    ensures len { vec_len orders.new ≡ vec_len orders.old }
{
    let order = &mut orders[target];
    order.end(place);
}

/// Ends the target.
fn end_target(orders: &mut Vec<StoredOrder>, target: Option<usize>, place: u32)
    requires { ForSome target (λ t. t < vec_len orders.old) }
    ensures items { (keys : KeysSpec) → orders_of keys orders.new.items
        ≡ draft.with_target_ended (orders_of keys orders.old.items) target place }
    ensures numbered { (keys : KeysSpec) → AreKeysNumbered keys orders.old.items
        → AreKeysNumbered keys orders.new.items }
    ensures len { vec_len orders.new ≡ vec_len orders.old }
{
    if let Some(target) = target {
        end(orders, target, place);
    }
}

/// The own place of a replacement, where its target is not there any more: it is never placed.
fn own_end(orders: &OrderList<'_>, target: Option<usize>, place: u32) -> Option<u32>
    requires { ForSome target (λ t. t < length orders.now) }
    ensures { result ≡ draft.own_end orders.now target place }
{
    match target {
        Some(target) => {
            if orders.at(target).cancelled().is_none() {
                None
            } else {
                Some(place)
            }
        }
        None => None,
    }
}

/// One more order.
fn push(orders: &mut Vec<StoredOrder>, parts: &OrderParts) -> Result<(), NoMemory>
    requires { IfSome parts.now.target (λ t. t < 4294967295) }
    ensures items { (keys : KeysSpec) →
        let order = order_with (key_in keys parts.now.number) parts.now in
        OnOk result (orders_of keys orders.new.items
        ≡ orders_of keys orders.old.items ++ order ∷ []) }
    ensures numbered { (keys : KeysSpec) → IsNumbered keys parts.now.number
        → AreKeysNumbered keys orders.old.items
        → OnOk result (AreKeysNumbered keys orders.new.items) }
{
    orders.push(StoredOrder::of(parts))?;
    Ok(())
}

/// Adds the order of a new order, which has no target, or of a replacement. `own_end` is the own
/// place of a replacement whose target was ended before, and `number` that of its key.
fn push_order(
    orders: &mut Vec<StoredOrder>,
    entry: &OrderRecord,
    target: Option<usize>,
    own_end: Option<u32>,
    place: u32,
    number: KeyNumber,
) -> Result<(), NoMemory>
    requires { IfSome target (λ t. t < 4294967295) }
    ensures items { (keys : KeysSpec) (before : List Order)
        → HasNumber keys (key_of entry.now) number
        → own_end ≡ draft.own_end before target place →
        let order = draft.order_by_target before entry.now target place in
        OnOk result (orders_of keys orders.new.items
        ≡ draft.orders_with_own (orders_of keys orders.old.items) order) }
    ensures numbered { (keys : KeysSpec) → IsNumbered keys number
        → AreKeysNumbered keys orders.old.items
        → OnOk result (AreKeysNumbered keys orders.new.items) }
{
    match entry {
        OrderRecord::Cancel { .. } => Ok(()),
        OrderRecord::New {
            time,
            side,
            quantity,
            price,
            ..
        }
        | OrderRecord::Replace {
            time,
            side,
            quantity,
            price,
            ..
        } => push(
            orders,
            &OrderParts {
                number,
                place,
                time: *time,
                side: *side,
                life: entry.life(),
                quantity: *quantity,
                limit: *price,
                cancelled: own_end,
                target,
            },
        ),
    }
}

/// What a record is remembered as, where `orders` orders came before it.
fn seen_as(entry: &OrderRecord, place: u32, orders: u32) -> SeenRecord
    ensures { result ≡ draft.seen_as entry.now place orders }
{
    let side = entry.side();
    let index = if entry.is_order() { Some(orders) } else { None };
    SeenRecord { place, side, index }
}

/// What is known after some records of a history that have no finding: the order list as they make
/// it, what each of their keys names, and the last of them.
#[derive(Drop)]
pub(crate) struct HistorySoFar {
    pub orders: Vec<StoredOrder>,
    pub keys: Keys,
    pub last: Option<LastRecord>,
}

impl HistorySoFar {
    ghost use Rattle.instruction_history.specs.Draft.{IsHistorySoFar, KnowsNextRecord, AddsRecord, kept_orders};

    /// No records.
    pub fn new(alloc: Global, seed: HashSeed) -> HistorySoFar
        ensures { IsHistorySoFar [] result }
    {
        HistorySoFar {
            orders: Vec::new(alloc),
            keys: Keys::new(alloc, seed),
            last: None,
        }
    }

    /// The orders so far.
    pub fn list(&self) -> OrderList<'_>
        ensures same { result ≡ kept_orders self.now }
        ensures len { length result ≡ vec_len self.now.orders }
    {
        OrderList::of(&self.orders, &self.keys)
    }

    /// Takes the next record of the history, at its place in the log, or says what is wrong with
    /// it. Then nothing is known of what is kept.
    pub fn take(&mut self, entry: &OrderRecord, place: u32) -> Result<Option<Flaw>, NoMemory>
        requires { vec_len self.old.orders < 2 ^ 32 }
        ensures knows { let knows = KnowsNextRecord self.old self.new place entry.now in
            IfOk result (λ flaw. knows (flaw_finding flaw)) }
        ensures alone { IfOk result NamesNoOrder }
    {
        let target = target_of(&self.list(), &self.keys, entry);
        let seen = seen_as(entry, place, self.orders.len() as u32);
        // One look-up gives what the key named and adds it.
        let added = self.keys.add(entry.key(), seen)?;
        if let Some(evidence) = record_evidence(added.earlier, self.last, entry, target) {
            return Ok(Some(Flaw { place, evidence }));
        }
        self.add(entry, target, place, added.number)?;
        Ok(None)
    }

    /// Adds a record that has no finding, and whose key has been added.
    fn add(
        &mut self,
        entry: &OrderRecord,
        target: Option<usize>,
        place: u32,
        number: KeyNumber,
    ) -> Result<(), NoMemory>
        requires fits_indices { vec_len self.old.orders < 2 ^ 32 }
        requires target { ForSome target (λ t. t < vec_len self.old.orders) }
        ensures { HasNumber self.old.keys (key_of entry.now) number
            → OnOk result (AddsRecord self.old self.new place entry.now target) }
    {
        let own_end = own_end(&self.list(), target, place);
        end_target(&mut self.orders, target, place);
        push_order(&mut self.orders, entry, target, own_end, place, number)?;
        self.last = Some(LastRecord {
            place,
            time: entry.time(),
        });
        Ok(())
    }
}
