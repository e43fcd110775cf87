//! Small logs that look random and are the same at every run.
ghost use Rattle.std.specs.Prelude.{◌<◌};

use crate::records::{NOON, cancel, order_of_life, replace, trade};
use audit_base::records::{OrderRecord, TradeRecord};
use audit_base::terms::{Life, Side};
use std::process::Abort;

/// The ids of the records of a log, and of its trades.
const IDS: [&str; 9] = ["a", "b", "c", "d", "e", "f", "g", "h", "i"];

/// Numbers that look random and are the same at every run.
#[derive(Drop)]
pub(crate) struct Numbers {
    state: u64,
}

impl Numbers {
    pub(crate) fn new() -> Numbers {
        Numbers { state: 1 }
    }

    /// The next number, below a bound.
    fn below(&mut self, bound: usize) -> usize
        requires { 0 < bound }
        ensures { result < bound }
    {
        let state = self.state.wrapping_mul(6_364_136_223_846_793_005);
        self.state = state.wrapping_add(1_442_695_040_888_963_407);
        ((self.state >> 33) % (bound as u64)) as usize
    }
}

/// An order that a log has placed.
#[derive(Clone, Copy, Debug)]
struct PlacedOrder {
    id: &'static str,
    side: Side,
    limit: u64,
}

/// The records of a log.
#[derive(Drop)]
pub(crate) struct RandomLog {
    pub(crate) entries: Vec<OrderRecord>,
    pub(crate) trades: Vec<TradeRecord>,
    placed: Vec<PlacedOrder>,
    /// Whether its deals mostly conform by themselves.
    is_tame: bool,
}

/// An order that was placed, if there is one.
fn pick(numbers: &mut Numbers, placed: &[PlacedOrder]) -> Option<PlacedOrder> {
    if placed.is_empty() {
        return None;
    }
    Some(placed[numbers.below(placed.len())])
}

fn pick_of_side(numbers: &mut Numbers, placed: &[PlacedOrder], side: Side) -> Option<PlacedOrder> {
    match pick(numbers, placed) {
        Some(order) if order.side == side => Some(order),
        _ => None,
    }
}

impl RandomLog {
    pub(crate) fn new<R: AllocGlobal + Abort>(
        rt: &R,
        numbers: &mut Numbers,
        is_tame: bool,
    ) -> RandomLog {
        let mut log = RandomLog {
            entries: Vec::new(rt.alloc()),
            trades: Vec::new(rt.alloc()),
            placed: Vec::new(rt.alloc()),
            is_tame,
        };
        for id in IDS {
            log.add_entry(rt, numbers, id);
        }
        for id in IDS {
            log.add_trade(rt, numbers, id);
        }
        log
    }

    /// One in this many records names an earlier order.
    fn rarity(&self) -> usize
        ensures { 0 < result }
    {
        if self.is_tame { 8 } else { 2 }
    }

    /// A new order, or a replacement or a cancel of an earlier one.
    fn add_entry<R: AllocGlobal + Abort>(
        &mut self,
        rt: &R,
        numbers: &mut Numbers,
        id: &'static str,
    ) {
        let limit = 8 + numbers.below(5) as u64;
        let quantity = 1 + numbers.below(9) as u64;
        let mut side = if numbers.below(2) == 0 {
            Side::Buy
        } else {
            Side::Sell
        };
        let mut target = None;
        if numbers.below(self.rarity()) == 0 {
            target = pick(numbers, &self.placed);
        }
        let record = match target {
            Some(target) => {
                if numbers.below(3) == 0 {
                    self.push_entry(rt, cancel(rt, id, target.id));
                    return;
                }
                side = target.side;
                replace(rt, id, target.id, side, quantity, limit)
            }
            None => {
                let life = if numbers.below(12) == 0 {
                    Life::Immediate
                } else {
                    Life::Rests
                };
                order_of_life(rt, id, side, quantity, limit, NOON, life)
            }
        };
        self.push_entry(rt, record);
        if self.placed.push(PlacedOrder { id, side, limit }).is_err() {
            panic!(rt; "out of memory");
        }
    }

    fn push_entry<R: AllocGlobal + Abort>(&mut self, rt: &R, entry: OrderRecord) {
        if self.entries.push(entry).is_err() {
            panic!(rt; "out of memory");
        }
    }

    /// A trade of two orders, if a bid and an ask are found.
    fn add_trade<R: AllocGlobal + Abort>(&mut self, rt: &R, numbers: &mut Numbers, id: &str) {
        let Some(bid) = pick_of_side(numbers, &self.placed, Side::Buy) else {
            return;
        };
        let Some(ask) = pick_of_side(numbers, &self.placed, Side::Sell) else {
            return;
        };
        let mut quantity = 1 + numbers.below(3) as u64;
        let mut price = 8 + numbers.below(5) as u64;
        if self.is_tame {
            if bid.limit < ask.limit {
                return;
            }
            quantity = 1;
            price = ask.limit;
        }
        let record = trade(rt, id, bid.id, ask.id, quantity, price);
        if self.trades.push(record).is_err() {
            panic!(rt; "out of memory");
        }
    }
}
