//! Every offence in continuous trading, against its definition on many small logs.
ghost use Rattle.std.specs.Prelude.{◌<◌, length};
ghost use Rattle.audit_base.specs.Deals.{IsDealList};

use crate::random_logs::{Numbers, RandomLog};
use crate::records::{deals_of, found_history};
use crate::slow_rules::{NOBODY, OffenceRow, slow_log};
use audit_base::orders::Deal;
use audit_base::terms::Side;
use continuous_offences::listing::continuous_offences;
use instruction_history::history::History;
use offence_list::offences::ListedOffence;
use std::process::Abort;

/// How many logs are tried.
const LOGS: u32 = 400;

/// How many times each property was told, by its number.
#[derive(Clone, Copy, Debug, Drop)]
struct Counts {
    told: [u32; 16],
}

impl Counts {
    /// How many times a property was told.
    fn of(&self, property: u8) -> u32 {
        match self.told.get(usize::from(property)) {
            Some(count) => *count,
            None => 0,
        }
    }

    fn add(&mut self, property: u8) {
        if let Some(count) = self.told.get_mut(usize::from(property)) {
            *count = count.saturating_add(1);
        }
    }
}

fn told(offence: &ListedOffence) -> OffenceRow {
    match *offence {
        ListedOffence::Inactive { place, order } => (7, place, (order.index, order.traded), NOBODY),
        ListedOffence::Limit { place, bid, ask } => {
            (8, place, (bid.index, bid.traded), (ask.index, ask.traded))
        }
        ListedOffence::UniformPrice { place, first } => (9, place, NOBODY, (0, u128::from(first))),
        ListedOffence::Quantity { place, side, order } => {
            let property = if side == Side::Buy { 10 } else { 11 };
            (property, place, (order.index, order.traded), NOBODY)
        }
        ListedOffence::Priority {
            place,
            side,
            ahead,
            own,
        } => {
            let property = if side == Side::Buy { 12 } else { 13 };
            (
                property,
                place,
                (ahead.index, ahead.traded),
                (own.index, own.traded),
            )
        }
        ListedOffence::Spread { place, bid, ask } => {
            (15, place, (bid.index, bid.traded), (ask.index, ask.traded))
        }
    }
}

/// Of each place the offence that is listed is the one of the definition.
fn compare<R: AllocGlobal + Abort>(rt: &R, history: &History, deals: &[Deal], counts: &mut Counts)
    requires { IsDealList history.now deals.now }
{
    let orders = history.orders();
    let Some(slow) = slow_log(rt.alloc(), &orders, deals) else {
        panic!(rt; "out of memory");
    };
    let Ok(found) = continuous_offences(rt.alloc(), &orders, deals) else {
        panic!(rt; "out of memory");
    };
    let mut listed: usize = 0;
    for order in 0..orders.len() {
        if let Some(wanted) = slow.at_order(order) {
            let Some(offence) = found.get(listed) else {
                panic!(rt; "an offence is not listed");
            };
            assert_eq!(rt; told(offence), wanted);
            counts.add(wanted.0);
            listed = listed.saturating_add(1);
        }
    }
    assert_eq!(rt; listed, found.len());
}

/// No row of the desk has such books: logs with replacements, cancels and deals of any kind, half
/// of them with deals within the limits, so that each property is told many times.
#[test]
fn each_offence_is_that_of_the_definition(rt: HostRuntime) {
    let mut numbers = Numbers::new();
    let mut counts = Counts { told: [0; 16] };
    for round in 0..LOGS {
        let log = RandomLog::new(&rt, &mut numbers, round % 2 == 0);
        if let Some(history) = found_history(&rt, &log.entries) {
            let deals = deals_of(&rt, &history, &log.trades);
            compare(&rt, &history, &deals, &mut counts);
        }
    }
    for property in [7, 8, 10, 11, 12, 13, 15] {
        assert!(rt; counts.of(property) > 0);
    }
}
