//! The deals by their bid and their ask.
ghost use Rattle.std.specs.Prelude.{◌≡◌, All, IfOk, length, map, IsSorted};
ghost use Rattle.canonical_form.specs.Parts.{AreParts, IsPartOfDeal, part_cmp, part_of_deal};

use audit_base::faults::NoMemory;
use audit_base::orders::Deal;
use audit_base::ranges::deals_in_range;
use std::alloc::Global;

/// What one deal trades, by its bid and its ask.
#[derive(Clone, Copy, Debug, PartialEq, Eq, PartialOrd, Ord)]
pub struct DealPart {
    pub bid: usize,
    pub ask: usize,
    pub quantity: u64,
}

/// The parts of the deals, in log order.
fn collect_parts(alloc: Global, deals: &[Deal]) -> Result<Vec<DealPart>, NoMemory>
    ensures { IfOk result (λ parts. parts.items ≡ map part_of_deal deals.now) }
{
    let mut parts = Vec::with_capacity(alloc, deals.len())?;
    for deal in deals {
        let part = DealPart {
            bid: deal.bid,
            ask: deal.ask,
            quantity: deal.quantity.value(),
        };
        parts.push(part)?;
    }
    Ok(parts)
}

/// The parts of the deals in order of the bid, then of the ask.
pub fn sort_parts(alloc: Global, deals: &[Deal]) -> Result<Vec<DealPart>, NoMemory>
    ensures count { IfOk result (λ parts. length parts.items ≡ length deals.now) }
    ensures each { IfOk result (λ parts. All IsPartOfDeal parts.items) }
    ensures sums { IfOk result (λ parts. AreParts deals.now parts.items) }
    ensures sorted { IfOk result (λ parts. IsSorted part_cmp parts.items) }
{
    deals_in_range(deals);
    let mut parts = collect_parts(alloc, deals)?;
    parts.sort()?;
    Ok(parts)
}
