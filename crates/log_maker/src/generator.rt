//! The records one after another.
ghost use Rattle.std.specs.Prelude.{◌≡◌, ◌≤◌, ◌+◌, ◌*◌, ◌%◌, ℕ, IfOk, length};
ghost use Rattle.audit_base.specs.Histories.{WellFormed, Regular};
ghost use Rattle.log_maker.specs.Generator.{IsStart, IsCount, IsBlockAfter, AreOfSymbol, AllRest, generated_records, state_at};
ghost use Rattle.log_maker.specs.Generator as spec;

pub use super::fields::generated_symbol;
use super::fields::record_of;
use audit_base::faults::NoMemory;
use audit_base::records::OrderRecord;
use std::alloc::Global;

/// The state after this one (the minimal standard generator of Park, Miller and Stockmeyer).
fn next_state(state: u32) -> u32
    ensures { result ≡ 48271 * state % 2147483647 }
{
    (48_271 * u64::from(state) % 2_147_483_647) as u32
}

/// Some generated records one after another, and the generator's state at the last of them.
#[derive(Drop)]
pub struct OrderBlock {
    pub entries: Vec<OrderRecord>,
    pub state: u32,
}

/// The records with the numbers `first` + 1 to `first` + `count`, where `state` is the generator's
/// at the record `first`, or the state `start` where that is 0. So a log can be made block by
/// block, in memory for one of them. Err only out of memory.
pub fn make_block_after(
    alloc: Global,
    first: u32,
    count: u32,
    state: u32,
) -> Result<OrderBlock, NoMemory>
    requires { first + count ≤ 1000000 }
    ensures { (start : ℕ) → state ≡ state_at start first
        → IfOk result (IsBlockAfter start first count) }
{
    let mut entries = Vec::with_capacity(alloc, count as usize)?;
    let mut text = Vec::new(alloc);
    let mut reached = state;
    for number in first + 1..first + count + 1 {
        reached = next_state(reached);
        let entry = record_of(alloc, number, reached, &mut text)?;
        entries.push(entry)?;
    }
    Ok(OrderBlock {
        entries,
        state: reached,
    })
}

/// The records with the numbers 1 to `count`, from the state `start`: a log of the symbol `GEN`,
/// in which each tenth record is a cancel and every other one a new order that may rest.
/// `start` is from 1 to 2,147,483,646, `count` from 1 to 1,000,000. Their history is well-formed,
/// so no audit of it has a finding of the order log. Err only out of memory.
pub fn make_orders(alloc: Global, start: u32, count: u32) -> Result<Vec<OrderRecord>, NoMemory>
    requires start { IsStart start }
    requires count { IsCount count }
    ensures records { IfOk result (λ entries. entries.items ≡ generated_records start count) }
    ensures count { IfOk result (λ entries. length entries.items ≡ count) }
    ensures symbol { IfOk result (λ entries. AreOfSymbol spec.generated_symbol entries.items) }
    ensures well_formed { IfOk result (λ entries. WellFormed spec.generated_symbol entries.items) }
    ensures regular { IfOk result (λ entries. Regular (spec.generated_orders entries.items)) }
    ensures resting { IfOk result (λ entries. AllRest (spec.generated_orders entries.items)) }
{
    let block = make_block_after(alloc, 0, count, start)?;
    Ok(block.entries)
}
