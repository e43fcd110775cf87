//! The marks on an axis: the multiples of a round number.
ghost use Rattle.std.specs.Prelude.{◌≡◌, ◌<◌, ◌≤◌, ◌+◌, ◌^◌, ◌++◌, ◌∷◌, [], IfOk, OnOk};
ghost use Rattle.page_plots.specs.Ticks.{AreTicks};

use audit_base::faults::NoMemory;
use std::alloc::Global;

/// Adds a mark after the others.
fn push_tick(ticks: &mut Vec<u128>, tick: u128) -> Result<(), NoMemory>
    ensures { OnOk result (ticks.new.items ≡ ticks.old.items ++ tick ∷ []) }
{
    ticks.push(tick)?;
    Ok(())
}

/// The multiples of a step from one number to another, both included, from the least on. Err only
/// out of memory.
pub fn ticks_of(alloc: Global, first: u128, last: u128, step: u128) -> Result<Vec<u128>, NoMemory>
    requires some { 0 < step }
    requires order { first ≤ last }
    requires fits { last + step < 2 ^ 127 }
    ensures { IfOk result (λ ticks. AreTicks first last step ticks.items) }
{
    let mut ticks = Vec::new(alloc);
    let mut times = (first + step - 1) / step;
    while times * step <= last {
        push_tick(&mut ticks, times * step)?;
        times += 1;
    }
    Ok(ticks)
}
