//! Which steps of a side are drawn where there are too many: those nearest to the volume.
ghost use Rattle.std.specs.Prelude.{◌≡◌, ◌<◌, ◌^◌, IfOk, length, min, take};
ghost use Rattle.call_picture.specs.Windows as spec;
ghost use Rattle.call_picture.specs.Windows.{IsReach, quantity_of_steps};

use super::steps::SideStep;
use audit_base::faults::NoMemory;
use std::alloc::Global;

/// The greatest number of steps of a side that are drawn.
pub const MOST_STEPS: usize = 400;

/// How many of the first steps the volume covers whole: those together ask for no more than the
/// volume, and with the next one for more.
fn reach_of(steps: &[SideStep], volume: u128) -> usize
    ensures reach { IsReach volume steps.now result }
{
    let mut rest = volume;
    for at in 0..steps.len() {
        let quantity = steps[at].quantity;
        if rest < quantity {
            return at;
        }
        rest -= quantity;
    }
    steps.len()
}

/// The first step that is drawn: half of those that are drawn lie before the end of the volume,
/// where there are enough on both sides.
fn first_drawn(reach: usize, count: usize) -> usize
    ensures { result ≡ spec.first_drawn reach count }
{
    let centred = reach.saturating_sub(MOST_STEPS / 2);
    let last = count.saturating_sub(MOST_STEPS);
    if centred < last { centred } else { last }
}

/// What steps ask for or offer together.
fn quantity_of_steps(steps: &[SideStep]) -> u128
    requires fits { quantity_of_steps steps.now < 2 ^ 128 }
    ensures { result ≡ quantity_of_steps steps.now }
{
    let mut total: u128 = 0;
    for step in steps {
        total += step.quantity;
    }
    total
}

/// The first 400 steps of these, or all.
fn front_of(steps: &[SideStep]) -> &[SideStep]
    ensures front { result.now ≡ take 400 steps.now }
    ensures count { length result.now ≡ min 400 (length steps.now) }
{
    if steps.len() < MOST_STEPS {
        steps
    } else {
        &steps[..MOST_STEPS]
    }
}

/// The steps of a side that are drawn.
#[derive(Debug, Drop)]
pub struct DrawnSteps {
    /// In rank order, at most 400.
    pub steps: Vec<SideStep>,
    /// What the better steps that are not drawn ask for or offer together.
    pub before: u128,
    /// How many better steps are not drawn.
    pub better: usize,
    /// How many worse steps are not drawn.
    pub worse: usize,
}

/// Of all steps of a side those that are drawn: all, or the 400 nearest to the end of the volume.
/// Err only out of memory.
pub fn drawn_of(alloc: Global, steps: &[SideStep], volume: u128) -> Result<DrawnSteps, NoMemory>
    ensures { IfOk result (spec.IsDrawn volume steps.now) }
{
    let first = first_drawn(reach_of(steps, volume), steps.len());
    let before = quantity_of_steps(&steps[..first]);
    let behind = &steps[first..];
    let shown = front_of(behind);
    Ok(DrawnSteps {
        steps: Vec::from_slice(alloc, shown)?,
        before,
        better: first,
        worse: behind.len() - shown.len(),
    })
}
