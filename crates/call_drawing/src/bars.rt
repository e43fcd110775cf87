//! The bars of the steps of a side: where they lie in the plot.
ghost use Rattle.std.specs.Prelude.{◌≡◌, ◌<◌, ◌≤◌, ◌+◌, ◌^◌, ◌++◌, ◌∷◌, [], IfOk, OnOk, min};
ghost use Rattle.call_drawing.specs.Bars as spec;
ghost use Rattle.call_drawing.specs.Bars.{IsPlacedSide};
ghost use Rattle.page_plots.specs.Measures.{lower_end};
ghost use Rattle.page_plots.specs.Plots.{IsPlot};

use audit_base::faults::NoMemory;
use audit_base::terms::Side;
use call_picture::pictures::SidePicture;
use call_picture::steps::SideStep;
use call_picture::windows::DrawnSteps;
use page_plots::measures::BAR_HEIGHT;
use page_plots::plots::Plot;
use std::alloc::Global;

/// How far the centre of a mark lies from the limit of its bar.
const TO_MARK: u16 = 20;

/// Where the bar of a step lies: from the left to the right, how far it is filled, its top, its
/// limit, and the mark that it may have.
#[derive(Clone, Copy, Debug)]
pub struct Bar {
    pub left: u16,
    pub right: u16,
    pub filled: u16,
    pub top: u16,
    pub level: u16,
    pub mark_x: u16,
    pub mark_y: u16,
}

/// A step with its bar.
#[derive(Clone, Copy, Debug)]
pub struct PlacedStep {
    pub step: SideStep,
    pub bar: Bar,
}

/// The steps of a side with their bars.
#[derive(Debug, Drop)]
pub struct PlacedSide {
    /// Whether a step is all orders of one limit; else it is one order.
    pub by_limit: bool,
    pub steps: Vec<PlacedStep>,
}

/// The top of a bar: bids lie above their limit, asks below.
fn bar_top(side: Side, level: u16) -> u16
    ensures { result ≡ spec.bar_top side level }
{
    match side {
        Side::Buy => level.saturating_sub(BAR_HEIGHT as u16),
        Side::Sell => level,
    }
}

/// The centre of a mark.
fn mark_centre(side: Side, level: u16) -> u16
    requires { level ≤ lower_end }
    ensures { result ≡ spec.mark_centre side level }
{
    match side {
        Side::Buy => level.saturating_sub(TO_MARK),
        Side::Sell => level + TO_MARK,
    }
}

/// The bar of a step that begins at this quantity. An order that traded more than its quantity has
/// a bar that is filled whole.
fn bar_of(plot: Plot, side: Side, start: u128, step: &SideStep) -> Bar
    requires plot { IsPlot plot }
    requires fits { start + step.now.quantity < 2 ^ 128 }
    ensures { result ≡ spec.bar_of plot side start step.now }
{
    let level = plot.y(step.limit.units());
    let left = plot.x(start);
    let right = plot.x(start + step.quantity);
    let filled = plot.x(start + step.traded.min(step.quantity));
    let top = bar_top(side, level);
    let mark_y = mark_centre(side, level);
    Bar {
        left,
        right,
        filled,
        top,
        level,
        mark_x: left / 2 + right / 2,
        mark_y,
    }
}

/// Adds a step behind the others.
fn push_step(placed: &mut Vec<PlacedStep>, step: SideStep, bar: Bar) -> Result<(), NoMemory>
    ensures { OnOk result
        (placed.new.items ≡ placed.old.items ++ record { step = step; bar = bar } ∷ []) }
{
    placed.push(PlacedStep { step, bar })?;
    Ok(())
}

/// The steps of a side that are drawn, in order, with their bars.
fn placed_steps(
    alloc: Global,
    plot: Plot,
    side: Side,
    drawn: &DrawnSteps,
) -> Result<Vec<PlacedStep>, NoMemory>
    requires plot { IsPlot plot }
    requires fits { spec.end_of_steps drawn.now < 2 ^ 80 }
    ensures { IfOk result (λ steps. steps.items ≡ spec.placed_steps plot side drawn.now) }
{
    let mut steps = Vec::new(alloc);
    let mut start = drawn.before;
    for step in &drawn.steps {
        push_step(&mut steps, *step, bar_of(plot, side, start, step))?;
        start += step.quantity;
    }
    Ok(steps)
}

/// The steps of a side with their bars.
pub fn placed_side(
    alloc: Global,
    plot: Plot,
    side: Side,
    picture: &SidePicture,
) -> Result<PlacedSide, NoMemory>
    requires plot { IsPlot plot }
    requires fits { spec.end_of_steps picture.now.drawn < 2 ^ 80 }
    ensures { IfOk result (IsPlacedSide plot side picture.now) }
{
    let steps = placed_steps(alloc, plot, side, &picture.drawn)?;
    Ok(PlacedSide {
        by_limit: picture.by_limit,
        steps,
    })
}
