//! Where the numbers and prices of a plot lie on its paper: as far from its left end, or above its
//! lower end, as they lie from the start of their axis. A number beyond an axis lies at its end.
ghost use Rattle.std.specs.Prelude.{◌≡◌, ◌<◌, ◌≤◌, ◌-◌, ◌^◌, ◌++◌, ◌∷◌, [], IfOk, OnOk, map, nat_lt, if◌then◌else◌, Some, None};
ghost use Rattle.std.specs.List.{flat_map};
ghost use Rattle.audit_base.specs.Numbers.{price_end};
ghost use Rattle.page_plots.specs.Axes.{IsAxis};
ghost use Rattle.page_plots.specs.Measures.{lower_end, right_end, upper_end};
ghost use Rattle.page_plots.specs.Plots as spec;
ghost use Rattle.page_plots.specs.Plots.{AreAxesOf, AreAxisMarks, AreNumberTicks, ArePriceTicks, IsPlot};

use crate::axes::Axis;
use crate::measures::{BOTTOM, LEFT, PLOT_HEIGHT, PLOT_WIDTH};
use crate::plot_axes::{Axes, NumberTick, PriceTick};
use crate::rounds::round_step;
use crate::ticks::ticks_of;
use audit_base::faults::NoMemory;
use audit_base::numbers::Price;
use std::alloc::Global;

/// The greatest number that lies on an axis by itself.
const FARTHEST: u128 = 1_000_000_000_000_000_000_000_000_000_000;

/// The two axes of a plot of prices.
#[derive(Clone, Copy, Debug)]
pub struct Plot {
    /// Quantities or places, from the left.
    pub across: Axis,
    /// Prices in units of 10^-8, from below.
    pub up: Axis,
}

/// The number, or the greatest one of an axis.
fn capped(number: u128) -> u128
    ensures same { result ≡ spec.capped number }
    ensures bounded { result ≤ 10 ^ 30 }
{
    if number < FARTHEST { number } else { FARTHEST }
}

/// The axis from one number to another, or to the next one where that is not greater.
fn axis_between(length: u32, first: u128, last: u128) -> Axis
    requires first { first ≤ 10 ^ 30 }
    requires last { last ≤ 10 ^ 30 }
    requires length { length ≤ 10000 }
    ensures same { result ≡ spec.axis_between length first last }
    ensures axis { IsAxis result }
    ensures order { result.first ≤ result.last }
    ensures length { result.length ≡ length }
{
    let last = if first < last { last } else { first + 1 };
    Axis {
        first,
        last,
        length,
    }
}

/// The room above and below the prices of a plot. One price alone gets room by its own size, so
/// that the marks round it are plain prices.
fn room_of(lowest: u64, highest: u64) -> u128
    ensures same { result ≡ spec.room_of lowest highest }
    ensures bounded { result ≤ 2 ^ 64 }
{
    let span = if lowest < highest {
        highest - lowest
    } else {
        highest
    };
    u128::from(span) / 10 + 1
}

/// The marks of an axis, of which there are about so many.
fn marks_of(alloc: Global, axis: Axis, most: u128) -> Result<Vec<u128>, NoMemory>
    requires axis { IsAxis axis }
    requires order { axis.first ≤ axis.last }
    requires some { 0 < most }
    requires few { most ≤ 1000 }
    ensures { IfOk result (λ marks. AreAxisMarks axis most marks.items) }
{
    let step = round_step(axis.last - axis.first, most);
    let marks = ticks_of(alloc, axis.first, axis.last, step)?;
    Ok(marks)
}

/// The price of this many units, if there is one.
fn price_at(number: u128) -> Option<Price>
    ensures { result ≡ (if nat_lt number price_end then Some number else None) }
{
    match u64::try_from(number) {
        Ok(units) => Price::of(units),
        Err(_) => None,
    }
}

impl Plot {
    /// The plot from one number to another, with room above and below the prices.
    pub fn of(first: u128, last: u128, lowest: u64, highest: u64) -> Plot
        ensures same { result ≡ spec.plot_between first last lowest highest }
        ensures plot { IsPlot result }
    {
        let room = room_of(lowest, highest);
        let (low, high) = (u128::from(lowest), u128::from(highest));
        Plot {
            across: axis_between(PLOT_WIDTH, capped(first), capped(last)),
            up: axis_between(PLOT_HEIGHT, low.saturating_sub(room), high + room),
        }
    }

    /// Where a number of the first axis lies, from the left of the paper.
    pub fn x(self, number: u128) -> u16
        requires { IsPlot self }
        ensures place { result ≡ spec.x_of self number }
        ensures inside { result ≤ right_end }
    {
        (LEFT + self.across.point(number)) as u16
    }

    /// Where a price lies, from the top of the paper.
    pub fn y(self, price: u64) -> u16
        requires { IsPlot self }
        ensures place { result ≡ spec.y_of self price }
        ensures inside { (upper_end ≤ result) × (result ≤ lower_end) }
    {
        (BOTTOM - self.up.point(u128::from(price))) as u16
    }

    /// What is marked on the axes.
    pub fn axes(self, alloc: Global) -> Result<Axes, NoMemory>
        requires { IsPlot self }
        ensures { IfOk result (AreAxesOf self) }
    {
        Ok(Axes {
            prices: self.price_ticks(alloc)?,
            numbers: self.number_ticks(alloc)?,
        })
    }

    /// Adds a mark of the axis of prices, where the number is a price.
    fn push_price(self, ticks: &mut Vec<PriceTick>, number: u128) -> Result<(), NoMemory>
        requires { IsPlot self }
        ensures { OnOk result
            (ticks.new.items ≡ ticks.old.items ++ spec.placed_price self number) }
    {
        if let Some(price) = price_at(number) {
            ticks.push(PriceTick {
                price,
                y: self.y(price.units()),
            })?;
        }
        Ok(())
    }

    /// These marks of the axis of prices, each at its place.
    fn placed_prices(self, alloc: Global, marks: &[u128]) -> Result<Vec<PriceTick>, NoMemory>
        requires { IsPlot self }
        ensures { IfOk result
            (λ ticks. ticks.items ≡ flat_map (spec.placed_price self) marks.now) }
    {
        let mut ticks = Vec::new(alloc);
        for &mark in marks {
            self.push_price(&mut ticks, mark)?;
        }
        Ok(ticks)
    }

    /// The prices that are marked.
    fn price_ticks(self, alloc: Global) -> Result<Vec<PriceTick>, NoMemory>
        requires { IsPlot self }
        ensures { IfOk result (λ ticks. ArePriceTicks self ticks.items) }
    {
        let marks = marks_of(alloc, self.up, 5)?;
        let ticks = self.placed_prices(alloc, &marks)?;
        Ok(ticks)
    }

    /// Adds a mark of the first axis.
    fn push_number(self, ticks: &mut Vec<NumberTick>, number: u128) -> Result<(), NoMemory>
        requires { IsPlot self }
        ensures { OnOk result
            (ticks.new.items ≡ ticks.old.items ++ spec.placed_number self number ∷ []) }
    {
        ticks.push(NumberTick {
            number,
            x: self.x(number),
        })?;
        Ok(())
    }

    /// These marks of the first axis, each at its place.
    fn placed_numbers(self, alloc: Global, marks: &[u128]) -> Result<Vec<NumberTick>, NoMemory>
        requires { IsPlot self }
        ensures { IfOk result
            (λ ticks. ticks.items ≡ map (spec.placed_number self) marks.now) }
    {
        let mut ticks = Vec::new(alloc);
        for &mark in marks {
            self.push_number(&mut ticks, mark)?;
        }
        Ok(ticks)
    }

    /// The numbers that are marked, from the left.
    fn number_ticks(self, alloc: Global) -> Result<Vec<NumberTick>, NoMemory>
        requires { IsPlot self }
        ensures { IfOk result (λ ticks. AreNumberTicks self ticks.items) }
    {
        let marks = marks_of(alloc, self.across, 4)?;
        let ticks = self.placed_numbers(alloc, &marks)?;
        Ok(ticks)
    }
}
