//! The axes of a plot of prices, drawn.
ghost use Rattle.std.specs.Prelude.{◌≡◌, ◌++◌, IfOk, decimal};
ghost use Rattle.std.specs.List.{flat_map};
ghost use Rattle.page_plots.specs.PlotAxes as spec;

use crate::measures::{
    BOTTOM, LEGEND_FOOT, MARKS_END, NUMBERS_FOOT, PRICE_WORD_FOOT, PRICES_END, RIGHT, TO_FOOT,
};
use crate::papers::price_words;
use crate::plot_lines::with_line_across;
use crate::shapes::{Anchor, Point, with_label, with_line};
use audit_base::faults::NoMemory;
use audit_base::numbers::Price;
use audit_base::texts::write_number;
use page_markup::markup::Markup;
use std::alloc::Global;

/// A marked price, and how far from the top of the paper it lies.
#[derive(Clone, Copy, Debug)]
pub struct PriceTick {
    pub price: Price,
    pub y: u16,
}

/// A marked number, and how far from the left of the paper it lies.
#[derive(Clone, Copy, Debug)]
pub struct NumberTick {
    pub number: u128,
    pub x: u16,
}

/// What is marked on the axes of a plot of prices.
#[derive(Debug, Drop)]
pub struct Axes {
    pub prices: Vec<PriceTick>,
    pub numbers: Vec<NumberTick>,
}

/// The text of a number.
fn number_words(alloc: Global, number: u128) -> Result<Vec<u8>, NoMemory>
    ensures { IfOk result (λ text. text.items ≡ decimal number) }
{
    let mut text = Vec::new(alloc);
    write_number(alloc, number, &mut text)?;
    Ok(text)
}

/// With the line of a price behind it.
fn with_price_tick(alloc: Global, made: Markup, tick: &PriceTick) -> Result<Markup, NoMemory>
    ensures { IfOk result (λ more. more ≡ made ++ spec.price_tick tick.now) }
{
    let y = u32::from(tick.y);
    let made = with_line_across(alloc, made, b"grid", y)?;
    let text = price_words(alloc, tick.price)?;
    let at = Point {
        x: PRICES_END,
        y: y + TO_FOOT,
    };
    with_label(alloc, made, b"tick", at, Anchor::End, &text)
}

/// With the mark of a number behind it.
fn with_number_tick(alloc: Global, made: Markup, tick: &NumberTick) -> Result<Markup, NoMemory>
    ensures { IfOk result (λ more. more ≡ made ++ spec.number_tick tick.now) }
{
    let x = u32::from(tick.x);
    let (from, to) = (Point { x, y: BOTTOM }, Point { x, y: MARKS_END });
    let made = with_line(alloc, made, b"axis", from, to)?;
    let text = number_words(alloc, tick.number)?;
    let at = Point { x, y: NUMBERS_FOOT };
    with_label(alloc, made, b"tick", at, Anchor::Middle, &text)
}

/// With the lines of prices behind it.
fn with_price_ticks(alloc: Global, made: Markup, ticks: &[PriceTick]) -> Result<Markup, NoMemory>
    ensures { IfOk result (λ more. more ≡ made ++ flat_map spec.price_tick ticks.now) }
{
    let mut made = made;
    for tick in ticks {
        made = with_price_tick(alloc, made, tick)?;
    }
    Ok(made)
}

/// With the marks of numbers behind it.
fn with_number_ticks(alloc: Global, made: Markup, ticks: &[NumberTick]) -> Result<Markup, NoMemory>
    ensures { IfOk result (λ more. more ≡ made ++ flat_map spec.number_tick ticks.now) }
{
    let mut made = made;
    for tick in ticks {
        made = with_number_tick(alloc, made, tick)?;
    }
    Ok(made)
}

/// With the line of the axis from the left behind it, and what each axis shows.
fn with_axis_words(alloc: Global, made: Markup, across: &[u8]) -> Result<Markup, NoMemory>
    ensures { IfOk result (λ more. more ≡ made ++ spec.axis_words across.now) }
{
    let made = with_line_across(alloc, made, b"axis", BOTTOM)?;
    let at = Point {
        x: RIGHT,
        y: LEGEND_FOOT,
    };
    let made = with_label(alloc, made, b"tick", at, Anchor::End, across)?;
    let above = Point {
        x: PRICES_END,
        y: PRICE_WORD_FOOT,
    };
    with_label(alloc, made, b"tick", above, Anchor::End, b"price")
}

/// With the axes of a plot behind it, and what the one from the left shows.
pub fn with_axes(
    alloc: Global,
    made: Markup,
    axes: &Axes,
    across: &[u8],
) -> Result<Markup, NoMemory>
    ensures { IfOk result (λ more. more ≡ made ++ spec.axes_shapes axes.now across.now) }
{
    let made = with_price_ticks(alloc, made, &axes.prices)?;
    let made = with_number_ticks(alloc, made, &axes.numbers)?;
    with_axis_words(alloc, made, across)
}
