//! The steps of a side, drawn.
ghost use Rattle.std.specs.Prelude.{◌≡◌, ◌++◌, IfOk, OnOk, codes};
ghost use Rattle.std.specs.List.{flat_map};
ghost use Rattle.call_drawing.specs.Steps as spec;

use crate::bars::{Bar, PlacedSide, PlacedStep};
use audit_base::faults::NoMemory;
use audit_base::terms::Side;
use audit_base::texts::write_number;
use audit_report::line_parts::{LinePart, append_joined};
use audit_report::words::side_word;
use call_picture::steps::SideStep;
use order_list::lists::OrderList;
use page_markup::markup::Markup;
use page_plots::orders::order_title;
use page_plots::shapes::{Point, append_point, with_bar, with_group, with_path};
use page_plots::sides::{bar_class, filled_class};
use std::alloc::Global;

/// The title of the orders of one limit.
fn limit_title(alloc: Global, side: Side, step: &SideStep) -> Result<Vec<u8>, NoMemory>
    ensures { IfOk result (λ text. text.items ≡ spec.limit_title side step.now) }
{
    let mut count = Vec::new(alloc);
    write_number(alloc, step.orders as u128, &mut count)?;
    let parts = [
        LinePart::Word(side_word(side)),
        LinePart::Number(step.quantity),
        LinePart::Price(step.limit),
        LinePart::Number(step.traded),
    ];
    let mut text = Vec::new(alloc);
    append_joined(alloc, &count, &parts, &mut text)?;
    Ok(text)
}

/// The title of a step.
fn step_title(
    alloc: Global,
    orders: &OrderList<'_>,
    side: Side,
    by_limit: bool,
    step: &SideStep,
) -> Result<Vec<u8>, NoMemory>
    ensures { IfOk result
        (λ text. text.items ≡ spec.step_title orders.now side by_limit step.now) }
{
    if by_limit {
        limit_title(alloc, side, step)
    } else {
        order_title(alloc, orders, step.best, step.traded)
    }
}

/// The class of the line that joins the bars of a side.
fn line_class(side: Side) -> &'static [u8]
    ensures { result.now ≡ spec.line_class side }
{
    match side {
        Side::Buy => b"bidline",
        Side::Sell => b"askline",
    }
}

/// With a bar of this class behind it, from its left to here.
pub fn with_step_bar(
    alloc: Global,
    made: Markup,
    class: &[u8],
    bar: Bar,
    right: u16,
) -> Result<Markup, NoMemory>
    ensures { IfOk result (λ more. more ≡ made ++ spec.step_bar class.now bar right) }
{
    let corner = Point {
        x: u32::from(bar.left),
        y: u32::from(bar.top),
    };
    with_bar(alloc, made, class, corner, u32::from(right))
}

/// With the traded part of a bar behind it, where the step traded.
fn with_traded(
    alloc: Global,
    made: Markup,
    side: Side,
    placed: &PlacedStep,
) -> Result<Markup, NoMemory>
    ensures { IfOk result (λ more. more ≡ made ++ spec.traded_bar side placed.now) }
{
    if 0 < placed.step.traded {
        let (class, bar) = (filled_class(side), placed.bar);
        with_step_bar(alloc, made, class, bar, bar.filled)
    } else {
        Ok(made)
    }
}

/// With a step behind it.
fn with_step(
    alloc: Global,
    made: Markup,
    orders: &OrderList<'_>,
    side: Side,
    by_limit: bool,
    placed: &PlacedStep,
) -> Result<Markup, NoMemory>
    ensures { IfOk result
        (λ more. more ≡ made ++ spec.step_shapes orders.now side by_limit placed.now) }
{
    let title = step_title(alloc, orders, side, by_limit, &placed.step)?;
    let bar = placed.bar;
    let shapes = with_step_bar(alloc, Markup::new(alloc), bar_class(side), bar, bar.right)?;
    let shapes = with_traded(alloc, shapes, side, placed)?;
    with_group(alloc, made, &title, &shapes)
}

/// With these steps behind it.
fn with_steps(
    alloc: Global,
    made: Markup,
    orders: &OrderList<'_>,
    side: Side,
    by_limit: bool,
    steps: &[PlacedStep],
) -> Result<Markup, NoMemory>
    ensures { IfOk result
        (λ more. more ≡ made ++ flat_map (spec.step_shapes orders.now side by_limit) steps.now) }
{
    let mut made = made;
    for placed in steps {
        made = with_step(alloc, made, orders, side, by_limit, placed)?;
    }
    Ok(made)
}

/// Appends the two ends of a bar to the words of a path.
fn append_ends(path: &mut Vec<u8>, placed: &PlacedStep) -> Result<(), NoMemory>
    ensures { OnOk result (path.new.items ≡ path.old.items ++ spec.ends_of_bar placed.now) }
{
    let y = u32::from(placed.bar.level);
    append_point(
        path,
        Point {
            x: u32::from(placed.bar.left),
            y,
        },
    )?;
    append_point(
        path,
        Point {
            x: u32::from(placed.bar.right),
            y,
        },
    )
}

/// The words of the path through the ends of these bars.
fn ends_of_bars(alloc: Global, steps: &[PlacedStep]) -> Result<Vec<u8>, NoMemory>
    ensures { IfOk result
        (λ path. path.items ≡ codes "M" ++ flat_map spec.ends_of_bar steps.now) }
{
    let mut path = Vec::from_slice(alloc, b"M")?;
    for placed in steps {
        append_ends(&mut path, placed)?;
    }
    Ok(path)
}

/// With the line behind it that joins the bars of a side, where there are some.
fn with_side_line(
    alloc: Global,
    made: Markup,
    side: Side,
    steps: &[PlacedStep],
) -> Result<Markup, NoMemory>
    ensures { IfOk result (λ more. more ≡ made ++ spec.side_line side steps.now) }
{
    if 0 < steps.len() {
        let ends = ends_of_bars(alloc, steps)?;
        with_path(alloc, made, line_class(side), &ends)
    } else {
        Ok(made)
    }
}

/// With the steps of a side behind it, best first, and the line that joins them.
pub fn with_side(
    alloc: Global,
    made: Markup,
    orders: &OrderList<'_>,
    side: Side,
    placed: &PlacedSide,
) -> Result<Markup, NoMemory>
    ensures { IfOk result
        (λ more. more ≡ made ++ spec.side_shapes orders.now side placed.now) }
{
    let made = with_steps(alloc, made, orders, side, placed.by_limit, &placed.steps)?;
    with_side_line(alloc, made, side, &placed.steps)
}
