//! The marks of the orders of the evidence.
ghost use Rattle.std.specs.Prelude.{◌≡◌, ◌++◌, IfOk};
ghost use Rattle.std.specs.List.{flat_map, list_any};
ghost use Rattle.call_drawing.specs.Marks as spec;

use crate::bars::{Bar, PlacedSide, PlacedStep};
use crate::layouts::CallLayout;
use crate::steps::with_step_bar;
use audit_base::faults::NoMemory;
use audit_base::findings::OrderLine;
use audit_base::terms::Side;
use call_picture::steps::SideStep;
use order_list::lists::OrderList;
use page_markup::markup::Markup;
use page_plots::marks::MarkedPicture;
use page_plots::orders::{has_place, with_badge};
use page_plots::shapes::Point;
use std::alloc::Global;

/// The mark of an order of the evidence.
#[derive(Clone, Copy, Debug)]
struct OrderMark<'a> {
    /// The number of the order's row in the table: 1 or 2, as it is written.
    number: &'a [u8],
    /// The order.
    line: &'a OrderLine,
}

/// Whether a step is that of this order, or of its limit.
fn is_step_of(orders: &OrderList<'_>, by_limit: bool, step: &SideStep, line: &OrderLine) -> bool
    ensures { result ≡ spec.is_step_of orders.now by_limit step.now line.now }
{
    if by_limit {
        step.limit == line.limit
    } else {
        has_place(orders, step.best, line.place)
    }
}

/// The centre of the mark that a bar may have.
fn mark_of(bar: Bar) -> Point
    ensures { result ≡ spec.mark_of bar }
{
    Point {
        x: u32::from(bar.mark_x),
        y: u32::from(bar.mark_y),
    }
}

/// With a mark round a bar behind it.
fn with_mark(alloc: Global, made: Markup, number: &[u8], bar: Bar) -> Result<Markup, NoMemory>
    ensures { IfOk result (λ more. more ≡ made ++ spec.bar_mark number.now bar) }
{
    let made = with_step_bar(alloc, made, b"mark", bar, bar.right)?;
    with_badge(alloc, made, number, mark_of(bar))
}

/// With the mark of an order behind it, where this step is that of the order.
fn with_mark_at_step(
    alloc: Global,
    made: Markup,
    orders: &OrderList<'_>,
    by_limit: bool,
    mark: &OrderMark<'_>,
    placed: &PlacedStep,
) -> Result<Markup, NoMemory>
    ensures { IfOk result (λ more. more ≡ made ++ spec.mark_at_step orders.now by_limit
        mark.now.number.now mark.now.line.now placed.now) }
{
    if is_step_of(orders, by_limit, &placed.step, mark.line) {
        with_mark(alloc, made, mark.number, placed.bar)
    } else {
        Ok(made)
    }
}

/// With the mark of an order behind it at each of these steps that is that of the order.
fn with_mark_at_steps(
    alloc: Global,
    made: Markup,
    orders: &OrderList<'_>,
    by_limit: bool,
    mark: &OrderMark<'_>,
    steps: &[PlacedStep],
) -> Result<Markup, NoMemory>
    ensures { IfOk result (λ more. more ≡ made ++ flat_map
        (spec.mark_at_step orders.now by_limit mark.now.number.now mark.now.line.now) steps.now) }
{
    let mut made = made;
    for placed in steps {
        made = with_mark_at_step(alloc, made, orders, by_limit, mark, placed)?;
    }
    Ok(made)
}

/// With the mark of an order of this side behind it, where its step is drawn.
fn with_mark_on_side(
    alloc: Global,
    made: Markup,
    orders: &OrderList<'_>,
    mark: &OrderMark<'_>,
    side: &PlacedSide,
) -> Result<Markup, NoMemory>
    ensures { IfOk result (λ more. more ≡ made
        ++ spec.mark_on_side orders.now mark.now.number.now mark.now.line.now side.now) }
{
    with_mark_at_steps(alloc, made, orders, side.by_limit, mark, &side.steps)
}

/// Whether one of these steps is that of an order.
fn has_step_of(
    orders: &OrderList<'_>,
    by_limit: bool,
    line: &OrderLine,
    steps: &[PlacedStep],
) -> bool
    ensures { result ≡ list_any (λ p. spec.is_step_of orders.now by_limit p.step line.now) steps.now }
{
    steps
        .iter()
        .any(|placed| is_step_of(orders, by_limit, &placed.step, line))
}

impl MarkedPicture for CallLayout {
    ghost use Rattle.call_drawing.specs.Marks.{has_step_mark, step_mark};

    ghost order_mark = { step_mark };

    ghost has_mark = { has_step_mark };

    fn with_order_mark(
        &self,
        alloc: Global,
        made: Markup,
        orders: &OrderList<'_>,
        number: &[u8],
        line: &OrderLine,
    ) -> Result<Markup, NoMemory> {
        let mark = OrderMark { number, line };
        match line.side {
            Side::Buy => with_mark_on_side(alloc, made, orders, &mark, &self.bids),
            Side::Sell => with_mark_on_side(alloc, made, orders, &mark, &self.asks),
        }
    }

    fn draws_mark(&self, orders: &OrderList<'_>, line: &OrderLine) -> bool {
        match line.side {
            Side::Buy => has_step_of(orders, self.bids.by_limit, line, &self.bids.steps),
            Side::Sell => has_step_of(orders, self.asks.by_limit, line, &self.asks.steps),
        }
    }
}
