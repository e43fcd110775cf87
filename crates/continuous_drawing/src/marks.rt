//! The marks of the orders of the evidence, in the book.
ghost use Rattle.std.specs.Prelude.{◌≡◌, ◌++◌, IfOk, slice_get};
ghost use Rattle.std.specs.List.{flat_map, list_any};
ghost use Rattle.page_plots.specs.Orders.{has_place};
ghost use Rattle.continuous_drawing.specs.Marks as spec;

use crate::book_layouts::{BookLayout, PlacedLine};
use crate::books::beside;
use audit_base::faults::NoMemory;
use audit_base::findings::OrderLine;
use audit_base::terms::Side;
use order_list::lists::OrderList;
use page_markup::markup::Markup;
use page_plots::marks::MarkedPicture;
use page_plots::orders::{has_place, with_badge};
use std::alloc::Global;

/// The centre of a mark from the left of the paper, right of what is left.
const MARK_X: u32 = 488;

/// How far the centre of a mark lies below the top of its line.
const MARK_BELOW: u32 = 4;

/// With a mark beside a line behind it.
fn with_mark(
    alloc: Global,
    made: Markup,
    number: &[u8],
    placed: &PlacedLine,
) -> Result<Markup, NoMemory>
    ensures { IfOk result (λ more. more ≡ made ++ spec.line_mark number.now placed.now) }
{
    with_badge(alloc, made, number, beside(placed, MARK_X, MARK_BELOW))
}

/// With the mark of an order behind it, where this line is that of the order.
fn with_mark_at_line(
    alloc: Global,
    made: Markup,
    orders: &OrderList<'_>,
    number: &[u8],
    shown: &OrderLine,
    placed: &PlacedLine,
) -> Result<Markup, NoMemory>
    ensures { IfOk result (λ more. more
        ≡ made ++ spec.mark_at_line orders.now number.now shown.now placed.now) }
{
    if has_place(orders, placed.line.index, shown.place) {
        with_mark(alloc, made, number, placed)
    } else {
        Ok(made)
    }
}

/// With the mark of an order behind it at each of these lines that is that of the order.
fn with_mark_at_lines(
    alloc: Global,
    made: Markup,
    orders: &OrderList<'_>,
    number: &[u8],
    shown: &OrderLine,
    lines: &[PlacedLine],
) -> Result<Markup, NoMemory>
    ensures { IfOk result (λ more. more
        ≡ made ++ flat_map (spec.mark_at_line orders.now number.now shown.now) lines.now) }
{
    let mut made = made;
    for placed in lines {
        made = with_mark_at_line(alloc, made, orders, number, shown, placed)?;
    }
    Ok(made)
}

/// Whether one of these lines is that of the order at a place.
fn has_line_of(orders: &OrderList<'_>, place: u32, lines: &[PlacedLine]) -> bool
    ensures { result
        ≡ list_any (λ p. has_place (slice_get orders.now p.line.index) place) lines.now }
{
    lines
        .iter()
        .any(|placed| has_place(orders, placed.line.index, place))
}

impl MarkedPicture for BookLayout {
    ghost use Rattle.continuous_drawing.specs.Marks.{book_mark, has_book_mark};

    ghost order_mark = { book_mark };

    ghost has_mark = { has_book_mark };

    fn with_order_mark(
        &self,
        alloc: Global,
        made: Markup,
        orders: &OrderList<'_>,
        number: &[u8],
        line: &OrderLine,
    ) -> Result<Markup, NoMemory> {
        match line.side {
            Side::Buy => with_mark_at_lines(alloc, made, orders, number, line, &self.bids),
            Side::Sell => with_mark_at_lines(alloc, made, orders, number, line, &self.asks),
        }
    }

    fn draws_mark(&self, orders: &OrderList<'_>, line: &OrderLine) -> bool {
        match line.side {
            Side::Buy => has_line_of(orders, line.place, &self.bids),
            Side::Sell => has_line_of(orders, line.place, &self.asks),
        }
    }
}
