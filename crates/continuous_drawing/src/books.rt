//! The book right before the offending place, drawn: a line for each order, best first.
ghost use Rattle.std.specs.Prelude.{◌≡◌, ◌≤◌, ◌++◌, ◌||◌, IfOk};
ghost use Rattle.std.specs.List.{flat_map, list_any};
ghost use Rattle.continuous_drawing.specs.Books as spec;

use crate::book_layouts::{BookLayout, PlacedLine, quantity_of};
use audit_base::faults::NoMemory;
use audit_base::terms::Side;
use audit_base::texts::write_number;
use order_list::lists::OrderList;
use page_markup::markup::Markup;
use page_plots::measures::{LEFT, PRICES_END};
use page_plots::orders::order_title;
use page_plots::papers::{is_long, paper_of, price_words};
use page_plots::shapes::{Anchor, Point, with_bar, with_group, with_label};
use page_plots::sides::{bar_class, filled_class};
use std::alloc::Global;

/// How far words beside a line have their foot below its top.
const FOOT_BELOW: u32 = 8;

/// Where the words of what is left end, at the right of the bars.
const LEFT_WORDS_END: u32 = 472;

/// With the bar of a line in this class behind it, from the left of the bars to here.
fn with_line_bar(
    alloc: Global,
    made: Markup,
    class: &[u8],
    placed: &PlacedLine,
    right: u16,
) -> Result<Markup, NoMemory>
    ensures { IfOk result (λ more. more ≡ made ++ spec.line_bar class.now placed.now right) }
{
    let corner = Point {
        x: LEFT,
        y: u32::from(placed.top),
    };
    with_bar(alloc, made, class, corner, u32::from(right))
}

/// A point beside a line, so far below its top.
pub(crate) fn beside(placed: &PlacedLine, x: u32, below: u32) -> Point
    requires { below ≤ 100 }
    ensures same { result ≡ spec.beside placed.now x below }
    ensures low { result.y ≤ 100000 }
{
    Point {
        x,
        y: u32::from(placed.top) + below,
    }
}

/// What is left, and of how much.
fn left_words(alloc: Global, left: u64, quantity: u64) -> Result<Vec<u8>, NoMemory>
    ensures { IfOk result (λ text. text.items ≡ spec.left_words left quantity) }
{
    let mut text = Vec::new(alloc);
    write_number(alloc, u128::from(left), &mut text)?;
    text.extend_from_slice(b" of ")?;
    write_number(alloc, u128::from(quantity), &mut text)?;
    Ok(text)
}

/// With the limit of a line behind it, to the left of its bar.
fn with_limit(alloc: Global, made: Markup, placed: &PlacedLine) -> Result<Markup, NoMemory>
    ensures { IfOk result (λ more. more ≡ made ++ spec.limit_label placed.now) }
{
    let text = price_words(alloc, placed.line.limit)?;
    let at = beside(placed, PRICES_END, FOOT_BELOW);
    with_label(alloc, made, b"tick", at, Anchor::End, &text)
}

/// With what is left of the order of a line behind it, to the right of its bar.
fn with_left(
    alloc: Global,
    made: Markup,
    orders: &OrderList<'_>,
    placed: &PlacedLine,
) -> Result<Markup, NoMemory>
    ensures { IfOk result (λ more. more ≡ made ++ spec.left_label orders.now placed.now) }
{
    let quantity = quantity_of(orders, placed.line.index);
    let text = left_words(alloc, placed.line.left, quantity)?;
    let at = beside(placed, LEFT_WORDS_END, FOOT_BELOW);
    with_label(alloc, made, b"tick", at, Anchor::End, &text)
}

/// The bar of a line.
fn bar_of(alloc: Global, side: Side, placed: &PlacedLine) -> Result<Markup, NoMemory>
    ensures { IfOk result (λ made. made ≡ spec.bar_shapes side placed.now) }
{
    let whole = placed.right;
    let shapes = with_line_bar(alloc, Markup::new(alloc), bar_class(side), placed, whole)?;
    with_line_bar(alloc, shapes, filled_class(side), placed, placed.filled)
}

/// With a line behind it.
fn with_line(
    alloc: Global,
    made: Markup,
    orders: &OrderList<'_>,
    side: Side,
    placed: &PlacedLine,
) -> Result<Markup, NoMemory>
    ensures { IfOk result
        (λ more. more ≡ made ++ spec.line_shapes orders.now side placed.now) }
{
    let left = u128::from(placed.line.left);
    let title = order_title(alloc, orders, placed.line.index, left)?;
    let shapes = bar_of(alloc, side, placed)?;
    let shapes = with_limit(alloc, shapes, placed)?;
    let shapes = with_left(alloc, shapes, orders, placed)?;
    with_group(alloc, made, &title, &shapes)
}

/// With these lines of the book of a side behind it, best first.
pub fn with_book(
    alloc: Global,
    made: Markup,
    orders: &OrderList<'_>,
    side: Side,
    lines: &[PlacedLine],
) -> Result<Markup, NoMemory>
    ensures { IfOk result
        (λ more. more ≡ made ++ flat_map (spec.line_shapes orders.now side) lines.now) }
{
    let mut made = made;
    for placed in lines {
        made = with_line(alloc, made, orders, side, placed)?;
    }
    Ok(made)
}

/// Whether the limit of a line is long.
fn has_long_limit(alloc: Global, lines: &[PlacedLine]) -> Result<bool, NoMemory>
    ensures { IfOk result (λ long. long ≡ list_any spec.is_long_line lines.now) }
{
    for placed in lines {
        if is_long(alloc, placed.line.limit)? {
            return Ok(true);
        }
    }
    Ok(false)
}

/// Whether a limit of either side is long.
fn either_is_long(bids: bool, asks: bool) -> bool
    ensures { result ≡ (bids || asks) }
{
    bids || asks
}

/// The coordinates of the paper of a book.
pub fn book_paper(alloc: Global, layout: &BookLayout) -> Result<Vec<u8>, NoMemory>
    ensures { IfOk result (λ text. text.items ≡ spec.book_paper layout.now) }
{
    let long_bids = has_long_limit(alloc, &layout.bids)?;
    let long_asks = has_long_limit(alloc, &layout.asks)?;
    let left = either_is_long(long_bids, long_asks);
    paper_of(alloc, left, false, layout.height)
}
