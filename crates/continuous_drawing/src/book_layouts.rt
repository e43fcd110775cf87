//! Where the lines of a book lie on its paper: the bids, best first, and below them the asks. Each
//! has a bar that is as long as its quantity.
ghost use Rattle.std.specs.Prelude.{◌≡◌, ◌≤◌, ◌+◌, ◌++◌, ◌∷◌, [], IfOk, OnOk, slice_get};
ghost use Rattle.continuous_drawing.specs.BookLayouts as spec;

use audit_base::faults::NoMemory;
use continuous_picture::pictures::BookBefore;
use order_book::books::Resting;
use order_list::lists::OrderList;
use page_plots::axes::Axis;
use page_plots::measures::LEFT;
use std::alloc::Global;

/// How wide the bar of the greatest quantity is: right of it is what is left.
const WIDEST_BAR: u32 = 284;

/// The top of the first line of a book.
const FIRST_TOP: usize = 20;

/// How high a line of a book is, with the gap below its bar.
const LINE_HEIGHT: usize = 14;

/// The room above and below the lines of a book.
const BOOK_ROOM: usize = 26;

/// The greatest number of lines of a side.
const MOST_OF_SIDE: usize = 10;

/// The greatest number of lines above another, the gap between the sides among them.
const MOST_ABOVE: usize = 20;

/// A line of a book with its place: its top, how far its bar reaches, and how far what is left.
#[derive(Clone, Copy, Debug)]
pub struct PlacedLine {
    pub line: Resting,
    pub top: u16,
    pub right: u16,
    pub filled: u16,
}

/// The lines of a book with their places, and how high its paper is.
#[derive(Debug, Drop)]
pub struct BookLayout {
    pub bids: Vec<PlacedLine>,
    pub asks: Vec<PlacedLine>,
    pub height: u32,
}

/// The quantity of the order at an index, or 0 where there is none.
pub(crate) fn quantity_of(orders: &OrderList<'_>, index: usize) -> u64
    ensures { result ≡ spec.quantity_of (slice_get orders.now index) }
{
    match orders.get(index) {
        Some(order) => order.quantity().value(),
        None => 0,
    }
}

/// The greatest of a number and the quantities of the orders of these lines.
fn most_of(orders: &OrderList<'_>, number: u64, lines: &[Resting]) -> u64
    ensures { result ≡ spec.most_of orders.now number lines.now }
{
    let mut most = number;
    for line in lines {
        most = most.max(quantity_of(orders, line.index));
    }
    most
}

/// How far a bar of a quantity reaches, where one of the greatest is the widest.
fn reach_of(most: u64, quantity: u64) -> u16
    ensures { result ≡ spec.reach_of most quantity }
{
    let axis = Axis {
        first: 0,
        last: u128::from(most),
        length: WIDEST_BAR,
    };
    (LEFT + axis.point(u128::from(quantity))) as u16
}

/// The top of a line below so many others.
fn top_below(first: usize, count: usize) -> u16
    requires { first ≤ 11 }
    ensures { result ≡ spec.top_below (first + count) }
{
    let above = (first + count.min(MOST_ABOVE)).min(MOST_ABOVE);
    (FIRST_TOP + LINE_HEIGHT * above) as u16
}

/// A line with its place.
fn place_line(orders: &OrderList<'_>, most: u64, top: u16, line: &Resting) -> PlacedLine
    ensures { result ≡ spec.placed_line orders.now most top line.now }
{
    let right = reach_of(most, quantity_of(orders, line.index));
    let filled = reach_of(most, line.left);
    PlacedLine {
        line: *line,
        top,
        right,
        filled,
    }
}

/// Adds a line behind the others.
fn push_line(placed: &mut Vec<PlacedLine>, line: PlacedLine) -> Result<(), NoMemory>
    ensures { OnOk result (placed.new.items ≡ placed.old.items ++ line ∷ []) }
{
    placed.push(line)?;
    Ok(())
}

/// The lines of a side with their places, best first, below so many others.
fn place_lines(
    alloc: Global,
    orders: &OrderList<'_>,
    most: u64,
    first: usize,
    lines: &[Resting],
) -> Result<Vec<PlacedLine>, NoMemory>
    requires { first ≤ 11 }
    ensures { IfOk result
        (λ placed. placed.items ≡ spec.placed_lines orders.now most first lines.now) }
{
    let mut placed = Vec::new(alloc);
    for line in lines {
        let top = top_below(first, placed.len());
        push_line(&mut placed, place_line(orders, most, top, line))?;
    }
    Ok(placed)
}

/// How many lines are above the asks: the bids, of which there are at most ten, and a gap.
fn first_ask(bids: &[Resting]) -> usize
    ensures same { result ≡ spec.first_ask bids.now }
    ensures few { result ≤ 11 }
{
    bids.len().min(MOST_OF_SIDE) + 1
}

/// How high the paper of a book is: its lines, the gap between the sides, and room above and below.
fn height_of(book: &BookBefore) -> u32
    ensures { result ≡ spec.book_height book.now }
{
    let lines = first_ask(&book.bids) + book.asks.len().min(MOST_OF_SIDE);
    (BOOK_ROOM + LINE_HEIGHT * lines) as u32
}

/// The lines of a book with their places: the bids, and below them the asks.
pub fn book_layout_of(
    alloc: Global,
    orders: &OrderList<'_>,
    book: &BookBefore,
) -> Result<BookLayout, NoMemory>
    ensures { IfOk result (spec.IsBookLayoutOf orders.now book.now) }
{
    let most = most_of(orders, most_of(orders, 0, &book.bids), &book.asks);
    let first = first_ask(&book.bids);
    let bids = place_lines(alloc, orders, most, 0, &book.bids)?;
    let asks = place_lines(alloc, orders, most, first, &book.asks)?;
    Ok(BookLayout {
        bids,
        asks,
        height: height_of(book),
    })
}
