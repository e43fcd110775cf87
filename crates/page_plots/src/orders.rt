//! An order in a picture: its title, and the badge that marks it as an order of the evidence, with
//! the number of its row in the table.
ghost use Rattle.std.specs.Prelude.{◌≡◌, ◌++◌, ◌≤◌, IfOk, slice_get};
ghost use Rattle.page_plots.specs.Orders as spec;

use crate::measures::{BADGE_RADIUS, TO_FOOT};
use crate::shapes::{Anchor, Point, with_circle, with_label};
use audit_base::faults::NoMemory;
use audit_base::findings::{OrderLine, Shown};
use audit_base::texts::write_number;
use audit_report::line_parts::{LinePart, append_joined};
use audit_report::words::side_word;
use order_list::lists::OrderList;
use page_markup::markup::Markup;
use std::alloc::Global;

/// The title of an order.
fn line_title(alloc: Global, line: &OrderLine) -> Result<Vec<u8>, NoMemory>
    ensures { IfOk result (λ text. text.items ≡ spec.line_title line.now) }
{
    let mut place = Vec::new(alloc);
    write_number(alloc, u128::from(line.place), &mut place)?;
    let parts = [
        LinePart::Word(side_word(line.side)),
        LinePart::Word(line.key.firm.bytes()),
        LinePart::Word(line.key.id.bytes()),
        LinePart::Number(u128::from(line.quantity.value())),
        LinePart::Price(line.limit),
        LinePart::Number(line.traded),
    ];
    let mut text = Vec::new(alloc);
    append_joined(alloc, &place, &parts, &mut text)?;
    Ok(text)
}

/// The title of the order at an index of the list, with what it traded, or what is left of it.
pub fn order_title(
    alloc: Global,
    orders: &OrderList<'_>,
    index: usize,
    number: u128,
) -> Result<Vec<u8>, NoMemory>
    ensures { IfOk result
        (λ text. text.items ≡ spec.order_title (slice_get orders.now index) number) }
{
    match orders.get(index) {
        Some(order) => line_title(alloc, &order.line(number)),
        None => Ok(Vec::new(alloc)),
    }
}

/// Whether there is an order at this index, whose record has this place.
pub fn has_place(orders: &OrderList<'_>, index: usize, place: u32) -> bool
    ensures { result ≡ spec.has_place (slice_get orders.now index) place }
{
    match orders.get(index) {
        Some(order) => order.place() == place,
        None => false,
    }
}

/// The order that is shown, where one is.
pub fn order_shown(shown: &Option<Shown>) -> Option<OrderLine>
    ensures { result ≡ spec.order_shown shown.now }
{
    match shown {
        Some(shown) => match shown {
            Shown::Place { .. } => None,
            Shown::Unknown { .. } => None,
            Shown::Order(line) => Some(*line),
            Shown::Due(line, _) => Some(*line),
        },
        None => None,
    }
}

/// With a badge of this number behind it.
pub fn with_badge(
    alloc: Global,
    made: Markup,
    number: &[u8],
    centre: Point,
) -> Result<Markup, NoMemory>
    requires { centre.y ≤ 1000000 }
    ensures { IfOk result (λ more. more ≡ made ++ spec.badge number.now centre) }
{
    let made = with_circle(alloc, made, b"badge", centre, BADGE_RADIUS)?;
    let at = Point {
        x: centre.x,
        y: centre.y + TO_FOOT,
    };
    with_label(alloc, made, b"badgetext", at, Anchor::Middle, number)
}
