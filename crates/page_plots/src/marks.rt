//! The orders of the evidence that a picture marks, each with the number of its row in the table.
ghost use Rattle.std.specs.Prelude.{◌≡◌, ◌++◌, ℕ, Bool, List, IfOk};
ghost use Rattle.audit_base.specs.declared.findings.OrderLine.{OrderLine};
ghost use Rattle.audit_base.specs.declared.orders.Order.{Order};
ghost use Rattle.page_plots.specs.Marks as spec;

use crate::orders::order_shown;
use audit_base::faults::NoMemory;
use audit_base::findings::{Finding, OrderLine};
use order_list::lists::OrderList;
use page_markup::markup::Markup;
use std::alloc::Global;

/// What a finding shows first and second, where it is an order.
#[derive(Clone, Copy, Debug)]
pub struct MarkedOrders {
    pub first: Option<OrderLine>,
    pub second: Option<OrderLine>,
}

impl MarkedOrders {
    /// The orders that a finding shows; none where nothing was found.
    pub fn by(finding: &Option<Finding>) -> MarkedOrders
        ensures { result ≡ spec.orders_marked_by finding.now }
    {
        match finding {
            Some(finding) => MarkedOrders {
                first: order_shown(&finding.first),
                second: order_shown(&finding.second),
            },
            None => MarkedOrders {
                first: None,
                second: None,
            },
        }
    }
}

/// Where the parts of a picture lie in which orders can be marked.
pub trait MarkedPicture {
    // The mark of an order of the list with this number.
    ghost order_mark: { Self → List Order → List ℕ → OrderLine → List ℕ };

    // Whether the mark of an order of the list is drawn.
    ghost has_mark: { Self → List Order → OrderLine → Bool };

    /// With the mark of an order behind it, where it is drawn.
    fn with_order_mark(
        &self,
        alloc: Global,
        made: Markup,
        orders: &OrderList<'_>,
        number: &[u8],
        line: &OrderLine,
    ) -> Result<Markup, NoMemory>
        ensures { IfOk result
            (λ more. more ≡ made ++ order_mark self.now orders.now number.now line.now) };

    /// Whether the mark of an order is drawn.
    fn draws_mark(&self, orders: &OrderList<'_>, line: &OrderLine) -> bool
        ensures { result ≡ has_mark self.now orders.now line.now };
}

/// Whether the mark of an order is drawn, where there is one.
fn draws_if_there<P: MarkedPicture>(
    orders: &OrderList<'_>,
    picture: &P,
    line: &Option<OrderLine>,
) -> bool
    ensures { result ≡ spec.draws_if_there (P.has_mark picture.now orders.now) line.now }
{
    match line {
        Some(line) => picture.draws_mark(orders, line),
        None => false,
    }
}

/// Whether a mark is drawn.
pub fn draws_some<P: MarkedPicture>(
    orders: &OrderList<'_>,
    picture: &P,
    marked: &MarkedOrders,
) -> bool
    ensures { result ≡ spec.draws_some (P.has_mark picture.now orders.now) marked.now }
{
    draws_if_there(orders, picture, &marked.first)
        || draws_if_there(orders, picture, &marked.second)
}

/// With the mark of an order behind it, where there is one.
fn with_mark_if_there<P: MarkedPicture>(
    alloc: Global,
    made: Markup,
    orders: &OrderList<'_>,
    picture: &P,
    number: &[u8],
    line: &Option<OrderLine>,
) -> Result<Markup, NoMemory>
    ensures { IfOk result (λ more. more ≡ made
        ++ spec.mark_if_there (P.order_mark picture.now orders.now number.now) line.now) }
{
    match line {
        Some(line) => picture.with_order_mark(alloc, made, orders, number, line),
        None => Ok(made),
    }
}

/// With the marks of the orders of the evidence behind it.
pub fn with_marks<P: MarkedPicture>(
    alloc: Global,
    made: Markup,
    orders: &OrderList<'_>,
    picture: &P,
    marked: &MarkedOrders,
) -> Result<Markup, NoMemory>
    ensures { IfOk result (λ more. more
        ≡ made ++ spec.marks_of (P.order_mark picture.now orders.now) marked.now) }
{
    let made = with_mark_if_there(alloc, made, orders, picture, b"1", &marked.first)?;
    with_mark_if_there(alloc, made, orders, picture, b"2", &marked.second)
}
