//! The trades, drawn: a mark each, or where there are many the prices of each column.
ghost use Rattle.std.specs.Prelude.{◌≡◌, ◌++◌, All, IfOk};
ghost use Rattle.std.specs.List.{flat_map};
ghost use Rattle.audit_base.specs.Continuous.{cause};
ghost use Rattle.audit_base.specs.Deals.{IsDealList, NamesOrders};
ghost use Rattle.continuous_drawing.specs.Trades as spec;
ghost use Rattle.page_plots.specs.Plots.{IsPlot};

use crate::columns::with_trade_ranges;
use audit_base::faults::NoMemory;
use audit_base::orders::Deal;
use audit_base::texts::write_number;
use audit_report::line_parts::{LinePart, append_joined};
use continuous_picture::columns::PlaceColumn;
use order_list::lists::OrderList;
use page_markup::markup::Markup;
use page_plots::plots::Plot;
use page_plots::shapes::{Point, with_circle, with_group};
use std::alloc::Global;

/// The greatest number of trades that are drawn as a mark each.
pub const MOST_MARKS: usize = 1000;

/// The radius of the dot of a trade.
pub(crate) const DOT_RADIUS: u32 = 3;

/// The title of a trade.
fn trade_title(alloc: Global, deal: &Deal) -> Result<Vec<u8>, NoMemory>
    ensures { IfOk result (λ text. text.items ≡ spec.trade_title deal.now) }
{
    let mut place = Vec::new(alloc);
    write_number(alloc, u128::from(deal.place), &mut place)?;
    let parts = [
        LinePart::Number(u128::from(deal.quantity.value())),
        LinePart::Price(deal.price),
    ];
    let mut text = Vec::new(alloc);
    append_joined(alloc, &place, &parts, &mut text)?;
    Ok(text)
}

/// The place of the record that caused a trade.
pub fn cause_of(orders: &OrderList<'_>, deal: &Deal) -> u32
    requires { NamesOrders orders.now deal.now }
    ensures { result ≡ cause orders.now deal.now }
{
    let (bid, ask) = (orders.at(deal.bid).place(), orders.at(deal.ask).place());
    bid.max(ask)
}

/// Where a trade lies: at the record that caused it, and at its price.
fn centre_of(plot: Plot, orders: &OrderList<'_>, deal: &Deal) -> Point
    requires plot { IsPlot plot }
    requires named { NamesOrders orders.now deal.now }
    ensures { result ≡ spec.centre_of plot orders.now deal.now }
{
    let x = u32::from(plot.x(u128::from(cause_of(orders, deal))));
    let y = u32::from(plot.y(deal.price.units()));
    Point { x, y }
}

/// With the mark of a trade behind it.
fn with_trade(
    alloc: Global,
    made: Markup,
    plot: Plot,
    orders: &OrderList<'_>,
    deal: &Deal,
) -> Result<Markup, NoMemory>
    requires plot { IsPlot plot }
    requires named { NamesOrders orders.now deal.now }
    ensures { IfOk result
        (λ more. more ≡ made ++ spec.trade_shapes plot orders.now deal.now) }
{
    let title = trade_title(alloc, deal)?;
    let centre = centre_of(plot, orders, deal);
    let shapes = with_circle(alloc, Markup::new(alloc), b"trade", centre, DOT_RADIUS)?;
    with_group(alloc, made, &title, &shapes)
}

/// With the marks of these trades behind it.
fn with_marks(
    alloc: Global,
    made: Markup,
    plot: Plot,
    orders: &OrderList<'_>,
    deals: &[Deal],
) -> Result<Markup, NoMemory>
    requires plot { IsPlot plot }
    requires named { All (NamesOrders orders.now) deals.now }
    ensures { IfOk result
        (λ more. more ≡ made ++ flat_map (spec.trade_shapes plot orders.now) deals.now) }
{
    let mut made = made;
    for deal in deals {
        made = with_trade(alloc, made, plot, orders, deal)?;
    }
    Ok(made)
}

/// With the trades behind it.
pub fn with_trades(
    alloc: Global,
    made: Markup,
    plot: Plot,
    orders: &OrderList<'_>,
    deals: &[Deal],
    columns: &[PlaceColumn],
) -> Result<Markup, NoMemory>
    requires plot { IsPlot plot }
    requires deal_list { IsDealList orders.now deals.now }
    ensures { IfOk result (λ more. more
        ≡ made ++ spec.trades_shapes plot orders.now deals.now columns.now) }
{
    if MOST_MARKS < deals.len() {
        with_trade_ranges(alloc, made, plot, columns)
    } else {
        with_marks(alloc, made, plot, orders, deals)
    }
}
