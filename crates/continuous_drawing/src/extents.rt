//! The plot of continuous trading: from which place to which, and from which price.
ghost use Rattle.std.specs.Prelude.{◌≡◌};
ghost use Rattle.audit_base.specs.Orders.{place_at};
ghost use Rattle.continuous_drawing.specs.Extents as spec;
ghost use Rattle.page_plots.specs.Plots.{IsPlot};

use continuous_picture::columns::PlaceColumn;
use continuous_picture::ranges::LimitRange;
use order_list::lists::OrderList;
use page_plots::plots::Plot;

/// The greatest of a number and the prices of a range, if there is one.
fn highest_with(number: u64, range: Option<LimitRange>) -> u64
    ensures { result ≡ spec.highest_with number range }
{
    match range {
        Some(range) => number.max(range.high.units()),
        None => number,
    }
}

/// The least of a number and the prices of a range, if there is one.
fn lowest_with(number: u64, range: Option<LimitRange>) -> u64
    ensures { result ≡ spec.lowest_with number range }
{
    match range {
        Some(range) => number.min(range.low.units()),
        None => number,
    }
}

/// The greatest of a number and the prices of a column.
fn highest_of(number: u64, column: &PlaceColumn) -> u64
    ensures { result ≡ spec.highest_of number column.now }
{
    let with_bids = highest_with(number, column.bids);
    let with_both = highest_with(with_bids, column.asks);
    highest_with(with_both, column.trades)
}

/// The least of a number and the prices of a column.
fn lowest_of(number: u64, column: &PlaceColumn) -> u64
    ensures { result ≡ spec.lowest_of number column.now }
{
    let with_bids = lowest_with(number, column.bids);
    let with_both = lowest_with(with_bids, column.asks);
    lowest_with(with_both, column.trades)
}

/// The greatest price that is drawn; 0 where there is none.
fn highest_price(columns: &[PlaceColumn]) -> u64
    ensures { result ≡ spec.highest_price columns.now }
{
    let mut highest = 0;
    for column in columns {
        highest = highest_of(highest, column);
    }
    highest
}

/// The least of a number and the prices of columns.
fn lowest_below(number: u64, columns: &[PlaceColumn]) -> u64
    ensures { result ≡ spec.lowest_below number columns.now }
{
    let mut lowest = number;
    for column in columns {
        lowest = lowest_of(lowest, column);
    }
    lowest
}

/// The place of the first order, or 0 where there is none.
fn first_place(orders: &OrderList<'_>) -> u64
    ensures { result ≡ place_at orders.now 0 }
{
    if 0 < orders.len() {
        u64::from(orders.at(0).place())
    } else {
        0
    }
}

/// The plot of the places from that of the first order to before `end`, and of the prices of these
/// columns.
pub fn plot_of_trading(orders: &OrderList<'_>, end: u64, columns: &[PlaceColumn]) -> Plot
    ensures same { result ≡ spec.plot_of_trading orders.now end columns.now }
    ensures plot { IsPlot result }
{
    let highest = highest_price(columns);
    let lowest = lowest_below(highest, columns);
    let first = first_place(orders);
    Plot::of(u128::from(first), u128::from(end), lowest, highest)
}
