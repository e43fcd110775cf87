//! What a column shows, drawn: the best limits of both sides, and the prices of the trades.
ghost use Rattle.std.specs.Prelude.{◌≡◌, ◌++◌, IfOk};
ghost use Rattle.std.specs.List.{flat_map};
ghost use Rattle.continuous_drawing.specs.Columns as spec;
ghost use Rattle.page_plots.specs.Plots.{IsPlot};

use audit_base::faults::NoMemory;
use audit_base::terms::Side;
use audit_base::texts::write_number;
use audit_report::line_parts::{LinePart, append_joined};
use audit_report::words::side_word;
use continuous_picture::columns::PlaceColumn;
use continuous_picture::ranges::LimitRange;
use page_markup::markup::Markup;
use page_plots::plots::Plot;
use page_plots::shapes::{Point, with_group, with_rectangle};
use std::alloc::Global;

/// How high a range of one price is, so that it is seen.
const LEAST_HEIGHT: u32 = 2;

/// How wide a column is at least, so that it is seen.
const LEAST_WIDTH: u32 = 1;

/// What a range shows.
#[derive(Clone, Copy, Debug)]
struct RangeKind<'a> {
    /// The class of its bar.
    class: &'a [u8],
    /// The word of its title.
    word: &'a [u8],
}

/// The title of a range.
fn range_title(
    alloc: Global,
    word: &[u8],
    column: &PlaceColumn,
    range: &LimitRange,
) -> Result<Vec<u8>, NoMemory>
    ensures { IfOk result (λ text. text.items ≡ spec.range_title word.now column.now range.now) }
{
    let mut first = Vec::new(alloc);
    write_number(alloc, u128::from(column.first), &mut first)?;
    let parts = [
        LinePart::Number(u128::from(column.next)),
        LinePart::Word(word),
        LinePart::Price(range.low),
        LinePart::Price(range.high),
    ];
    let mut text = Vec::new(alloc);
    append_joined(alloc, &first, &parts, &mut text)?;
    Ok(text)
}

/// The upper left corner of a range of a column: at the first place, and at the greatest price.
fn corner_of(plot: Plot, column: &PlaceColumn, range: &LimitRange) -> Point
    requires { IsPlot plot }
    ensures { result ≡ spec.corner_of plot column.now range.now }
{
    let x = u32::from(plot.x(u128::from(column.first)));
    let y = u32::from(plot.y(range.high.units()));
    Point { x, y }
}

/// How wide a column is: up to the next one, and never so narrow that it is not seen.
fn width_of(plot: Plot, column: &PlaceColumn) -> u32
    requires { IsPlot plot }
    ensures { result ≡ spec.width_of plot column.now }
{
    let left = u32::from(plot.x(u128::from(column.first)));
    let right = u32::from(plot.x(u128::from(column.next)));
    right.saturating_sub(left).max(LEAST_WIDTH)
}

/// How high a range is: down to the least price, and never so low that it is not seen.
fn height_of(plot: Plot, range: &LimitRange) -> u32
    requires { IsPlot plot }
    ensures { result ≡ spec.height_of plot range.now }
{
    let top = u32::from(plot.y(range.high.units()));
    let bottom = u32::from(plot.y(range.low.units()));
    bottom.saturating_sub(top) + LEAST_HEIGHT
}

/// With the bar of a range behind it.
fn with_bar(
    alloc: Global,
    made: Markup,
    plot: Plot,
    class: &[u8],
    column: &PlaceColumn,
    range: &LimitRange,
) -> Result<Markup, NoMemory>
    requires { IsPlot plot }
    ensures { IfOk result
        (λ more. more ≡ made ++ spec.range_bar plot class.now column.now range.now) }
{
    let corner = corner_of(plot, column, range);
    let (width, height) = (width_of(plot, column), height_of(plot, range));
    with_rectangle(alloc, made, class, corner, width, height)
}

/// With a range of a column behind it.
fn with_range(
    alloc: Global,
    made: Markup,
    plot: Plot,
    kind: &RangeKind<'_>,
    column: &PlaceColumn,
    range: &LimitRange,
) -> Result<Markup, NoMemory>
    requires { IsPlot plot }
    ensures { IfOk result (λ more. more ≡ made
        ++ spec.range_shapes plot kind.now.class.now kind.now.word.now column.now range.now) }
{
    let title = range_title(alloc, kind.word, column, range)?;
    let shapes = with_bar(alloc, Markup::new(alloc), plot, kind.class, column, range)?;
    with_group(alloc, made, &title, &shapes)
}

/// With a range of a column behind it, where there is one.
fn with_range_if_there(
    alloc: Global,
    made: Markup,
    plot: Plot,
    kind: &RangeKind<'_>,
    column: &PlaceColumn,
    range: &Option<LimitRange>,
) -> Result<Markup, NoMemory>
    requires { IsPlot plot }
    ensures { IfOk result (λ more. more ≡ made
        ++ spec.range_if_there plot kind.now.class.now kind.now.word.now column.now range.now) }
{
    match range {
        Some(range) => with_range(alloc, made, plot, kind, column, range),
        None => Ok(made),
    }
}

/// With the best bids of a column behind it.
fn with_bids(
    alloc: Global,
    made: Markup,
    plot: Plot,
    column: &PlaceColumn,
) -> Result<Markup, NoMemory>
    requires { IsPlot plot }
    ensures { IfOk result (λ more. more ≡ made ++ spec.bid_range plot column.now) }
{
    let kind = RangeKind {
        class: b"bidtraded",
        word: side_word(Side::Buy),
    };
    let range = &column.bids;
    with_range_if_there(alloc, made, plot, &kind, column, range)
}

/// With the best asks of a column behind it.
fn with_asks(
    alloc: Global,
    made: Markup,
    plot: Plot,
    column: &PlaceColumn,
) -> Result<Markup, NoMemory>
    requires { IsPlot plot }
    ensures { IfOk result (λ more. more ≡ made ++ spec.ask_range plot column.now) }
{
    let kind = RangeKind {
        class: b"asktraded",
        word: side_word(Side::Sell),
    };
    let range = &column.asks;
    with_range_if_there(alloc, made, plot, &kind, column, range)
}

/// With the best limits of a column behind it.
fn with_quotes(
    alloc: Global,
    made: Markup,
    plot: Plot,
    column: &PlaceColumn,
) -> Result<Markup, NoMemory>
    requires { IsPlot plot }
    ensures { IfOk result (λ more. more ≡ made ++ spec.quote_shapes plot column.now) }
{
    let made = with_bids(alloc, made, plot, column)?;
    with_asks(alloc, made, plot, column)
}

/// With the best limits of these columns behind it.
pub fn with_all_quotes(
    alloc: Global,
    made: Markup,
    plot: Plot,
    columns: &[PlaceColumn],
) -> Result<Markup, NoMemory>
    requires { IsPlot plot }
    ensures { IfOk result (λ more. more ≡ made ++ flat_map (spec.quote_shapes plot) columns.now) }
{
    let mut made = made;
    for column in columns {
        made = with_quotes(alloc, made, plot, column)?;
    }
    Ok(made)
}

/// With the prices of the trades of a column behind it.
fn with_trade_range(
    alloc: Global,
    made: Markup,
    plot: Plot,
    column: &PlaceColumn,
) -> Result<Markup, NoMemory>
    requires { IsPlot plot }
    ensures { IfOk result (λ more. more ≡ made ++ spec.trade_range plot column.now) }
{
    let kind = RangeKind {
        class: b"trade",
        word: b"trades",
    };
    let range = &column.trades;
    with_range_if_there(alloc, made, plot, &kind, column, range)
}

/// With the prices of the trades of these columns behind it.
pub fn with_trade_ranges(
    alloc: Global,
    made: Markup,
    plot: Plot,
    columns: &[PlaceColumn],
) -> Result<Markup, NoMemory>
    requires { IsPlot plot }
    ensures { IfOk result (λ more. more ≡ made ++ flat_map (spec.trade_range plot) columns.now) }
{
    let mut made = made;
    for column in columns {
        made = with_trade_range(alloc, made, plot, column)?;
    }
    Ok(made)
}
