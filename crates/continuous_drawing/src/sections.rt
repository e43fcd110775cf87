//! The sections of a page that have the picture of continuous trading.
ghost use Rattle.std.specs.Prelude.{◌≡◌, ◌<◌, ◌++◌, ◌^◌, IfOk};
ghost use Rattle.audit_base.specs.Deals.{IsDealList};
ghost use Rattle.audit_base.specs.Orders.{IsOrderList};
ghost use Rattle.continuous_drawing.specs.Sections as spec;
ghost use Rattle.page_plots.specs.Plots.{IsPlot};

use crate::book_layouts::{BookLayout, book_layout_of};
use crate::books::{book_paper, with_book};
use crate::captions::{book_caption, quotes_caption, with_trading_legend};
use crate::columns::with_all_quotes;
use crate::extents::plot_of_trading;
use crate::offending::{OffendingPlace, place_of_offence, with_offending};
use crate::trades::with_trades;
use audit_base::faults::NoMemory;
use audit_base::findings::Finding;
use audit_base::orders::Deal;
use audit_base::terms::Side;
use continuous_picture::columns::PlaceColumn;
use continuous_picture::pictures::{BookBefore, ContinuousPicture, continuous_picture};
use order_list::lists::OrderList;
use page_markup::markup::Markup;
use page_markup::words::Tag;
use page_parts::elements::with_text_element;
use page_plots::figures::with_figure;
use page_plots::marks::{MarkedOrders, draws_some, with_marks};
use page_plots::papers::plot_paper;
use page_plots::plot_axes::{Axes, with_axes};
use page_plots::plots::Plot;
use page_plots::shapes::Picture;
use std::alloc::Global;

/// A plot, and what is marked on its axes.
#[derive(Clone, Copy, Debug)]
struct PlotWithAxes<'a> {
    /// By it places and prices lie on the paper.
    plot: Plot,
    /// The marks of its axes, each at its place on the paper.
    axes: &'a Axes,
}

/// What is marked in the picture of continuous trading.
#[derive(Clone, Copy, Debug)]
pub struct MarkedTrading {
    /// The offending place, where there is one: the book right before it is drawn.
    pub offence: Option<OffendingPlace>,
    /// The orders that are marked, where they have a line in this book.
    pub orders: MarkedOrders,
}

impl MarkedTrading {
    /// What a finding marks, whose cause is the record at a place.
    pub fn by(finding: &Option<Finding>, place: u64) -> MarkedTrading
        ensures { result ≡ spec.marked_in_trading finding.now place }
    {
        MarkedTrading {
            offence: offence_at(finding, place),
            orders: MarkedOrders::by(finding),
        }
    }
}

/// The offence of a finding at a place, if there is one.
fn offence_at(finding: &Option<Finding>, place: u64) -> Option<OffendingPlace>
    ensures { result ≡ spec.offence_at finding.now place }
{
    match finding {
        Some(finding) => Some(OffendingPlace {
            place,
            property: finding.property,
        }),
        None => None,
    }
}

/// With a section behind it that has a picture of these shapes, and these words below it.
fn with_worded_figure(
    alloc: Global,
    made: Markup,
    heading: &[u8],
    paper: &[u8],
    shapes: &Markup,
    words: &[u8],
) -> Result<Markup, NoMemory>
    ensures { IfOk result (λ more. more
        ≡ made ++ spec.worded_figure heading.now paper.now shapes.now words.now) }
{
    let caption = with_text_element(alloc, Markup::new(alloc), Tag::Paragraph, words)?;
    let picture = Picture {
        paper,
        title: heading,
        shapes,
    };
    with_figure(alloc, made, heading, &picture, &caption)
}

/// With the best limits and the trades behind it.
fn with_numbers(
    alloc: Global,
    made: Markup,
    plot: Plot,
    orders: &OrderList<'_>,
    deals: &[Deal],
    columns: &[PlaceColumn],
) -> Result<Markup, NoMemory>
    requires plot { IsPlot plot }
    requires deal_list { IsDealList orders.now deals.now }
    ensures { IfOk result (λ more. more
        ≡ made ++ spec.number_shapes plot orders.now deals.now columns.now) }
{
    let made = with_all_quotes(alloc, made, plot, columns)?;
    with_trades(alloc, made, plot, orders, deals, columns)
}

/// The shapes of the picture of the best limits.
fn picture_shapes(
    alloc: Global,
    plotted: &PlotWithAxes<'_>,
    orders: &OrderList<'_>,
    deals: &[Deal],
    columns: &[PlaceColumn],
    offence: Option<OffendingPlace>,
) -> Result<Markup, NoMemory>
    requires plot { IsPlot plotted.now.plot }
    requires deal_list { IsDealList orders.now deals.now }
    ensures { IfOk result (λ made. made ≡ spec.picture_shapes plotted.now.plot
        plotted.now.axes.now orders.now deals.now columns.now offence) }
{
    let made = with_axes(alloc, Markup::new(alloc), plotted.axes, b"record")?;
    let made = with_numbers(alloc, made, plotted.plot, orders, deals, columns)?;
    let made = with_offending(alloc, made, plotted.plot, offence)?;
    with_trading_legend(alloc, made)
}

/// The section of a picture of these shapes, with an upright line or none.
fn picture_section(
    alloc: Global,
    axes: &Axes,
    has_line: bool,
    shapes: &Markup,
) -> Result<Markup, NoMemory>
    ensures { IfOk result (λ made. made ≡ spec.picture_section axes.now has_line shapes.now) }
{
    let paper = plot_paper(alloc, axes)?;
    let words = quotes_caption(alloc, has_line)?;
    let made = Markup::new(alloc);
    let heading = b"Best bid and best ask by record";
    with_worded_figure(alloc, made, heading, &paper, shapes, &words)
}

/// The shapes of the picture of a book.
fn book_shapes(
    alloc: Global,
    orders: &OrderList<'_>,
    marked: &MarkedTrading,
    layout: &BookLayout,
) -> Result<Markup, NoMemory>
    ensures { IfOk result (λ made. made ≡ spec.book_shapes orders.now marked.now layout.now) }
{
    let made = with_book(alloc, Markup::new(alloc), orders, Side::Buy, &layout.bids)?;
    let made = with_book(alloc, made, orders, Side::Sell, &layout.asks)?;
    with_marks(alloc, made, orders, layout, &marked.orders)
}

/// With the section of the picture of a book behind it.
fn with_book_section(
    alloc: Global,
    made: Markup,
    orders: &OrderList<'_>,
    marked: &MarkedTrading,
    layout: &BookLayout,
) -> Result<Markup, NoMemory>
    ensures { IfOk result
        (λ more. more ≡ made ++ spec.book_section orders.now marked.now layout.now) }
{
    let shapes = book_shapes(alloc, orders, marked, layout)?;
    let paper = book_paper(alloc, layout)?;
    let words = book_caption(alloc, draws_some(orders, layout, &marked.orders))?;
    let heading = b"The book right before the record";
    with_worded_figure(alloc, made, heading, &paper, &shapes, &words)
}

/// With the section of a book behind it.
fn with_drawn_book(
    alloc: Global,
    made: Markup,
    orders: &OrderList<'_>,
    marked: &MarkedTrading,
    book: &BookBefore,
) -> Result<Markup, NoMemory>
    ensures { IfOk result (spec.IsWithDrawnBook orders.now marked.now book.now made) }
{
    let layout = book_layout_of(alloc, orders, book)?;
    let more = with_book_section(alloc, made, orders, marked, &layout)?;
    Ok(more)
}

/// With the section of a book behind it, where there is one.
fn with_book_if_there(
    alloc: Global,
    made: Markup,
    orders: &OrderList<'_>,
    marked: &MarkedTrading,
    book: &Option<BookBefore>,
) -> Result<Markup, NoMemory>
    ensures { IfOk result (spec.IsWithBook orders.now marked.now book.now made) }
{
    match book {
        Some(book) => with_drawn_book(alloc, made, orders, marked, book),
        None => Ok(made),
    }
}

/// The section of the picture of the best limits in this plot.
fn plotted_picture(
    alloc: Global,
    plot: Plot,
    orders: &OrderList<'_>,
    deals: &[Deal],
    columns: &[PlaceColumn],
    offence: Option<OffendingPlace>,
) -> Result<Markup, NoMemory>
    requires plot { IsPlot plot }
    requires deal_list { IsDealList orders.now deals.now }
    ensures { IfOk result
        (spec.IsPlottedPicture plot orders.now deals.now columns.now offence) }
{
    let axes = plot.axes(alloc)?;
    let plotted = PlotWithAxes { plot, axes: &axes };
    let shapes = picture_shapes(alloc, &plotted, orders, deals, columns, offence)?;
    let made = picture_section(alloc, &axes, offence.is_some(), &shapes)?;
    Ok(made)
}

/// The section of the picture of the best limits in the plot that it needs.
fn drawn_picture(
    alloc: Global,
    orders: &OrderList<'_>,
    deals: &[Deal],
    end: u64,
    columns: &[PlaceColumn],
    offence: Option<OffendingPlace>,
) -> Result<Markup, NoMemory>
    requires { IsDealList orders.now deals.now }
    ensures { IfOk result
        (spec.IsDrawnPicture orders.now deals.now end columns.now offence) }
{
    let plot = plot_of_trading(orders, end, columns);
    let made = plotted_picture(alloc, plot, orders, deals, columns, offence)?;
    Ok(made)
}

/// The sections that have a picture with these numbers.
fn drawn_sections(
    alloc: Global,
    orders: &OrderList<'_>,
    deals: &[Deal],
    end: u64,
    numbers: &ContinuousPicture,
    marked: &MarkedTrading,
) -> Result<Markup, NoMemory>
    requires { IsDealList orders.now deals.now }
    ensures { IfOk result
        (spec.AreDrawnSections orders.now deals.now end numbers.now marked.now) }
{
    let picture = drawn_picture(alloc, orders, deals, end, &numbers.columns, marked.offence)?;
    let made = with_book_if_there(alloc, picture, orders, marked, &numbers.book)?;
    Ok(made)
}

/// The sections of a page that have the picture of continuous trading, of the places from that of
/// the first order to before `end`, and the book right before the offending place, where there is
/// one. Err only out of memory.
pub fn continuous_sections(
    alloc: Global,
    orders: &OrderList<'_>,
    deals: &[Deal],
    end: u64,
    marked: &MarkedTrading,
) -> Result<Markup, NoMemory>
    requires order_list { IsOrderList orders.now }
    requires deal_list { IsDealList orders.now deals.now }
    requires fits { end < 2 ^ 33 }
    ensures { IfOk result (spec.AreContinuousSections orders.now deals.now end marked.now) }
{
    let place = place_of_offence(marked.offence);
    let numbers = continuous_picture(alloc, orders, deals, end, place)?;
    let made = drawn_sections(alloc, orders, deals, end, &numbers, marked)?;
    Ok(made)
}
