//! The section of a page that has the picture of a call.
ghost use Rattle.std.specs.Prelude.{◌≡◌, ◌++◌, IfOk};
ghost use Rattle.audit_base.specs.Deals.{IsDealList};
ghost use Rattle.audit_base.specs.Orders.{IsOrderList};
ghost use Rattle.call_drawing.specs.Sections as spec;
ghost use Rattle.call_picture.specs.Pictures.{IsPictureInRange};

use crate::captions::{caption_of, with_call_legend};
use crate::layouts::{CallLayout, layout_of};
use crate::lines::{with_greatest, with_price, with_volume};
use crate::steps::with_side;
use audit_base::faults::NoMemory;
use audit_base::findings::{Finding, Short};
use audit_base::numbers::Price;
use audit_base::orders::Deal;
use audit_base::terms::Side;
use call_picture::pictures::{CallPicture, call_picture};
use order_list::lists::OrderList;
use page_markup::markup::Markup;
use page_plots::figures::with_figure;
use page_plots::marks::{MarkedOrders, draws_some, with_marks};
use page_plots::papers::plot_paper;
use page_plots::plot_axes::with_axes;
use page_plots::shapes::Picture;
use std::alloc::Global;

/// What is marked in the picture of a call.
#[derive(Clone, Copy, Debug)]
pub struct MarkedCall {
    /// The orders whose steps are marked.
    pub orders: MarkedOrders,
    /// The greatest volume, where the finding tells it.
    pub short: Option<Short>,
    /// The one price of the trades, where the rule asks for one and there are trades.
    pub price: Option<Price>,
}

impl MarkedCall {
    /// What a finding marks, and the price.
    pub fn by(finding: &Option<Finding>, price: Option<Price>) -> MarkedCall
        ensures { result ≡ spec.marked_in_call finding.now price }
    {
        MarkedCall {
            orders: MarkedOrders::by(finding),
            short: short_of(finding),
            price,
        }
    }
}

/// The greatest volume that a finding tells, if it does.
fn short_of(finding: &Option<Finding>) -> Option<Short>
    ensures { result ≡ spec.short_of finding.now }
{
    match finding {
        Some(finding) => finding.short,
        None => None,
    }
}

/// The greatest volume, where it is told.
fn greatest_of(short: Option<Short>) -> u128
    ensures { result ≡ spec.greatest_of short }
{
    match short {
        Some(short) => short.greatest,
        None => 0,
    }
}

/// With the steps of both sides behind it.
fn with_both_sides(
    alloc: Global,
    made: Markup,
    orders: &OrderList<'_>,
    layout: &CallLayout,
) -> Result<Markup, NoMemory>
    ensures { IfOk result (λ more. more ≡ made ++ spec.both_sides orders.now layout.now) }
{
    let made = with_side(alloc, made, orders, Side::Buy, &layout.bids)?;
    with_side(alloc, made, orders, Side::Sell, &layout.asks)
}

/// With the lines behind it.
fn with_lines(
    alloc: Global,
    made: Markup,
    numbers: &CallPicture,
    marked: &MarkedCall,
    layout: &CallLayout,
) -> Result<Markup, NoMemory>
    ensures { IfOk result
        (λ more. more ≡ made ++ spec.call_lines numbers.now marked.now layout.now) }
{
    let made = with_price(alloc, made, layout.price_y, marked.price)?;
    let made = with_volume(alloc, made, layout.volume, numbers.volume)?;
    with_greatest(alloc, made, layout.greatest, marked.short)
}

/// The shapes of the picture.
fn call_shapes(
    alloc: Global,
    orders: &OrderList<'_>,
    numbers: &CallPicture,
    marked: &MarkedCall,
    layout: &CallLayout,
) -> Result<Markup, NoMemory>
    ensures { IfOk result
        (λ made. made ≡ spec.call_shapes orders.now numbers.now marked.now layout.now) }
{
    let made = Markup::new(alloc);
    let made = with_axes(alloc, made, &layout.axes, b"quantity, best orders first")?;
    let made = with_both_sides(alloc, made, orders, layout)?;
    let made = with_lines(alloc, made, numbers, marked, layout)?;
    let made = with_marks(alloc, made, orders, layout, &marked.orders)?;
    with_call_legend(alloc, made)
}

/// The caption, which speaks of marks where one is drawn.
fn call_caption(
    alloc: Global,
    orders: &OrderList<'_>,
    numbers: &CallPicture,
    marked: &MarkedCall,
    layout: &CallLayout,
) -> Result<Markup, NoMemory>
    ensures { IfOk result
        (λ made. made ≡ spec.call_caption orders.now numbers.now marked.now layout.now) }
{
    caption_of(alloc, numbers, draws_some(orders, layout, &marked.orders))
}

/// The section of the picture that is laid out so.
fn section_of(
    alloc: Global,
    orders: &OrderList<'_>,
    numbers: &CallPicture,
    marked: &MarkedCall,
    layout: &CallLayout,
) -> Result<Markup, NoMemory>
    ensures { IfOk result
        (λ made. made ≡ spec.call_section orders.now numbers.now marked.now layout.now) }
{
    let shapes = call_shapes(alloc, orders, numbers, marked, layout)?;
    let caption = call_caption(alloc, orders, numbers, marked, layout)?;
    let paper = plot_paper(alloc, &layout.axes)?;
    let picture = Picture {
        paper: &paper,
        title: b"Bids and asks by price and quantity",
        shapes: &shapes,
    };
    let made = Markup::new(alloc);
    with_figure(alloc, made, b"The orders of the call", &picture, &caption)
}

/// The section of the picture of a call with these numbers.
fn drawn_section(
    alloc: Global,
    orders: &OrderList<'_>,
    numbers: &CallPicture,
    marked: &MarkedCall,
) -> Result<Markup, NoMemory>
    requires { IsPictureInRange numbers.now }
    ensures { IfOk result (spec.IsDrawnSection orders.now numbers.now marked.now) }
{
    let layout = layout_of(alloc, numbers, greatest_of(marked.short), marked.price)?;
    let made = section_of(alloc, orders, numbers, marked, &layout)?;
    Ok(made)
}

/// The section of a page that has the picture of a call, with what a finding marks in it. Err only
/// out of memory.
pub fn call_section(
    alloc: Global,
    orders: &OrderList<'_>,
    deals: &[Deal],
    marked: &MarkedCall,
) -> Result<Markup, NoMemory>
    requires order_list { IsOrderList orders.now }
    requires deal_list { IsDealList orders.now deals.now }
    ensures { IfOk result (spec.IsCallSection orders.now deals.now marked.now) }
{
    let numbers = call_picture(alloc, orders, deals)?;
    let made = drawn_section(alloc, orders, &numbers, marked)?;
    Ok(made)
}
