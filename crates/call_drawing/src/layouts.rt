//! Where the parts of the picture of a call lie on its paper, by the plot of its numbers.
ghost use Rattle.std.specs.Prelude.{◌≡◌, IfOk};
ghost use Rattle.call_drawing.specs.Extents as extent;
ghost use Rattle.call_drawing.specs.Placed as spec;
ghost use Rattle.call_drawing.specs.Placed.{IsLayoutOf};
ghost use Rattle.call_picture.specs.Pictures.{IsPictureInRange};
ghost use Rattle.page_plots.specs.Plots.{IsPlot};

use crate::bars::{PlacedSide, placed_side};
use crate::extents::plot_of_call;
use audit_base::faults::NoMemory;
use audit_base::numbers::Price;
use audit_base::terms::Side;
use call_picture::pictures::CallPicture;
use page_plots::plot_axes::Axes;
use page_plots::plots::Plot;
use page_plots::shapes::Anchor;
use std::alloc::Global;

/// From here on words have their middle over an upright line; before, they begin there.
const MIDDLE_FROM: u16 = 168;

/// From here on words end over an upright line.
const END_FROM: u16 = 368;

/// Where an upright line lies, and which point of its words stands over it.
#[derive(Clone, Copy, Debug)]
pub struct UprightLine {
    pub x: u16,
    pub anchor: Anchor,
}

/// Where the parts of the picture of a call lie.
#[derive(Debug, Drop)]
pub struct CallLayout {
    pub axes: Axes,
    pub bids: PlacedSide,
    pub asks: PlacedSide,
    pub volume: UprightLine,
    pub greatest: UprightLine,
    pub price_y: u16,
}

/// Which point of its words stands over an upright line, so that they stay within the paper.
fn anchor_over(x: u16) -> Anchor
    ensures { result ≡ spec.anchor_over x }
{
    if x < MIDDLE_FROM {
        Anchor::Start
    } else if x < END_FROM {
        Anchor::Middle
    } else {
        Anchor::End
    }
}

/// The upright line of a quantity.
fn upright_at(plot: Plot, quantity: u128) -> UprightLine
    requires { IsPlot plot }
    ensures { result ≡ spec.upright_at plot quantity }
{
    let x = plot.x(quantity);
    UprightLine {
        x,
        anchor: anchor_over(x),
    }
}

/// Where the line of a price lies, if there is one.
fn price_height(plot: Plot, price: Option<Price>) -> u16
    requires { IsPlot plot }
    ensures { result ≡ spec.price_height plot price }
{
    match price {
        Some(price) => plot.y(price.units()),
        None => 0,
    }
}

/// Where the parts of the picture of a call lie in its plot.
fn laid_out(
    alloc: Global,
    plot: Plot,
    picture: &CallPicture,
    greatest: u128,
    price: Option<Price>,
) -> Result<CallLayout, NoMemory>
    requires plot { IsPlot plot }
    requires in_range { IsPictureInRange picture.now }
    ensures { IfOk result (IsLayoutOf plot picture.now greatest price) }
{
    let axes = plot.axes(alloc)?;
    let bids = placed_side(alloc, plot, Side::Buy, &picture.bids)?;
    let asks = placed_side(alloc, plot, Side::Sell, &picture.asks)?;
    Ok(CallLayout {
        axes,
        bids,
        asks,
        volume: upright_at(plot, picture.volume),
        greatest: upright_at(plot, greatest),
        price_y: price_height(plot, price),
    })
}

/// Where the parts of the picture of a call lie, with the greatest volume and the price, where
/// there are.
pub fn layout_of(
    alloc: Global,
    picture: &CallPicture,
    greatest: u128,
    price: Option<Price>,
) -> Result<CallLayout, NoMemory>
    requires { IsPictureInRange picture.now }
    ensures { IfOk result
        (IsLayoutOf (extent.plot_of_call picture.now greatest) picture.now greatest price) }
{
    let plot = plot_of_call(picture, greatest);
    let layout = laid_out(alloc, plot, picture, greatest, price)?;
    Ok(layout)
}
