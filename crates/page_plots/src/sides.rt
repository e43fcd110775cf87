//! The two sides of a picture: their classes, by which they have their colours, and a legend of
//! these.
ghost use Rattle.std.specs.Prelude.{◌≡◌, ◌++◌, ◌≤◌, IfOk};
ghost use Rattle.page_plots.specs.Sides as spec;

use crate::measures::{BAR_HEIGHT, LEFT, LEGEND_FOOT, LEGEND_TOP, LEGEND_WIDTH, TO_LEGEND_WORDS};
use crate::shapes::{Anchor, Point, with_label, with_rectangle};
use audit_base::faults::NoMemory;
use audit_base::terms::Side;
use page_markup::markup::Markup;
use std::alloc::Global;

/// The class of a bar of a side.
pub fn bar_class(side: Side) -> &'static [u8]
    ensures { result.now ≡ spec.bar_class side }
{
    match side {
        Side::Buy => b"bid",
        Side::Sell => b"ask",
    }
}

/// The class of the filled part of a bar.
pub fn filled_class(side: Side) -> &'static [u8]
    ensures { result.now ≡ spec.filled_class side }
{
    match side {
        Side::Buy => b"bidtraded",
        Side::Sell => b"asktraded",
    }
}

/// The class of words in the colour of a side.
fn words_class(side: Side) -> &'static [u8]
    ensures { result.now ≡ spec.words_class side }
{
    match side {
        Side::Buy => b"bids",
        Side::Sell => b"asks",
    }
}

/// With what the colour of a side is behind it, below the plot, so far from the left of the paper.
fn with_legend_entry(
    alloc: Global,
    made: Markup,
    side: Side,
    x: u32,
    words: &[u8],
) -> Result<Markup, NoMemory>
    requires { x ≤ 400 }
    ensures { IfOk result (λ more. more ≡ made ++ spec.legend_entry side x words.now) }
{
    let corner = Point { x, y: LEGEND_TOP };
    let class = filled_class(side);
    let made = with_rectangle(alloc, made, class, corner, LEGEND_WIDTH, BAR_HEIGHT)?;
    let at = Point {
        x: x + TO_LEGEND_WORDS,
        y: LEGEND_FOOT,
    };
    with_label(alloc, made, words_class(side), at, Anchor::Start, words)
}

/// With what the two colours are behind it, below the plot: these words of bids at its left end, and
/// of asks so far from the left of the paper.
pub fn with_sides_legend(
    alloc: Global,
    made: Markup,
    bids: &[u8],
    asks_x: u32,
    asks: &[u8],
) -> Result<Markup, NoMemory>
    requires { asks_x ≤ 400 }
    ensures { IfOk result
        (λ more. more ≡ made ++ spec.sides_legend bids.now asks_x asks.now) }
{
    let made = with_legend_entry(alloc, made, Side::Buy, LEFT, bids)?;
    with_legend_entry(alloc, made, Side::Sell, asks_x, asks)
}
