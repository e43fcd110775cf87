//! What stands below the pictures, and the legend of the plot.
ghost use Rattle.std.specs.Prelude.{◌≡◌, ◌++◌, IfOk};
ghost use Rattle.continuous_drawing.specs.Captions as spec;

use crate::trades::DOT_RADIUS;
use audit_base::faults::NoMemory;
use page_markup::markup::Markup;
use page_plots::measures::LEGEND_FOOT;
use page_plots::shapes::{Anchor, Point, with_circle, with_label};
use page_plots::sides::with_sides_legend;
use std::alloc::Global;

/// Where the colour of asks begins in the legend, behind the words of bids.
const ASKS_LEGEND: u32 = 154;

/// The centre of the dot of trades in the legend, behind the words of asks.
const DOT_LEGEND: Point = Point { x: 247, y: 336 };

/// Where the word of that dot begins.
const TRADE_WORD: u32 = 256;

/// With what a dot is behind it, below the plot.
fn with_trade_entry(alloc: Global, made: Markup) -> Result<Markup, NoMemory>
    ensures { IfOk result (λ more. more ≡ made ++ spec.trade_entry) }
{
    let made = with_circle(alloc, made, b"trade", DOT_LEGEND, DOT_RADIUS)?;
    let at = Point {
        x: TRADE_WORD,
        y: LEGEND_FOOT,
    };
    with_label(alloc, made, b"tick", at, Anchor::Start, b"trade")
}

/// With what the two colours and the dots are behind it, below the plot.
pub(crate) fn with_trading_legend(alloc: Global, made: Markup) -> Result<Markup, NoMemory>
    ensures { IfOk result (λ more. more ≡ made ++ spec.trading_legend) }
{
    let made = with_sides_legend(alloc, made, b"best bid", ASKS_LEGEND, b"best ask")?;
    with_trade_entry(alloc, made)
}

/// What the picture of the best limits shows.
#[tactic(auto, unfolding(crate::specs::Captions::quotes_words))]
fn quotes_words() -> &'static [u8]
    ensures { result.now ≡ spec.quotes_words }
{
    b"The best bid and, above it, the best ask after each record; of many records together the \
      least and the greatest. A dot is a trade, at the record that caused it; of more than 1,000 \
      trades there is a bar from the least to the greatest price."
}

/// What the upright line is, where there is one.
#[tactic(auto, unfolding(crate::specs::Captions::line_words))]
fn line_words(has_line: bool) -> &'static [u8]
    ensures { result.now ≡ spec.line_words has_line }
{
    if has_line {
        b" The upright line is the offending record."
    } else {
        b""
    }
}

/// The words below the picture of the best limits, by whether there is an upright line.
pub(crate) fn quotes_caption(alloc: Global, has_line: bool) -> Result<Vec<u8>, NoMemory>
    ensures { IfOk result (λ text. text.items ≡ spec.quotes_caption has_line) }
{
    let mut text = Vec::from_slice(alloc, quotes_words())?;
    text.extend_from_slice(line_words(has_line))?;
    Ok(text)
}

/// What the picture of the book shows.
#[tactic(auto, unfolding(crate::specs::Captions::book_words))]
fn book_words() -> &'static [u8]
    ensures { result.now ≡ spec.book_words }
{
    b"At most ten orders of each side, best first: the bids, and below them the asks. A bar is as \
      long as the quantity of its order, and filled as far as is left of it; its limit is at the \
      left, what is left at the right."
}

/// What the marks are, where one is drawn.
#[tactic(auto, unfolding(crate::specs::Captions::book_marks_words))]
fn book_marks_words(has_marks: bool) -> &'static [u8]
    ensures { result.now ≡ spec.book_marks_words has_marks }
{
    if has_marks {
        b" The marks 1 and 2 are those of the table."
    } else {
        b""
    }
}

/// The words below the picture of the book, by whether a mark is drawn.
pub(crate) fn book_caption(alloc: Global, has_marks: bool) -> Result<Vec<u8>, NoMemory>
    ensures { IfOk result (λ text. text.items ≡ spec.book_caption has_marks) }
{
    let mut text = Vec::from_slice(alloc, book_words())?;
    text.extend_from_slice(book_marks_words(has_marks))?;
    Ok(text)
}
