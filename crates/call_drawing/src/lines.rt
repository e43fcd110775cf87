//! The lines of the picture of a call: the volume, the greatest volume, and the one price.
ghost use Rattle.std.specs.Prelude.{◌≡◌, ◌++◌, IfOk, decimal};
ghost use Rattle.call_drawing.specs.Lines as spec;

use crate::layouts::UprightLine;
use audit_base::faults::NoMemory;
use audit_base::findings::Short;
use audit_base::numbers::Price;
use audit_base::texts::write_number;
use page_markup::markup::Markup;
use page_plots::papers::price_words;
use page_plots::plot_lines::{WordsOver, with_line_across, with_worded_line};
use page_plots::shapes::{Anchor, Point, with_label};
use std::alloc::Global;

/// The upper end of the line of the volume, with its words over it, in the row above the plot.
const VOLUME_TOP: u32 = 33;

/// The upper end of the line of the greatest volume: its words are in a row above those.
const GREATEST_TOP: u32 = 16;

/// Where the words of the one price end, right before the right end of the plot.
const PRICE_WORDS_END: u32 = 464;

/// How the line of a quantity is drawn.
#[derive(Clone, Copy, Debug)]
struct QuantityLine<'a> {
    /// Its class.
    class: &'a [u8],
    /// Its upper end, where its words have their foot, in units of the paper from its top.
    top: u32,
    /// The words before the quantity.
    words: &'a [u8],
}

/// Words and a quantity behind them.
fn quantity_words(alloc: Global, words: &[u8], quantity: u128) -> Result<Vec<u8>, NoMemory>
    ensures { IfOk result (λ text. text.items ≡ words.now ++ decimal quantity) }
{
    let mut text = Vec::from_slice(alloc, words)?;
    write_number(alloc, quantity, &mut text)?;
    Ok(text)
}

/// With an upright line behind it at a quantity, with its words and the quantity over it.
fn with_quantity_line(
    alloc: Global,
    made: Markup,
    line: &QuantityLine<'_>,
    at: UprightLine,
    quantity: u128,
) -> Result<Markup, NoMemory>
    ensures { IfOk result (λ more. more ≡ made
        ++ spec.quantity_line line.now.class.now line.now.words.now line.now.top at quantity) }
{
    let text = quantity_words(alloc, line.words, quantity)?;
    let x = u32::from(at.x);
    let from = Point { x, y: line.top };
    let over = WordsOver {
        foot: line.top,
        anchor: at.anchor,
        words: &text,
    };
    with_worded_line(alloc, made, line.class, from, &over)
}

/// With the volume behind it.
pub fn with_volume(
    alloc: Global,
    made: Markup,
    at: UprightLine,
    volume: u128,
) -> Result<Markup, NoMemory>
    ensures { IfOk result (λ more. more ≡ made ++ spec.volume_shapes at volume) }
{
    let line = QuantityLine {
        class: b"volume",
        top: VOLUME_TOP,
        words: b"traded ",
    };
    with_quantity_line(alloc, made, &line, at, volume)
}

/// With the greatest volume behind it, where the finding tells it.
pub fn with_greatest(
    alloc: Global,
    made: Markup,
    at: UprightLine,
    short: Option<Short>,
) -> Result<Markup, NoMemory>
    ensures { IfOk result (λ more. more ≡ made ++ spec.greatest_shapes at short) }
{
    match short {
        Some(short) => {
            let line = QuantityLine {
                class: b"greatest",
                top: GREATEST_TOP,
                words: b"possible ",
            };
            with_quantity_line(alloc, made, &line, at, short.greatest)
        }
        None => Ok(made),
    }
}

/// With the line of a price behind it.
fn with_price_line(alloc: Global, made: Markup, y: u16, price: Price) -> Result<Markup, NoMemory>
    ensures { IfOk result (λ more. more ≡ made ++ spec.price_line y price) }
{
    let y = u32::from(y);
    let made = with_line_across(alloc, made, b"price", y)?;
    let text = price_words(alloc, price)?;
    let at = Point {
        x: PRICE_WORDS_END,
        y,
    };
    with_label(alloc, made, b"label", at, Anchor::End, &text)
}

/// With the one price behind it, where there is one.
pub fn with_price(
    alloc: Global,
    made: Markup,
    y: u16,
    price: Option<Price>,
) -> Result<Markup, NoMemory>
    ensures { IfOk result (λ more. more ≡ made ++ spec.price_shapes y price) }
{
    match price {
        Some(price) => with_price_line(alloc, made, y, price),
        None => Ok(made),
    }
}
