//! The paper of a picture: how far its coordinates reach. A digit is some 7 units wide. The price
//! of a line ends 60 units from the left, and has at most 19 characters; a number stands with its
//! middle at its mark, 32 units or more from the right. Where one needs more than that, the paper
//! reaches farther, so that none is cut.
ghost use Rattle.std.specs.Prelude.{◌≡◌, IfOk};
ghost use Rattle.std.specs.List.{list_any};
ghost use Rattle.audit_base.specs.Numbers.{price_text};
ghost use Rattle.page_plots.specs.Papers as spec;

use crate::measures::PAPER_HEIGHT;
use crate::plot_axes::{Axes, NumberTick, PriceTick};
use audit_base::faults::NoMemory;
use audit_base::numbers::Price;
use audit_base::texts::{write_number, write_price};
use std::alloc::Global;

/// The least number that has ten digits.
const LONG_NUMBER: u128 = 1_000_000_000;

/// The text of a price.
pub fn price_words(alloc: Global, price: Price) -> Result<Vec<u8>, NoMemory>
    ensures { IfOk result (λ text. text.items ≡ price_text price) }
{
    let mut text = Vec::new(alloc);
    write_price(alloc, price.units(), &mut text)?;
    Ok(text)
}

/// Whether the text of a price has more than eight characters.
pub fn is_long(alloc: Global, price: Price) -> Result<bool, NoMemory>
    ensures { IfOk result (λ long. long ≡ spec.is_long price) }
{
    let text = price_words(alloc, price)?;
    Ok(8 < text.len())
}

/// Whether a marked price is long.
fn has_long_price(alloc: Global, ticks: &[PriceTick]) -> Result<bool, NoMemory>
    ensures { IfOk result (λ long. long ≡ list_any spec.is_long_tick ticks.now) }
{
    for tick in ticks {
        if is_long(alloc, tick.price)? {
            return Ok(true);
        }
    }
    Ok(false)
}

/// Whether a marked number is long.
fn has_long_number(ticks: &[NumberTick]) -> bool
    ensures { result ≡ list_any spec.is_long_number ticks.now }
{
    ticks.iter().any(|tick| LONG_NUMBER <= tick.number)
}

/// The front of the coordinates of a paper.
fn paper_front(left: bool, right: bool) -> &'static [u8]
    ensures { result.now ≡ spec.paper_front left right }
{
    if left && right {
        b"-76 0 636 "
    } else if left {
        b"-76 0 576 "
    } else if right {
        b"0 0 560 "
    } else {
        b"0 0 500 "
    }
}

/// The coordinates of a paper of this height, with more room at its left for long prices, and at
/// its right for long numbers.
pub fn paper_of(alloc: Global, left: bool, right: bool, height: u32) -> Result<Vec<u8>, NoMemory>
    ensures { IfOk result (λ text. text.items ≡ spec.paper_of left right height) }
{
    let mut text = Vec::from_slice(alloc, paper_front(left, right))?;
    write_number(alloc, u128::from(height), &mut text)?;
    Ok(text)
}

/// The coordinates of the paper of a plot.
pub fn plot_paper(alloc: Global, axes: &Axes) -> Result<Vec<u8>, NoMemory>
    ensures { IfOk result (λ text. text.items ≡ spec.plot_paper axes.now) }
{
    let left = has_long_price(alloc, &axes.prices)?;
    let right = has_long_number(&axes.numbers);
    paper_of(alloc, left, right, PAPER_HEIGHT)
}
