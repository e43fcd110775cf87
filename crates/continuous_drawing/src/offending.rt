//! The offending place, drawn: an upright line, with its number and the property that is broken.
ghost use Rattle.std.specs.Prelude.{◌≡◌, ◌++◌, IfOk};
ghost use Rattle.continuous_drawing.specs.Offending as spec;
ghost use Rattle.page_plots.specs.Plots.{IsPlot, x_of};

use audit_base::faults::NoMemory;
use audit_base::findings::Property;
use audit_base::texts::write_number;
use page_markup::markup::Markup;
use page_plots::measures::TOP;
use page_plots::plot_lines::{WordsOver, with_worded_line};
use page_plots::plots::Plot;
use page_plots::shapes::{Anchor, Point};
use std::alloc::Global;

/// The middle of the plot: left of it words begin at an upright line, from it on they end there.
const MIDDLE: u32 = 268;

/// The foot of the words over the line, right above the plot.
const WORDS_FOOT: u32 = 40;

/// The place of the record at which a property is broken.
#[derive(Clone, Copy, Debug, PartialEq, Eq)]
pub struct OffendingPlace {
    pub place: u64,
    pub property: Property,
}

/// The place of an offence, if there is one.
pub(crate) fn place_of_offence(offence: Option<OffendingPlace>) -> Option<u64>
    ensures { result ≡ spec.place_of_offence offence }
{
    match offence {
        Some(offence) => Some(offence.place),
        None => None,
    }
}

/// The words over the line.
fn words_of(alloc: Global, offence: OffendingPlace) -> Result<Vec<u8>, NoMemory>
    ensures { IfOk result (λ text. text.items ≡ spec.words_of offence) }
{
    let mut text = Vec::from_slice(alloc, b"record ")?;
    write_number(alloc, u128::from(offence.place), &mut text)?;
    text.extend_from_slice(b": ")?;
    text.extend_from_slice(offence.property.word())?;
    Ok(text)
}

/// Which point of its words stands over an upright line, so that they stay within the paper.
fn anchor_beside(x: u32) -> Anchor
    ensures { result ≡ spec.anchor_beside x }
{
    if x < MIDDLE {
        Anchor::Start
    } else {
        Anchor::End
    }
}

/// With an upright line behind it, from the top of the plot to its bottom, and its words.
fn with_line_and_words(
    alloc: Global,
    made: Markup,
    x: u32,
    offence: OffendingPlace,
) -> Result<Markup, NoMemory>
    ensures { IfOk result (λ more. more ≡ made ++ spec.line_and_words x offence) }
{
    let text = words_of(alloc, offence)?;
    let from = Point { x, y: TOP };
    let over = WordsOver {
        foot: WORDS_FOOT,
        anchor: anchor_beside(x),
        words: &text,
    };
    with_worded_line(alloc, made, b"mark", from, &over)
}

/// How far from the left of the paper a place lies.
fn distance_of(plot: Plot, place: u64) -> u32
    requires { IsPlot plot }
    ensures { result ≡ x_of plot place }
{
    u32::from(plot.x(u128::from(place)))
}

/// With the line of an offence behind it.
fn with_offence(
    alloc: Global,
    made: Markup,
    plot: Plot,
    offence: OffendingPlace,
) -> Result<Markup, NoMemory>
    requires { IsPlot plot }
    ensures { IfOk result (λ more. more ≡ made ++ spec.offence_shapes plot offence) }
{
    let x = distance_of(plot, offence.place);
    with_line_and_words(alloc, made, x, offence)
}

/// With the line of the offence behind it, where there is one.
pub fn with_offending(
    alloc: Global,
    made: Markup,
    plot: Plot,
    offence: Option<OffendingPlace>,
) -> Result<Markup, NoMemory>
    requires { IsPlot plot }
    ensures { IfOk result (λ more. more ≡ made ++ spec.offending_shapes plot offence) }
{
    match offence {
        Some(offence) => with_offence(alloc, made, plot, offence),
        None => Ok(made),
    }
}
