//! Lines of a plot, each with its class: across it, and upright with words over them.
ghost use Rattle.std.specs.Prelude.{◌≡◌, ◌++◌, IfOk};
ghost use Rattle.page_plots.specs.PlotLines as spec;

use crate::measures::{BOTTOM, LEFT, RIGHT};
use crate::shapes::{Anchor, Point, with_label, with_line};
use audit_base::faults::NoMemory;
use page_markup::markup::Markup;
use std::alloc::Global;

/// With a line behind it across the plot, so far from the top of the paper.
pub fn with_line_across(
    alloc: Global,
    made: Markup,
    class: &[u8],
    y: u32,
) -> Result<Markup, NoMemory>
    ensures { IfOk result (λ more. more ≡ made ++ spec.line_across class.now y) }
{
    let (from, to) = (Point { x: LEFT, y }, Point { x: RIGHT, y });
    with_line(alloc, made, class, from, to)
}

/// Words over an upright line.
#[derive(Clone, Copy, Debug)]
pub struct WordsOver<'a> {
    /// Their foot, in units of the paper from its top: up to 44 they stand above the plot.
    pub foot: u32,
    /// Which point of them stands over the line.
    pub anchor: Anchor,
    /// The words, as they are read.
    pub words: &'a [u8],
}

/// With an upright line behind it, from a point to the lower end of the plot, and words over it.
pub fn with_worded_line(
    alloc: Global,
    made: Markup,
    class: &[u8],
    from: Point,
    over: &WordsOver<'_>,
) -> Result<Markup, NoMemory>
    ensures { IfOk result (λ more. more ≡ made
        ++ spec.worded_line class.now from over.now.foot over.now.anchor over.now.words.now) }
{
    let to = Point {
        x: from.x,
        y: BOTTOM,
    };
    let made = with_line(alloc, made, class, from, to)?;
    let at = Point {
        x: from.x,
        y: over.foot,
    };
    with_label(alloc, made, b"label", at, over.anchor, over.words)
}
