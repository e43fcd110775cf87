//! A section of a page that has a picture, with what it shows below it.
ghost use Rattle.std.specs.Prelude.{◌≡◌, ◌++◌, IfOk};
ghost use Rattle.page_plots.specs.Figures as spec;

use crate::shapes::{Picture, with_picture};
use audit_base::faults::NoMemory;
use page_markup::markup::Markup;
use page_markup::words::Tag;
use page_parts::elements::with_section;
use std::alloc::Global;

/// The figure of a picture, with its caption.
fn figure_of(alloc: Global, picture: Markup, caption: &Markup) -> Result<Markup, NoMemory>
    ensures { IfOk result (λ made. made ≡ spec.figure picture caption.now) }
{
    let inner = picture.with_element(Tag::FigureCaption, &[], caption)?;
    Markup::new(alloc).with_element(Tag::Figure, &[], &inner)
}

/// With a section of this heading behind it that has a picture, and what stands below it.
pub fn with_figure(
    alloc: Global,
    made: Markup,
    heading: &[u8],
    picture: &Picture<'_>,
    caption: &Markup,
) -> Result<Markup, NoMemory>
    ensures { IfOk result (λ more. more ≡ made ++ spec.figure_section heading.now
        picture.now.title.now picture.now.paper.now picture.now.shapes.now caption.now) }
{
    let picture = with_picture(alloc, Markup::new(alloc), picture)?;
    let figure = figure_of(alloc, picture, caption)?;
    with_section(alloc, made, heading, &figure)
}
