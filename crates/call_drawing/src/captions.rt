//! What stands below the picture of a call.
ghost use Rattle.std.specs.Prelude.{◌≡◌, ◌++◌, IfOk, OnOk};
ghost use Rattle.call_drawing.specs.Captions as spec;

use audit_base::faults::NoMemory;
use audit_base::texts::write_number;
use call_picture::pictures::{CallPicture, SidePicture};
use call_picture::windows::DrawnSteps;
use page_markup::markup::Markup;
use page_markup::words::Tag;
use page_parts::elements::with_text_element;
use page_plots::sides::with_sides_legend;
use std::alloc::Global;

/// Where the colour of asks begins in the legend, behind the words of bids.
const ASKS_LEGEND: u32 = 124;

/// With what the two colours are behind it, below the plot.
pub fn with_call_legend(alloc: Global, made: Markup) -> Result<Markup, NoMemory>
    ensures { IfOk result (λ more. more ≡ made ++ spec.call_legend) }
{
    with_sides_legend(alloc, made, b"bids", ASKS_LEGEND, b"asks")
}

/// What a bar of a side is.
#[tactic(auto, unfolding(crate::specs::Captions::bar_words))]
fn bar_words(by_limit: bool) -> &'static [u8]
    ensures { result.now ≡ spec.bar_words by_limit }
{
    if by_limit {
        b" Each bar is all orders of one limit."
    } else {
        b" Each bar is an order."
    }
}

/// Whether steps of a side are left out.
fn leaves_out(drawn: &DrawnSteps) -> bool
    ensures { result ≡ spec.leaves_out drawn.now }
{
    0 < drawn.better || 0 < drawn.worse
}

/// Appends how many limits of a side are not drawn, where some are not.
fn append_left_out(alloc: Global, drawn: &DrawnSteps, out: &mut Vec<u8>) -> Result<(), NoMemory>
    ensures { OnOk result (out.new.items ≡ out.old.items ++ spec.left_out_words drawn.now) }
{
    if leaves_out(drawn) {
        out.extend_from_slice(b" Not drawn: ")?;
        write_number(alloc, drawn.better as u128, out)?;
        out.extend_from_slice(b" better limits, ")?;
        write_number(alloc, drawn.worse as u128, out)?;
        out.extend_from_slice(b" worse limits.")?;
    }
    Ok(())
}

/// What is said of a side.
fn side_words(alloc: Global, name: &[u8], side: &SidePicture) -> Result<Vec<u8>, NoMemory>
    ensures { IfOk result (λ text. text.items ≡ spec.side_words name.now side.now) }
{
    let mut text = Vec::from_slice(alloc, name)?;
    text.extend_from_slice(bar_words(side.by_limit))?;
    append_left_out(alloc, &side.drawn, &mut text)?;
    Ok(text)
}

/// What every picture of a call shows.
#[tactic(auto, unfolding(crate::specs::Captions::call_words))]
fn call_words() -> &'static [u8]
    ensures { result.now ≡ spec.call_words }
{
    b"A bar is as wide as its quantity, and filled as far as it traded. \
      Bids lie above their limit, asks below, the best ones at the left."
}

/// What the marks are, where one is drawn.
#[tactic(auto, unfolding(crate::specs::Captions::marks_words))]
fn marks_words(has_marks: bool) -> &'static [u8]
    ensures { result.now ≡ spec.marks_words has_marks }
{
    if has_marks {
        b" The marks are those of the table."
    } else {
        b""
    }
}

/// What the picture shows, and what its marks are, where one is drawn.
fn whole_words(alloc: Global, has_marks: bool) -> Result<Vec<u8>, NoMemory>
    ensures { IfOk result (λ text. text.items ≡ spec.whole_words has_marks) }
{
    let mut text = Vec::from_slice(alloc, call_words())?;
    text.extend_from_slice(marks_words(has_marks))?;
    Ok(text)
}

/// Whether each step of a side is an order's, and none is left out.
fn is_plain(side: &SidePicture) -> bool
    ensures { result ≡ spec.is_plain side.now }
{
    !(side.by_limit || leaves_out(&side.drawn))
}

/// With what is said of a side behind it.
fn with_side_words(
    alloc: Global,
    made: Markup,
    name: &[u8],
    side: &SidePicture,
) -> Result<Markup, NoMemory>
    ensures { IfOk result (λ more. more ≡ made ++ spec.side_part name.now side.now) }
{
    let words = side_words(alloc, name, side)?;
    with_text_element(alloc, made, Tag::Paragraph, &words)
}

/// With what the bars of each side are behind it.
fn with_each_side(alloc: Global, made: Markup, picture: &CallPicture) -> Result<Markup, NoMemory>
    ensures { IfOk result (λ more. more ≡ made ++ spec.each_side picture.now) }
{
    let made = with_side_words(alloc, made, b"Bids:", &picture.bids)?;
    with_side_words(alloc, made, b"Asks:", &picture.asks)
}

/// With what the bars are behind it: said once, where it is the same of both sides.
fn with_bars(alloc: Global, made: Markup, picture: &CallPicture) -> Result<Markup, NoMemory>
    ensures { IfOk result (λ more. more ≡ made ++ spec.bars picture.now) }
{
    if is_plain(&picture.bids) && is_plain(&picture.asks) {
        return with_text_element(alloc, made, Tag::Paragraph, b"Each bar is an order.");
    }
    with_each_side(alloc, made, picture)
}

/// The caption of the picture, by whether a mark is drawn in it.
pub fn caption_of(alloc: Global, picture: &CallPicture, has_marks: bool) -> Result<Markup, NoMemory>
    ensures { IfOk result (λ made. made ≡ spec.caption picture.now has_marks) }
{
    let words = whole_words(alloc, has_marks)?;
    let made = with_text_element(alloc, Markup::new(alloc), Tag::Paragraph, &words)?;
    with_bars(alloc, made, picture)
}
