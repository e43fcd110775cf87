//! Shapes of a picture, each with its class and its place on the paper.
ghost use Rattle.std.specs.Prelude.{◌≡◌, ◌++◌, IfOk, OnOk};
ghost use Rattle.page_plots.specs.Shapes as spec;

use crate::measures::BAR_HEIGHT;
use audit_base::faults::NoMemory;
use itoa::Buffer;
use page_markup::markup::Markup;
use page_markup::words::{AttributeName, Tag};
use page_parts::elements::{attribute, with_text_element};
use std::alloc::Global;

/// A point of the paper, in units of its coordinates.
#[derive(Clone, Copy, Debug, PartialEq, Eq)]
pub struct Point {
    /// From the left.
    pub x: u32,
    /// From the top.
    pub y: u32,
}

/// A point of the paper as it is written: each coordinate in decimal digits, from 0 to 4294967295.
#[derive(Clone, Copy, Debug)]
struct WrittenPoint<'a> {
    /// From the left.
    x: &'a [u8],
    /// From the top.
    y: &'a [u8],
}

/// Which point of a text is at its place.
#[derive(Clone, Copy, Debug, PartialEq, Eq)]
pub enum Anchor {
    Start,
    Middle,
    End,
}

impl Anchor {
    /// The word of the attribute.
    fn word(self) -> &'static [u8]
        ensures { result.now ≡ spec.anchor_word self }
    {
        match self {
            Anchor::Start => b"start",
            Anchor::Middle => b"middle",
            Anchor::End => b"end",
        }
    }
}

/// With a rectangle behind it, whose numbers are written so.
fn with_written_rectangle(
    alloc: Global,
    made: Markup,
    class: &[u8],
    corner: &WrittenPoint<'_>,
    width: &[u8],
    height: &[u8],
) -> Result<Markup, NoMemory>
    ensures { IfOk result (λ shape. shape ≡ made ++ spec.written_rectangle class.now
        corner.now.x.now corner.now.y.now width.now height.now) }
{
    let attributes = [
        attribute(AttributeName::Class, class),
        attribute(AttributeName::X, corner.x),
        attribute(AttributeName::Y, corner.y),
        attribute(AttributeName::Width, width),
        attribute(AttributeName::Height, height),
    ];
    made.with_element(Tag::Rectangle, &attributes, &Markup::new(alloc))
}

/// With a rectangle behind it.
pub fn with_rectangle(
    alloc: Global,
    made: Markup,
    class: &[u8],
    corner: Point,
    width: u32,
    height: u32,
) -> Result<Markup, NoMemory>
    ensures { IfOk result
        (λ shape. shape ≡ made ++ spec.rectangle class.now corner width height) }
{
    let (mut left, mut top) = (Buffer::new(), Buffer::new());
    let (mut wide, mut high) = (Buffer::new(), Buffer::new());
    let corner = WrittenPoint {
        x: left.format(corner.x).as_bytes(),
        y: top.format(corner.y).as_bytes(),
    };
    let width = wide.format(width).as_bytes();
    let height = high.format(height).as_bytes();
    with_written_rectangle(alloc, made, class, &corner, width, height)
}

/// With a bar behind it, from this upper left corner to the right as far as here.
pub fn with_bar(
    alloc: Global,
    made: Markup,
    class: &[u8],
    corner: Point,
    right: u32,
) -> Result<Markup, NoMemory>
    ensures { IfOk result (λ shape. shape ≡ made ++ spec.bar_shape class.now corner right) }
{
    let width = right.saturating_sub(corner.x);
    with_rectangle(alloc, made, class, corner, width, BAR_HEIGHT)
}

/// With a straight line behind it, whose numbers are written so.
fn with_written_line(
    alloc: Global,
    made: Markup,
    class: &[u8],
    from: &WrittenPoint<'_>,
    to: &WrittenPoint<'_>,
) -> Result<Markup, NoMemory>
    ensures { IfOk result (λ shape. shape ≡ made ++ spec.written_straight_line class.now
        from.now.x.now from.now.y.now to.now.x.now to.now.y.now) }
{
    let attributes = [
        attribute(AttributeName::Class, class),
        attribute(AttributeName::X1, from.x),
        attribute(AttributeName::Y1, from.y),
        attribute(AttributeName::X2, to.x),
        attribute(AttributeName::Y2, to.y),
    ];
    made.with_element(Tag::Line, &attributes, &Markup::new(alloc))
}

/// With a straight line behind it.
pub fn with_line(
    alloc: Global,
    made: Markup,
    class: &[u8],
    from: Point,
    to: Point,
) -> Result<Markup, NoMemory>
    ensures { IfOk result (λ shape. shape ≡ made ++ spec.straight_line class.now from to) }
{
    let (mut from_x, mut from_y) = (Buffer::new(), Buffer::new());
    let (mut to_x, mut to_y) = (Buffer::new(), Buffer::new());
    let from = WrittenPoint {
        x: from_x.format(from.x).as_bytes(),
        y: from_y.format(from.y).as_bytes(),
    };
    let to = WrittenPoint {
        x: to_x.format(to.x).as_bytes(),
        y: to_y.format(to.y).as_bytes(),
    };
    with_written_line(alloc, made, class, &from, &to)
}

/// With a circle behind it, whose numbers are written so.
fn with_written_circle(
    alloc: Global,
    made: Markup,
    class: &[u8],
    centre: &WrittenPoint<'_>,
    radius: &[u8],
) -> Result<Markup, NoMemory>
    ensures { IfOk result (λ shape. shape ≡ made ++ spec.written_circle class.now
        centre.now.x.now centre.now.y.now radius.now) }
{
    let attributes = [
        attribute(AttributeName::Class, class),
        attribute(AttributeName::CenterX, centre.x),
        attribute(AttributeName::CenterY, centre.y),
        attribute(AttributeName::Radius, radius),
    ];
    made.with_element(Tag::Circle, &attributes, &Markup::new(alloc))
}

/// With a circle behind it.
pub fn with_circle(
    alloc: Global,
    made: Markup,
    class: &[u8],
    centre: Point,
    radius: u32,
) -> Result<Markup, NoMemory>
    ensures { IfOk result (λ shape. shape ≡ made ++ spec.circle class.now centre radius) }
{
    let (mut left, mut top, mut wide) = (Buffer::new(), Buffer::new(), Buffer::new());
    let centre = WrittenPoint {
        x: left.format(centre.x).as_bytes(),
        y: top.format(centre.y).as_bytes(),
    };
    let radius = wide.format(radius).as_bytes();
    with_written_circle(alloc, made, class, &centre, radius)
}

/// With a text of a picture behind it, whose numbers are written so.
fn with_written_label(
    made: Markup,
    class: &[u8],
    at: &WrittenPoint<'_>,
    anchor: &[u8],
    text: &Markup,
) -> Result<Markup, NoMemory>
    ensures { IfOk result (λ shape. shape ≡ made ++ spec.written_label class.now
        at.now.x.now at.now.y.now anchor.now text.now) }
{
    let attributes = [
        attribute(AttributeName::Class, class),
        attribute(AttributeName::X, at.x),
        attribute(AttributeName::Y, at.y),
        attribute(AttributeName::TextAnchor, anchor),
    ];
    made.with_element(Tag::SvgText, &attributes, text)
}

/// With a text of a picture behind it.
pub fn with_label(
    alloc: Global,
    made: Markup,
    class: &[u8],
    at: Point,
    anchor: Anchor,
    words: &[u8],
) -> Result<Markup, NoMemory>
    ensures { IfOk result
        (λ shape. shape ≡ made ++ spec.label class.now at anchor words.now) }
{
    let (mut left, mut top) = (Buffer::new(), Buffer::new());
    let at = WrittenPoint {
        x: left.format(at.x).as_bytes(),
        y: top.format(at.y).as_bytes(),
    };
    let text = Markup::new(alloc).with_text(words)?;
    with_written_label(made, class, &at, anchor.word(), &text)
}

/// With a line through points behind it, as the words of a path.
pub fn with_path(alloc: Global, made: Markup, class: &[u8], path: &[u8]) -> Result<Markup, NoMemory>
    ensures { IfOk result (λ shape. shape ≡ made ++ spec.path class.now path.now) }
{
    let attributes = [
        attribute(AttributeName::Class, class),
        attribute(AttributeName::PathData, path),
    ];
    made.with_element(Tag::Path, &attributes, &Markup::new(alloc))
}

/// Appends a point to the words of a path.
pub fn append_point(path: &mut Vec<u8>, at: Point) -> Result<(), NoMemory>
    ensures { OnOk result (path.new.items ≡ path.old.items ++ spec.path_point at) }
{
    let (mut x, mut y) = (Buffer::new(), Buffer::new());
    path.extend_from_slice(x.format(at.x).as_bytes())?;
    path.push(b' ')?;
    path.extend_from_slice(y.format(at.y).as_bytes())?;
    path.push(b' ')?;
    Ok(())
}

/// A picture: shapes on paper, and what they are.
#[derive(Clone, Copy)]
pub struct Picture<'a> {
    /// The coordinates of its paper, as `-76 0 576 346`: its left end, its upper end, its width and
    /// its height.
    pub paper: &'a [u8],
    /// Its title, which a screen reader reads in its place.
    pub title: &'a [u8],
    /// Its shapes, which lie by these coordinates.
    pub shapes: &'a Markup,
}

/// With a picture behind it.
pub fn with_picture(alloc: Global, made: Markup, picture: &Picture<'_>) -> Result<Markup, NoMemory>
    ensures { IfOk result (λ more. more ≡ made
        ++ spec.svg picture.now.paper.now picture.now.title.now picture.now.shapes.now) }
{
    let inner = with_text_element(alloc, Markup::new(alloc), Tag::Title, picture.title)?;
    let inner = inner.with_markup(picture.shapes)?;
    let attributes = [
        attribute(AttributeName::ViewBox, picture.paper),
        attribute(AttributeName::Role, b"img"),
    ];
    made.with_element(Tag::Svg, &attributes, &inner)
}

/// With shapes behind it that belong together, and the title that a pointer or a reader finds
/// there.
pub fn with_group(
    alloc: Global,
    made: Markup,
    title: &[u8],
    shapes: &Markup,
) -> Result<Markup, NoMemory>
    ensures { IfOk result (λ more. more ≡ made ++ spec.group title.now shapes.now) }
{
    let inner = with_text_element(alloc, Markup::new(alloc), Tag::Title, title)?;
    let inner = inner.with_markup(shapes)?;
    made.with_element(Tag::Group, &[], &inner)
}
