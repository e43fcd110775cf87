//! The elements and attributes that pages use, by their names in HTML and SVG.
ghost use Rattle.std.specs.Prelude.{◌≡◌};
ghost use Rattle.page_markup.specs.Words.{attribute_word, tag_word};

/// An element that has an end of its own (HTML Living Standard; SVG 2).
#[derive(Clone, Copy, Debug, PartialEq, Eq)]
pub enum Tag {
    /// The root of a page.
    Html,
    /// What is said about the page.
    Head,
    /// The title of a page, or of a shape of a picture.
    Title,
    /// How the page is to look.
    Style,
    /// What the page shows.
    Body,
    /// The chief part of the body.
    Main,
    /// A part with a heading.
    Section,
    /// The heading of the page.
    H1,
    /// The heading of a section.
    H2,
    /// A paragraph.
    Paragraph,
    /// Words of a command line.
    Code,
    /// A table.
    Table,
    /// What a table is about.
    Caption,
    /// The rows of headings of a table.
    TableHead,
    /// The rows of values of a table.
    TableBody,
    /// A row of a table.
    Row,
    /// A heading of a column or row.
    HeaderCell,
    /// A value in a table.
    Cell,
    /// A picture with its caption.
    Figure,
    /// The caption of a picture.
    FigureCaption,
    /// A picture.
    Svg,
    /// Shapes that belong together.
    Group,
    /// A line through points.
    Path,
    /// A straight line.
    Line,
    /// A rectangle.
    Rectangle,
    /// A circle.
    Circle,
    /// A text in a picture.
    SvgText,
}

impl Tag {
    /// The name of the element.
    pub fn word(self) -> &'static [u8]
        ensures { result.now ≡ tag_word self }
    {
        match self {
            Tag::Html => b"html",
            Tag::Head => b"head",
            Tag::Title => b"title",
            Tag::Style => b"style",
            Tag::Body => b"body",
            Tag::Main => b"main",
            Tag::Section => b"section",
            Tag::H1 => b"h1",
            Tag::H2 => b"h2",
            Tag::Paragraph => b"p",
            Tag::Code => b"code",
            Tag::Table => b"table",
            Tag::Caption => b"caption",
            Tag::TableHead => b"thead",
            Tag::TableBody => b"tbody",
            Tag::Row => b"tr",
            Tag::HeaderCell => b"th",
            Tag::Cell => b"td",
            Tag::Figure => b"figure",
            Tag::FigureCaption => b"figcaption",
            Tag::Svg => b"svg",
            Tag::Group => b"g",
            Tag::Path => b"path",
            Tag::Line => b"line",
            Tag::Rectangle => b"rect",
            Tag::Circle => b"circle",
            Tag::SvgText => b"text",
        }
    }
}

/// The name of an attribute.
#[derive(Clone, Copy, Debug, PartialEq, Eq)]
pub enum AttributeName {
    /// The language of the page.
    Lang,
    /// How the bytes of the page are read.
    Charset,
    /// What a `meta` is about.
    Name,
    /// What a `meta` says.
    Content,
    /// The style that an element has.
    Class,
    /// Whether a heading is that of a column or of a row.
    Scope,
    /// What a picture is to a screen reader.
    Role,
    /// The coordinates of a picture.
    ViewBox,
    /// The width of a shape.
    Width,
    /// The height of a shape.
    Height,
    /// Where a shape is from the left.
    X,
    /// Where a shape is from the top.
    Y,
    /// Where a straight line begins, from the left.
    X1,
    /// Where a straight line begins, from the top.
    Y1,
    /// Where a straight line ends, from the left.
    X2,
    /// Where a straight line ends, from the top.
    Y2,
    /// The centre of a circle, from the left.
    CenterX,
    /// The centre of a circle, from the top.
    CenterY,
    /// The radius of a circle.
    Radius,
    /// The points of a path.
    PathData,
    /// Which end of a text is at its place.
    TextAnchor,
}

impl AttributeName {
    /// The name as it is written.
    pub fn word(self) -> &'static [u8]
        ensures { result.now ≡ attribute_word self }
    {
        match self {
            AttributeName::Lang => b"lang",
            AttributeName::Charset => b"charset",
            AttributeName::Name => b"name",
            AttributeName::Content => b"content",
            AttributeName::Class => b"class",
            AttributeName::Scope => b"scope",
            AttributeName::Role => b"role",
            AttributeName::ViewBox => b"viewBox",
            AttributeName::Width => b"width",
            AttributeName::Height => b"height",
            AttributeName::X => b"x",
            AttributeName::Y => b"y",
            AttributeName::X1 => b"x1",
            AttributeName::Y1 => b"y1",
            AttributeName::X2 => b"x2",
            AttributeName::Y2 => b"y2",
            AttributeName::CenterX => b"cx",
            AttributeName::CenterY => b"cy",
            AttributeName::Radius => b"r",
            AttributeName::PathData => b"d",
            AttributeName::TextAnchor => b"text-anchor",
        }
    }
}
