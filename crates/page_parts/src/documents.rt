//! A page round its chief part.
ghost use Rattle.std.specs.Prelude.{◌≡◌, IfOk};
ghost use Rattle.page_markup.specs.Trees.{IsNestedPage};
ghost use Rattle.page_parts.specs.Documents as spec;

use crate::elements::{attribute, with_text_element};
use crate::style::style_text;
use audit_base::faults::NoMemory;
use page_markup::markup::Markup;
use page_markup::words::{AttributeName, Tag};
use std::alloc::Global;

/// The head of a page.
fn document_head(alloc: Global, style: &[u8], title: &[u8]) -> Result<Markup, NoMemory>
    ensures { IfOk result (λ made. made ≡ spec.head_of_page style.now title.now) }
{
    let charset = [attribute(AttributeName::Charset, b"utf-8")];
    let viewport = [
        attribute(AttributeName::Name, b"viewport"),
        attribute(
            AttributeName::Content,
            b"width=device-width, initial-scale=1",
        ),
    ];
    let made = Markup::new(alloc).with_meta(&charset)?;
    let made = made.with_meta(&viewport)?;
    let made = with_text_element(alloc, made, Tag::Title, title)?;
    let made = with_text_element(alloc, made, Tag::Style, style)?;
    Markup::new(alloc).with_element(Tag::Head, &[], &made)
}

/// The text of a page of this style.
fn styled_page(
    alloc: Global,
    style: &[u8],
    title: &[u8],
    main: &Markup,
) -> Result<Vec<u8>, NoMemory>
    ensures written { IfOk result
        (λ text. text.items ≡ spec.styled_page style.now title.now main.now) }
    ensures nested { IfOk result (λ text. IsNestedPage text.items) }
{
    let head = document_head(alloc, style, title)?;
    let chief = Markup::new(alloc).with_element(Tag::Main, &[], main)?;
    let both = head.with_element(Tag::Body, &[], &chief)?;
    let english = [attribute(AttributeName::Lang, b"en")];
    let root = Markup::new(alloc).with_element(Tag::Html, &english, &both)?;
    root.page(alloc)
}

/// The text of the page with this title and chief part, whole in itself.
pub fn page_of(alloc: Global, title: &[u8], main: &Markup) -> Result<Vec<u8>, NoMemory>
    ensures { IfOk result (λ text. spec.IsPage title.now main.now text.items) }
{
    let text = styled_page(alloc, style_text(), title, main)?;
    Ok(text)
}
