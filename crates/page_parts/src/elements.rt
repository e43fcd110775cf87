//! Elements of a page, each with its attributes and a text or markup in it.
ghost use Rattle.std.specs.Prelude.{◌≡◌, ◌++◌, IfOk, IsTrue};
ghost use Rattle.page_markup.specs.Addresses.{is_relative};
ghost use Rattle.page_parts.specs.Elements as spec;

use audit_base::faults::NoMemory;
use page_markup::markup::{Attribute, Markup};
use page_markup::words::{AttributeName, Tag};
use std::alloc::Global;

/// An attribute with this value.
pub fn attribute<'a>(name: AttributeName, value: &'a [u8]) -> Attribute<'a>
    ensures name { result.name ≡ name }
    ensures value { result.value.now ≡ value.now }
{
    Attribute { name, value }
}

/// With an element behind it that holds a text alone.
pub fn with_text_element(
    alloc: Global,
    made: Markup,
    tag: Tag,
    words: &[u8],
) -> Result<Markup, NoMemory>
    ensures { IfOk result (λ more. more ≡ made ++ spec.text_element tag words.now) }
{
    let text = Markup::new(alloc).with_text(words)?;
    made.with_element(tag, &[], &text)
}

/// With a link behind it to this address, which names a file beside the page.
pub fn with_link(
    alloc: Global,
    made: Markup,
    address: &[u8],
    words: &[u8],
) -> Result<Markup, NoMemory>
    requires { IsTrue (is_relative address.now) }
    ensures { IfOk result (λ more. more ≡ made ++ spec.link address.now words.now) }
{
    let text = Markup::new(alloc).with_text(words)?;
    made.with_link(address, &text)
}

/// With a section of this heading behind it.
pub fn with_section(
    alloc: Global,
    made: Markup,
    heading: &[u8],
    inner: &Markup,
) -> Result<Markup, NoMemory>
    ensures { IfOk result (λ more. more ≡ made ++ spec.section heading.now inner.now) }
{
    let section = with_text_element(alloc, Markup::new(alloc), Tag::H2, heading)?;
    let section = section.with_markup(inner)?;
    made.with_element(Tag::Section, &[], &section)
}
