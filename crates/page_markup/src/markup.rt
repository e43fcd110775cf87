//! Markup that is put together from texts and elements.
ghost use Rattle.std.specs.Prelude.{◌≡◌, ◌++◌, [], IfOk, IsTrue, OnOk};
ghost use Rattle.std.specs.List.{flat_map};
ghost use Rattle.page_markup.specs.Addresses.{is_relative};
ghost use Rattle.page_markup.specs.Escapes.{escaped};
ghost use Rattle.page_markup.specs.Trees.{IsNestedPage, attribute_text, element_text, end_text};
ghost use Rattle.page_markup.specs.Trees.{link_start, link_text, meta_text, page_text, start_text};

use crate::escapes::append_escaped;
use crate::words::{AttributeName, Tag};
use audit_base::faults::NoMemory;
use std::alloc::Global;
use std::marker::Model;

/// An attribute and its value, which may be any text.
#[derive(Clone, Copy, Debug)]
pub struct Attribute<'a> {
    pub name: AttributeName,
    pub value: &'a [u8],
}

/// Texts, elements and links, one after another, each element and link with what is in it and its
/// end. Contracts see how it is written.
#[derive(Drop)]
pub struct Markup {
    text: Vec<u8>,
}

impl Model for Markup {
    ghost use Rattle.std.specs.Prelude.{ℕ, List};
    ghost use Rattle.page_markup.specs.Trees.{IsMarkup};

    ghost Value = { List ℕ };

    ghost view = { λ m. m.text.items };

    ghost invariant = { λ m. IsMarkup m.text.items };
}

/// Appends an attribute.
fn append_attribute(attribute: &Attribute<'_>, out: &mut Vec<u8>) -> Result<(), NoMemory>
    ensures { OnOk result (out.new.items ≡ out.old.items ++ attribute_text attribute.now) }
{
    out.extend_from_slice(b" ")?;
    out.extend_from_slice(attribute.name.word())?;
    out.extend_from_slice(b"=\"")?;
    append_escaped(attribute.value, out)?;
    out.extend_from_slice(b"\"")?;
    Ok(())
}

/// Appends attributes, in order.
fn append_attributes(attributes: &[Attribute<'_>], out: &mut Vec<u8>) -> Result<(), NoMemory>
    ensures { OnOk result
        (out.new.items ≡ out.old.items ++ flat_map attribute_text attributes.now) }
{
    for attribute in attributes {
        append_attribute(attribute, out)?;
    }
    Ok(())
}

/// Appends the start of an element of this name.
fn append_start(
    word: &[u8],
    attributes: &[Attribute<'_>],
    out: &mut Vec<u8>,
) -> Result<(), NoMemory>
    ensures { OnOk result
        (out.new.items ≡ out.old.items ++ start_text word.now attributes.now) }
{
    out.extend_from_slice(b"<")?;
    out.extend_from_slice(word)?;
    append_attributes(attributes, out)?;
    out.extend_from_slice(b">")?;
    Ok(())
}

/// Appends the end of an element.
fn append_end(tag: Tag, out: &mut Vec<u8>) -> Result<(), NoMemory>
    ensures { OnOk result (out.new.items ≡ out.old.items ++ end_text tag) }
{
    out.extend_from_slice(b"</")?;
    out.extend_from_slice(tag.word())?;
    out.extend_from_slice(b">")?;
    Ok(())
}

/// Appends the start of a link.
fn append_link_start(address: &[u8], out: &mut Vec<u8>) -> Result<(), NoMemory>
    ensures { OnOk result (out.new.items ≡ out.old.items ++ link_start address.now) }
{
    out.extend_from_slice(b"<a href=\"")?;
    append_escaped(address, out)?;
    out.extend_from_slice(b"\">")?;
    Ok(())
}

impl Markup {
    /// No markup.
    pub fn new(alloc: Global) -> Self
        ensures { result ≡ [] }
    {
        Markup {
            text: Vec::new(alloc),
        }
    }

    /// The markup as it is written.
    pub fn text(&self) -> &[u8]
        ensures { result.now ≡ self.now }
    {
        self.text.as_slice()
    }

    /// With a text behind it, which may be any bytes. What has a meaning in markup is written as an
    /// entity.
    pub fn with_text(self, words: &[u8]) -> Result<Self, NoMemory>
        ensures { IfOk result (λ made. made ≡ self ++ escaped words.now) }
    {
        let mut text = self.text;
        append_escaped(words, &mut text)?;
        Ok(Markup { text })
    }

    /// With an element behind it: its start with these attributes, what is in it, and its end.
    pub fn with_element(
        self,
        tag: Tag,
        attributes: &[Attribute<'_>],
        inner: &Markup,
    ) -> Result<Self, NoMemory>
        ensures { IfOk result
            (λ made. made ≡ self ++ element_text tag attributes.now inner.now) }
    {
        let mut text = self.text;
        append_start(tag.word(), attributes, &mut text)?;
        text.extend_from_slice(inner.text.as_slice())?;
        append_end(tag, &mut text)?;
        Ok(Markup { text })
    }

    /// With a link behind it to this address, which names a file beside the page, on what is in it.
    pub fn with_link(self, address: &[u8], inner: &Markup) -> Result<Self, NoMemory>
        requires { IsTrue (is_relative address.now) }
        ensures { IfOk result (λ made. made ≡ self ++ link_text address.now inner.now) }
    {
        let mut text = self.text;
        append_link_start(address, &mut text)?;
        text.extend_from_slice(inner.text.as_slice())?;
        text.extend_from_slice(b"</a>")?;
        Ok(Markup { text })
    }

    /// With a `meta` behind it, which has nothing in it and no end.
    pub fn with_meta(self, attributes: &[Attribute<'_>]) -> Result<Self, NoMemory>
        ensures { IfOk result (λ made. made ≡ self ++ meta_text attributes.now) }
    {
        let mut text = self.text;
        append_start(b"meta", attributes, &mut text)?;
        Ok(Markup { text })
    }

    /// With other markup behind it.
    pub fn with_markup(self, other: &Markup) -> Result<Self, NoMemory>
        ensures { IfOk result (λ made. made ≡ self ++ other.now) }
    {
        let mut text = self.text;
        text.extend_from_slice(other.text.as_slice())?;
        Ok(Markup { text })
    }

    /// The text of the page whose root this is.
    pub fn page(&self, alloc: Global) -> Result<Vec<u8>, NoMemory>
        ensures page { IfOk result (λ made. made.items ≡ page_text self.now) }
        ensures nested { IfOk result (λ made. IsNestedPage made.items) }
    {
        let mut text = Vec::new(alloc);
        text.extend_from_slice(b"<!DOCTYPE html>\n")?;
        text.extend_from_slice(self.text.as_slice())?;
        text.push(b'\n')?;
        Ok(text)
    }
}
