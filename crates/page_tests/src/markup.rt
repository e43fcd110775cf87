//! A small page, as it is written.
use page_markup::markup::{Attribute, Markup};
use page_markup::words::{AttributeName, Tag};
use std::test::Fail;

/// What a page with a hostile name in it looks like.
const PAGE: &str = "<!DOCTYPE html>\n<html lang=\"en\"><head><meta charset=\"utf-8\"></head>\
<body><p class=\"a&amp;b\">&lt;script&gt;alert(1)&lt;/script&gt; &amp;amp; ]]&gt; &#39;&quot;</p>\
</body></html>\n";

#[test]
fn a_page_is_written(rt: HostRuntime) -> Result<(), Fail> {
    let alloc = rt.alloc();
    let charset = [Attribute {
        name: AttributeName::Charset,
        value: b"utf-8",
    }];
    let class = [Attribute {
        name: AttributeName::Class,
        value: b"a&b",
    }];
    let language = [Attribute {
        name: AttributeName::Lang,
        value: b"en",
    }];
    let words = Markup::new(alloc).with_text(b"<script>alert(1)</script> &amp; ]]> '\"")?;
    let body = Markup::new(alloc).with_element(Tag::Paragraph, &class, &words)?;
    let head = Markup::new(alloc).with_meta(&charset)?;
    let both = Markup::new(alloc)
        .with_element(Tag::Head, &[], &head)?
        .with_markup(&Markup::new(alloc).with_element(Tag::Body, &[], &body)?)?;
    let root = Markup::new(alloc).with_element(Tag::Html, &language, &both)?;
    let page = root.page(alloc)?;
    assert_eq!(rt; page.as_slice(), PAGE.as_bytes());
    Ok(())
}
