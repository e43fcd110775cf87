//! What the pages of these tests are compared with: all but the style, which is between the two
//! texts.
use audit_base::names::{Name, read_name};
use std::process::Abort;

pub(crate) fn name(rt: &impl Abort, text: &str) -> Name {
    read_name(text.as_bytes()).expect(rt, "a name")
}

/// Whether a byte is no markup and begins no entity.
fn is_style_byte(byte: u8) -> bool {
    byte != b'<' && byte != b'>' && byte != b'&'
}

/// The page is the first text, a style, and the second.
pub(crate) fn assert_page(rt: &impl Abort, page: &[u8], before: &str, behind: &str) {
    let rest = page.strip_prefix(before.as_bytes()).expect(rt, "the head");
    let style = rest.strip_suffix(behind.as_bytes()).expect(rt, "the body");
    assert!(rt; style.iter().all(|byte| is_style_byte(*byte)));
}
