//! The names of the pages of symbols, and links to them.
use day_page::file_names::{file_name, page_address};
use std::test::Fail;

/// A symbol, the name of its page, and the address of a link to it.
const NAMES: [(&str, &str, &str); 8] = [
    ("Z", "Z.html", "Z.html"),
    ("BRK.B_1", "BRK.B_1.html", "BRK.B_1.html"),
    (".a", "%2Ea.html", "%252Ea.html"),
    ("..", "%2E..html", "%252E..html"),
    ("-x/y z", "%2Dx%2Fy%20z.html", "%252Dx%252Fy%2520z.html"),
    ("<b>&~", "%3Cb%3E%26%7E.html", "%253Cb%253E%2526%257E.html"),
    ("%41", "%2541.html", "%252541.html"),
    (
        "javascript:a()",
        "javascript%3Aa%28%29.html",
        "javascript%253Aa%2528%2529.html",
    ),
];

#[test]
fn a_symbol_names_a_file(rt: HostRuntime) -> Result<(), Fail> {
    let alloc = rt.alloc();
    for &(symbol, name, address) in &NAMES {
        let named = file_name(alloc, symbol.as_bytes())?;
        let led = page_address(alloc, symbol.as_bytes())?;
        assert_eq!(rt; named.as_slice(), name.as_bytes());
        assert_eq!(rt; led.as_slice(), address.as_bytes());
    }
    Ok(())
}
