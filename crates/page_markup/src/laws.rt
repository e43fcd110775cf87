//! Laws of markup, apart from the code. Nothing is computed here: a law is a function's contract,
//! so that the check proves it.
ghost use Rattle.page_markup.specs.Laws.{NoAttributeRefers, NoElementFetches, NoTextIsMarkup, TextIsReadBack};

/// No text, whoever chose it, begins or ends an element or a value: what is written for it has none
/// of `<`, `>`, `"` and `'`. And it is read back from what is written for it.
pub fn text_is_no_markup()
    ensures plain { NoTextIsMarkup }
    ensures read { TextIsReadBack }
{}

/// Nothing that markup is made of makes a browser look at anything outside: no attribute refers to
/// anything, and no element fetches anything or is a script. A link alone has an address.
pub fn markup_refers_to_nothing()
    ensures attributes { NoAttributeRefers }
    ensures elements { NoElementFetches }
{}
