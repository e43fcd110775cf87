//! Laws of the pages of a day, apart from the code. Nothing is computed here: a law is a function's
//! contract, so that the check proves it.
ghost use Rattle.day_page.specs.Laws.{FieldsAreParts, LinksLeadToPages, PagesHaveOwnNames, SymbolsHaveTheirRows};

/// No two symbols have one page.
pub fn pages_have_own_names()
    ensures { PagesHaveOwnNames }
{}

/// A link leads to the page: the escapes of its address, undone once, give the name of the page's
/// file.
pub fn links_lead_to_pages()
    ensures { LinksLeadToPages }
{}

/// The fields of a line are the parts that were joined by commas, if none of them has a comma.
pub fn fields_are_parts()
    ensures { FieldsAreParts }
{}

/// Each symbol has its rows, in order: the rows of the text of a day are those of each symbol's
/// lines, one after another.
pub fn symbols_have_their_rows()
    ensures { SymbolsHaveTheirRows }
{}
