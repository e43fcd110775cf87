//! The laws of a day's symbols, apart from what computes them. Each call does nothing: it only
//! has its contract.
ghost use Rattle.day_symbols.specs.Laws.{EachSymbolOnce, SharesAreTheDay};

/// Each symbol of a day is there once, and each record's symbol is among them.
pub fn each_symbol_once()
    ensures { EachSymbolOnce }
{}

/// However many shares a day has, each of its symbols is in exactly one of them.
pub fn shares_are_the_day()
    ensures { SharesAreTheDay }
{}
