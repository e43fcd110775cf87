//! When a symbol is absent. Nothing is computed here: a law is a function's contract, so that the
//! check proves it, and a caller has it by a call that costs nothing.
ghost use Rattle.symbol_offences.specs.Laws.{AbsentHasNothing, FoundIsPresent};

/// Of a symbol that no record of two logs has, whose reports pair, nothing is found before the rule;
/// and where nothing is, a symbol is absent exactly where it has no order and no deal. This is so
/// whichever orders the rule admits.
pub fn absent_symbols_have_nothing()
    ensures found { FoundIsPresent }
    ensures sound { AbsentHasNothing }
{}
