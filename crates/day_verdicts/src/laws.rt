//! What follows of the verdicts on a day, as contracts that compute nothing.
ghost use Rattle.day_verdicts.specs.Laws.{OneDay, SharesOfRuleAreTheDay, UncheckedSymbols, VerdictsAreOne};

use day_symbols::laws::shares_are_the_day;
use further_checks::laws::nothing_is_found_unasked;
use record_verdict::laws::record_verdict_is_one;

/// However the symbols of a day are judged, each alone or in whatever shares, the same symbols have
/// the same counts and the same lines.
pub fn one_day()
    ensures { OneDay }
{
    record_verdict_is_one();
}

/// Symbols have one list of verdicts by a rule on the same records.
pub fn verdicts_are_one()
    ensures { VerdictsAreOne }
{
    record_verdict_is_one();
}

/// Where no check is asked for, what is told of a symbol is what its rule told.
pub fn unchecked_symbols()
    ensures { UncheckedSymbols }
{
    nothing_is_found_unasked();
}

/// By a rule, however many shares a day has, each of its symbols is in exactly one of them, with the
/// very lines that it has without a share, those of the further checks too.
pub fn shares_of_a_rule_are_the_day()
    ensures { SharesOfRuleAreTheDay }
{
    record_verdict_is_one();
    shares_are_the_day();
}
