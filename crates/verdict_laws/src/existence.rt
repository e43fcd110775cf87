//! That there is an answer under each of the five rules, and only one.
//! These laws ask for no memory, so they hold where a computation of the same would run out of it.
ghost use Rattle.verdict_laws.specs.Existence.{ConformingListExists, HistoryHasConformingList, RuleVerdictExists, VerdictExists, VerdictIsTheOnlyOne};

use call_laws::existence::{conforming_list_exists, rule_verdict_exists};
use continuous_laws::laws::continuous_existence;

/// Under each of the five rules some list of deals conforms, with numbers in range:
/// under `continuous` on a regular order list, as that of each well-formed history is.
pub fn some_trades_conform()
    ensures orders { ConformingListExists }
    ensures histories { HistoryHasConformingList }
{
    conforming_list_exists();
    continuous_existence();
}

/// Under each of the five rules every list of deals conforms or has a first offence.
pub fn a_rule_has_a_verdict()
    ensures { RuleVerdictExists }
{
    rule_verdict_exists();
}

/// Under each of the five rules two logs that have been read have a verdict:
/// accepted, or one finding.
pub fn verdict_exists()
    ensures { VerdictExists }
{
    a_rule_has_a_verdict();
}

/// Under each of the five rules two logs that have been read have at most one verdict.
pub fn verdict_is_the_only_one()
    ensures { VerdictIsTheOnlyOne }
{}
