//! What holds of the lists of offences. Nothing is computed here: a law is a function's contract,
//! so that the check proves it, and a caller has it by a call that costs nothing.
ghost use Rattle.offence_list.specs.Laws.{NoOffenceWhereAccepted, OffenceAfterCalm, OffencesAreAtOrders, OffencesAreFailures, OffencesBeginWithTheFirst, OffencesBeginWithTheVerdict};

/// The first of the offences is the finding of the verdict, and there is none exactly where the
/// logs are accepted.
pub fn offences_begin_with_the_verdict()
    ensures rule { OffencesBeginWithTheFirst }
    ensures records { OffencesBeginWithTheVerdict }
    ensures accepted { NoOffenceWhereAccepted }
{}

/// In continuous trading each offence is at the place of an order at which the rule fails, and it
/// is what First offence (continuous) tells where the rule holds at all places before.
pub fn offences_are_failures()
    ensures orders { OffencesAreAtOrders }
    ensures fails { OffencesAreFailures }
    ensures calm { OffenceAfterCalm }
{}
