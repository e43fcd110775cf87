//! What holds of the further checks. Nothing is computed here.
ghost use Rattle.further_checks.specs.Laws.{ExpectedTradesHaveRestingPrices, FurtherFindingsBeginWithTheFirst, NothingIsFoundUnasked};

/// The finding that is told is the first of all findings.
pub fn further_findings_begin_with_the_first()
    ensures { FurtherFindingsBeginWithTheFirst }
{}

/// Where no check is asked for, no trade fails one.
pub fn nothing_is_found_unasked()
    ensures { NothingIsFoundUnasked }
{}

/// The Expected trades of continuous trading have the prices of their resting orders.
pub fn expected_trades_have_resting_prices()
    ensures { ExpectedTradesHaveRestingPrices }
{}
