//! The greatest volumes that the rules `uniform` and `maximum` allow,
//! and the Expected trades, which reach them.
ghost use Rattle.call_laws.specs.Optimum.{OnePriceIsBounded, UniformOptimum, UniformTradesAreExpected, MaximumReachesLeastCut, MaximumTradesAreExpected, UniformUnitsSuffice, MaximumUnitsSuffice};

/// No matching of one price has a volume above the executable volume at that price
/// (the smaller of demand and supply there); and where this is greatest over all prices, the pairs
/// of units reach it: they are a fair matching of one price, and no matching of one price
/// has a greater volume. Their quantities are from 1 to 10^12, their prices below 10^18.
pub fn uniform_optimum()
    ensures bounded { OnePriceIsBounded }
    ensures reached { UniformOptimum }
{}

/// From the greatest executable volume and the least price that reaches it: the pairs of units
/// are the Expected trades of `uniform`, and these two are the greatest volume and its bound.
pub fn uniform_trades_are_expected()
    ensures { UniformTradesAreExpected }
{}

/// The volume of the least cut is reached: the pairs of units under `maximum` are a fair matching
/// of this volume, and no matching has a greater one. Their quantities are from 1 to 10^12,
/// their prices below 10^18.
pub fn greatest_matching_reaches_the_least_cut()
    ensures { MaximumReachesLeastCut }
{}

/// From the least cut and the least price that reaches it: the pairs of units are the Expected
/// trades of `maximum`, and these two are the greatest volume and its bound.
pub fn maximum_trades_are_expected()
    ensures { MaximumTradesAreExpected }
{}

/// All bids together, and all asks together, have at least the greatest volume of either rule;
/// and the bound of `uniform` is below 10^18 units, at which nobody bids.
pub fn units_suffice()
    ensures uniform { UniformUnitsSuffice }
    ensures maximum { MaximumUnitsSuffice }
{}
