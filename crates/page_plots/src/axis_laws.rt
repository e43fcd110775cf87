//! Laws of axes, apart from the code. Nothing is computed here: a law is a function's contract, so
//! that the check proves it.
ghost use Rattle.page_plots.specs.AxisLaws.{NumbersKeepTheirOrder};

/// A greater number lies no nearer to the start of an axis.
pub fn numbers_keep_their_order()
    ensures { NumbersKeepTheirOrder }
{}
