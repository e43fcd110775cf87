//! What holds of every order list. Nothing is computed here: a law is a function's contract, so
//! that the check proves it.
ghost use Rattle.volume_bound.specs.Laws.{CutBoundsVolume};

/// No matching has a volume above the cut at any price.
pub fn cut_bounds_volume()
    ensures { CutBoundsVolume }
{}
