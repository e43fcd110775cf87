//! What holds of every fair matching. Nothing is computed here: a law is a function's contract, so
//! that the check proves it.
ghost use Rattle.call_laws.specs.Laws.{FairVolumeFixesQuantities};

/// Two fair matchings of equal volume trade the same quantity with each order: on each side the
/// volume fills the orders by price-time priority.
pub fn fair_volume_fixes_quantities()
    ensures { FairVolumeFixesQuantities }
{}
