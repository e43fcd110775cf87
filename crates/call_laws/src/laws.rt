//! What holds of every call, in one sentence each.
ghost use Rattle.call_laws.specs.Laws.{FairVolumeFillsByRank, ShortOrdersDoNotMeet, LowVolumeLeavesShortOrders, OnlyQuantities, DueByRank};

/// A fair matching fills its volume by rank: an order trades what the better ones leave of the
/// volume, up to its quantity (price-time priority).
pub fn fair_volume_fills_by_rank()
    ensures { FairVolumeFillsByRank }
{}

/// Under `uniform` and `maximum` the limits of a short bid and a short ask do not meet:
/// else one more unit could trade.
pub fn short_orders_do_not_meet()
    ensures { ShortOrdersDoNotMeet }
{}

/// Where another matching has a greater volume, each side has a short order, and so a best one.
pub fn low_volume_leaves_short_orders()
    ensures { LowVolumeLeavesShortOrders }
{}

/// Under `uniform` and `maximum` all conforming lists of deals trade the same with each order.
pub fn only_quantities()
    ensures { OnlyQuantities }
{}

/// Under `uniform` and `maximum` the due of an order is what the better ones leave of the volume
/// that conforms, up to its quantity.
pub fn due_by_rank()
    ensures { DueByRank }
{}
