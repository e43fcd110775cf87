//! What holds of the order list of every history, whether a call ever made it or not.
ghost use Rattle.verdict_laws.specs.Histories.{ExpectedTradesAreOne, HistoriesHaveOrderLists, OrderListsAreRegular, OrderListsHaveOwnKeys};

/// The new orders and replacements of fewer than 2^32 records are an order list. Where the history
/// is well-formed, it is regular and no two of its orders have one key, however long the log is.
pub fn order_lists_are_regular()
    ensures listed { HistoriesHaveOrderLists }
    ensures regular { OrderListsAreRegular }
    ensures keys { OrderListsHaveOwnKeys }
{}

/// A history has at most one list of Expected trades under a rule,
/// well-formed or not, however long it is.
pub fn expected_trades_are_one()
    ensures { ExpectedTradesAreOne }
{}
