//! The logs of a day that begins with a call and goes on with continuous trading.
use crate::checks::inputs::{ORDERS, TRADES};

/// A call up to place 2, and continuous trading from place 3 on.
pub(crate) const CALL_FIRST: &str = "session Z uniform@1,continuous@3 orders trades --table";

/// A bid of 5 at 10 and asks of 3 at 9 and of 4 at 10: 156 bytes, of which the header has 52
/// and the lines 35, 34 and 35.
pub(crate) const DAY_ORDERS: [&str; 2] = [
    ORDERS,
    "N,A,b1,20240102-09:00:00,Z,B,5,10,
N,B,s1,20240102-09:00:00,Z,S,3,9,
N,B,s2,20240102-09:00:00,Z,S,4,10,
",
];

/// The trade of the call alone: 106 bytes, of which the header has 67 and the line 39.
pub(crate) const CALL_TRADES: [&str; 2] = [TRADES, "T1,20240102-09:00:01,Z,A,b1,B,s1,3,9.5\n"];

/// This trade, and that of what the call leaves of the bid: 144 bytes, of which the last line
/// has 38.
pub(crate) const DAY_TRADES: [&str; 2] = [
    TRADES,
    "T1,20240102-09:00:01,Z,A,b1,B,s1,3,9.5
T2,20240102-09:00:01,Z,A,b1,B,s2,2,10
",
];

/// The report on the day with all its trades.
pub(crate) const DAY_ACCEPTED: &str = "session,Z,uniform@1,continuous@3
totals,3,2,5
order,1,5
order,2,3
order,3,2
";

/// The report on the day without the second trade: what is left of the bid meets the second ask.
pub(crate) const DAY_SPREAD: &str = "rejected,spread,orders,3
order,1,buy,A,b1,2,10,0
order,3,sell,B,s2,4,10,0
";
