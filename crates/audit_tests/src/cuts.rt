//! Both CSV logs of one trade and of a day of two phases, cut at every length.
use crate::checks::cuts::{Cut, CutLogs, check_cuts};
use crate::checks::inputs::{ORDERS, TRADES};
use crate::day_logs::{CALL_FIRST, DAY_ACCEPTED, DAY_ORDERS, DAY_SPREAD, DAY_TRADES};
use audit_base::terms::Which;
use std::test::Fail;

const MATCHING: &str = "audit matching Z orders trades";

/// 125 bytes: the header has 52, the lines 37 and 36.
const ORDER_LOG: [&str; 2] = [
    ORDERS,
    "N,A,b1,20240102-09:00:00,Z,B,100,10,
N,B,s1,20240102-09:00:00,Z,S,100,9,
",
];

/// 108 bytes: the header has 67, the line 41.
const TRADE_LOG: [&str; 2] = [TRADES, "T1,20240102-09:00:01,Z,A,b1,B,s1,100,9.5\n"];

/// A line without its end is a line; one that is cut within has too few columns.
const ORDER_CUTS: CutLogs = CutLogs {
    words: MATCHING,
    orders: &ORDER_LOG,
    trades: &TRADE_LOG,
    which: Which::Orders,
    cuts: &[
        Cut {
            last: 50,
            status: 3,
            report: "malformed,orders,1,0,header\n",
        },
        Cut {
            last: 52,
            status: 1,
            report: "rejected,unknown-order,trades,1\nunknown,buy,A,b1\n",
        },
        Cut {
            last: 87,
            status: 3,
            report: "malformed,orders,1,52,columns\n",
        },
        Cut {
            last: 89,
            status: 1,
            report: "rejected,unknown-order,trades,1\nunknown,sell,B,s1\n",
        },
        Cut {
            last: 123,
            status: 3,
            report: "malformed,orders,2,89,columns\n",
        },
        Cut {
            last: 125,
            status: 0,
            report: "accepted,matching,Z\ntotals,2,1,100\n",
        },
    ],
};

/// The price is cut to nothing, to `9`, to `9.` and to `9.5`.
const TRADE_CUTS: CutLogs = CutLogs {
    words: MATCHING,
    orders: &ORDER_LOG,
    trades: &TRADE_LOG,
    which: Which::Trades,
    cuts: &[
        Cut {
            last: 65,
            status: 3,
            report: "malformed,trades,1,0,header\n",
        },
        Cut {
            last: 67,
            status: 0,
            report: "accepted,matching,Z\ntotals,2,0,0\n",
        },
        Cut {
            last: 103,
            status: 3,
            report: "malformed,trades,1,67,columns\n",
        },
        Cut {
            last: 104,
            status: 3,
            report: "malformed,trades,1,67,value:price\n",
        },
        Cut {
            last: 105,
            status: 0,
            report: "accepted,matching,Z\ntotals,2,1,100\n",
        },
        Cut {
            last: 106,
            status: 3,
            report: "malformed,trades,1,67,value:price\n",
        },
        Cut {
            last: 108,
            status: 0,
            report: "accepted,matching,Z\ntotals,2,1,100\n",
        },
    ],
};

/// Without the last order the trade of it names none.
const DAY_ORDER_CUTS: CutLogs = CutLogs {
    words: CALL_FIRST,
    orders: &DAY_ORDERS,
    trades: &DAY_TRADES,
    which: Which::Orders,
    cuts: &[
        Cut {
            last: 50,
            status: 3,
            report: "malformed,orders,1,0,header\n",
        },
        Cut {
            last: 52,
            status: 1,
            report: "rejected,unknown-order,trades,1\nunknown,buy,A,b1\n",
        },
        Cut {
            last: 85,
            status: 3,
            report: "malformed,orders,1,52,columns\n",
        },
        Cut {
            last: 87,
            status: 1,
            report: "rejected,unknown-order,trades,1\nunknown,sell,B,s1\n",
        },
        Cut {
            last: 119,
            status: 3,
            report: "malformed,orders,2,87,columns\n",
        },
        Cut {
            last: 121,
            status: 1,
            report: "rejected,unknown-order,trades,2\nunknown,sell,B,s2\n",
        },
        Cut {
            last: 154,
            status: 3,
            report: "malformed,orders,3,121,columns\n",
        },
        Cut {
            last: 156,
            status: 0,
            report: DAY_ACCEPTED,
        },
    ],
};

/// Without trades the call leaves too much, with the first alone the continuous phase does; the
/// price of the second is cut to nothing and to `1`, which is below the limit of the ask.
const DAY_TRADE_CUTS: CutLogs = CutLogs {
    words: CALL_FIRST,
    orders: &DAY_ORDERS,
    trades: &DAY_TRADES,
    which: Which::Trades,
    cuts: &[
        Cut {
            last: 65,
            status: 3,
            report: "malformed,trades,1,0,header\n",
        },
        Cut {
            last: 67,
            status: 1,
            report: "rejected,volume,trades,1
volume,0,3
order,1,buy,A,b1,5,10,0,3
order,2,sell,B,s1,3,9,0,3
",
        },
        Cut {
            last: 101,
            status: 3,
            report: "malformed,trades,1,67,columns\n",
        },
        Cut {
            last: 102,
            status: 3,
            report: "malformed,trades,1,67,value:price\n",
        },
        Cut {
            last: 103,
            status: 1,
            report: DAY_SPREAD,
        },
        Cut {
            last: 104,
            status: 3,
            report: "malformed,trades,1,67,value:price\n",
        },
        Cut {
            last: 106,
            status: 1,
            report: DAY_SPREAD,
        },
        Cut {
            last: 140,
            status: 3,
            report: "malformed,trades,2,106,columns\n",
        },
        Cut {
            last: 141,
            status: 3,
            report: "malformed,trades,2,106,value:price\n",
        },
        Cut {
            last: 142,
            status: 1,
            report: "rejected,limit,trades,2
order,1,buy,A,b1,2,10,2
order,3,sell,B,s2,4,10,2
",
        },
        Cut {
            last: 144,
            status: 0,
            report: DAY_ACCEPTED,
        },
    ],
};

#[test]
fn logs_cut_at_every_length(rt: HostRuntime) -> Result<(), Fail> {
    check_cuts(rt.alloc(), &ORDER_CUTS)?;
    check_cuts(rt.alloc(), &TRADE_CUTS)?;
    check_cuts(rt.alloc(), &DAY_ORDER_CUTS)?;
    Ok(check_cuts(rt.alloc(), &DAY_TRADE_CUTS)?)
}
