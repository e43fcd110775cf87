//! Both logs of a small day, and a log whose contents are asked for, cut at every length, in pieces
//! of every size from 1 to 64.
use crate::checks::cuts::{Cut, CutLogs, check_cuts};
use crate::checks::inputs::{ORDERS, TRADES};
use audit_base::terms::Which;
use std::test::Fail;

const MATCHING: &str = "audit matching orders trades";

/// 125 bytes: the header has 52, the lines 37 and 36.
const ORDER_LOG: [&str; 2] = [
    ORDERS,
    "N,A,b1,20240102-09:00:00,Z,B,100,10,
N,B,s1,20240102-09:00:00,Z,S,100,9,
",
];

/// 108 bytes: the header has 67, the line 41.
const TRADE_LOG: [&str; 2] = [TRADES, "T1,20240102-09:00:01,Z,A,b1,B,s1,100,9.5\n"];

const ACCEPTED: &str = "day,1,1,0,matching\nZ,accepted,matching,Z\nZ,totals,2,1,100\n";

/// A line without its end is a line; one that is cut within has too few columns.
const ORDER_CUTS: CutLogs = CutLogs {
    words: MATCHING,
    orders: &ORDER_LOG,
    trades: &TRADE_LOG,
    which: Which::Orders,
    cuts: &[
        Cut {
            last: 50,
            status: 3,
            report: "malformed,orders,1,0,header\n",
        },
        Cut {
            last: 52,
            status: 1,
            report: "day,1,0,1,matching\nZ,rejected,unknown-order,trades,1\nZ,unknown,buy,A,b1\n",
        },
        Cut {
            last: 87,
            status: 3,
            report: "malformed,orders,1,52,columns\n",
        },
        Cut {
            last: 89,
            status: 1,
            report: "day,1,0,1,matching\nZ,rejected,unknown-order,trades,1\nZ,unknown,sell,B,s1\n",
        },
        Cut {
            last: 123,
            status: 3,
            report: "malformed,orders,2,89,columns\n",
        },
        Cut {
            last: 125,
            status: 0,
            report: ACCEPTED,
        },
    ],
};

/// The price is cut to nothing, to `9`, to `9.` and to `9.5`.
const TRADE_CUTS: CutLogs = CutLogs {
    words: MATCHING,
    orders: &ORDER_LOG,
    trades: &TRADE_LOG,
    which: Which::Trades,
    cuts: &[
        Cut {
            last: 65,
            status: 3,
            report: "malformed,trades,1,0,header\n",
        },
        Cut {
            last: 67,
            status: 0,
            report: "day,1,1,0,matching\nZ,accepted,matching,Z\nZ,totals,2,0,0\n",
        },
        Cut {
            last: 103,
            status: 3,
            report: "malformed,trades,1,67,columns\n",
        },
        Cut {
            last: 104,
            status: 3,
            report: "malformed,trades,1,67,value:price\n",
        },
        Cut {
            last: 105,
            status: 0,
            report: ACCEPTED,
        },
        Cut {
            last: 106,
            status: 3,
            report: "malformed,trades,1,67,value:price\n",
        },
        Cut {
            last: 108,
            status: 0,
            report: ACCEPTED,
        },
    ],
};

/// A heartbeat of 26 bytes, and an order up to byte 112.
const CONTENTS_LOG: [&str; 2] = [
    "8=FIX.4.4|9=5|35=0|10=163|",
    "8=FIX.4.4|9=64|35=D|49=A|11=1|60=20240102-09:00:00|55=Z|54=1|38=100|40=2|44=10|10=145|",
];

/// A log that ends within a message is bad where that message begins.
const CONTENTS_CUTS: CutLogs = CutLogs {
    words: "contents orders trades --orders-form fix",
    orders: &CONTENTS_LOG,
    trades: &[TRADES],
    which: Which::Orders,
    cuts: &[
        Cut {
            last: 0,
            status: 0,
            report: "symbols,0\n",
        },
        Cut {
            last: 25,
            status: 3,
            report: "malformed,orders,1,0,truncated\n",
        },
        Cut {
            last: 26,
            status: 0,
            report: "orders,passed:35=0,1\nsymbols,0\n",
        },
        Cut {
            last: 111,
            status: 3,
            report: "malformed,orders,1,26,truncated\n",
        },
        Cut {
            last: 112,
            status: 0,
            report: "orders,passed:35=0,1
orders,D,1
symbols,1
times,orders,20240102-09:00:00,20240102-09:00:00
",
        },
    ],
};

#[test]
fn logs_cut_anywhere(rt: HostRuntime) -> Result<(), Fail> {
    check_cuts(rt.alloc(), &ORDER_CUTS)?;
    check_cuts(rt.alloc(), &TRADE_CUTS)?;
    Ok(check_cuts(rt.alloc(), &CONTENTS_CUTS)?)
}
