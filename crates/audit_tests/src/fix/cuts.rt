//! Both logs of a day in FIX, cut at every length, in an audit of a matching and of two phases.
use crate::checks::cuts::{Cut, CutLogs, check_cuts};
use crate::fix::messages::{
    ACCEPTED, DAY_ORDERS, DAY_TRADES, MATCHING, SESSION, SESSION_ACCEPTED, SESSION_SPREAD,
};
use audit_base::terms::Which;
use std::test::Fail;

/// The order log has a bid, a heartbeat and a copy, which are passed over, and an ask, with a
/// line end after each but the last.
const ORDER_CUTS: CutLogs = CutLogs {
    words: MATCHING,
    orders: &DAY_ORDERS,
    trades: &DAY_TRADES,
    which: Which::Orders,
    cuts: &[
        Cut {
            last: 0,
            status: 1,
            report: "rejected,unknown-order,trades,1\nunknown,buy,A,1\n",
        },
        Cut {
            last: 164,
            status: 3,
            report: "malformed,orders,1,0,truncated\n",
        },
        Cut {
            last: 167,
            status: 1,
            report: "rejected,unknown-order,trades,1\nunknown,sell,B,2\n",
        },
        Cut {
            last: 192,
            status: 3,
            report: "malformed,orders,2,167,truncated\n",
        },
        Cut {
            last: 195,
            status: 1,
            report: "rejected,unknown-order,trades,1\nunknown,sell,B,2\n",
        },
        Cut {
            last: 285,
            status: 3,
            report: "malformed,orders,2,195,truncated\n",
        },
        Cut {
            last: 288,
            status: 1,
            report: "rejected,unknown-order,trades,1\nunknown,sell,B,2\n",
        },
        Cut {
            last: 372,
            status: 3,
            report: "malformed,orders,2,288,truncated\n",
        },
        Cut {
            last: 373,
            status: 0,
            report: ACCEPTED,
        },
    ],
};

/// The trade log has the buyer's report, a heartbeat, which is passed over, and the seller's
/// report, with a line end after each but the last.
const TRADE_CUTS: CutLogs = CutLogs {
    words: MATCHING,
    orders: &DAY_ORDERS,
    trades: &DAY_TRADES,
    which: Which::Trades,
    cuts: &[
        Cut {
            last: 0,
            status: 0,
            report: "accepted,matching,Z\ntotals,2,0,0\n",
        },
        Cut {
            last: 99,
            status: 3,
            report: "malformed,trades,1,0,truncated\n",
        },
        Cut {
            last: 102,
            status: 1,
            report: "rejected,unpaired,trades,1\n",
        },
        Cut {
            last: 127,
            status: 3,
            report: "malformed,trades,2,102,truncated\n",
        },
        Cut {
            last: 130,
            status: 1,
            report: "rejected,unpaired,trades,1\n",
        },
        Cut {
            last: 229,
            status: 3,
            report: "malformed,trades,2,130,truncated\n",
        },
        Cut {
            last: 230,
            status: 0,
            report: ACCEPTED,
        },
    ],
};

/// The same of the day by its phases.
const SESSION_ORDER_CUTS: CutLogs = CutLogs {
    words: SESSION,
    orders: &DAY_ORDERS,
    trades: &DAY_TRADES,
    which: Which::Orders,
    cuts: &[
        Cut {
            last: 0,
            status: 1,
            report: "rejected,unknown-order,trades,1\nunknown,buy,A,1\n",
        },
        Cut {
            last: 164,
            status: 3,
            report: "malformed,orders,1,0,truncated\n",
        },
        Cut {
            last: 167,
            status: 1,
            report: "rejected,unknown-order,trades,1\nunknown,sell,B,2\n",
        },
        Cut {
            last: 192,
            status: 3,
            report: "malformed,orders,2,167,truncated\n",
        },
        Cut {
            last: 195,
            status: 1,
            report: "rejected,unknown-order,trades,1\nunknown,sell,B,2\n",
        },
        Cut {
            last: 285,
            status: 3,
            report: "malformed,orders,2,195,truncated\n",
        },
        Cut {
            last: 288,
            status: 1,
            report: "rejected,unknown-order,trades,1\nunknown,sell,B,2\n",
        },
        Cut {
            last: 372,
            status: 3,
            report: "malformed,orders,2,288,truncated\n",
        },
        Cut {
            last: 373,
            status: 0,
            report: SESSION_ACCEPTED,
        },
    ],
};

/// Without the trade the bid that the call leaves and the ask meet.
const SESSION_TRADE_CUTS: CutLogs = CutLogs {
    words: SESSION,
    orders: &DAY_ORDERS,
    trades: &DAY_TRADES,
    which: Which::Trades,
    cuts: &[
        Cut {
            last: 0,
            status: 1,
            report: SESSION_SPREAD,
        },
        Cut {
            last: 99,
            status: 3,
            report: "malformed,trades,1,0,truncated\n",
        },
        Cut {
            last: 102,
            status: 1,
            report: "rejected,unpaired,trades,1\n",
        },
        Cut {
            last: 127,
            status: 3,
            report: "malformed,trades,2,102,truncated\n",
        },
        Cut {
            last: 130,
            status: 1,
            report: "rejected,unpaired,trades,1\n",
        },
        Cut {
            last: 229,
            status: 3,
            report: "malformed,trades,2,130,truncated\n",
        },
        Cut {
            last: 230,
            status: 0,
            report: SESSION_ACCEPTED,
        },
    ],
};

#[test]
fn logs_cut_at_every_length(rt: HostRuntime) -> Result<(), Fail> {
    check_cuts(rt.alloc(), &ORDER_CUTS)?;
    check_cuts(rt.alloc(), &TRADE_CUTS)?;
    check_cuts(rt.alloc(), &SESSION_ORDER_CUTS)?;
    Ok(check_cuts(rt.alloc(), &SESSION_TRADE_CUTS)?)
}
