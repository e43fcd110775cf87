//! Messages of FIX logs, with `|` in the place of SOH.
/// Firm A bids for 100 at 10.
pub(crate) const BID: &str =
    "8=FIX.4.4|9=64|35=D|49=A|11=1|60=20240102-09:00:00|55=Z|54=1|38=100|40=2|44=10|10=145|";

/// Firm B asks 9 for 100, a second later.
pub(crate) const ASK: &str =
    "8=FIX.4.4|9=63|35=D|49=B|11=2|60=20240102-09:00:01|55=Z|54=2|38=100|40=2|44=9|10=108|";

/// The bid without its price.
pub(crate) const NO_PRICE: &str =
    "8=FIX.4.4|9=58|35=D|49=A|11=1|60=20240102-09:00:00|55=Z|54=1|38=100|40=2|10=141|";

/// A heartbeat, which is passed over.
pub(crate) const HEARTBEAT: &str = "8=FIX.4.4|9=5|35=0|10=163|";

/// The bid again, as a possible duplicate, which is passed over.
pub(crate) const COPY: &str =
    "8=FIX.4.4|9=69|35=D|43=Y|49=A|11=1|60=20240102-09:00:00|55=Z|54=1|38=100|40=2|44=10|10=148|";

/// The bid with fields that are ignored.
pub(crate) const FULL_BID: &str =
    "8=FIX.4.4|9=142|35=D|34=2|49=A|52=20240102-09:00:00|56=X|11=1|453=2|448=P|447=D|452=1|448=Q|447=D|452=3|55=Z|54=1|38=100|40=2|44=10|59=0|60=20240102-09:00:00|10=045|";

/// The report to the buyer of a trade of 100 at 9.5.
pub(crate) const BUY: &str =
    "8=FIX.4.4|9=78|35=8|49=X|56=A|11=1|150=F|527=T1|55=Z|54=1|32=100|31=9.5|60=20240102-09:00:02|10=101|";

/// The report to its seller.
pub(crate) const SELL: &str =
    "8=FIX.4.4|9=78|35=8|49=X|56=B|11=2|150=F|527=T1|55=Z|54=2|32=100|31=9.5|60=20240102-09:00:02|10=104|";

/// A line end between messages.
pub(crate) const BREAK: &str = "\r\n";

/// The words of an audit of two FIX logs.
pub(crate) const MATCHING: &str =
    "audit matching Z orders trades --orders-form fix --trades-form fix";

/// The order log of a day, of 373 bytes.
pub(crate) const DAY_ORDERS: [&str; 7] = [FULL_BID, BREAK, HEARTBEAT, BREAK, COPY, BREAK, ASK];

/// The trade log of the day, of 230 bytes.
pub(crate) const DAY_TRADES: [&str; 5] = [BUY, BREAK, HEARTBEAT, BREAK, SELL];

/// The report on the day.
pub(crate) const ACCEPTED: &str = "accepted,matching,Z\ntotals,2,1,100\n";

/// The words of a day of two phases, the bid alone in a call and then continuous trading, over
/// two FIX logs.
pub(crate) const SESSION: &str =
    "session Z uniform@1,continuous@2 orders trades --orders-form fix --trades-form fix --table";

/// The report on the day by its phases: the ask meets the bid that the call leaves.
pub(crate) const SESSION_ACCEPTED: &str = "session,Z,uniform@1,continuous@2
totals,2,1,100
order,1,100
order,2,100
";

/// The report on the day without its trade.
pub(crate) const SESSION_SPREAD: &str = "rejected,spread,orders,2
order,1,buy,A,1,100,10,0
order,2,sell,B,2,100,9,0
";
