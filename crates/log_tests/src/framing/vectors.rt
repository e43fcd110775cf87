//! The messages of the tests, whose lengths and sums were worked out apart from this code: of
//! FIX 4.4, and last a message of each version and a day of several.

/// A new order: buy 100 at 10.
pub(crate) const M1: &[u8] =
    b"8=FIX.4.4\x019=64\x0135=D\x0149=A\x0111=1\x0160=20240102-09:00:00\x0155=Z\x0154=1\x0138=100\x0140=2\x0144=10\x0110=145\x01";

/// A new order: sell 100 at 9.
pub(crate) const M2: &[u8] =
    b"8=FIX.4.4\x019=63\x0135=D\x0149=B\x0111=2\x0160=20240102-09:00:01\x0155=Z\x0154=2\x0138=100\x0140=2\x0144=9\x0110=108\x01";

/// A market order with the key of `M1`.
pub(crate) const M3: &[u8] =
    b"8=FIX.4.4\x019=64\x0135=D\x0149=A\x0111=1\x0160=20240102-09:00:00\x0155=Z\x0154=1\x0138=100\x0140=1\x0144=10\x0110=144\x01";

/// A limit order without a price.
pub(crate) const M4: &[u8] =
    b"8=FIX.4.4\x019=58\x0135=D\x0149=A\x0111=1\x0160=20240102-09:00:00\x0155=Z\x0154=1\x0138=100\x0140=2\x0110=141\x01";

/// A heartbeat.
pub(crate) const H: &[u8] = b"8=FIX.4.4\x019=5\x0135=0\x0110=163\x01";

/// A copy of `M1`, marked as a possible duplicate.
pub(crate) const Q: &[u8] =
    b"8=FIX.4.4\x019=69\x0135=D\x0143=Y\x0149=A\x0111=1\x0160=20240102-09:00:00\x0155=Z\x0154=1\x0138=100\x0140=2\x0144=10\x0110=148\x01";

/// The order of `M1`, with a header and a repeating group.
pub(crate) const P: &[u8] =
    b"8=FIX.4.4\x019=142\x0135=D\x0134=2\x0149=A\x0152=20240102-09:00:00\x0156=X\x0111=1\x01453=2\x01448=P\x01447=D\x01452=1\x01448=Q\x01447=D\x01452=3\x0155=Z\x0154=1\x0138=100\x0140=2\x0144=10\x0159=0\x0160=20240102-09:00:00\x0110=045\x01";

/// The buyer's report of a trade.
pub(crate) const R1: &[u8] =
    b"8=FIX.4.4\x019=78\x0135=8\x0149=X\x0156=A\x0111=1\x01150=F\x01527=T1\x0155=Z\x0154=1\x0132=100\x0131=9.5\x0160=20240102-09:00:02\x0110=101\x01";

/// The seller's report of the same trade.
pub(crate) const R2: &[u8] =
    b"8=FIX.4.4\x019=78\x0135=8\x0149=X\x0156=B\x0111=2\x01150=F\x01527=T1\x0155=Z\x0154=2\x0132=100\x0131=9.5\x0160=20240102-09:00:02\x0110=104\x01";

/// `M1` and `M2`.
pub(crate) const TWO_ORDERS: &[u8] =
    b"8=FIX.4.4\x019=64\x0135=D\x0149=A\x0111=1\x0160=20240102-09:00:00\x0155=Z\x0154=1\x0138=100\x0140=2\x0144=10\x0110=145\x018=FIX.4.4\x019=63\x0135=D\x0149=B\x0111=2\x0160=20240102-09:00:01\x0155=Z\x0154=2\x0138=100\x0140=2\x0144=9\x0110=108\x01";

/// `P`, `H`, `Q` and `M2` with CR and LF between them.
pub(crate) const DAY: &[u8] =
    b"8=FIX.4.4\x019=142\x0135=D\x0134=2\x0149=A\x0152=20240102-09:00:00\x0156=X\x0111=1\x01453=2\x01448=P\x01447=D\x01452=1\x01448=Q\x01447=D\x01452=3\x0155=Z\x0154=1\x0138=100\x0140=2\x0144=10\x0159=0\x0160=20240102-09:00:00\x0110=045\x01\r\n8=FIX.4.4\x019=5\x0135=0\x0110=163\x01\r\n8=FIX.4.4\x019=69\x0135=D\x0143=Y\x0149=A\x0111=1\x0160=20240102-09:00:00\x0155=Z\x0154=1\x0138=100\x0140=2\x0144=10\x0110=148\x01\r\n8=FIX.4.4\x019=63\x0135=D\x0149=B\x0111=2\x0160=20240102-09:00:01\x0155=Z\x0154=2\x0138=100\x0140=2\x0144=9\x0110=108\x01";

/// A heartbeat of each version, and where its body begins.
pub(crate) const HEARTBEATS: [(&[u8], usize); 6] = [
    (b"8=FIX.4.0\x019=5\x0135=0\x0110=159\x01", 14),
    (b"8=FIX.4.1\x019=5\x0135=0\x0110=160\x01", 14),
    (b"8=FIX.4.2\x019=5\x0135=0\x0110=161\x01", 14),
    (b"8=FIX.4.3\x019=5\x0135=0\x0110=162\x01", 14),
    (H, 14),
    (b"8=FIXT.1.1\x019=5\x0135=0\x0110=241\x01", 15),
];

/// A heartbeat of FIX 4.2, a test request of FIXT 1.1, a heartbeat of FIX 4.4 and one of FIXT 1.1,
/// with CR and LF between them.
pub(crate) const MIXED_DAY: &[u8] =
    b"8=FIX.4.2\x019=5\x0135=0\x0110=161\x01\r\n8=FIXT.1.1\x019=14\x0135=1\x01112=TEST\x0110=052\x01\r\n8=FIX.4.4\x019=5\x0135=0\x0110=163\x01\r\n8=FIXT.1.1\x019=5\x0135=0\x0110=241\x01";
