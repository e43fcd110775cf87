//! The logs of one small market, and their certificate.
use crate::checks::inputs::{ORDERS, TRADES};

/// Bids at 1, 2 and 3, then asks at 1, 2 and 3, each of 1, in 256 bytes.
pub(crate) const STAIRCASE: [&str; 2] = [
    ORDERS,
    "N,A,b1,20240102-09:00:00,Z,B,1,1,
N,A,b2,20240102-09:00:00,Z,B,1,2,
N,A,b3,20240102-09:00:00,Z,B,1,3,
N,B,s1,20240102-09:00:00,Z,S,1,1,
N,B,s2,20240102-09:00:00,Z,S,1,2,
N,B,s3,20240102-09:00:00,Z,S,1,3,
",
];

/// The bids at 2 and 3 with the asks at 1 and 2, at 2, in 141 bytes.
pub(crate) const TWO_TRADES: [&str; 2] = [
    TRADES,
    "T1,20240102-09:00:01,Z,A,b2,B,s1,1,2
T2,20240102-09:00:01,Z,A,b3,B,s2,1,2
",
];

/// The certificate of the two trades, in 124 bytes.
pub(crate) const CERTIFICATE: &str = "certificate,uniform,Z
bound,1.00000001,2
last,buy,2
last,sell,5
order,1,0
order,2,1
order,3,1
order,4,1
order,5,1
order,6,0
";
