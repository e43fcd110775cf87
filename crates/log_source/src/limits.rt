//! The greatest limit that the reading of a log may be given.

/// The greatest limit on the bytes of a log that a reading may be given, 32 GiB. The length
/// of a log is limited at each reading, by a number up to this. A record has at least nine bytes
/// of its log, so no log of this length has more records than places, which have 32 bits.
pub const LONGEST_READ: u64 = 34_359_738_368;
