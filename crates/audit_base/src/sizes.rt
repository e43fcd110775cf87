//! The greatest sizes of logs and messages, and the byte that ends a FIX field.

/// The greatest number of bytes of a log where no other limit is given, 64 MiB. The greatest limit
/// that may be given is `log_source::limits::LONGEST_READ`.
pub const LONGEST_LOG: usize = 67_108_864;

/// The number of bytes of the longest FIX message body that is read, 1 MiB.
pub const LONGEST_BODY: usize = 1_048_576;

/// The byte that ends each field of a FIX message, of code 1 (FIX 4.4, field syntax).
pub const SOH: u8 = 1;
