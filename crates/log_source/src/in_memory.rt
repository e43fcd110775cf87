//! What the shelves and the sink in memory share: the calls that are to fail,
//! and a piece of known bytes.
ghost use Rattle.std.specs.Prelude.{◌≡◌, length, min, take};
ghost use Rattle.log_source.specs.Calls as calls;

/// Whether the call of this number is to fail.
pub(crate) fn is_failing_number(number: u64, fails: &[u32]) -> bool
    ensures { result ≡ calls.is_failing_number number fails.now }
{
    fails.iter().any(|fail| u64::from(*fail) == number)
}

/// Copies the front of `rest` to the front of `buf`, at most `piece` bytes, and answers how many.
pub(crate) fn copy_piece(rest: &[u8], piece: usize, buf: &mut [u8]) -> usize
    ensures count { result ≡ min piece (min (length rest.now) (length buf.old)) }
    ensures front { take result buf.new ≡ take result rest.now }
{
    let count = piece.min(rest.len().min(buf.len()));
    buf[..count].copy_from_slice(&rest[..count]);
    count
}
