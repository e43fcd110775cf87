//! The line ends between messages. A FIX log holds messages, and before, between and after them any
//! number of CR and LF bytes, which mean nothing.
ghost use Rattle.std.specs.Prelude.{◌≡◌, ◌<◌, ◌≤◌, false, length, drop, slice_index, IsTrue};
ghost use Rattle.std.specs.List.{slice_range, list_all};
ghost use Rattle.fix_framing.specs.Breaks.{is_line_end_byte, after_breaks};

/// Whether the byte is CR or LF.
fn is_line_end(byte: u8) -> bool
    ensures { result ≡ is_line_end_byte byte }
{
    byte == b'\r' || byte == b'\n'
}

/// The least place from `at` on whose byte is neither CR nor LF, or the length where there is none.
pub fn skip_breaks(bytes: &[u8], at: usize) -> usize
    requires { at ≤ length bytes.now }
    ensures low { at ≤ result }
    ensures high { result ≤ length bytes.now }
    ensures passed { IsTrue (list_all is_line_end_byte (slice_range bytes.now at result)) }
    ensures stops { result < length bytes.now
        → is_line_end_byte (slice_index bytes.now result) ≡ false }
    ensures rest { drop result bytes.now ≡ after_breaks (drop at bytes.now) }
{
    let mut place = at;
    while place < bytes.len() && is_line_end(bytes[place]) {
        place += 1;
    }
    place
}
