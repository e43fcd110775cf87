//! Reading one point in time after another. In a log most lie in the second of the one before.
ghost use Rattle.std.specs.Prelude.{◌≡◌, ◌<◌, ◌^◌, IfSome, Some, length};
ghost use Rattle.audit_base.specs.Moments.{end_of_time};
ghost use Rattle.audit_base.specs.Stamps as form;

use super::stamps::{Stamp, read_fraction, read_stamp};

/// The point in time of a fraction of a second.
fn stamp_in_second(second: u64, nano: Option<u64>) -> Option<Stamp>
    requires second { second < end_of_time }
    requires nano { IfSome nano (λ n. n < 10 ^ 9) }
    ensures { result ≡ form.with_fraction (Some (record { second = second; nano = 0 })) nano }
{
    Some(Stamp {
        second,
        nano: nano? as u32,
    })
}

/// A date and a clock as an array.
fn clock_of(text: &[u8]) -> [u8; 17]
    requires { length text.now ≡ 17 }
    ensures { result ≡ text.now }
{
    let mut clock = [0; 17];
    clock.copy_from_slice(text);
    clock
}

/// A reader of points in time. It keeps the text of the last date and clock that it read,
/// and the second that they write, so that a text with the same ones is read from its fraction on.
#[derive(Clone, Copy)]
pub struct StampReader {
    clock: [u8; 17],
    second: u64,
    ghost in_range: { second < end_of_time },
    ghost written: { form.stamp_form clock ≡ Some (record { second = second; nano = 0 }) },
}

impl StampReader {
    /// A reader that has read nothing, and so keeps the first second that there is.
    pub fn new() -> StampReader {
        StampReader {
            clock: *b"00000101-00:00:00",
            second: 0,
        }
    }

    /// The point in time that a text writes, as `read_stamp` reads it.
    /// None exactly where the text is not in its form.
    pub fn read(&mut self, text: &[u8]) -> Option<Stamp>
        ensures { result ≡ form.stamp_form text.now }
    {
        if text.len() < 17 {
            return None;
        }
        let (clock, fraction) = text.split_at(17);
        if clock == self.clock.as_slice() {
            return stamp_in_second(self.second, read_fraction(fraction));
        }
        let stamp = read_stamp(text)?;
        *self = StampReader {
            clock: clock_of(clock),
            second: stamp.second,
        };
        Some(stamp)
    }
}
