//! A straight axis.
ghost use Rattle.std.specs.Prelude.{◌≡◌, ◌<◌, ◌≤◌, ◌^◌};
ghost use Rattle.page_plots.specs.Axes as spec;
ghost use Rattle.page_plots.specs.Axes.{IsAxis, point_of};

/// A straight axis: numbers lie evenly on it, from its first to its last.
#[derive(Clone, Copy, Debug, PartialEq, Eq)]
pub struct Axis {
    /// The number at its start.
    pub first: u128,
    /// The number at its end, below 2^112.
    pub last: u128,
    /// How long it is on the paper, at most 10,000.
    pub length: u32,
}

/// How far a number is from the start of a whole, in parts of a length.
fn share_of(part: u128, whole: u128, length: u32) -> u32
    requires part { part ≤ whole }
    requires whole { whole < 2 ^ 112 }
    requires length { length ≤ 10000 }
    ensures share { result ≡ spec.share_of part whole length }
    ensures inside { result ≤ length }
{
    if whole == 0 {
        return 0;
    }
    (part * u128::from(length) / whole) as u32
}

impl Axis {
    /// How far from the start of the axis a number lies on the paper: rounded down, at the start
    /// where it is below the first number, and at the end where it is above the last.
    pub fn point(self, number: u128) -> u32
        requires axis { IsAxis self }
        ensures point { result ≡ point_of self number }
        ensures inside { result ≤ self.length }
    {
        if number <= self.first || self.last <= self.first {
            return 0;
        }
        if self.last <= number {
            return self.length;
        }
        share_of(number - self.first, self.last - self.first, self.length)
    }
}
