//! Round numbers: 1, 2 or 5 times a power of ten.
ghost use Rattle.std.specs.Prelude.{◌<◌, ◌≤◌, ◌+◌, ◌*◌, ◌^◌};
ghost use Rattle.page_plots.specs.Rounds.{IsLeastRound};
ghost use Rattle.page_plots.specs.SoFar.{IsLeastPower};

/// The least power of ten that `most` times five times reach the span.
fn least_power(span: u128, most: u128) -> u128
    requires span { span < 2 ^ 112 }
    requires some { 0 < most }
    requires few { most ≤ 1000 }
    ensures least { IsLeastPower span most result }
    ensures bounded { result ≤ 10 * span + 1 }
{
    let mut power: u128 = 1;
    while most * 5 * power < span {
        power *= 10;
    }
    power
}

/// The least round number that reaches the span in at most so many steps, so that an axis has at
/// most one mark more than these. The span is below 2^112, and the steps are from 1 to 1,000.
pub fn round_step(span: u128, most: u128) -> u128
    requires span { span < 2 ^ 112 }
    requires some { 0 < most }
    requires few { most ≤ 1000 }
    ensures { IsLeastRound span most result }
{
    let power = least_power(span, most);
    if span <= most * power {
        power
    } else if span <= most * 2 * power {
        2 * power
    } else {
        5 * power
    }
}
