//! The least and the greatest of some limits.
ghost use Rattle.std.specs.Prelude.{◌≡◌};
ghost use Rattle.continuous_picture.specs.Ranges as spec;

use audit_base::numbers::Price;

/// The least and the greatest of some limits.
#[derive(Clone, Copy, Debug, PartialEq, Eq)]
pub struct LimitRange {
    pub low: Price,
    pub high: Price,
}

/// The lesser of two limits.
fn lesser(limit: Price, low: Price) -> Price
    ensures { result ≡ spec.lesser limit low }
{
    if limit < low { limit } else { low }
}

/// The greater of two limits.
fn greater(high: Price, limit: Price) -> Price
    ensures { result ≡ spec.greater high limit }
{
    if high < limit { limit } else { high }
}

/// The range with a limit more, where there is one.
pub(crate) fn with_limit(range: Option<LimitRange>, limit: Option<Price>) -> Option<LimitRange>
    ensures { result ≡ spec.with_limit range limit }
{
    let Some(limit) = limit else {
        return range;
    };
    match range {
        Some(range) => Some(LimitRange {
            low: lesser(limit, range.low),
            high: greater(range.high, limit),
        }),
        None => Some(LimitRange {
            low: limit,
            high: limit,
        }),
    }
}
