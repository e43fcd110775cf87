//! From when to when some records are.
ghost use Rattle.std.specs.Prelude.{◌≡◌, ◌∷◌, ◌++◌, [], List};
ghost use Rattle.audit_base.specs.Moments.{Moment};
ghost use Rattle.log_contents.specs.Facts.{AreWithin, IsSpanOf, earlier_of, later_of};

use audit_base::stamps::Stamp;

/// The least and the greatest of some times.
#[derive(Clone, Copy, Debug, PartialEq, Eq)]
pub struct TimeSpan {
    pub first: Stamp,
    pub last: Stamp,
}

/// The earlier of two times.
fn earlier(kept: Stamp, time: Stamp) -> Stamp
    ensures { result ≡ earlier_of kept time }
{
    if time.is_before(kept) { time } else { kept }
}

/// The later of two times.
fn later(kept: Stamp, time: Stamp) -> Stamp
    ensures { result ≡ later_of kept time }
{
    if kept.is_before(time) { time } else { kept }
}

/// The span with one more time.
fn widened(span: TimeSpan, time: Stamp) -> TimeSpan
    ensures { (times : List Moment) → IsSpanOf times span
        → IsSpanOf (times ++ time ∷ []) result }
{
    TimeSpan {
        first: earlier(span.first, time),
        last: later(span.last, time),
    }
}

/// The span of one time.
fn span_of(time: Stamp) -> TimeSpan
    ensures { IsSpanOf (time ∷ []) result }
{
    TimeSpan {
        first: time,
        last: time,
    }
}

/// The span of some times and one more, where there may have been none.
pub(crate) fn span_with(span: Option<TimeSpan>, time: Stamp) -> TimeSpan
    ensures { (times : List Moment) → AreWithin times span
        → IsSpanOf (times ++ time ∷ []) result }
{
    match span {
        Some(span) => widened(span, time),
        None => span_of(time),
    }
}
