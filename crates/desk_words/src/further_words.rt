//! The options that ask for a further check.
ghost use Rattle.std.specs.Prelude.{◌≡◌};
ghost use Rattle.desk_words.specs.FurtherWords as spec;

use audit_base::terms::Rule;
use command_words::word_forms::is_word;
use further_checks::findings::FurtherChecks;

/// Whether the word asks for the price of a resting order.
fn is_price_option(word: &str) -> bool
    ensures { result ≡ spec.is_price_option word.now }
{
    is_word(word, b"--resting-price")
}

/// Whether the word asks for one of the two checks.
pub(crate) fn is_check_option(word: &str) -> bool
    ensures { result ≡ spec.is_check_option word.now }
{
    is_price_option(word) || is_word(word, b"--trade-times")
}

/// What is asked for with prices of resting orders too, unless they were asked for before.
fn with_prices(checks: FurtherChecks) -> Option<FurtherChecks>
    ensures { result ≡ spec.with_prices checks }
{
    if checks.resting_price {
        return None;
    }
    Some(FurtherChecks {
        resting_price: true,
        ..checks
    })
}

/// What is asked for with times of trades too, unless they were asked for before.
fn with_times(checks: FurtherChecks) -> Option<FurtherChecks>
    ensures { result ≡ spec.with_times checks }
{
    if checks.trade_times {
        return None;
    }
    Some(FurtherChecks {
        trade_times: true,
        ..checks
    })
}

/// What is asked for with the check that the word asks for too, unless it was asked for before.
pub(crate) fn with_check(word: &str, checks: FurtherChecks) -> Option<FurtherChecks>
    ensures { result ≡ spec.with_check word.now checks }
{
    if is_price_option(word) {
        return with_prices(checks);
    }
    with_times(checks)
}

/// Whether the rule is one that these checks are for.
pub(crate) fn checks_fit_rule(checks: FurtherChecks, rule: Rule) -> bool
    ensures { result ≡ spec.checks_fit_rule checks rule }
{
    !checks.resting_price || rule.call_rule().is_none()
}
