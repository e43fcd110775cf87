//! The share of a day that a word gives, as K/N.
ghost use Rattle.std.specs.Prelude.{◌≡◌, option_map};
ghost use Rattle.command_words.specs.PhaseWords.{cut_at};
ghost use Rattle.desk_words.specs.ShareWords as spec;

use command_words::word_forms::unpadded_number;
use day_symbols::shares::{DayShare, MOST_SHARES};

/// The text before its first `/`, and the text after it.
fn cut_at_slash(text: &str) -> Option<(&str, &str)>
    ensures { option_map (λ cut. (cut.0.now, cut.1.now)) result ≡ cut_at spec.is_slash text.now }
{
    text.split_once('/')
}

/// The share that the word gives: K/N, two decimal numbers without leading zeros, where K is
/// from 1 to N, and N at most 65,536.
pub(crate) fn share_named(word: &str) -> Option<DayShare>
    ensures { result ≡ spec.share_named word.now }
{
    let (number, count) = cut_at_slash(word)?;
    let number = unpadded_number(number, MOST_SHARES)?;
    let count = unpadded_number(count, MOST_SHARES)?;
    DayShare::of(number, count)
}
