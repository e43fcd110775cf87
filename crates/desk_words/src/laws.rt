//! The law of the words of `desk`, apart from the code. Nothing is computed here: a law is a
//! function's contract, so that the check proves it.
ghost use Rattle.desk_words.specs.WordOrder.{UnmarkedWordsStay};

/// Words without `--` are read as they stand.
pub fn unmarked_words_stay()
    ensures { UnmarkedWordsStay }
{}
