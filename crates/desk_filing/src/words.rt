//! The words of `file`, `file-all` and `check`, read by hand: exactly the well-formed words are
//! taken.
ghost use Rattle.std.specs.Prelude.{◌≡◌, ◌+◌, ◌<◌, ◌≤◌, None, Some, drop, length, map};
ghost use Rattle.std.specs.Prelude.{IfOk, IfSome, IsErr, IsErrOf, IsSome};
ghost use Rattle.std.specs.String.{string_bytes};
ghost use Rattle.desk_words.specs.WordOrder.{in_order};
ghost use Rattle.desk_filing.specs.Words as spec;

use crate::requests::{FilingCommand, FilingRequest};
use audit_base::faults::NoMemory;
use audit_base::names::Name;
use command_words::paths::{names_logs, path_of};
use command_words::requests::WordsFault;
use command_words::word_forms::{is_path, is_word, rule_named, symbol_named, word_at};
use desk_words::commands::{form_options_in, named_logs};
use desk_words::word_order::{marked_at, options_before, symbol_behind, words_from};
use std::alloc::Global;

/// The label that the word is.
fn label_named(word: &str) -> Option<Name>
    ensures { result ≡ spec.label_named word.now }
{
    if is_word(word, b"then") {
        return None;
    }
    symbol_named(word)
}

/// The command of `file`, by RULE and SYMBOL, which stand behind DATABASE and LABEL. `--` may stand
/// before all of them, at this index of the words of the command line.
fn file_named(mark: Option<usize>, words: &[String]) -> Option<FilingCommand>
    requires { 7 ≤ length words.now }
    ensures { result ≡ spec.file_named mark (map string_bytes words.now) }
{
    let rule = rule_named(word_at(words, 3))?;
    let symbol = symbol_behind(mark, word_at(words, 4))?;
    Some(FilingCommand::File { rule, symbol })
}

/// `file-all DATABASE LABEL RULE`, and ORDERS and TRADES behind them.
fn file_all_named(words: &[String]) -> Option<FilingCommand>
    ensures named { result ≡ spec.file_all_named (map string_bytes words.now) }
    ensures long { IfSome result (λ command.
        spec.index_of_logs command + 1 < length words.now) }
{
    if words.len() < 6 || !is_word(word_at(words, 0), b"file-all") {
        return None;
    }
    let rule = rule_named(word_at(words, 3))?;
    Some(FilingCommand::FileAll { rule })
}

/// `check DATABASE LABEL`, and ORDERS and TRADES behind them.
fn check_named(words: &[String]) -> Option<FilingCommand>
    ensures named { result ≡ spec.check_named (map string_bytes words.now) }
    ensures long { IfSome result (λ command.
        spec.index_of_logs command + 1 < length words.now) }
{
    if words.len() < 5 || !is_word(word_at(words, 0), b"check") {
        return None;
    }
    Some(FilingCommand::Check)
}

/// The command beside `file` that the words name.
fn other_named(words: &[String]) -> Option<FilingCommand>
    ensures named { result ≡ spec.other_named (map string_bytes words.now) }
    ensures long { IfSome result (λ command.
        spec.index_of_logs command + 1 < length words.now) }
{
    if let Some(command) = file_all_named(words) {
        return Some(command);
    }
    check_named(words)
}

/// The index of ORDERS among the words of a command, from 0.
fn index_of_logs(command: &FilingCommand) -> usize
    ensures index { result ≡ spec.index_of_logs command.now }
    ensures behind_label { 3 ≤ result }
{
    match command {
        FilingCommand::File { .. } => 5,
        FilingCommand::FileAll { .. } => 4,
        FilingCommand::Check => 3,
    }
}

/// The words behind both logs, of which the first is at this index.
fn words_behind(words: &[String], index: usize) -> &[String]
    requires { index + 1 < length words.now }
    ensures { result.now ≡ drop (index + 2) words.now }
{
    &words[index + 2..]
}

/// The request for a command whose logs are at this index, with these words as options. Takes no
/// memory where there is none.
fn request_with(
    alloc: Global,
    command: FilingCommand,
    index: usize,
    words: &[String],
    option_words: &[String],
) -> Result<Option<FilingRequest>, NoMemory>
    requires logs { index + 1 < length words.now }
    requires behind_label { 3 ≤ index }
    ensures request { IfOk result (λ made. made ≡ spec.request_with command index
        (map string_bytes words.now) (map string_bytes option_words.now)) }
    ensures memory { IsErr result → IsSome (spec.request_with command index
        (map string_bytes words.now) (map string_bytes option_words.now)) }
{
    if !is_path(word_at(words, 1)) || !names_logs(words, index) {
        return Ok(None);
    }
    let Some(label) = label_named(word_at(words, 2)) else {
        return Ok(None);
    };
    let Some(said) = form_options_in(option_words) else {
        return Ok(None);
    };
    Ok(Some(FilingRequest {
        command,
        database: path_of(alloc, word_at(words, 1))?,
        label,
        logs: named_logs(alloc, words, index, &said)?,
    }))
}

/// The request for a command whose logs are at this index, and its options behind them.
fn request_for(
    alloc: Global,
    command: FilingCommand,
    index: usize,
    words: &[String],
) -> Result<Option<FilingRequest>, NoMemory>
    requires logs { index + 1 < length words.now }
    requires behind_label { 3 ≤ index }
    ensures request { IfOk result
        (λ made. made ≡ spec.request_for command index (map string_bytes words.now)) }
    ensures memory { IsErr result
        → IsSome (spec.request_for command index (map string_bytes words.now)) }
{
    request_with(alloc, command, index, words, words_behind(words, index))
}

/// `file DATABASE LABEL RULE SYMBOL ORDERS TRADES`, and these words as options.
fn file_with(
    alloc: Global,
    mark: Option<usize>,
    words: &[String],
    option_words: &[String],
) -> Result<Option<FilingRequest>, NoMemory>
    requires { 7 ≤ length words.now }
    ensures request { IfOk result (λ made. made ≡ spec.file_with mark
        (map string_bytes words.now) (map string_bytes option_words.now)) }
    ensures memory { IsErr result → IsSome (spec.file_with mark
        (map string_bytes words.now) (map string_bytes option_words.now)) }
{
    let Some(command) = file_named(mark, words) else {
        return Ok(None);
    };
    request_with(alloc, command, 5, words, option_words)
}

/// `file OPTIONS -- DATABASE LABEL RULE SYMBOL ORDERS TRADES`, where `--` is at this index.
fn file_behind(
    alloc: Global,
    words: &[String],
    mark: usize,
) -> Result<Option<FilingRequest>, NoMemory>
    requires first { 1 ≤ mark }
    requires behind { mark + 7 ≡ length words.now }
    ensures request { let ws = map string_bytes words.now in
        IfOk result (λ made. made ≡ spec.file_asked (Some mark) (in_order (Some mark) ws)) }
    ensures memory { let ws = map string_bytes words.now in
        IsErr result → IsSome (spec.file_asked (Some mark) (in_order (Some mark) ws)) }
{
    file_with(
        alloc,
        Some(mark),
        words_from(words, mark),
        options_before(words, mark),
    )
}

/// `file DATABASE LABEL RULE SYMBOL ORDERS TRADES` with its options behind them.
fn file_in_place(alloc: Global, words: &[String]) -> Result<Option<FilingRequest>, NoMemory>
    ensures request { IfOk result
        (λ made. made ≡ spec.file_asked None (map string_bytes words.now)) }
    ensures memory { IsErr result → IsSome (spec.file_asked None (map string_bytes words.now)) }
{
    if words.len() < 7 {
        return Ok(None);
    }
    file_with(alloc, None, words, &words[7..])
}

/// `file` with its options behind its words, or before them and `--`.
fn file_request(alloc: Global, words: &[String]) -> Result<Option<FilingRequest>, NoMemory>
    ensures request { IfOk result
        (λ made. made ≡ spec.file_in_order (map string_bytes words.now)) }
    ensures memory { IsErr result → IsSome (spec.file_in_order (map string_bytes words.now)) }
{
    match marked_at(words, 6) {
        Some(mark) => file_behind(alloc, words, mark),
        None => file_in_place(alloc, words),
    }
}

/// What the words of `file-all` and `check` ask for.
fn other_request(alloc: Global, words: &[String]) -> Result<Option<FilingRequest>, NoMemory>
    ensures request { IfOk result
        (λ made. made ≡ spec.other_asked (map string_bytes words.now)) }
    ensures memory { IsErr result → IsSome (spec.other_asked (map string_bytes words.now)) }
{
    let Some(command) = other_named(words) else {
        return Ok(None);
    };
    let index = index_of_logs(&command);
    request_for(alloc, command, index, words)
}

/// Whether the first of the words is `file`.
fn asks_file(words: &[String]) -> bool
    ensures { result ≡ spec.asks_file (map string_bytes words.now) }
{
    match words.first() {
        Some(first) => is_word(first.as_str(), b"file"),
        None => false,
    }
}

/// What words ask for, if they are well-formed.
fn filing_request_in(alloc: Global, words: &[String]) -> Result<Option<FilingRequest>, NoMemory>
    ensures request { IfOk result
        (λ made. made ≡ spec.filing_request_of (map string_bytes words.now)) }
    ensures memory { IsErr result → IsSome (spec.filing_request_of (map string_bytes words.now)) }
{
    if asks_file(words) {
        return file_request(alloc, words);
    }
    other_request(alloc, words)
}

/// What the words ask for, one row a command:
///
/// - `file DATABASE LABEL RULE SYMBOL ORDERS TRADES`, whose options may stand before these words
///   too, and `--` behind them;
/// - `file-all DATABASE LABEL RULE ORDERS TRADES`;
/// - `check DATABASE LABEL ORDERS TRADES`;
///
/// and after them, in any order and each at most once, `--orders-form FORM` and `--trades-form
/// FORM`. DATABASE, ORDERS and TRADES are paths, LABEL and SYMBOL names of 1 to 64 bytes that do
/// not begin with `-`, but SYMBOL may behind `--`, and LABEL is not `then`. `Usage` comes exactly
/// where the words are not well-formed, and takes no memory. `Memory` comes only where they are, and
/// there was not enough.
pub fn read_filing_words(alloc: Global, words: &[String]) -> Result<FilingRequest, WordsFault>
    ensures request { IfOk result
        (λ request. spec.filing_request_of (map string_bytes words.now) ≡ Some request) }
    ensures usage { IsErrOf result WordsFault.Usage
        → spec.filing_request_of (map string_bytes words.now) ≡ None }
    ensures decided { spec.filing_request_of (map string_bytes words.now) ≡ None
        → IsErrOf result WordsFault.Usage }
{
    match filing_request_in(alloc, words)? {
        Some(request) => Ok(request),
        None => Err(WordsFault::Usage),
    }
}
