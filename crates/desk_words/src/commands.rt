//! The words of each command. The first word names the command. A function gives the request
//! where the words after it are those of its command, and nothing, with no memory taken, where
//! they are not.
ghost use Rattle.std.specs.Prelude.{◌≡◌, ◌+◌, ◌<◌, ◌≤◌, length, map, None, Some, IfOk, IfSome, IsErr, IsSome, IsTrue};
ghost use Rattle.std.specs.String.{string_bytes};
ghost use Rattle.command_words.specs.WordForms.{nth_word};
ghost use Rattle.desk_words.specs.FurtherWords.{checks_fit_rule};
ghost use Rattle.desk_words.specs.WordOrder.{in_order};
ghost use Rattle.desk_words.specs.Words as spec;

use super::dress_words::dress_named;
use super::further_words::checks_fit_rule;
use super::log_words::{desk_convert_request, orders_request};
use super::offence_words::{OffenceOptions, options_under};
use super::options::{DeskOptions, desk_options_in, is_table_or_page};
use super::requests::{DeskRequest, EarlyRequest, NamedLogs, WholeRequest};
use super::word_order::{marked_at, options_before, symbol_behind, words_from};
use audit_base::faults::NoMemory;
use audit_base::names::Name;
use audit_base::terms::Rule;
use command_words::options::{Options, options_in, or_csv};
use command_words::paths::{LogPaths, log_paths, names_logs, path_of};
use command_words::phase_words::phases_named;
use command_words::word_forms::{is_path, is_word, rule_named, word_at};
use std::alloc::Global;

/// The commands, each with a word of its own.
#[derive(Clone, Copy, Debug, PartialEq, Eq)]
pub enum DeskCommand {
    Audit,
    Session,
    Offences,
    Page,
    Digest,
    File,
    FileAll,
    Check,
    Orders,
    Convert,
    Plain,
    Contents,
    Help,
}

/// The command that a word names.
fn desk_command_named(word: &str) -> Option<DeskCommand>
    ensures { result ≡ spec.desk_command_named word.now }
{
    if is_word(word, b"audit") {
        return Some(DeskCommand::Audit);
    }
    if is_word(word, b"session") {
        return Some(DeskCommand::Session);
    }
    if is_word(word, b"offences") {
        return Some(DeskCommand::Offences);
    }
    if is_word(word, b"page") {
        return Some(DeskCommand::Page);
    }
    if is_word(word, b"digest") {
        return Some(DeskCommand::Digest);
    }
    if is_word(word, b"file") {
        return Some(DeskCommand::File);
    }
    if is_word(word, b"file-all") {
        return Some(DeskCommand::FileAll);
    }
    if is_word(word, b"check") {
        return Some(DeskCommand::Check);
    }
    if is_word(word, b"orders") {
        return Some(DeskCommand::Orders);
    }
    if is_word(word, b"convert") {
        return Some(DeskCommand::Convert);
    }
    if is_word(word, b"plain") {
        return Some(DeskCommand::Plain);
    }
    if is_word(word, b"contents") {
        return Some(DeskCommand::Contents);
    }
    if is_word(word, b"help") {
        return Some(DeskCommand::Help);
    }
    None
}

/// The command that the first word names, where there is one.
fn desk_command_in(words: &[String]) -> Option<DeskCommand>
    ensures { result ≡ spec.desk_command_named (nth_word (map string_bytes words.now) 0) }
{
    let first = words.first()?;
    desk_command_named(first.as_str())
}

/// Whether a word names a command whose words another call reads.
fn is_filing_word(word: &str) -> bool
    ensures { result ≡ spec.is_filing_word word.now }
{
    is_word(word, b"file") || is_word(word, b"file-all") || is_word(word, b"check")
}

/// Whether the first of the words is `file`, `file-all` or `check`, whose words `read_desk_words`
/// does not take: those of a call that opens a database.
pub fn asks_filing(words: &[String]) -> bool
    ensures { result ≡ spec.asks_filing (map string_bytes words.now) }
{
    match words.first() {
        Some(first) => is_filing_word(first.as_str()),
        None => false,
    }
}

/// Whether the first of the words is `page`, whose words `read_desk_words` does not take: those of a
/// call that takes the digests of what it reads.
pub fn asks_page(words: &[String]) -> bool
    ensures { result ≡ spec.asks_page (map string_bytes words.now) }
{
    match words.first() {
        Some(first) => is_word(first.as_str(), b"page"),
        None => false,
    }
}

/// ORDERS and TRADES, at an index of the words and after it, with the forms that options give them.
/// Asks for memory for their texts.
pub fn named_logs(
    alloc: Global,
    words: &[String],
    index: usize,
    said: &Options,
) -> Result<NamedLogs, NoMemory>
    requires { index + 1 < length words.now }
    ensures { IfOk result
        (λ logs. logs ≡ spec.named_logs (map string_bytes words.now) index said.now) }
{
    let LogPaths { orders, trades } = log_paths(alloc, words, index)?;
    Ok(NamedLogs {
        orders,
        trades,
        orders_form: or_csv(said.orders_form),
        trades_form: or_csv(said.trades_form),
    })
}

/// RULE, and what the words after all others say as options, `--table` where the rule has one and
/// no page is asked for, and `--resting-price` where the rule is `continuous`.
fn rule_and_options(word: &str, option_words: &[String]) -> Option<(Rule, DeskOptions)>
    ensures options { result ≡ spec.rule_and_options word.now (map string_bytes option_words.now) }
    ensures table { IfSome result
        (λ both. IsTrue (spec.table_fits_rule both.1.common.table both.0)) }
{
    let rule = rule_named(word)?;
    let said = desk_options_in(option_words)?;
    if said.common.table && !rule.has_table() {
        return None;
    }
    if !checks_fit_rule(said.checks, rule) {
        return None;
    }
    if !is_table_or_page(&said) {
        return None;
    }
    Some((rule, said))
}

/// `audit RULE ORDERS TRADES` with its options.
fn desk_audit_request(alloc: Global, words: &[String]) -> Result<Option<DeskRequest>, NoMemory>
    ensures request { IfOk result
        (λ made. made ≡ spec.desk_audit_asked (map string_bytes words.now)) }
    ensures memory { IsErr result → IsSome (spec.desk_audit_asked (map string_bytes words.now)) }
    ensures asked { IfOk result (λ made. IfSome made spec.MayBeAskedOfDesk) }
{
    if words.len() < 4 || !names_logs(words, 2) {
        return Ok(None);
    }
    let Some((rule, said)) = rule_and_options(word_at(words, 1), &words[4..]) else {
        return Ok(None);
    };
    let logs = named_logs(alloc, words, 2, &said.common)?;
    Ok(Some(DeskRequest::Whole(WholeRequest::Audit {
        rule,
        logs,
        table: said.common.table,
        share: said.share,
        checks: said.checks,
        page: said.page,
    })))
}

/// What these words say as options of `session`, unless a price of a resting order is asked for, or
/// both a table and a page.
fn session_options_in(words: &[String]) -> Option<DeskOptions>
    ensures { result ≡ spec.session_options_in (map string_bytes words.now) }
{
    let said = desk_options_in(words)?;
    if said.checks.resting_price || !is_table_or_page(&said) {
        return None;
    }
    Some(said)
}

/// `session PHASES ORDERS TRADES` with its options. The phases are read last, since they take
/// memory where they are well-formed.
fn desk_session_request(alloc: Global, words: &[String]) -> Result<Option<DeskRequest>, NoMemory>
    ensures request { IfOk result
        (λ made. made ≡ spec.desk_session_asked (map string_bytes words.now)) }
    ensures memory { IsErr result
        → IsSome (spec.desk_session_asked (map string_bytes words.now)) }
    ensures asked { IfOk result (λ made. IfSome made spec.MayBeAskedOfDesk) }
{
    if words.len() < 4 || !names_logs(words, 2) {
        return Ok(None);
    }
    let Some(said) = session_options_in(&words[4..]) else {
        return Ok(None);
    };
    let Some(phases) = phases_named(alloc, word_at(words, 1))? else {
        return Ok(None);
    };
    let logs = named_logs(alloc, words, 2, &said.common)?;
    Ok(Some(DeskRequest::Whole(WholeRequest::Session {
        phases,
        logs,
        table: said.common.table,
        share: said.share,
        checks: said.checks,
        page: said.page,
    })))
}

/// What the words of `offences` say of rule, symbol and options.
#[derive(Clone, Copy)]
struct OffenceWords {
    rule: Rule,
    symbol: Name,
    said: OffenceOptions,
}

/// What the words of `offences` say of rule, symbol and options, where they are well-formed. They
/// may stand behind `--`, which is at this index then.
fn offence_words(
    mark: Option<usize>,
    words: &[String],
    option_words: &[String],
) -> Option<OffenceWords>
    requires { 5 ≤ length words.now }
    ensures words { result ≡ spec.offence_words mark (map string_bytes words.now)
        (map string_bytes option_words.now) }
    ensures fit { IfSome result
        (λ asked. IsTrue (checks_fit_rule asked.said.checks asked.rule)) }
{
    let rule = rule_named(word_at(words, 1))?;
    let symbol = symbol_behind(mark, word_at(words, 2))?;
    let said = options_under(rule, option_words)?;
    Some(OffenceWords { rule, symbol, said })
}

/// `offences RULE SYMBOL ORDERS TRADES`, and these words as options.
fn offences_with(
    alloc: Global,
    mark: Option<usize>,
    words: &[String],
    option_words: &[String],
) -> Result<Option<DeskRequest>, NoMemory>
    requires { 5 ≤ length words.now }
    ensures request { IfOk result (λ made. made ≡ spec.offences_with mark
        (map string_bytes words.now) (map string_bytes option_words.now)) }
    ensures memory { IsErr result → IsSome (spec.offences_with mark
        (map string_bytes words.now) (map string_bytes option_words.now)) }
    ensures asked { IfOk result (λ made. IfSome made spec.MayBeAskedOfDesk) }
{
    if !names_logs(words, 3) {
        return Ok(None);
    }
    let Some(asked) = offence_words(mark, words, option_words) else {
        return Ok(None);
    };
    let logs = named_logs(alloc, words, 3, &asked.said.forms)?;
    Ok(Some(DeskRequest::Whole(WholeRequest::Offences {
        rule: asked.rule,
        symbol: asked.symbol,
        logs,
        records: asked.said.records,
        checks: asked.said.checks,
    })))
}

/// `offences OPTIONS -- RULE SYMBOL ORDERS TRADES`, where `--` is at this index.
fn offences_behind(
    alloc: Global,
    words: &[String],
    mark: usize,
) -> Result<Option<DeskRequest>, NoMemory>
    requires first { 1 ≤ mark }
    requires behind { mark + 5 ≡ length words.now }
    ensures request { let ws = map string_bytes words.now in
        IfOk result (λ made. made ≡ spec.offences_asked (Some mark) (in_order (Some mark) ws)) }
    ensures memory { let ws = map string_bytes words.now in
        IsErr result → IsSome (spec.offences_asked (Some mark) (in_order (Some mark) ws)) }
    ensures asked { IfOk result (λ made. IfSome made spec.MayBeAskedOfDesk) }
{
    offences_with(
        alloc,
        Some(mark),
        words_from(words, mark),
        options_before(words, mark),
    )
}

/// `offences RULE SYMBOL ORDERS TRADES` with its options behind them.
fn offences_in_place(alloc: Global, words: &[String]) -> Result<Option<DeskRequest>, NoMemory>
    ensures request { IfOk result
        (λ made. made ≡ spec.offences_asked None (map string_bytes words.now)) }
    ensures memory { IsErr result
        → IsSome (spec.offences_asked None (map string_bytes words.now)) }
    ensures asked { IfOk result (λ made. IfSome made spec.MayBeAskedOfDesk) }
{
    if words.len() < 5 {
        return Ok(None);
    }
    offences_with(alloc, None, words, &words[5..])
}

/// `offences RULE SYMBOL ORDERS TRADES` with its options behind them, or before them and `--`.
fn offences_request(alloc: Global, words: &[String]) -> Result<Option<DeskRequest>, NoMemory>
    ensures request { IfOk result
        (λ made. made ≡ spec.offences_in_order (map string_bytes words.now)) }
    ensures memory { IsErr result
        → IsSome (spec.offences_in_order (map string_bytes words.now)) }
    ensures asked { IfOk result (λ made. IfSome made spec.MayBeAskedOfDesk) }
{
    match marked_at(words, 4) {
        Some(mark) => offences_behind(alloc, words, mark),
        None => offences_in_place(alloc, words),
    }
}

/// `digest ORDERS TRADES`.
fn digest_request(alloc: Global, words: &[String]) -> Result<Option<DeskRequest>, NoMemory>
    ensures request { IfOk result
        (λ made. made ≡ spec.digest_asked (map string_bytes words.now)) }
    ensures memory { IsErr result → IsSome (spec.digest_asked (map string_bytes words.now)) }
    ensures asked { IfOk result (λ made. IfSome made spec.MayBeAskedOfDesk) }
{
    if words.len() != 3 || !names_logs(words, 1) {
        return Ok(None);
    }
    let LogPaths { orders, trades } = log_paths(alloc, words, 1)?;
    Ok(Some(DeskRequest::Whole(WholeRequest::Digest { orders, trades })))
}

/// `plain DAY` with its options.
fn plain_request(alloc: Global, words: &[String]) -> Result<Option<DeskRequest>, NoMemory>
    ensures request { IfOk result
        (λ made. made ≡ spec.plain_asked (map string_bytes words.now)) }
    ensures memory { IsErr result → IsSome (spec.plain_asked (map string_bytes words.now)) }
    ensures asked { IfOk result (λ made. IfSome made spec.MayBeAskedOfDesk) }
{
    if words.len() < 2 || !is_path(word_at(words, 1)) {
        return Ok(None);
    }
    let Some(dress) = dress_named(alloc, &words[2..])? else {
        return Ok(None);
    };
    let day = path_of(alloc, word_at(words, 1))?;
    Ok(Some(DeskRequest::Early(EarlyRequest::Plain { day, dress })))
}

/// What these words say as options, if they say nothing but the forms of the logs.
pub fn form_options_in(words: &[String]) -> Option<Options>
    ensures { result ≡ spec.form_options_in (map string_bytes words.now) }
{
    let said = options_in(words)?;
    if said.table {
        return None;
    }
    Some(said)
}

/// `contents ORDERS TRADES` with its options.
fn contents_request(alloc: Global, words: &[String]) -> Result<Option<DeskRequest>, NoMemory>
    ensures request { IfOk result
        (λ made. made ≡ spec.contents_asked (map string_bytes words.now)) }
    ensures memory { IsErr result → IsSome (spec.contents_asked (map string_bytes words.now)) }
    ensures asked { IfOk result (λ made. IfSome made spec.MayBeAskedOfDesk) }
{
    if words.len() < 3 || !names_logs(words, 1) {
        return Ok(None);
    }
    let Some(said) = form_options_in(&words[3..]) else {
        return Ok(None);
    };
    let logs = named_logs(alloc, words, 1, &said)?;
    Ok(Some(DeskRequest::Whole(WholeRequest::Contents { logs })))
}

/// `help`, or `help COMMAND`. Takes no memory.
fn help_request(words: &[String]) -> Option<DeskRequest>
    ensures request { result ≡ spec.help_asked (map string_bytes words.now) }
    ensures asked { IfSome result spec.MayBeAskedOfDesk }
{
    if words.len() == 1 {
        return Some(DeskRequest::Whole(WholeRequest::Help(None)));
    }
    if words.len() != 2 {
        return None;
    }
    let about = desk_command_named(word_at(words, 1))?;
    Some(DeskRequest::Whole(WholeRequest::Help(Some(about))))
}

/// What a word asks for that is no command and is the only word. Takes no memory.
fn lone_word_request(word: &str) -> Option<DeskRequest>
    ensures request { result ≡ spec.lone_word_asks word.now }
    ensures asked { IfSome result spec.MayBeAskedOfDesk }
{
    if is_word(word, b"--help") {
        return Some(DeskRequest::Whole(WholeRequest::Help(None)));
    }
    if is_word(word, b"--version") {
        return Some(DeskRequest::Whole(WholeRequest::Version));
    }
    None
}

/// What words ask for whose first names no command. Takes no memory.
fn request_without_command(words: &[String]) -> Option<DeskRequest>
    ensures request { result ≡ spec.asked_without_command (map string_bytes words.now) }
    ensures asked { IfSome result spec.MayBeAskedOfDesk }
{
    if words.len() != 1 {
        return None;
    }
    lone_word_request(word_at(words, 0))
}

/// What the words of a command ask for, one arm a command. Those of `page`, `file`, `file-all` and
/// `check` ask for nothing here.
fn desk_request_by(
    alloc: Global,
    command: DeskCommand,
    words: &[String],
) -> Result<Option<DeskRequest>, NoMemory>
    ensures request { IfOk result
        (λ made. made ≡ spec.desk_asked_by command (map string_bytes words.now)) }
    ensures memory { IsErr result
        → IsSome (spec.desk_asked_by command (map string_bytes words.now)) }
    ensures asked { IfOk result (λ made. IfSome made spec.MayBeAskedOfDesk) }
{
    match command {
        DeskCommand::Audit => desk_audit_request(alloc, words),
        DeskCommand::Session => desk_session_request(alloc, words),
        DeskCommand::Offences => offences_request(alloc, words),
        DeskCommand::Digest => digest_request(alloc, words),
        DeskCommand::Page | DeskCommand::File | DeskCommand::FileAll | DeskCommand::Check => Ok(
            None,
        ),
        DeskCommand::Orders => Ok(orders_request(words)),
        DeskCommand::Convert => desk_convert_request(alloc, words),
        DeskCommand::Plain => plain_request(alloc, words),
        DeskCommand::Contents => contents_request(alloc, words),
        DeskCommand::Help => Ok(help_request(words)),
    }
}

/// What words ask for, if they are well-formed.
pub(crate) fn desk_request_in(
    alloc: Global,
    words: &[String],
) -> Result<Option<DeskRequest>, NoMemory>
    ensures request { IfOk result
        (λ made. made ≡ spec.desk_request_of (map string_bytes words.now)) }
    ensures memory { IsErr result → IsSome (spec.desk_request_of (map string_bytes words.now)) }
    ensures asked { IfOk result (λ made. IfSome made spec.MayBeAskedOfDesk) }
{
    match desk_command_in(words) {
        Some(command) => desk_request_by(alloc, command, words),
        None => Ok(request_without_command(words)),
    }
}
