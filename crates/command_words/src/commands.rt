//! The words of each command. The first word names the command. A function gives the request
//! where the words after it are those of its command, and nothing, with no memory taken, where
//! they are not.
ghost use Rattle.std.specs.Prelude.{◌≡◌, ◌≤◌, length, map, IfOk, IfSome, IsErr, IsSome, IsTrue};
ghost use Rattle.audit_base.specs.RuleKinds.{asks_for_greatest, has_table};
ghost use Rattle.std.specs.String.{string_bytes};
ghost use Rattle.command_words.specs.WordForms.{nth_word};
ghost use Rattle.command_words.specs.Words as spec;

use super::options::{Options, options_in, or_csv};
use super::paths::{LogPaths, log_paths, names_logs, path_of};
use super::phase_words::phases_named;
use super::requests::Request;
use super::word_forms::{
    form_named, is_path, is_word, log_named, number_upto, rule_named, symbol_named, word_at,
};
use audit_base::faults::NoMemory;
use audit_base::names::Name;
use audit_base::terms::Rule;
use std::alloc::Global;

/// The commands, each with a word of its own.
#[derive(Clone, Copy)]
pub(crate) enum Command {
    Audit,
    Expect,
    Convert,
    Generate,
    Certify,
    Verify,
    Session,
}

/// The command that a word names.
fn command_named(word: &str) -> Option<Command>
    ensures { result ≡ spec.command_named word.now }
{
    if is_word(word, b"audit") {
        return Some(Command::Audit);
    }
    if is_word(word, b"expect") {
        return Some(Command::Expect);
    }
    if is_word(word, b"convert") {
        return Some(Command::Convert);
    }
    if is_word(word, b"generate") {
        return Some(Command::Generate);
    }
    if is_word(word, b"certify") {
        return Some(Command::Certify);
    }
    if is_word(word, b"verify") {
        return Some(Command::Verify);
    }
    if is_word(word, b"session") {
        return Some(Command::Session);
    }
    None
}

/// The command that the first word names, where there is one.
pub(crate) fn command_in(words: &[String]) -> Option<Command>
    ensures { result ≡ spec.command_named (nth_word (map string_bytes words.now) 0) }
{
    let first = words.first()?;
    command_named(first.as_str())
}

/// The symbol that a word is, and what the words after all others say as options.
fn symbol_and_options(word: &str, option_words: &[String]) -> Option<(Name, Options)>
    ensures { result ≡ spec.symbol_and_options word.now (map string_bytes option_words.now) }
{
    let symbol = symbol_named(word)?;
    let options = options_in(option_words)?;
    Some((symbol, options))
}

/// RULE and SYMBOL of a command, with its options.
#[derive(Clone, Copy)]
struct RuleWords {
    rule: Rule,
    symbol: Name,
    options: Options,
}

/// RULE and SYMBOL after the command, and what the words after all others say as options.
fn rule_words(words: &[String], option_words: &[String]) -> Option<RuleWords>
    requires { 3 ≤ length words.now }
    ensures { result
        ≡ spec.rule_words (map string_bytes words.now) (map string_bytes option_words.now) }
{
    let rule = rule_named(word_at(words, 1))?;
    let (symbol, options) = symbol_and_options(word_at(words, 2), option_words)?;
    Some(RuleWords {
        rule,
        symbol,
        options,
    })
}

/// What `audit` says of rule, symbol and options.
fn audit_words(words: &[String]) -> Option<RuleWords>
    requires { 5 ≤ length words.now }
    ensures { result ≡ spec.audit_words (map string_bytes words.now) }
{
    let said = rule_words(words, &words[5..])?;
    if said.options.table && !said.rule.has_table() {
        return None;
    }
    Some(said)
}

/// `audit RULE SYMBOL ORDERS TRADES` with its options.
fn audit_request(alloc: Global, words: &[String]) -> Result<Option<Request>, NoMemory>
    ensures request { IfOk result (λ made. made ≡ spec.audit_asked (map string_bytes words.now)) }
    ensures memory { IsErr result → IsSome (spec.audit_asked (map string_bytes words.now)) }
    ensures asked { IfOk result (λ made. IfSome made spec.MayBeAsked) }
{
    if words.len() < 5 || !names_logs(words, 3) {
        return Ok(None);
    }
    let Some(said) = audit_words(words) else {
        return Ok(None);
    };
    let LogPaths { orders, trades } = log_paths(alloc, words, 3)?;
    Ok(Some(Request::Audit {
        rule: said.rule,
        symbol: said.symbol,
        orders,
        trades,
        orders_form: or_csv(said.options.orders_form),
        trades_form: or_csv(said.options.trades_form),
        table: said.options.table,
    }))
}

/// What `expect` says of rule, symbol and options.
fn expect_words(words: &[String]) -> Option<RuleWords>
    requires { 4 ≤ length words.now }
    ensures words { result ≡ spec.expect_words (map string_bytes words.now) }
    ensures asked { IfSome result (λ said. IsTrue (has_table said.rule)) }
{
    let said = rule_words(words, &words[4..])?;
    if !said.rule.has_table() || said.options.trades_form.is_some() || said.options.table {
        return None;
    }
    Some(said)
}

/// `expect RULE SYMBOL ORDERS` with its option.
fn expect_request(alloc: Global, words: &[String]) -> Result<Option<Request>, NoMemory>
    ensures request { IfOk result (λ made. made ≡ spec.expect_asked (map string_bytes words.now)) }
    ensures memory { IsErr result → IsSome (spec.expect_asked (map string_bytes words.now)) }
    ensures asked { IfOk result (λ made. IfSome made spec.MayBeAsked) }
{
    if words.len() < 4 || !is_path(word_at(words, 3)) {
        return Ok(None);
    }
    let Some(said) = expect_words(words) else {
        return Ok(None);
    };
    let orders = path_of(alloc, word_at(words, 3))?;
    Ok(Some(Request::Expect {
        rule: said.rule,
        symbol: said.symbol,
        orders,
        orders_form: or_csv(said.options.orders_form),
    }))
}

/// `convert orders|trades FORM PATH`.
fn convert_request(alloc: Global, words: &[String]) -> Result<Option<Request>, NoMemory>
    ensures request { IfOk result (λ made. made ≡ spec.convert_asked (map string_bytes words.now)) }
    ensures memory { IsErr result → IsSome (spec.convert_asked (map string_bytes words.now)) }
    ensures asked { IfOk result (λ made. IfSome made spec.MayBeAsked) }
{
    if words.len() != 4 || !is_path(word_at(words, 3)) {
        return Ok(None);
    }
    let Some(log) = log_named(word_at(words, 1)) else {
        return Ok(None);
    };
    let Some(form) = form_named(word_at(words, 2)) else {
        return Ok(None);
    };
    let path = path_of(alloc, word_at(words, 3))?;
    Ok(Some(Request::Convert { log, form, path }))
}

/// `generate START COUNT`. Takes no memory.
fn generate_request(words: &[String]) -> Option<Request>
    ensures request { result ≡ spec.generate_asked (map string_bytes words.now) }
    ensures asked { IfSome result spec.MayBeAsked }
{
    if words.len() != 3 {
        return None;
    }
    let start = number_upto(word_at(words, 1), 2_147_483_646)?;
    let count = number_upto(word_at(words, 2), 1_000_000)?;
    Some(Request::Generate { start, count })
}

/// What `certify` says of rule, symbol and options.
fn certify_words(words: &[String]) -> Option<RuleWords>
    requires { 5 ≤ length words.now }
    ensures words { result ≡ spec.certify_words (map string_bytes words.now) }
    ensures asked { IfSome result (λ said. IsTrue (asks_for_greatest said.rule)) }
{
    let said = rule_words(words, &words[5..])?;
    if !said.rule.asks_for_greatest() || said.options.table {
        return None;
    }
    Some(said)
}

/// `certify RULE SYMBOL ORDERS TRADES` with its options.
fn certify_request(alloc: Global, words: &[String]) -> Result<Option<Request>, NoMemory>
    ensures request { IfOk result (λ made. made ≡ spec.certify_asked (map string_bytes words.now)) }
    ensures memory { IsErr result → IsSome (spec.certify_asked (map string_bytes words.now)) }
    ensures asked { IfOk result (λ made. IfSome made spec.MayBeAsked) }
{
    if words.len() < 5 || !names_logs(words, 3) {
        return Ok(None);
    }
    let Some(said) = certify_words(words) else {
        return Ok(None);
    };
    let LogPaths { orders, trades } = log_paths(alloc, words, 3)?;
    Ok(Some(Request::Certify {
        rule: said.rule,
        symbol: said.symbol,
        orders,
        trades,
        orders_form: or_csv(said.options.orders_form),
        trades_form: or_csv(said.options.trades_form),
    }))
}

/// What `verify` says of symbol and options.
fn verify_words(words: &[String]) -> Option<(Name, Options)>
    requires { 5 ≤ length words.now }
    ensures { result ≡ spec.verify_words (map string_bytes words.now) }
{
    let (symbol, options) = symbol_and_options(word_at(words, 1), &words[5..])?;
    if options.table {
        return None;
    }
    Some((symbol, options))
}

/// `verify SYMBOL ORDERS TRADES CERTIFICATE` with its options.
fn verify_request(alloc: Global, words: &[String]) -> Result<Option<Request>, NoMemory>
    ensures request { IfOk result (λ made. made ≡ spec.verify_asked (map string_bytes words.now)) }
    ensures memory { IsErr result → IsSome (spec.verify_asked (map string_bytes words.now)) }
    ensures asked { IfOk result (λ made. IfSome made spec.MayBeAsked) }
{
    if words.len() < 5 || !names_logs(words, 2) || !is_path(word_at(words, 4)) {
        return Ok(None);
    }
    let Some((symbol, options)) = verify_words(words) else {
        return Ok(None);
    };
    let LogPaths { orders, trades } = log_paths(alloc, words, 2)?;
    let certificate = path_of(alloc, word_at(words, 4))?;
    Ok(Some(Request::Verify {
        symbol,
        orders,
        trades,
        certificate,
        orders_form: or_csv(options.orders_form),
        trades_form: or_csv(options.trades_form),
    }))
}

/// `session SYMBOL PHASES ORDERS TRADES` with its options. The phases are read last, since they
/// take memory where they are well-formed.
fn session_request(alloc: Global, words: &[String]) -> Result<Option<Request>, NoMemory>
    ensures request { IfOk result (λ made. made ≡ spec.session_asked (map string_bytes words.now)) }
    ensures memory { IsErr result → IsSome (spec.session_asked (map string_bytes words.now)) }
    ensures asked { IfOk result (λ made. IfSome made spec.MayBeAsked) }
{
    if words.len() < 5 || !names_logs(words, 3) {
        return Ok(None);
    }
    let Some((symbol, options)) = symbol_and_options(word_at(words, 1), &words[5..]) else {
        return Ok(None);
    };
    let Some(phases) = phases_named(alloc, word_at(words, 2))? else {
        return Ok(None);
    };
    let LogPaths { orders, trades } = log_paths(alloc, words, 3)?;
    Ok(Some(Request::Session {
        symbol,
        phases,
        orders,
        trades,
        orders_form: or_csv(options.orders_form),
        trades_form: or_csv(options.trades_form),
        table: options.table,
    }))
}

/// What the words of a command ask for, one arm a command.
pub(crate) fn request_by(
    alloc: Global,
    command: Command,
    words: &[String],
) -> Result<Option<Request>, NoMemory>
    ensures request { IfOk result
        (λ made. made ≡ spec.asked_by command (map string_bytes words.now)) }
    ensures memory { IsErr result → IsSome (spec.asked_by command (map string_bytes words.now)) }
    ensures asked { IfOk result (λ made. IfSome made spec.MayBeAsked) }
{
    match command {
        Command::Audit => audit_request(alloc, words),
        Command::Expect => expect_request(alloc, words),
        Command::Convert => convert_request(alloc, words),
        Command::Generate => Ok(generate_request(words)),
        Command::Certify => certify_request(alloc, words),
        Command::Verify => verify_request(alloc, words),
        Command::Session => session_request(alloc, words),
    }
}
