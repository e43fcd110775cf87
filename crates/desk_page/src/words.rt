//! The words of `page`, read by hand: exactly the well-formed words are taken.
ghost use Rattle.std.specs.Prelude.{◌≡◌, ◌≤◌, None, Some, length, map};
ghost use Rattle.std.specs.Prelude.{IfOk, IsErr, IsErrOf, IsSome};
ghost use Rattle.std.specs.String.{string_bytes};
ghost use Rattle.desk_page.specs.Words as spec;

use crate::requests::PageRequest;
use audit_base::faults::NoMemory;
use audit_base::names::Name;
use audit_base::terms::Rule;
use command_words::options::Options;
use command_words::paths::names_logs;
use command_words::requests::WordsFault;
use command_words::word_forms::{is_word, rule_named, symbol_named, word_at};
use desk_words::commands::{form_options_in, named_logs};
use std::alloc::Global;

/// What the words say of rule, symbol and options.
#[derive(Clone, Copy)]
pub(crate) struct PageWords {
    pub(crate) rule: Rule,
    pub(crate) symbol: Name,
    pub(crate) said: Options,
}

/// What the words say of rule, symbol and options, where they are well-formed.
fn page_words(words: &[String]) -> Option<PageWords>
    requires { 5 ≤ length words.now }
    ensures { result ≡ spec.page_words (map string_bytes words.now) }
{
    let rule = rule_named(word_at(words, 1))?;
    let symbol = symbol_named(word_at(words, 2))?;
    let said = form_options_in(&words[5..])?;
    Some(PageWords { rule, symbol, said })
}

/// What the words behind `page` ask for. Takes no memory where they are not well-formed.
fn request_behind(alloc: Global, words: &[String]) -> Result<Option<PageRequest>, NoMemory>
    requires { 5 ≤ length words.now }
    ensures request { IfOk result
        (λ made. made ≡ spec.request_behind (map string_bytes words.now)) }
    ensures memory { IsErr result → IsSome (spec.request_behind (map string_bytes words.now)) }
{
    if !names_logs(words, 3) {
        return Ok(None);
    }
    let Some(asked) = page_words(words) else {
        return Ok(None);
    };
    let logs = named_logs(alloc, words, 3, &asked.said)?;
    Ok(Some(PageRequest {
        rule: asked.rule,
        symbol: asked.symbol,
        logs,
    }))
}

/// What words ask for, if they are well-formed. Takes no memory where they are not.
fn page_request_in(alloc: Global, words: &[String]) -> Result<Option<PageRequest>, NoMemory>
    ensures request { IfOk result
        (λ made. made ≡ spec.page_request_of (map string_bytes words.now)) }
    ensures memory { IsErr result → IsSome (spec.page_request_of (map string_bytes words.now)) }
{
    if words.len() < 5 || !is_word(word_at(words, 0), b"page") {
        return Ok(None);
    }
    request_behind(alloc, words)
}

/// What the words ask for: `page RULE SYMBOL ORDERS TRADES`, and after them, in any order and
/// each at most once, `--orders-form FORM` and `--trades-form FORM`. ORDERS and TRADES are
/// paths, and SYMBOL a name of 1 to 64 bytes that does not begin with `-`. `Usage` comes exactly
/// where the words are not well-formed, and takes no memory. `Memory` comes only where they are,
/// and there was not enough.
pub fn read_page_words(alloc: Global, words: &[String]) -> Result<PageRequest, WordsFault>
    ensures request { IfOk result
        (λ request. spec.page_request_of (map string_bytes words.now) ≡ Some request) }
    ensures usage { IsErrOf result WordsFault.Usage
        → spec.page_request_of (map string_bytes words.now) ≡ None }
    ensures decided { spec.page_request_of (map string_bytes words.now) ≡ None
        → IsErrOf result WordsFault.Usage }
{
    match page_request_in(alloc, words)? {
        Some(request) => Ok(request),
        None => Err(WordsFault::Usage),
    }
}
