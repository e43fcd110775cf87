//! The words of the commands that write logs: `orders`, which generates one, and `convert`.
ghost use Rattle.std.specs.Prelude.{◌≡◌, map, IfOk, IfSome, IsErr, IsSome};
ghost use Rattle.std.specs.String.{string_bytes};
ghost use Rattle.desk_words.specs.LogWords as spec;
ghost use Rattle.desk_words.specs.Words.{MayBeAskedOfDesk};

use super::requests::{DeskRequest, EarlyRequest, WholeRequest};
use audit_base::faults::NoMemory;
use audit_base::terms::Form;
use command_words::paths::path_of;
use command_words::word_forms::{form_named, is_path, is_word, log_named, number_upto, word_at};
use std::alloc::Global;

/// The form that a log is to be written in, by the words after all others.
fn form_option_in(words: &[String]) -> Option<Form>
    ensures { result ≡ spec.form_option_in (map string_bytes words.now) }
{
    if words.is_empty() {
        return Some(Form::Csv);
    }
    if words.len() != 2 || !is_word(word_at(words, 0), b"--form") {
        return None;
    }
    form_named(word_at(words, 1))
}

/// `orders START COUNT` with its option. Takes no memory.
pub(crate) fn orders_request(words: &[String]) -> Option<DeskRequest>
    ensures request { result ≡ spec.orders_asked (map string_bytes words.now) }
    ensures asked { IfSome result MayBeAskedOfDesk }
{
    if words.len() < 3 {
        return None;
    }
    let start = number_upto(word_at(words, 1), 2_147_483_646)?;
    let count = number_upto(word_at(words, 2), 1_000_000)?;
    let form = form_option_in(&words[3..])?;
    Some(DeskRequest::Early(EarlyRequest::Orders { start, count, form }))
}

/// `convert LOG FORM PATH FORM`.
pub(crate) fn desk_convert_request(
    alloc: Global,
    words: &[String],
) -> Result<Option<DeskRequest>, NoMemory>
    ensures request { IfOk result
        (λ made. made ≡ spec.desk_convert_asked (map string_bytes words.now)) }
    ensures memory { IsErr result
        → IsSome (spec.desk_convert_asked (map string_bytes words.now)) }
    ensures asked { IfOk result (λ made. IfSome made MayBeAskedOfDesk) }
{
    if words.len() != 5 || !is_path(word_at(words, 3)) {
        return Ok(None);
    }
    let Some(log) = log_named(word_at(words, 1)) else {
        return Ok(None);
    };
    let Some(from) = form_named(word_at(words, 2)) else {
        return Ok(None);
    };
    let Some(into) = form_named(word_at(words, 4)) else {
        return Ok(None);
    };
    let path = path_of(alloc, word_at(words, 3))?;
    Ok(Some(DeskRequest::Whole(WholeRequest::Convert {
        log,
        from,
        path,
        into,
    })))
}
