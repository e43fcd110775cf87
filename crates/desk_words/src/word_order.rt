//! The form `COMMAND OPTIONS -- WORDS`, in which SYMBOL may begin with `-`. Nothing here takes
//! memory: the words are read where they stand, with `--` in the place of the command.
ghost use Rattle.std.specs.Prelude.{◌≡◌, ◌+◌, ◌-◌, ◌≤◌, drop, length, map, take, IfSome, position};
ghost use Rattle.std.specs.List.{position_or_len};
ghost use Rattle.std.specs.String.{string_bytes};
ghost use Rattle.desk_words.specs.WordOrder as spec;

use audit_base::names::{Name, read_name};
use command_words::word_forms::{is_path, is_word, symbol_named, word_at};

/// Whether the word stands between options and words.
fn is_mark(word: &str) -> bool
    ensures { result ≡ spec.is_mark word.now }
{
    is_word(word, b"--")
}

/// The index of the first `--` among words.
fn first_mark(words: &[String]) -> Option<usize>
    ensures { result ≡ position (λ word. spec.is_mark (string_bytes word)) words.now }
{
    words.iter().position(|word| is_mark(word.as_str()))
}

/// How many words stand before the first `--` of them.
fn words_before_mark(words: &[String]) -> usize
    ensures count { result ≡ position_or_len (λ word. spec.is_mark (string_bytes word)) words.now }
    ensures within { result ≤ length words.now }
{
    match first_mark(words) {
        Some(index) => index,
        None => words.len(),
    }
}

/// The index of the first `--` behind the command, or how many words there are.
fn mark_index(words: &[String]) -> usize
    requires { 1 ≤ length words.now }
    ensures index { result ≡ spec.mark_index (map string_bytes words.now) }
    ensures first { 1 ≤ result }
{
    1 + words_before_mark(words_from(words, 1))
}

/// The index of `--`, where words have the form `COMMAND OPTIONS -- WORDS` with so many WORDS.
pub fn marked_at(words: &[String], count: usize) -> Option<usize>
    ensures mark { result ≡ spec.marked_at count (map string_bytes words.now) }
    ensures behind { IfSome result (λ mark. (1 ≤ mark) × (mark + 1 + count ≡ length words.now)) }
{
    if words.len() < 2 || is_path(word_at(words, 1)) {
        return None;
    }
    let mark = mark_index(words);
    if mark < words.len() && words.len() - mark - 1 == count {
        return Some(mark);
    }
    None
}

/// The words from `--` on, which is at this index. It stands in the place of the command.
pub fn words_from(words: &[String], mark: usize) -> &[String]
    requires { mark ≤ length words.now }
    ensures { result.now ≡ drop mark words.now }
{
    &words[mark..]
}

/// The words between the command and `--`, which is at this index.
pub fn options_before(words: &[String], mark: usize) -> &[String]
    requires first { 1 ≤ mark }
    requires within { mark ≤ length words.now }
    ensures { result.now ≡ take (mark - 1) (drop 1 words.now) }
{
    &words[1..mark]
}

/// The symbol that the word is, where `--` stands at this index before it, or nowhere: a name that
/// begins with `-` only behind `--`.
pub fn symbol_behind(mark: Option<usize>, word: &str) -> Option<Name>
    ensures { result ≡ spec.symbol_behind mark word.now }
{
    match mark {
        Some(_) => read_name(word.as_bytes()),
        None => symbol_named(word),
    }
}
