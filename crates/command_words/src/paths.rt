//! The words of a command line that name logs.
ghost use Rattle.std.specs.Prelude.{◌≡◌, ◌+◌, ◌<◌, length, map, IfOk};
ghost use Rattle.std.specs.String.{string_bytes};
ghost use Rattle.command_words.specs.WordForms.{nth_word};
ghost use Rattle.command_words.specs.Words as spec;

use super::word_forms::{is_path, word_at};
use audit_base::faults::NoMemory;
use std::alloc::Global;
use std::marker::Model;

/// A word that names a log. Contracts see the list of its bytes.
#[derive(Drop)]
pub struct PathText {
    text: String,
}

impl Model for PathText {
    ghost use Rattle.std.specs.Prelude.{ℕ, List};
    ghost use Rattle.std.specs.String.{string_bytes};

    ghost Value = { List ℕ };

    ghost view = { λ p. string_bytes p.text };
}

impl PathText {
    /// The text of the word.
    pub fn as_str(&self) -> &str
        ensures { result.now ≡ self.now }
    {
        self.text.as_str()
    }
}

/// The path that a word names. Asks for memory for its text.
pub fn path_of(alloc: Global, word: &str) -> Result<PathText, NoMemory>
    ensures { IfOk result (λ path. path ≡ word.now) }
{
    let text = String::from_str(alloc, word)?;
    Ok(PathText { text })
}

/// Whether the words at a place and after it are paths, as ORDERS and TRADES are.
pub fn names_logs(words: &[String], place: usize) -> bool
    requires { place + 1 < length words.now }
    ensures { result ≡ spec.names_logs (map string_bytes words.now) place }
{
    is_path(word_at(words, place)) && is_path(word_at(words, place + 1))
}

/// The paths of both logs.
#[derive(Drop)]
pub struct LogPaths {
    pub orders: PathText,
    pub trades: PathText,
}

/// The paths that the words at a place and after it are.
pub fn log_paths(alloc: Global, words: &[String], place: usize) -> Result<LogPaths, NoMemory>
    requires { place + 1 < length words.now }
    ensures orders { IfOk result (λ paths.
        paths.orders ≡ nth_word (map string_bytes words.now) place) }
    ensures trades { IfOk result
        (λ paths. paths.trades ≡ nth_word (map string_bytes words.now) (place + 1)) }
{
    let orders = path_of(alloc, word_at(words, place))?;
    let trades = path_of(alloc, word_at(words, place + 1))?;
    Ok(LogPaths { orders, trades })
}
