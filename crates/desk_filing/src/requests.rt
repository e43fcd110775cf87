//! What words ask of filing.
use audit_base::names::Name;
use audit_base::terms::Rule;
use command_words::paths::PathText;
use desk_words::requests::NamedLogs;

/// What is to be done with two logs and a label.
#[derive(Clone, Copy, Debug)]
pub enum FilingCommand {
    /// To file the verdict of a rule on a symbol, under the label.
    File { rule: Rule, symbol: Name },
    /// To file the verdict of a rule on each symbol of the day, under the label, `/` and the
    /// symbol.
    FileAll { rule: Rule },
    /// To tell whether they are the logs of the case under the label.
    Check,
}

/// What well-formed words ask for: something with two logs and a label, over a database. Each
/// path is a word of one byte or more that does not begin with `-`, and so is the label, of 1 to
/// 64 bytes.
#[derive(Drop)]
pub struct FilingRequest {
    pub command: FilingCommand,
    pub database: PathText,
    pub label: Name,
    pub logs: NamedLogs,
}
