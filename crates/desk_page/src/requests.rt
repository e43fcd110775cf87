//! What words ask of `page`.
use audit_base::names::Name;
use audit_base::terms::Rule;
use desk_words::requests::NamedLogs;

/// What well-formed words ask for: the page of the verdict of a rule on a symbol of two logs. Each
/// path is a word of one byte or more that does not begin with `-`.
#[derive(Drop)]
pub struct PageRequest {
    pub rule: Rule,
    pub symbol: Name,
    pub logs: NamedLogs,
}
