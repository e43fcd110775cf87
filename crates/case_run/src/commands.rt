//! The commands of a casebook.
use audit_base::names::Name;
use audit_base::terms::{Form, Rule};
use case_keeper::case::Filter;
use command_words::paths::PathText;

/// What is to be filed: the verdict of a rule on two logs about a symbol, under a label. Both logs
/// are in the same form.
#[derive(Drop)]
pub struct Filing {
    pub label: Name,
    pub rule: Rule,
    pub symbol: Name,
    pub form: Form,
    pub orders: PathText,
    pub trades: PathText,
}

/// A command of a casebook.
#[derive(Drop)]
pub enum CaseCommand {
    /// To audit two logs and file the verdict.
    File(Filing),
    /// To list the cases that pass the filter.
    List(Filter),
    /// To show the case of a label.
    Show(Name),
}
