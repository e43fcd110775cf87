//! The options of commands: how each is written, what may be its value, and with which rule it
//! goes.
use crate::word_parts::WordPart;
use audit_base::terms::Rule;
use std::fmt;

/// An option of a command.
#[derive(Clone, Copy, Debug, PartialEq, Eq)]
pub(crate) enum OptionPart {
    OrdersForm,
    TradesForm,
    /// The form in which a log is written.
    Form,
    Table,
    Share,
    RestingPrice,
    TradeTimes,
    Page,
    Records,
    Lines,
    Soh,
    Skip,
    Bad,
}

impl OptionPart {
    /// The word that it is.
    pub(crate) fn word(self) -> &'static str {
        match self {
            OptionPart::OrdersForm => "--orders-form",
            OptionPart::TradesForm => "--trades-form",
            OptionPart::Form => "--form",
            OptionPart::Table => "--table",
            OptionPart::Share => "--share",
            OptionPart::RestingPrice => "--resting-price",
            OptionPart::TradeTimes => "--trade-times",
            OptionPart::Page => "--page",
            OptionPart::Records => "--records",
            OptionPart::Lines => "--lines",
            OptionPart::Soh => "--soh",
            OptionPart::Skip => "--skip",
            OptionPart::Bad => "--bad",
        }
    }

    /// The word, and behind it how its value is called, where it has one.
    fn usage(self) -> &'static str {
        match self {
            OptionPart::OrdersForm => "--orders-form FORM",
            OptionPart::TradesForm => "--trades-form FORM",
            OptionPart::Form => "--form FORM",
            OptionPart::Share => "--share K/N",
            OptionPart::Soh => "--soh TEXT",
            _ => self.word(),
        }
    }

    /// What its value is, where it has one.
    pub(crate) fn value(self) -> Option<WordPart> {
        match self {
            OptionPart::OrdersForm | OptionPart::TradesForm | OptionPart::Form => Some(
                WordPart::Form,
            ),
            OptionPart::Share => Some(WordPart::Share),
            OptionPart::Soh => Some(WordPart::SohText),
            _ => None,
        }
    }

    /// Whether it goes with a rule.
    pub(crate) fn fits_rule(self, rule: Rule) -> bool {
        match self {
            OptionPart::Table => rule.has_table(),
            OptionPart::RestingPrice => rule.call_rule().is_none(),
            _ => true,
        }
    }

    /// The rules with which it goes.
    pub(crate) fn rules(self) -> &'static str {
        match self {
            OptionPart::Table => WordPart::TableRule.wanted(),
            OptionPart::RestingPrice => "continuous",
            _ => WordPart::Rule.wanted(),
        }
    }
}

/// The option that a word is, of those of a command.
pub(crate) fn option_named(known: &[OptionPart], word: &str) -> Option<OptionPart> {
    for option in known {
        if option.word() == word {
            return Some(*option);
        }
    }
    None
}

/// The options of a command, as a note lists them.
#[derive(Clone, Copy)]
pub(crate) struct OptionList<'a> {
    pub(crate) options: &'a [OptionPart],
}

impl fmt::Display for OptionList<'_> {
    fn fmt<W: fmt::Write>(&self, f: &mut fmt::Formatter<W>) -> fmt::Result {
        let mut between = "";
        for option in self.options {
            f.write_str(between)?;
            f.write_str(option.usage())?;
            between = ", ";
        }
        Ok(())
    }
}
