//! The parts of commands: how each is called, what may be given for it, and whether a word may.
use crate::command_parts::{DESK_COMMANDS, is_desk_command};
use command_words::word_forms::{
    form_named, is_path, number_upto, rule_named, symbol_named, unpadded_number,
};

/// What a word of a command is, by its place.
#[derive(Clone, Copy, Debug, PartialEq, Eq)]
pub(crate) enum WordPart {
    Rule,
    /// A rule that has a certificate.
    BoundRule,
    /// A rule under which trades can be expected.
    TableRule,
    Symbol,
    Label,
    Log,
    Form,
    Path,
    Start,
    Count,
    Phases,
    Result,
    /// Which share of the day.
    Share,
    /// The text that stands for SOH.
    SohText,
    /// A command of `desk`, of which help is asked.
    Command,
}

/// The results by which a list of cases may be asked for.
const RESULTS: [&str; 17] = [
    "accepted",
    "duplicate-id",
    "time-back",
    "unknown-target",
    "unpaired",
    "duplicate-trade",
    "unknown-order",
    "inactive",
    "limit",
    "uniform-price",
    "buy-quantity",
    "sell-quantity",
    "buy-priority",
    "sell-priority",
    "volume",
    "spread",
    "instant-order",
];

/// Whether a word is `accepted` or a property's.
pub(crate) fn is_result(word: &str) -> bool {
    for result in RESULTS {
        if word == result {
            return true;
        }
    }
    false
}

/// Whether the word is a rule that has a certificate.
fn is_bound_rule(word: &str) -> bool {
    word == "uniform" || word == "maximum"
}

/// Whether the word is a rule under which trades can be expected.
fn is_table_rule(word: &str) -> bool {
    match rule_named(word) {
        Some(rule) => rule.has_table(),
        None => false,
    }
}

/// The place with which the phase begins that a part `KIND@FIRST` is.
fn first_of_phase(part: &str) -> Option<u32> {
    let (kind, first) = part.split_once('@')?;
    if !is_bound_rule(kind) && kind != "continuous" {
        return None;
    }
    unpadded_number(first, u32::MAX)
}

/// How many phases a word may give.
const MOST_PHASES: u32 = 64;

/// Whether the word is phases: parts of which the first begins at 1, and each further one behind
/// the one before it.
fn are_phases(word: &str) -> bool {
    let mut before: u32 = 0;
    let mut count: u32 = 0;
    for part in word.split(',') {
        let Some(first) = first_of_phase(part) else {
            return false;
        };
        if first <= before || count == 0 && first != 1 {
            return false;
        }
        before = first;
        count = count.saturating_add(1);
    }
    count <= MOST_PHASES
}

/// How many shares a day may have.
const MOST_SHARES: u32 = 65_536;

/// Whether the word is a share `K/N`.
fn is_share(word: &str) -> bool {
    let Some((number, count)) = word.split_once('/') else {
        return false;
    };
    match (
        unpadded_number(number, MOST_SHARES),
        unpadded_number(count, MOST_SHARES),
    ) {
        (Some(number), Some(count)) => number <= count,
        _ => false,
    }
}

/// Whether the word may stand for SOH.
fn is_soh_text(word: &str) -> bool {
    let text = word.as_bytes();
    1 <= text.len() && text.len() <= 5 && text.iter().all(u8::is_ascii_graphic)
}

impl WordPart {
    /// How the part is called.
    pub(crate) fn name(self) -> &'static str {
        match self {
            WordPart::Rule | WordPart::BoundRule | WordPart::TableRule => "rule",
            WordPart::Symbol => "symbol",
            WordPart::Label => "label",
            WordPart::Log => "log",
            WordPart::Form => "form",
            WordPart::Path => "path",
            WordPart::Start => "start",
            WordPart::Count => "count",
            WordPart::Phases => "phases",
            WordPart::Result => "result",
            WordPart::Share => "share",
            WordPart::SohText => "text",
            WordPart::Command => "command",
        }
    }

    /// What may be given for it.
    pub(crate) fn wanted(self) -> &'static str {
        match self {
            WordPart::Rule => "matching, fair, uniform, maximum, continuous",
            WordPart::BoundRule => "uniform, maximum",
            WordPart::TableRule => "uniform, maximum, continuous",
            WordPart::Symbol => {
                "1 to 64 printable characters without comma and quote, the first of them not -"
            }
            WordPart::Label => {
                "1 to 64 printable characters without comma and quote, the first of them not -, and not then"
            }
            WordPart::Log => "orders, trades",
            WordPart::Form => "csv, fix",
            WordPart::Path => "a path of a file, where one that begins with - is written as ./-",
            WordPart::Start => "a number from 1 to 2147483646",
            WordPart::Count => "a number from 1 to 1000000",
            WordPart::Phases => {
                "KIND@FIRST,.. of uniform, maximum, continuous, the first at 1, each further one behind it"
            }
            WordPart::Result => "accepted, or a property, as limit or volume",
            WordPart::Share => "K/N, K from 1 to N, and N to 65536",
            WordPart::SohText => "1 to 5 printable characters without blanks",
            WordPart::Command => DESK_COMMANDS,
        }
    }

    /// Whether the word may be given for it, by its form alone.
    pub(crate) fn takes(self, word: &str) -> bool {
        match self {
            WordPart::Rule => rule_named(word).is_some(),
            WordPart::BoundRule => is_bound_rule(word),
            WordPart::TableRule => is_table_rule(word),
            WordPart::Symbol => symbol_named(word).is_some(),
            WordPart::Label => word != "then" && symbol_named(word).is_some(),
            WordPart::Log => word == "orders" || word == "trades",
            WordPart::Form => form_named(word).is_some(),
            WordPart::Path => is_path(word),
            WordPart::Start => number_upto(word, 2_147_483_646).is_some(),
            WordPart::Count => number_upto(word, 1_000_000).is_some(),
            WordPart::Phases => are_phases(word),
            WordPart::Result => is_result(word),
            WordPart::Share => is_share(word),
            WordPart::SohText => is_soh_text(word),
            WordPart::Command => is_desk_command(word),
        }
    }
}
