//! Which words each command has: its parts, in their order, and behind them its options.
use crate::asked::ProgramName;
use crate::option_parts::OptionPart;
use crate::word_parts::WordPart;

/// The words behind that of a command.
#[derive(Clone, Copy)]
pub(crate) struct CommandParts {
    pub(crate) parts: &'static [WordPart],
    /// Whether the last parts may be left out.
    pub(crate) may_end: bool,
    pub(crate) options: &'static [OptionPart],
}

const AUDITOR_COMMANDS: &str = "audit, expect, convert, generate, certify, verify, session";

pub(crate) const DESK_COMMANDS: &str =
    "audit, session, offences, page, digest, file, file-all, check, \
                             orders, convert, plain, contents, help";

const CASEBOOK_COMMANDS: &str = "file, list, show";

const AUDIT: [WordPart; 4] = [
    WordPart::Rule,
    WordPart::Symbol,
    WordPart::Path,
    WordPart::Path,
];

const EXPECT: [WordPart; 3] = [WordPart::TableRule, WordPart::Symbol, WordPart::Path];

const CONVERT: [WordPart; 3] = [WordPart::Log, WordPart::Form, WordPart::Path];

const GENERATE: [WordPart; 2] = [WordPart::Start, WordPart::Count];

const CERTIFY: [WordPart; 4] = [
    WordPart::BoundRule,
    WordPart::Symbol,
    WordPart::Path,
    WordPart::Path,
];

const VERIFY: [WordPart; 4] = [
    WordPart::Symbol,
    WordPart::Path,
    WordPart::Path,
    WordPart::Path,
];

const SESSION: [WordPart; 4] = [
    WordPart::Symbol,
    WordPart::Phases,
    WordPart::Path,
    WordPart::Path,
];

const DAY_AUDIT: [WordPart; 3] = [WordPart::Rule, WordPart::Path, WordPart::Path];

const DAY_SESSION: [WordPart; 3] = [WordPart::Phases, WordPart::Path, WordPart::Path];

const OFFENCES: [WordPart; 4] = [
    WordPart::Rule,
    WordPart::Symbol,
    WordPart::Path,
    WordPart::Path,
];

const PAGE: [WordPart; 4] = [
    WordPart::Rule,
    WordPart::Symbol,
    WordPart::Path,
    WordPart::Path,
];

const DIGEST: [WordPart; 2] = [WordPart::Path, WordPart::Path];

const DAY_FILE: [WordPart; 6] = [
    WordPart::Path,
    WordPart::Label,
    WordPart::Rule,
    WordPart::Symbol,
    WordPart::Path,
    WordPart::Path,
];

const DAY_FILE_ALL: [WordPart; 5] = [
    WordPart::Path,
    WordPart::Label,
    WordPart::Rule,
    WordPart::Path,
    WordPart::Path,
];

const DAY_CHECK: [WordPart; 4] = [
    WordPart::Path,
    WordPart::Label,
    WordPart::Path,
    WordPart::Path,
];

const PLAIN: [WordPart; 1] = [WordPart::Path];

const CONTENTS: [WordPart; 2] = [WordPart::Path, WordPart::Path];

const FILE: [WordPart; 6] = [
    WordPart::Label,
    WordPart::Rule,
    WordPart::Symbol,
    WordPart::Form,
    WordPart::Path,
    WordPart::Path,
];

const CONVERT_INTO: [WordPart; 4] = [
    WordPart::Log,
    WordPart::Form,
    WordPart::Path,
    WordPart::Form,
];

const LIST: [WordPart; 2] = [WordPart::Symbol, WordPart::Result];

const SHOW: [WordPart; 1] = [WordPart::Label];

const HELP: [WordPart; 1] = [WordPart::Command];

const FORMS: [OptionPart; 2] = [OptionPart::OrdersForm, OptionPart::TradesForm];

const FORMS_AND_TABLE: [OptionPart; 3] = [
    OptionPart::OrdersForm,
    OptionPart::TradesForm,
    OptionPart::Table,
];

const EXPECT_OPTIONS: [OptionPart; 1] = [OptionPart::OrdersForm];

const DAY_AUDIT_OPTIONS: [OptionPart; 7] = [
    OptionPart::OrdersForm,
    OptionPart::TradesForm,
    OptionPart::Table,
    OptionPart::Share,
    OptionPart::RestingPrice,
    OptionPart::TradeTimes,
    OptionPart::Page,
];

const DAY_SESSION_OPTIONS: [OptionPart; 6] = [
    OptionPart::OrdersForm,
    OptionPart::TradesForm,
    OptionPart::Table,
    OptionPart::Share,
    OptionPart::TradeTimes,
    OptionPart::Page,
];

const OFFENCE_OPTIONS: [OptionPart; 5] = [
    OptionPart::OrdersForm,
    OptionPart::TradesForm,
    OptionPart::Records,
    OptionPart::RestingPrice,
    OptionPart::TradeTimes,
];

const ORDERS_OPTIONS: [OptionPart; 1] = [OptionPart::Form];

const PLAIN_OPTIONS: [OptionPart; 4] = [
    OptionPart::Lines,
    OptionPart::Soh,
    OptionPart::Skip,
    OptionPart::Bad,
];

/// Words of these parts, and no options.
fn lone_parts(parts: &'static [WordPart]) -> CommandParts {
    with_options(parts, &[])
}

/// Words of these parts, which may be left out from behind, and no options.
fn parts_that_may_end(parts: &'static [WordPart]) -> CommandParts {
    CommandParts {
        parts,
        may_end: true,
        options: &[],
    }
}

/// Words of these parts, and these options.
fn with_options(parts: &'static [WordPart], options: &'static [OptionPart]) -> CommandParts {
    CommandParts {
        parts,
        may_end: false,
        options,
    }
}

/// The words of a command of `auditor`.
fn auditor_parts(command: &str) -> Option<CommandParts> {
    if command == "audit" {
        Some(with_options(&AUDIT, &FORMS_AND_TABLE))
    } else if command == "expect" {
        Some(with_options(&EXPECT, &EXPECT_OPTIONS))
    } else if command == "convert" {
        Some(lone_parts(&CONVERT))
    } else if command == "generate" {
        Some(lone_parts(&GENERATE))
    } else if command == "certify" {
        Some(with_options(&CERTIFY, &FORMS))
    } else if command == "verify" {
        Some(with_options(&VERIFY, &FORMS))
    } else if command == "session" {
        Some(with_options(&SESSION, &FORMS_AND_TABLE))
    } else {
        None
    }
}

/// The words of a command of `desk` that has no log, or writes one.
fn other_desk_parts(command: &str) -> Option<CommandParts> {
    if command == "orders" {
        Some(with_options(&GENERATE, &ORDERS_OPTIONS))
    } else if command == "convert" {
        Some(lone_parts(&CONVERT_INTO))
    } else if command == "plain" {
        Some(with_options(&PLAIN, &PLAIN_OPTIONS))
    } else if command == "help" {
        Some(parts_that_may_end(&HELP))
    } else {
        None
    }
}

/// The words of a command of `desk` that keeps cases, or looks for them.
fn filing_parts(command: &str) -> Option<CommandParts> {
    if command == "file" {
        Some(with_options(&DAY_FILE, &FORMS))
    } else if command == "file-all" {
        Some(with_options(&DAY_FILE_ALL, &FORMS))
    } else if command == "check" {
        Some(with_options(&DAY_CHECK, &FORMS))
    } else {
        other_desk_parts(command)
    }
}

/// The words of a command of `desk`.
fn desk_command_parts(command: &str) -> Option<CommandParts> {
    if command == "audit" {
        Some(with_options(&DAY_AUDIT, &DAY_AUDIT_OPTIONS))
    } else if command == "session" {
        Some(with_options(&DAY_SESSION, &DAY_SESSION_OPTIONS))
    } else if command == "offences" {
        Some(with_options(&OFFENCES, &OFFENCE_OPTIONS))
    } else if command == "page" {
        Some(with_options(&PAGE, &FORMS))
    } else if command == "digest" {
        Some(lone_parts(&DIGEST))
    } else if command == "contents" {
        Some(with_options(&CONTENTS, &FORMS))
    } else {
        filing_parts(command)
    }
}

/// Whether the word is a command of `desk`.
pub(crate) fn is_desk_command(word: &str) -> bool {
    desk_command_parts(word).is_some()
}

/// The words of a command of `desk`, or behind one of the two options that stand alone.
fn desk_parts(command: &str) -> Option<CommandParts> {
    if command == "--help" || command == "--version" {
        return Some(lone_parts(&[]));
    }
    desk_command_parts(command)
}

/// The words of a command of `casebook`.
fn casebook_parts(command: &str) -> Option<CommandParts> {
    if command == "file" {
        Some(lone_parts(&FILE))
    } else if command == "list" {
        Some(parts_that_may_end(&LIST))
    } else if command == "show" {
        Some(lone_parts(&SHOW))
    } else {
        None
    }
}

/// The words of a command of a program.
pub(crate) fn parts_of(program: ProgramName, command: &str) -> Option<CommandParts> {
    match program {
        ProgramName::Auditor => auditor_parts(command),
        ProgramName::Casebook => casebook_parts(command),
        ProgramName::Desk => desk_parts(command),
    }
}

/// The commands of a program.
pub(crate) fn commands_of(program: ProgramName) -> &'static str {
    match program {
        ProgramName::Auditor => AUDITOR_COMMANDS,
        ProgramName::Casebook => CASEBOOK_COMMANDS,
        ProgramName::Desk => DESK_COMMANDS,
    }
}
