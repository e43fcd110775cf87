//! What the words of a command line of `desk` ask for. Exactly the well-formed words are taken.
ghost use Rattle.std.specs.Prelude.{◌≡◌, None, Some, map, IfOk, IsErrOf};
ghost use Rattle.std.specs.String.{string_bytes};
ghost use Rattle.desk_words.specs.Words as spec;

use super::commands::{DeskCommand, desk_request_in};
use super::dress_words::DayDress;
use audit_base::names::Name;
use audit_base::terms::{Form, Rule, Which};
use command_words::paths::PathText;
use command_words::requests::WordsFault;
use day_symbols::shares::DayShare;
use further_checks::findings::FurtherChecks;
use session_audit::phases::PhaseList;
use std::alloc::Global;

/// The two logs that words name, each with its form. A path is a word of one byte or more that does
/// not begin with `-`.
#[derive(Drop)]
pub struct NamedLogs {
    pub orders: PathText,
    pub trades: PathText,
    pub orders_form: Form,
    pub trades_form: Form,
}

/// What the words of a command that makes its whole answer before it writes ask for. Where there
/// is no share, the whole day is asked for.
#[derive(Drop)]
pub enum WholeRequest {
    /// To judge the trades of each symbol by a rule. A table is asked for only where the rule
    /// has one, prices of resting orders only where it is `continuous`, and a page only where no
    /// table is.
    Audit {
        rule: Rule,
        logs: NamedLogs,
        table: bool,
        share: Option<DayShare>,
        checks: FurtherChecks,
        page: bool,
    },
    /// To judge the trades of each symbol on a day of 1 to 64 phases. Prices of resting orders are
    /// not asked for, and a page only where no table is.
    Session {
        phases: PhaseList,
        logs: NamedLogs,
        table: bool,
        share: Option<DayShare>,
        checks: FurtherChecks,
        page: bool,
    },
    /// To tell every offence of a symbol under a rule. The prices of resting orders are asked for
    /// only where the rule is `continuous`.
    Offences {
        rule: Rule,
        symbol: Name,
        logs: NamedLogs,
        /// Whether the records that a letter quotes are written behind each offence.
        records: bool,
        checks: FurtherChecks,
    },
    /// To write the digest of each log.
    Digest {
        orders: PathText,
        trades: PathText,
    },
    /// To write the records of a log, which is in one form, in the same or the other one.
    Convert {
        log: Which,
        from: Form,
        path: PathText,
        into: Form,
    },
    /// To write what is in each log.
    Contents {
        logs: NamedLogs,
    },
    /// To write what each command does, or one of them.
    Help(Option<DeskCommand>),
    /// To write which version of the program this is.
    Version,
}

/// What the words of a command that writes its answer while it makes it ask for: its text may be
/// longer than memory is to be.
#[derive(Drop)]
pub enum EarlyRequest {
    /// To write the generated order log of START and COUNT in this form.
    Orders { start: u32, count: u32, form: Form },
    /// To write the messages of a day as a FIX log.
    Plain { day: PathText, dress: DayDress },
}

/// What well-formed words ask for, by when its answer is written.
#[derive(Drop)]
pub enum DeskRequest {
    /// The whole answer is made first.
    Whole(WholeRequest),
    /// The answer is written while it is made.
    Early(EarlyRequest),
}

/// What the words ask for, one row a command:
///
/// - `audit RULE ORDERS TRADES`, and after them, in any order and each at most once,
///   `--orders-form FORM`, `--trades-form FORM`, `--share K/N`, `--trade-times`, `--page`, where
///   the rule has one `--table`, but not with `--page`, and where it is `continuous`
///   `--resting-price`;
/// - `session PHASES ORDERS TRADES`, and after them the same options but `--resting-price`;
/// - `offences RULE SYMBOL ORDERS TRADES`, and after them, in any order and each at most once,
///   `--orders-form FORM`, `--trades-form FORM`, `--records`, `--trade-times` and, where RULE is
///   `continuous`, `--resting-price`;
/// - `digest ORDERS TRADES`;
/// - `orders START COUNT`, and after them `--form FORM`, once or not at all;
/// - `convert LOG FORM PATH FORM`;
/// - `plain DAY`, and after it nothing, or in any order `--lines`, and with it, each at most once,
///   `--soh TEXT`, and `--skip` or `--bad`, but not both;
/// - `contents ORDERS TRADES`, and after them, in any order and each at most once,
///   `--orders-form FORM` and `--trades-form FORM`;
/// - `help`, which `--help` asks for too, and `help COMMAND`, COMMAND being `audit`, `session`,
///   `offences`, `page`, `digest`, `file`, `file-all`, `check`, `orders`, `convert`, `plain`,
///   `contents` or `help`;
/// - `--version`.
///
/// RULE, SYMBOL, FORM, PHASES, START, COUNT and LOG are those of `read_words` of `command_words`.
/// K/N is two decimal numbers without leading zeros, joined by `/`, where K is from 1 to N, and N at
/// most 65,536. DAY is a path, and TEXT has 1 to 5 bytes from 0x21 to 0x7E. The words of `page`,
/// `file`, `file-all` and `check` are read by other calls (`commands::asks_page`, `asks_filing`).
/// `Usage` comes exactly where the words are not well-formed, and takes no memory. `Memory` comes
/// only where they are, and there was not enough.
pub fn read_desk_words(alloc: Global, words: &[String]) -> Result<DeskRequest, WordsFault>
    ensures request { IfOk result
        (λ request. spec.desk_request_of (map string_bytes words.now) ≡ Some request) }
    ensures usage { IsErrOf result WordsFault.Usage
        → spec.desk_request_of (map string_bytes words.now) ≡ None }
    ensures decided { spec.desk_request_of (map string_bytes words.now) ≡ None
        → IsErrOf result WordsFault.Usage }
    ensures asked { IfOk result spec.MayBeAskedOfDesk }
{
    match desk_request_in(alloc, words)? {
        Some(request) => Ok(request),
        None => Err(WordsFault::Usage),
    }
}
