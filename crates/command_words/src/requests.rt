//! What the words of a command line ask for. Exactly the well-formed words are taken.
ghost use Rattle.std.specs.Prelude.{◌≡◌, None, Some, map, IfOk, IsErrOf};
ghost use Rattle.std.specs.String.{string_bytes};
ghost use Rattle.command_words.specs.Words as spec;

use super::commands::{command_in, request_by};
use super::paths::PathText;
use audit_base::faults::NoMemory;
use audit_base::names::Name;
use audit_base::terms::{Form, Rule, Which};
use session_audit::phases::PhaseList;
use std::alloc::Global;
use thiserror::Error;

/// What well-formed words ask for. A symbol is a name that does not begin with `-`, and a path
/// a word of one byte or more that does not begin with it.
#[derive(Drop)]
pub enum Request {
    /// To judge the trades of a symbol by a rule. A table is asked for only where the rule has one.
    Audit {
        rule: Rule,
        symbol: Name,
        orders: PathText,
        trades: PathText,
        orders_form: Form,
        trades_form: Form,
        table: bool,
    },
    /// To write the Expected trades of a symbol under a rule that has such: `uniform`, `maximum` or
    /// `continuous`.
    Expect {
        rule: Rule,
        symbol: Name,
        orders: PathText,
        orders_form: Form,
    },
    /// To write a log as a CSV log.
    Convert {
        log: Which,
        form: Form,
        path: PathText,
    },
    /// To generate a log and write a summary of its Expected trades.
    Generate {
        /// From 1 to 2,147,483,646.
        start: u32,
        /// From 1 to 1,000,000.
        count: u32,
    },
    /// To judge the trades of a symbol by `uniform` or `maximum` and, where they conform, to
    /// write their certificate.
    Certify {
        rule: Rule,
        symbol: Name,
        orders: PathText,
        trades: PathText,
        orders_form: Form,
        trades_form: Form,
    },
    /// To verify that a certificate shows that the trades of a symbol conform.
    Verify {
        symbol: Name,
        orders: PathText,
        trades: PathText,
        certificate: PathText,
        orders_form: Form,
        trades_form: Form,
    },
    /// To judge the trades of a symbol on a day of 1 to 64 phases.
    Session {
        symbol: Name,
        phases: PhaseList,
        orders: PathText,
        trades: PathText,
        orders_form: Form,
        trades_form: Form,
        table: bool,
    },
}

/// Why words are not read.
#[derive(Clone, Copy, Debug, PartialEq, Eq, Error)]
pub enum WordsFault {
    /// They are those of no command.
    #[error("the words are not well-formed")]
    Usage,
    /// They are well-formed, and there was not enough memory for what they ask.
    #[error("out of memory")]
    Memory,
}

impl From<NoMemory> for WordsFault {
    ghost use Rattle.std.specs.Prelude.{◌≡◌};
    ghost use Rattle.command_words.specs.declared.requests.WordsFault.TheVariants.{Memory};

    ghost from_gives = { λ _ made. made ≡ Memory };

    fn from(_fault: NoMemory) -> WordsFault {
        WordsFault::Memory
    }
}

/// What the words ask for, one row a command:
///
/// - `audit RULE SYMBOL ORDERS TRADES`, and after them, in any order and each at most once,
///   `--orders-form FORM`, `--trades-form FORM` and, where the rule has one, `--table`;
/// - `expect RULE SYMBOL ORDERS` of a rule with Expected trades, and after them
///   `--orders-form FORM`;
/// - `convert orders|trades FORM PATH`;
/// - `generate START COUNT`, START from 1 to 2,147,483,646 and COUNT from 1 to 1,000,000, each
///   of 1 to 10 digits;
/// - `certify RULE SYMBOL ORDERS TRADES`, where RULE is `uniform` or `maximum`, and after them,
///   in any order and each at most once, `--orders-form FORM` and `--trades-form FORM`;
/// - `verify SYMBOL ORDERS TRADES CERTIFICATE`, and after them the same options;
/// - `session SYMBOL PHASES ORDERS TRADES`, and after them the options of `audit`. PHASES is 1
///   to 64 parts `KIND@FIRST`, joined by commas: KIND is `uniform`, `maximum` or `continuous`,
///   and FIRST the place with which the phase begins, from 1 to 4,294,967,295 without zeros at
///   its front. The first FIRST is 1, and each is above the one before it.
///
/// RULE is the word of a rule, and FORM is `csv` or `fix`. `Usage` comes exactly where they are not
/// well-formed, and takes no memory. `Memory` comes only where they are, and there was not enough.
pub fn read_words(alloc: Global, words: &[String]) -> Result<Request, WordsFault>
    ensures request { IfOk result
        (λ request. spec.request_of (map string_bytes words.now) ≡ Some request) }
    ensures usage { IsErrOf result WordsFault.Usage
        → spec.request_of (map string_bytes words.now) ≡ None }
    ensures decided { spec.request_of (map string_bytes words.now) ≡ None
        → IsErrOf result WordsFault.Usage }
    ensures asked { IfOk result spec.MayBeAsked }
{
    let Some(command) = command_in(words) else {
        return Err(WordsFault::Usage);
    };
    match request_by(alloc, command, words)? {
        Some(request) => Ok(request),
        None => Err(WordsFault::Usage),
    }
}
