//! What `desk` writes for words alone: how its command line is used, what each command does, and
//! which version it is.
ghost use Rattle.std.specs.Prelude.{◌≡◌, ◌++◌, ◌∷◌, OnOk};
ghost use Rattle.desk_words.specs.Texts as text;

use super::commands::DeskCommand;
use audit_base::faults::NoMemory;

/// The line that says how the command line is used.
pub fn desk_usage_text() -> &'static [u8]
    ensures { result.now ≡ text.desk_usage_line }
{
    b"usage: audit RULE ORDERS TRADES \
      | session PHASES ORDERS TRADES \
      | offences RULE SYMBOL ORDERS TRADES \
      | page RULE SYMBOL ORDERS TRADES \
      | digest ORDERS TRADES \
      | file DATABASE LABEL RULE SYMBOL ORDERS TRADES \
      | file-all DATABASE LABEL RULE ORDERS TRADES \
      | check DATABASE LABEL ORDERS TRADES \
      | orders START COUNT \
      | convert orders|trades csv|fix PATH csv|fix \
      | plain DAY \
      | contents ORDERS TRADES \
      | help [COMMAND]\n"
}

/// The version of the program, which is that of the file `VERSION`, and the line that
/// `rt version` prints of the kit that the program is proved with.
pub fn version_text() -> &'static [u8]
    ensures { result.now ≡ text.version_text }
{
    b"desk (Mekdrox) 1.0.0
rattle-kit-13f logic dac8208d650f15bf
"
}

/// What `audit` does.
#[tactic(auto, unfolding(crate::specs::Texts::audit_help))]
fn audit_help() -> &'static [u8]
    ensures { result.now ≡ text.audit_help }
{
    b"audit RULE ORDERS TRADES
    Judges the trades of each symbol of a day by a rule. Writes how many symbols are
    accepted and rejected, then each symbol's report, the symbol before each line.
    RULE                matching, fair, uniform, maximum or continuous
    ORDERS              the path of the order log
    TRADES              the path of the trade log
    --orders-form FORM  the form of the order log: csv, as without it, or fix
    --trades-form FORM  the form of the trade log: csv, as without it, or fix
    --table             adds what each order of an accepted symbol traded, or, under
                        continuous, each pair of orders; not with matching or fair
    --share K/N         judges only the symbols with the numbers K, K + N, K + 2N and
                        so on, counted from 1 as they appear; 1 <= K <= N <= 65536
    --trade-times       rejects an accepted symbol at its first trade that is earlier than
                        the record of its bid or of its ask
    --resting-price     rejects it at its first trade with another price than the limit of
                        the order that came first; only with continuous
    --page              writes all of it as one HTML page, a row for each symbol; not with
                        --table
    Example: desk audit uniform orders.csv trades.csv --share 1/4
"
}

/// What `session` does.
#[tactic(auto, unfolding(crate::specs::Texts::session_help))]
fn session_help() -> &'static [u8]
    ensures { result.now ≡ text.session_help }
{
    b"session PHASES ORDERS TRADES
    Judges the trades of each symbol by the phases of a day. Writes how many symbols
    are accepted and rejected, then each symbol's report, the symbol before each line.
    PHASES              1 to 64 parts KIND@FIRST, joined by commas: KIND is uniform,
                        maximum or continuous, and FIRST the place of the order record
                        with which the phase begins; the first is 1, and they rise
    ORDERS              the path of the order log
    TRADES              the path of the trade log
    --orders-form FORM  the form of the order log: csv, as without it, or fix
    --trades-form FORM  the form of the trade log: csv, as without it, or fix
    --table             adds what each order of an accepted symbol traded over the day
    --share K/N         judges only the symbols with the numbers K, K + N, K + 2N and
                        so on, counted from 1 as they appear; 1 <= K <= N <= 65536
    --trade-times       rejects an accepted symbol at its first trade that is earlier than
                        the record of its bid or of its ask
    --page              writes all of it as one HTML page, a row for each symbol; not with
                        --table
    Example: desk session uniform@1,continuous@5001 orders.csv trades.csv
"
}

/// What `offences` does.
#[tactic(auto, unfolding(crate::specs::Texts::offences_help))]
fn offences_help() -> &'static [u8]
    ensures { result.now ≡ text.offences_help }
{
    b"offences RULE SYMBOL ORDERS TRADES
    Judges the trades of one symbol by a rule, and writes the report of an audit. Where
    it is rejected, a line follows for each offence, and one with their number.
    RULE                matching, fair, uniform, maximum or continuous
    SYMBOL              the symbol, as the logs have it; where it begins with -, options
                        stand before the other words, and -- between them
    ORDERS              the path of the order log
    TRADES              the path of the trade log
    --orders-form FORM  the form of the order log: csv, as without it, or fix
    --trades-form FORM  the form of the trade log: csv, as without it, or fix
    --records           writes behind each offence the records that it is about, as CSV
    --resting-price     with continuous, where the rule accepts: tells each trade whose
                        price is not the limit of its resting order
    --trade-times       where the rule accepts: tells each trade that is earlier than
                        the record of one of its orders
    Example: desk offences continuous Z orders.csv trades.csv --records
"
}

/// What `page` does.
#[tactic(auto, unfolding(crate::specs::Texts::page_help))]
fn page_help() -> &'static [u8]
    ensures { result.now ≡ text.page_help }
{
    b"page RULE SYMBOL ORDERS TRADES
    Judges the trades of one symbol by a rule, and writes the verdict as one HTML page:
    the answer, what shows it, the picture of the rule, how to see it again, and the
    SHA-256 digest of each log.
    RULE                matching, fair, uniform, maximum or continuous
    SYMBOL              the symbol, as the logs have it
    ORDERS              the path of the order log
    TRADES              the path of the trade log
    --orders-form FORM  the form of the order log: csv, as without it, or fix
    --trades-form FORM  the form of the trade log: csv, as without it, or fix
    Example: desk page uniform Z orders.csv trades.csv >Z.html
"
}

/// What `digest` does.
#[tactic(auto, unfolding(crate::specs::Texts::digest_help))]
fn digest_help() -> &'static [u8]
    ensures { result.now ≡ text.digest_help }
{
    b"digest ORDERS TRADES
    Writes the SHA-256 digest of each log, whatever is in it, in the 64 hexadecimal
    digits that sha256sum writes of the same file. By these a copy of a log can be
    compared with the log that was judged. No record is read, and no log is kept.
    ORDERS              the path of the order log
    TRADES              the path of the trade log
    Example: desk digest orders.csv trades.csv
"
}

/// What `file` does.
#[tactic(auto, unfolding(crate::specs::Texts::file_help))]
fn file_help() -> &'static [u8]
    ensures { result.now ≡ text.file_help }
{
    b"file DATABASE LABEL RULE SYMBOL ORDERS TRADES
    Files the verdict of a rule on a symbol under a label, with the SHA-256 digests of
    both logs, and writes its line. Where the label has a case, known and that case's
    line are written, and nothing is filed; of a symbol that is in neither log, absent
    and the symbol are.
    DATABASE            the path of the database; it is made if it is not there
    LABEL               the label: 1 to 64 bytes, not begun by -, and not the word then
    RULE                matching, fair, uniform, maximum or continuous
    SYMBOL              the symbol; where it begins with -, options stand before the
                        other words, and -- between them
    ORDERS              the path of the order log
    TRADES              the path of the trade log
    --orders-form FORM  the form of the order log: csv, as without it, or fix
    --trades-form FORM  the form of the trade log: csv, as without it, or fix
    Example: desk file cases.db c1 uniform Z orders.csv trades.csv
"
}

/// What `file-all` does.
#[tactic(auto, unfolding(crate::specs::Texts::file_all_help))]
fn file_all_help() -> &'static [u8]
    ensures { result.now ≡ text.file_all_help }
{
    b"file-all DATABASE LABEL RULE ORDERS TRADES
    Files the verdict of a rule on each symbol of a day, under LABEL/SYMBOL, as file
    does, and writes their lines: all of them, or none where one of the labels has a
    case or would have more than 64 bytes (longlabel).
    DATABASE            the path of the database; it is made if it is not there
    LABEL               what the labels begin with, as a label of file
    RULE                matching, fair, uniform, maximum or continuous
    ORDERS              the path of the order log
    TRADES              the path of the trade log
    --orders-form FORM  the form of the order log: csv, as without it, or fix
    --trades-form FORM  the form of the trade log: csv, as without it, or fix
    Example: desk file-all cases.db 2024-01-02 uniform orders.csv trades.csv
"
}

/// What `check` does.
#[tactic(auto, unfolding(crate::specs::Texts::check_help))]
fn check_help() -> &'static [u8]
    ensures { result.now ≡ text.check_help }
{
    b"check DATABASE LABEL ORDERS TRADES
    Audits two logs by the rule and on the symbol of a case, and tells whether they are
    its logs: same, or differs with the first of orders, trades and verdict that does.
    nodigest is a case that was filed by casebook, and nocase a label that has none.
    Each log is read twice, so it must be in a file.
    DATABASE            the path of the database; none is made
    LABEL               the label of the case
    ORDERS              the path of the order log
    TRADES              the path of the trade log
    --orders-form FORM  the form of the order log: csv, as without it, or fix
    --trades-form FORM  the form of the trade log: csv, as without it, or fix
    Example: desk check cases.db c1 orders.csv trades.csv
"
}

/// What `orders` does.
#[tactic(auto, unfolding(crate::specs::Texts::orders_help))]
fn orders_help() -> &'static [u8]
    ensures { result.now ≡ text.orders_help }
{
    b"orders START COUNT
    Writes a generated order log of one symbol, GEN, the same at each run, to feed an
    engine with and to audit the trades that come out. Each tenth record is a cancel,
    every other one an order with a limit. No log is read.
    START        from 1 to 2147483646: where the generator begins
    COUNT        how many records, from 1 to 1000000
    --form FORM  the form of the log: csv, as without it, or fix
    Example: desk orders 7 100000 >orders.csv
"
}

/// What `convert` does.
#[tactic(auto, unfolding(crate::specs::Texts::convert_help))]
fn convert_help() -> &'static [u8]
    ensures { result.now ≡ text.convert_help }
{
    b"convert orders|trades csv|fix PATH csv|fix
    Writes the records of a log in the second form: canonical CSV, or FIX messages. What
    is written has the same records, so it has the same verdicts.
    orders|trades  which log it is
    csv|fix        the form of the log, and behind PATH the form to write it in
    PATH           the path of the log
    Example: desk convert trades csv trades.csv fix >trades.fix
"
}

/// What `plain` does.
#[tactic(auto, unfolding(crate::specs::Texts::plain_help))]
fn plain_help() -> &'static [u8]
    ensures { result.now ≡ text.plain_help }
{
    b"plain DAY
    Writes the messages of a day as a FIX log that the other commands read: the same
    bodies in the same order, one on a line, each as FIX.4.4 with a length and a
    checksum of its own. What a message means is not read.
    DAY                 the path of the day: FIX 4.0 to 4.4 or FIXT 1.1, one message
                        right after another
    --lines             finds the messages on lines, behind anything, from 8=FIX on;
                        lines without a message are passed over
    --soh TEXT          with --lines: TEXT, 1 to 5 bytes from 0x21 to 0x7E, is for SOH
    --skip              with --lines: leaves bad messages out, each with the rest of its
                        line, where else the first of them ends the day
    --bad               with --lines: writes where the bad messages are and why, how many
                        there are, and how many messages in all; not with --skip
    Example: desk plain day.log --lines --soh '|' >orders.fix
"
}

/// What `contents` does.
#[tactic(auto, unfolding(crate::specs::Texts::contents_help))]
fn contents_help() -> &'static [u8]
    ensures { result.now ≡ text.contents_help }
{
    b"contents ORDERS TRADES
    Writes how many messages or records of each kind each log has, those that are
    passed over too, with why. Then which were passed over though they change what of
    an order may trade, how many symbols there are, and from when to when records are.
    ORDERS              the path of the order log
    TRADES              the path of the trade log
    --orders-form FORM  the form of the order log: csv, as without it, or fix
    --trades-form FORM  the form of the trade log: csv, as without it, or fix
    Example: desk contents orders.fix trades.fix --orders-form fix --trades-form fix
"
}

/// What `help` does.
#[tactic(auto, unfolding(crate::specs::Texts::help_help))]
fn help_help() -> &'static [u8]
    ensures { result.now ≡ text.help_help }
{
    b"help [COMMAND]
    Writes what each command does, or what COMMAND does: audit, session, offences,
    page, digest, file, file-all, check, orders, convert, plain, contents or help.
    --help alone does as help, and --version writes the version of the program and the
    kit that it is proved with.
    Example: desk help audit
"
}

/// What a command does, with its words, its options and an example.
fn command_help(command: DeskCommand) -> &'static [u8]
    ensures { result.now ≡ text.command_help command }
{
    match command {
        DeskCommand::Audit => audit_help(),
        DeskCommand::Session => session_help(),
        DeskCommand::Offences => offences_help(),
        DeskCommand::Page => page_help(),
        DeskCommand::Digest => digest_help(),
        DeskCommand::File => file_help(),
        DeskCommand::FileAll => file_all_help(),
        DeskCommand::Check => check_help(),
        DeskCommand::Orders => orders_help(),
        DeskCommand::Convert => convert_help(),
        DeskCommand::Plain => plain_help(),
        DeskCommand::Contents => contents_help(),
        DeskCommand::Help => help_help(),
    }
}

/// Appends an empty line, and a text after it.
#[tactic(auto, using(std::proofs::Common::append_assoc))]
fn append_after_empty_line(text: &[u8], out: &mut Vec<u8>) -> Result<(), NoMemory>
    ensures { OnOk result (out.new.items ≡ out.old.items ++ 10 ∷ text.now) }
{
    out.push(b'\n')?;
    out.extend_from_slice(text)?;
    Ok(())
}

/// Appends what each command about logs and cases does, with an empty line between two.
#[tactic(auto, using(crate::proofs::TextLemmas::eight_texts))]
fn append_judging_help(out: &mut Vec<u8>) -> Result<(), NoMemory>
    ensures { OnOk result (out.new.items ≡ out.old.items ++ text.judging_help) }
{
    out.extend_from_slice(audit_help())?;
    append_after_empty_line(session_help(), out)?;
    append_after_empty_line(offences_help(), out)?;
    append_after_empty_line(page_help(), out)?;
    append_after_empty_line(digest_help(), out)?;
    append_after_empty_line(file_help(), out)?;
    append_after_empty_line(file_all_help(), out)?;
    append_after_empty_line(check_help(), out)
}

/// Appends an empty line, and after it what each command that judges no log does, in the same way.
#[tactic(auto, using(crate::proofs::TextLemmas::five_texts))]
fn append_log_help(out: &mut Vec<u8>) -> Result<(), NoMemory>
    ensures { OnOk result (out.new.items ≡ out.old.items ++ 10 ∷ text.log_help) }
{
    append_after_empty_line(orders_help(), out)?;
    append_after_empty_line(convert_help(), out)?;
    append_after_empty_line(plain_help(), out)?;
    append_after_empty_line(contents_help(), out)?;
    append_after_empty_line(help_help(), out)
}

/// Appends what each command does, with an empty line between two.
#[tactic(auto, using(std::proofs::Common::append_assoc))]
fn append_whole_help(out: &mut Vec<u8>) -> Result<(), NoMemory>
    ensures { OnOk result (out.new.items ≡ out.old.items ++ text.whole_help) }
{
    append_judging_help(out)?;
    append_log_help(out)
}

/// Appends what each command does, or what one of them does. After `NoMemory` nothing is known
/// of `out`.
pub fn append_help(about: Option<DeskCommand>, out: &mut Vec<u8>) -> Result<(), NoMemory>
    ensures { OnOk result (out.new.items ≡ out.old.items ++ text.help_text about) }
{
    match about {
        Some(command) => {
            out.extend_from_slice(command_help(command))?;
            Ok(())
        }
        None => append_whole_help(out),
    }
}
