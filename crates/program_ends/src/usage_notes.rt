//! What is said of words that are not well-formed: the first that is wrong or missing, and what
//! may be there.
use crate::asked::{Asked, ProgramName};
use crate::command_parts::{CommandParts, commands_of, parts_of};
use crate::notes::Notes;
use crate::option_faults::{OptionFault, option_fault};
use crate::option_parts::{OptionList, OptionPart, option_named};
use crate::word_parts::WordPart;
use audit_base::names::read_name;
use audit_base::terms::Rule;
use command_words::word_forms::rule_named;
use std::io;

/// Says that a part has a word that does not fit. `--` stands before it, or nowhere.
fn print_misfit<N: Notes>(
    notes: &N,
    program: &str,
    known: &CommandParts,
    part: WordPart,
    word: &str,
    is_marked: bool,
) {
    let (name, wanted) = (part.name(), part.wanted());
    let _written = if is_marked && option_named(known.options, word).is_some() {
        eprintln!(notes; "{program}: no {name} '{word}': options stand before '--'")
    } else if option_named(known.options, word).is_some() {
        eprintln!(notes; "{program}: no {name} '{word}': options stand behind all other words")
    } else {
        eprintln!(notes; "{program}: no {name} '{word}': {wanted}")
    };
}

/// Whether a word may be given for a part: a symbol may begin with `-` behind `--` alone.
fn takes_word(part: WordPart, word: &str, is_marked: bool) -> bool {
    part.takes(word)
        || is_marked && part == WordPart::Symbol && read_name(word.as_bytes()).is_some()
}

/// Says which is the first part that a word does not fit or that has none, and whether there is
/// one. `--` stands before the words, or nowhere.
fn prints_part<N: Notes>(
    notes: &N,
    program: &str,
    known: &CommandParts,
    words: &[String],
    is_marked: bool,
) -> bool {
    let mut rest = words.iter();
    for part in known.parts {
        let Some(word) = rest.next() else {
            if known.may_end {
                return false;
            }
            let (name, wanted) = (part.name(), part.wanted());
            let _written = eprintln!(notes; "{program}: no {name} is given: {wanted}");
            return true;
        };
        if !takes_word(*part, word.as_str(), is_marked) {
            print_misfit(notes, program, known, *part, word.as_str(), is_marked);
            return true;
        }
    }
    false
}

/// The words behind so many.
fn words_behind(words: &[String], count: usize) -> &[String] {
    if count <= words.len() {
        &words[count..]
    } else {
        &[]
    }
}

/// The rule that is among the words of a command, where it has one.
fn rule_in(known: &CommandParts, words: &[String]) -> Option<Rule> {
    let mut rest = words.iter();
    for part in known.parts {
        let word = rest.next()?;
        if *part == WordPart::Rule {
            return rule_named(word.as_str());
        }
    }
    None
}

/// Says that nothing may stand where a word does.
fn write_too_much<N: Notes>(notes: &N, program: &str, word: &str) -> io::Result<()> {
    eprintln!(notes;
        "{program}: '{word}' is too much: nothing may stand behind the words before it"
    )
}

/// Says that a word behind all parts is no option of the command.
fn print_unknown<N: Notes>(notes: &N, program: &str, known: &CommandParts, word: &str) {
    let options = OptionList {
        options: known.options,
    };
    let _written = if !known.options.is_empty() {
        eprintln!(notes; "{program}: no option '{word}': {options}")
    } else if word.starts_with('-') {
        eprintln!(notes; "{program}: no option '{word}': there is none here")
    } else {
        write_too_much(notes, program, word)
    };
}

/// Says that an option is given twice.
fn print_twice<N: Notes>(notes: &N, program: &str, option: OptionPart, value: Option<&str>) {
    let word = option.word();
    let _written = match value {
        Some(value) => {
            eprintln!(notes;
                "{program}: option '{word}' is given twice, the second time with '{value}'"
            )
        }
        None => eprintln!(notes; "{program}: option '{word}' is given twice"),
    };
}

/// Says that an option has no value, or one that it may not have.
fn print_value<N: Notes>(notes: &N, program: &str, option: OptionPart, value: Option<&str>) {
    let Some(part) = option.value() else {
        return;
    };
    let (word, name, wanted) = (option.word(), part.name(), part.wanted());
    let _written = match value {
        Some(value) => {
            eprintln!(notes; "{program}: no {name} '{value}' for option '{word}': {wanted}")
        }
        None => eprintln!(notes; "{program}: no {name} is given for option '{word}': {wanted}"),
    };
}

/// Says that an option does not go with the rule.
fn print_rule_misfit<N: Notes>(notes: &N, program: &str, option: OptionPart, rule: Option<Rule>) {
    let (word, rules) = (option.word(), option.rules());
    let name = match rule {
        Some(rule) => str::from_utf8(rule.word()).unwrap_or(""),
        None => "",
    };
    let _written = eprintln!(notes;
        "{program}: option '{word}' does not go with rule '{name}': it goes with {rules}"
    );
}

/// Says that of two options the first does not go with the other, or not without it.
fn print_pair<N: Notes>(notes: &N, program: &str, how: &str, first: OptionPart, other: OptionPart) {
    let (first, other) = (first.word(), other.word());
    let _written = eprintln!(notes;
        "{program}: option '{first}' does not go {how} option '{other}'"
    );
}

/// Says what is wrong with options.
fn print_option_fault<N: Notes>(
    notes: &N,
    program: &str,
    known: &CommandParts,
    rule: Option<Rule>,
    fault: OptionFault<'_>,
) {
    match fault {
        OptionFault::Unknown(word) => print_unknown(notes, program, known, word),
        OptionFault::Twice(option, value) => print_twice(notes, program, option, value),
        OptionFault::NoValue(option) => print_value(notes, program, option, None),
        OptionFault::Value(option, value) => print_value(notes, program, option, Some(value)),
        OptionFault::Rule(option) => print_rule_misfit(notes, program, option, rule),
        OptionFault::Both(first, other) => print_pair(notes, program, "with", first, other),
        OptionFault::Alone(first, other) => print_pair(notes, program, "without", first, other),
    }
}

/// Says what is wrong with words as options of a command, by a rule where it has one, and whether
/// something is.
fn prints_option<N: Notes>(
    notes: &N,
    program: &str,
    known: &CommandParts,
    rule: Option<Rule>,
    words: &[String],
) -> bool {
    match option_fault(known.options, words, rule) {
        Some(fault) => {
            print_option_fault(notes, program, known, rule, fault);
            true
        }
        None => false,
    }
}

/// Says what is wrong with the words behind that of a command, and whether something is: with a
/// part, or else with an option behind the parts.
fn prints_in_order<N: Notes>(
    notes: &N,
    program: &str,
    known: &CommandParts,
    words: &[String],
) -> bool {
    if prints_part(notes, program, known, words, false) {
        return true;
    }
    let options = words_behind(words, known.parts.len());
    prints_option(notes, program, known, rule_in(known, words), options)
}

/// The same of words that stand behind `--`, and of the options before it.
fn prints_marked<N: Notes>(
    notes: &N,
    program: &str,
    known: &CommandParts,
    options: &[String],
    words: &[String],
) -> bool {
    if prints_part(notes, program, known, words, true) {
        return true;
    }
    if let Some(word) = words_behind(words, known.parts.len()).first() {
        let _written = write_too_much(notes, program, word.as_str());
        return true;
    }
    prints_option(notes, program, known, rule_in(known, words), options)
}

/// Whether a command has a symbol.
fn has_symbol(known: &CommandParts) -> bool {
    for part in known.parts {
        if *part == WordPart::Symbol {
            return true;
        }
    }
    false
}

/// The place of `--` among the words behind that of a command of `desk` with a symbol, where it or
/// an option is the first of them.
fn mark_place(program: &str, known: &CommandParts, words: &[String]) -> Option<usize> {
    let first = words.first()?;
    if program != ProgramName::Desk.word() || !has_symbol(known) || !first.starts_with('-') {
        return None;
    }
    words.iter().position(|word| word.as_str() == "--")
}

/// Says what is wrong with the words behind that of a command, in either order, and whether
/// something is.
fn prints_words<N: Notes>(
    notes: &N,
    program: &str,
    known: &CommandParts,
    words: &[String],
) -> bool {
    let mark = mark_place(program, known, words);
    match mark {
        Some(place) if place < words.len() => {
            prints_marked(notes, program, known, &words[..place], &words[place + 1..])
        }
        _ => prints_in_order(notes, program, known, words),
    }
}

/// Says what is wrong with a command and its words, and whether something is.
fn prints_command<N: Notes>(notes: &N, program: ProgramName, words: &[String]) -> bool {
    let (name, commands) = (program.word(), commands_of(program));
    let Some((command, rest)) = words.split_first() else {
        let _written = eprintln!(notes; "{name}: no command is given: {commands}");
        return true;
    };
    match parts_of(program, command.as_str()) {
        Some(known) => prints_words(notes, name, &known, rest),
        None => {
            let _written = eprintln!(notes; "{name}: no command '{command}': {commands}");
            true
        }
    }
}

/// Says what is wrong with the words of one command, where `prints_command` finds nothing.
fn print_one_command<N: Notes>(notes: &N, program: ProgramName, words: &[String]) {
    if !prints_command(notes, program, words) {
        let name = program.word();
        let _written = eprintln!(notes; "{name}: these words do not go together");
    }
}

/// Says what is wrong with the first command of `casebook` in which something is.
fn print_commands<N: Notes>(notes: &N, words: &[String]) {
    let first = words.iter().position(|word| word.as_str() == "then");
    match first {
        Some(place) => {
            if !prints_command(notes, ProgramName::Casebook, &words[..place]) {
                print_commands(notes, &words[place + 1..]);
            }
        }
        None => print_one_command(notes, ProgramName::Casebook, words),
    }
}

/// Says what is wrong with words that are none of `casebook`.
fn print_casebook_usage<N: Notes>(notes: &N, words: &[String]) {
    let Some((_database, commands)) = words.split_first() else {
        let wanted = WordPart::Path.wanted();
        let _written = eprintln!(notes; "casebook: no database is given: {wanted}");
        return;
    };
    print_commands(notes, commands);
}

/// Says what is wrong with words that a program does not take: of `casebook` with the first of its
/// commands in which something is.
pub fn print_usage<N: Notes>(notes: &N, asked: &Asked<'_>) {
    match asked.program {
        ProgramName::Casebook => print_casebook_usage(notes, asked.words),
        program => print_one_command(notes, program, asked.words),
    }
}

/// Whether the words have an option for the form of an order log.
pub(crate) fn has_form_options(asked: &Asked<'_>) -> bool {
    let Some(command) = asked.words.first() else {
        return false;
    };
    match parts_of(asked.program, command.as_str()) {
        Some(known) => option_named(known.options, OptionPart::OrdersForm.word()).is_some(),
        None => false,
    }
}
