//! What holds of all counted kinds, in one sentence each. Nothing is computed here: a law is a
//! function's contract, so that the check proves it.
ghost use Rattle.fix_messages.specs.OrderTables.{order_of_message};
ghost use Rattle.fix_messages.specs.ReportTable.{report_of_message};
ghost use Rattle.log_contents.specs.Laws.{CountsSumToAll, EachKindOnce, EachMessageHasKind, NothingIsForged};

/// Each kind is there once, and the counts of all sum to how many messages or records there are:
/// none is left out, and none is counted twice.
pub fn each_is_counted_once()
    ensures once { EachKindOnce }
    ensures all { CountsSumToAll }
{}

/// Each message of a FIX log that is good has a kind, so a log has as many kinds as messages.
pub fn each_message_has_a_kind()
    ensures orders { EachMessageHasKind order_of_message }
    ensures reports { EachMessageHasKind report_of_message }
{}

/// Whatever the values of the messages of two logs are, each line of the text of their contents is of
/// one of its four kinds, and no value writes a line or a field of its own.
pub fn nothing_is_forged()
    ensures { NothingIsForged }
{}
