//! Laws of plain days, apart from the code. Nothing is computed here: a law is a function's
//! contract, so that the check proves it.
ghost use Rattle.plain_logs.specs.Laws.{FramedBodiesFit, GoodDaysAreWrittenAlike, GoodMessagesAreRead, LineBodiesFit, PlainIsRead, PlainOfFixLogs, PlainOfPlain};

use fix_days::laws::{
    days_have_one_reading, fix_logs_are_days, good_days_are_read_alike, written_days_are_read_again,
};

/// Each body that is read of a day fits a message.
pub fn bodies_fit_messages()
    ensures framed { FramedBodiesFit }
    ensures on_lines { LineBodiesFit }
{}

/// What is written of a day, in whatever dress, is framed again as the bodies that were read of it;
/// and made plain once more it stays the same.
pub fn plain_days_stay_plain()
    ensures read { PlainIsRead }
    ensures again { PlainOfPlain }
{
    bodies_fit_messages();
    days_have_one_reading();
    written_days_are_read_again();
}

/// A FIX log of FIX 4.4 is written as the plain text of the bodies of its messages.
pub fn fix_logs_are_plain()
    ensures { PlainOfFixLogs }
{
    days_have_one_reading();
    fix_logs_are_days();
}

/// What is written of a day on lines whose bad messages are left out is framed again as the bodies
/// of its good messages; and where no message is bad, it is what is written of the whole day.
pub fn good_messages_stay_plain()
    ensures read { GoodMessagesAreRead }
    ensures alike { GoodDaysAreWrittenAlike }
{
    bodies_fit_messages();
    written_days_are_read_again();
    good_days_are_read_alike();
}
