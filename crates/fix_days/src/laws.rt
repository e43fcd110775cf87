//! Laws of days, apart from the code. Nothing is computed here: a law is a function's contract, so
//! that the check proves it.
ghost use Rattle.fix_days.specs.Laws.{FixLogsAreDays, FramedDaysAreReadOnce, GoodDaysAreReadAlike, LineDaysAreReadOnce, LinesAloneAreReadOnce, SohStandsForItself, WrittenDaysAreRead};

/// Each day that is read as framed, however long, has one reading: a list of bodies, and the first
/// bad message after them, if there is one.
pub fn days_have_one_reading()
    ensures framed { FramedDaysAreReadOnce }
{}

/// Each day that is read on lines, however long and whatever text stands for SOH in it, has one
/// reading: a list of bodies, and the first bad message after them, if there is one.
pub fn days_on_lines_have_one_reading()
    ensures { LineDaysAreReadOnce }
{}

/// Each day on lines, however long and whatever text stands for SOH in it, has one list of messages,
/// good and bad, where each line is read alone.
pub fn lines_alone_have_one_reading()
    ensures { LinesAloneAreReadOnce }
{}

/// A day on lines of which no message is bad has the same messages where each line is read alone.
pub fn good_days_are_read_alike()
    ensures { GoodDaysAreReadAlike }
{}

/// With SOH given as the text for SOH, the bytes of a day on lines stand for themselves.
pub fn soh_stands_for_itself()
    ensures { SohStandsForItself }
{}

/// A FIX log whose messages are all of FIX 4.4 is read, as framed, as the bodies of its messages.
pub fn fix_logs_are_days()
    ensures { FixLogsAreDays }
{}

/// Messages that are written with any bodies of at most 1,048,576 bytes, one on a line, are read
/// back as these bodies.
pub fn written_days_are_read_again()
    ensures framed { WrittenDaysAreRead }
{}
