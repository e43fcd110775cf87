//! Laws of `page`, apart from the code. Nothing is computed here: a law is a function's contract, so
//! that the check proves it.
ghost use Rattle.desk_page.specs.Laws.{OffencesHaveThePagesVerdict, PageTellsItsWords};

use further_checks::laws::nothing_is_found_unasked;
use page_parts::laws::shell_reads_command;
use record_verdict::laws::record_verdict_is_one;

/// The words that stand on a page, as a shell reads them, ask `offences` what the page is about.
pub fn page_tells_its_words()
    ensures { PageTellsItsWords }
{
    // A law that this one rests on. It computes nothing.
    shell_reads_command();
}

/// What these words ask for has the verdict of the page.
pub fn offences_have_the_pages_verdict()
    ensures { OffencesHaveThePagesVerdict }
{
    // Laws that this one rests on. They compute nothing.
    record_verdict_is_one();
    nothing_is_found_unasked();
}
