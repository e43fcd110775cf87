//! That what a command leaves is one, and that what was filed is found to be the same. Nothing is
//! computed here: a law is a function's contract, so that the check proves it, and a caller has it
//! by a call that costs nothing.
ghost use Rattle.desk_filing.specs.Laws.{FiledCallIsSame, FiledIsFound, FiledIsSame, OneFilingTurn};

use day_verdicts::laws::verdicts_are_one;
use record_verdict::laws::record_verdict_is_one;

/// Over the same logs and from the same cases and digests on file, what is asked leaves one list of
/// cases and digests, one text and one status: so what the contract of a call says of them is one
/// answer.
pub fn one_filing_turn()
    ensures { OneFilingTurn }
{
    record_verdict_is_one();
    verdicts_are_one();
}

/// What `file` leaves on file where it is done, `check` of the same logs finds to be the same: it
/// answers 0 and files nothing. So do two calls, the second of which finds on file what the keeper
/// of the first had when it was handed back, where the second is answered with 0 or 1 at all.
pub fn filed_is_same()
    ensures turns { FiledIsSame }
    ensures found { FiledIsFound }
    ensures calls { FiledCallIsSame }
{
    record_verdict_is_one();
}
