//! What holds of every row of the table. Nothing is computed here: a law is a function's
//! contract, so that the check proves it.
ghost use Rattle.case_sqlite.specs.Laws.{RowHasOneCase, WrittenCaseIsRead};

/// No row is the row of two cases.
pub fn a_row_has_one_case()
    ensures { RowHasOneCase }
{}

/// What is read of the row of a case is this case.
pub fn a_written_case_is_read()
    ensures { WrittenCaseIsRead }
{}
