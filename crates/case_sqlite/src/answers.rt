//! The cases in the rows of an answer. Each row is tested again, whatever the query asked for.
ghost use Rattle.std.specs.Prelude.{◌≡◌, IfOk, IfSome, option_map};
ghost use Rattle.case_keeper.specs.Cases.{has_label, passes_filter};
ghost use Rattle.case_sqlite.specs.CaseRows.{rows_of_case};
ghost use Rattle.case_sqlite.specs.Readings.{case_that, cases_that, one_case_that};

use crate::case_rows::read_case;
use audit_base::faults::NoMemory;
use audit_base::names::Name;
use case_keeper::case::{Case, Filter};
use case_keeper::keeper::KeepFault;
use sqlite::Row;
use std::alloc::Global;

/// The case in a row, if it has the label.
fn case_with_label(row: &Row, label: &Name) -> Option<Case>
    ensures { result ≡ case_that (has_label label.now) row.now }
{
    let case = read_case(row)?;
    if case.label == *label {
        Some(case)
    } else {
        None
    }
}

/// The case in a row, if it passes the filter.
fn case_passing(row: &Row, filter: &Filter) -> Option<Case>
    ensures { result ≡ case_that (passes_filter filter.now) row.now }
{
    let case = read_case(row)?;
    if filter.passes(&case) {
        Some(case)
    } else {
        None
    }
}

/// What the rows with a label say: no case where there is none, else the case of the one row.
/// It fails where that row is no case or has another label, and where there are two.
pub fn one_with_label(rows: &[Row], label: &Name) -> Result<Option<Case>, KeepFault>
    ensures rows { IfOk result (λ found. rows.now ≡ rows_of_case found) }
    ensures labelled { IfOk result (λ found. IfSome found (λ case. case.label ≡ label.now)) }
    ensures form { result ≡ one_case_that (has_label label.now) rows.now }
{
    match rows {
        [] => Ok(None),
        [row] => match case_with_label(row, label) {
            Some(case) => Ok(Some(case)),
            None => Err(KeepFault::Failed),
        },
        _ => Err(KeepFault::Failed),
    }
}

/// The cases in the rows, in their order. None where a row is no case or does not pass the
/// filter.
pub(crate) fn all_passing(
    alloc: Global,
    rows: &[Row],
    filter: &Filter,
) -> Result<Option<Vec<Case>>, NoMemory>
    ensures { IfOk result (λ told.
        option_map (λ cases. cases.items) told ≡ cases_that (passes_filter filter.now) rows.now) }
{
    let mut cases = Vec::new(alloc);
    for row in rows {
        let Some(case) = case_passing(row, filter) else {
            return Ok(None);
        };
        cases.push(case)?;
    }
    Ok(Some(cases))
}
