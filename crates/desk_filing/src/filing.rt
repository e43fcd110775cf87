//! Filing cases in a database that is open: all of them or none.
ghost use Rattle.std.specs.Prelude.{◌≡◌, ◌≤◌};
ghost use Rattle.desk_filing.specs.Steps.{FilesOrStops, FindsFirst, case_lines};

use case_keeper::keeper::KeepFault;
use case_run::answers::{CaseAnswer, known_text};
use case_run::halts::Halt;
use case_run::statuses::CaseStatus;
use digest_keeper::digested::{DigestedCase, KeptCase};
use digest_keeper::keeper::DigestKeeper;
use std::alloc::Global;

/// Of these cases, the first whose label has a case on file, by that case.
fn first_known<B: DigestKeeper>(
    cases: &[DigestedCase],
    keeper: &mut B,
) -> Result<Option<KeptCase>, KeepFault>
    ensures { FindsFirst (B.state keeper.old) (B.state keeper.new) cases.now result }
{
    let mut rest = cases;
    while let Some((one, others)) = rest.split_first() {
        if let Some(known) = keeper.find(&one.case.label)? {
            return Ok(Some(known));
        }
        rest = others;
    }
    Ok(None)
}

/// Files the cases, whose lines are this text, unless a label has a case.
pub(crate) fn file_in<B: DigestKeeper>(
    alloc: Global,
    cases: &[DigestedCase],
    text: Vec<u8>,
    keeper: &mut B,
) -> Result<CaseAnswer, Halt>
    requires { text.items ≡ case_lines cases.now }
    ensures files { FilesOrStops (B.state keeper.old) (B.state keeper.new) cases.now result }
    ensures later { (B.state keeper.old).faults ≤ (B.state keeper.new).faults }
{
    match first_known(cases, keeper)? {
        Some(known) => Ok(CaseAnswer {
            status: CaseStatus::Refused,
            text: known_text(alloc, &known.case)?,
            stop: None,
        }),
        None => {
            keeper.file_all(cases)?;
            Ok(CaseAnswer {
                status: CaseStatus::Done,
                text,
                stop: None,
            })
        }
    }
}
