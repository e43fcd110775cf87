//! Lists that are made answer by answer.
ghost use Rattle.std.specs.Prelude.{◌≡◌, OnOk};
ghost use Rattle.offence_list.specs.Answers.{with_answer};

use audit_base::faults::NoMemory;

/// Puts an answer at the end of the list, where there is one.
pub fn push_answer<T: Drop>(answers: &mut Vec<T>, answer: Option<T>) -> Result<(), NoMemory>
    ensures { OnOk result (answers.new.items ≡ with_answer answers.old.items answer) }
{
    if let Some(answer) = answer {
        answers.push(answer)?;
    }
    Ok(())
}
