//! The lines of the text of a day, and the fields of a line, as slices of the text.
ghost use Rattle.std.specs.Prelude.{◌≡◌, ◌<◌, length};
ghost use Rattle.std.specs.List.{after_first, before_first, position};
ghost use Rattle.audit_base.specs.Names.{is_comma};
ghost use Rattle.day_page.specs.DayLines as spec;

/// Whether a field is this word.
pub(crate) fn is_word(field: &[u8], word: &[u8]) -> bool
    ensures { result ≡ spec.is_word field.now word.now }
{
    field == word
}

/// The place of the first LF.
fn line_end_in(text: &[u8]) -> Option<usize>
    ensures { result ≡ position spec.is_newline text.now }
{
    text.iter().position(|byte| *byte == b'\n')
}

/// The place of the first comma.
fn comma_in(line: &[u8]) -> Option<usize>
    ensures { result ≡ position is_comma line.now }
{
    line.iter().position(|byte| *byte == b',')
}

/// The first line of a text.
#[tactic(auto, unfolding(crate::specs::DayLines::first_line))]
pub(crate) fn first_line(text: &[u8]) -> &[u8]
    ensures { result.now ≡ spec.first_line text.now }
{
    match line_end_in(text) {
        Some(at) => &text[..at],
        None => text,
    }
}

/// What is behind the first line of a text.
#[tactic(auto, unfolding(crate::specs::DayLines::behind_line))]
pub(crate) fn behind_line(text: &[u8]) -> &[u8]
    requires { 0 < length text.now }
    ensures same { result.now ≡ spec.behind_line text.now }
    ensures shorter { length result.now < length text.now }
{
    match line_end_in(text) {
        Some(at) => &text[at + 1..],
        None => &[],
    }
}

/// What is behind the first comma of a line.
fn behind_comma(line: &[u8]) -> &[u8]
    ensures { result.now ≡ after_first is_comma line.now }
{
    match comma_in(line) {
        Some(at) => &line[at + 1..],
        None => &[],
    }
}

/// What is behind so many commas of a line.
pub(crate) fn behind_commas(line: &[u8], count: usize) -> &[u8]
    ensures { result.now ≡ spec.behind_commas count line.now }
{
    let mut rest = line;
    for comma in 0..count {
        rest = behind_comma(rest);
    }
    rest
}

/// What is before the first comma of a line.
fn before_comma(line: &[u8]) -> &[u8]
    ensures { result.now ≡ before_first is_comma line.now }
{
    match comma_in(line) {
        Some(at) => &line[..at],
        None => line,
    }
}

/// The field of a line behind so many commas.
#[tactic(auto, unfolding(crate::specs::DayLines::field_at))]
pub(crate) fn field_at(line: &[u8], count: usize) -> &[u8]
    ensures { result.now ≡ spec.field_at count line.now }
{
    before_comma(behind_commas(line, count))
}
