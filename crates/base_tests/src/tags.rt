//! Where tags are among the fields of a body, and a body that is written.
use audit_base::sizes::LONGEST_BODY;
use fix_fields::field::{Field, Found, ValueSpan};
use fix_fields::find::find_field;
use fix_fields::notes::TagNotes;
use fix_fields::split::fields;
use fix_fields::write::write_field;
use std::test::Fail;

/// A tag that is there once, one that is there three times, and one that is not there.
const FOUND: [(u32, Found); 4] = [
    (35, Found::One(0)),
    (448, Found::Many(1)),
    (447, Found::One(2)),
    (44, Found::Absent),
];

#[test]
fn the_first_field_is_found(rt: HostRuntime) {
    let fields = [35, 448, 447, 448, 448].map(|tag| Field {
        tag,
        from: 0,
        to: 1,
    });
    for &(tag, wanted) in &FOUND {
        assert!(rt; find_field(&fields, tag) == wanted, "{tag}");
    }
}

#[test]
fn noted_tags_are_found(rt: HostRuntime) {
    let mut notes = TagNotes::new();
    assert!(rt; notes.find(35) == ValueSpan::Absent);
    let noted = [(35, 3), (34, 8), (11, 14), (527, 20)].map(|(tag, from)| Field {
        tag,
        from,
        to: 30,
    });
    notes.note(&noted);
    assert!(rt; notes.find(35) == ValueSpan::One { from: 3, to: 30 });
    assert!(rt; notes.find(527) == ValueSpan::One { from: 20, to: 30 });
    assert!(rt; notes.find(55) == ValueSpan::Absent);
    let repeated = [(35, 3), (55, 8), (55, 14), (55, 20)].map(|(tag, from)| Field {
        tag,
        from,
        to: 30,
    });
    notes.note(&repeated);
    assert!(rt; notes.find(55) == ValueSpan::Many { from: 8, to: 30 });
    assert!(rt; notes.find(11) == ValueSpan::Absent);
}

#[test]
fn a_written_body_is_read_again(rt: HostRuntime) -> Result<(), Fail> {
    let mut body = Vec::new(rt.alloc());
    write_field(rt.alloc(), 35, b"D", &mut body)?;
    write_field(rt.alloc(), 44, b"10", &mut body)?;
    write_field(rt.alloc(), 999_999_999, b"a=b", &mut body)?;
    assert!(rt; body.as_slice() == b"35=D\x0144=10\x01999999999=a=b\x01".as_slice());
    assert!(rt; body.len() <= LONGEST_BODY);
    let read = fields(rt.alloc(), &body)?;
    assert!(rt; find_field(&read, 44) == Found::One(1));
    assert!(rt; body.get(read[1].from..read[1].to) == Some(b"10".as_slice()));
    Ok(())
}
