//! What is read from bodies, in which `|` is SOH: `35:3-4` is a field with tag 35 whose
//! value is at byte 3, and ends before byte 4.
use audit_base::sizes::LONGEST_BODY;
use fix_fields::field::{Field, FieldFault, Found};
use fix_fields::find::find_field;
use fix_fields::split::{fields, read_fields};
use std::alloc::{AllocError, Global};
use std::fmt::Write;
use std::process::Abort;
use std::test::Fail;

/// Bodies of messages, and their fields.
const MESSAGES: [(&str, &str); 8] = [
    (
        "35=D|49=A|11=1|60=20240102-09:00:00|55=Z|54=1|38=100|40=2|44=10|",
        "35:3-4 49:8-9 11:13-14 60:18-35 55:39-40 54:44-45 38:49-52 40:56-57 44:61-63",
    ),
    (
        "35=D|49=B|11=2|60=20240102-09:00:01|55=Z|54=2|38=100|40=2|44=9|",
        "35:3-4 49:8-9 11:13-14 60:18-35 55:39-40 54:44-45 38:49-52 40:56-57 44:61-62",
    ),
    (
        "35=D|49=A|11=1|60=20240102-09:00:00|55=Z|54=1|38=100|40=1|44=10|",
        "35:3-4 49:8-9 11:13-14 60:18-35 55:39-40 54:44-45 38:49-52 40:56-57 44:61-63",
    ),
    (
        "35=D|49=A|11=1|60=20240102-09:00:00|55=Z|54=1|38=100|40=2|",
        "35:3-4 49:8-9 11:13-14 60:18-35 55:39-40 54:44-45 38:49-52 40:56-57",
    ),
    (
        "35=G|49=B|11=3|60=20240102-09:00:02|55=Z|41=2|54=2|38=100|40=2|44=9.5|",
        "35:3-4 49:8-9 11:13-14 60:18-35 55:39-40 41:44-45 54:49-50 38:54-57 40:61-62 44:66-69",
    ),
    ("35=0|", "35:3-4"),
    (
        "35=D|34=2|49=A|52=20240102-09:00:00|56=X|11=1|453=2|448=P|447=D|452=1|448=Q|447=D|452=3|55=Z|54=1|38=100|40=2|44=10|59=0|60=20240102-09:00:00|",
        "35:3-4 34:8-9 49:13-14 52:18-35 56:39-40 11:44-45 453:50-51 448:56-57 447:62-63 452:68-69 448:74-75 447:80-81 452:86-87 55:91-92 54:96-97 38:101-104 40:108-109 44:113-115 59:119-120 60:124-141",
    ),
    (
        "35=8|49=X|56=A|11=1|150=F|527=T1|55=Z|54=1|32=100|31=9.5|60=20240102-09:00:02|",
        "35:3-4 49:8-9 56:13-14 11:18-19 150:24-25 527:30-32 55:36-37 54:41-42 32:46-49 31:53-56 60:60-77",
    ),
];

/// Data fields, whose values are read by length.
const DATA: [(&str, &str); 21] = [
    // The data holds SOH, `=`, or nothing.
    ("35=D|95=3|96=a|b|", "35:3-4 95:8-9 96:13-16"),
    ("35=D|93=4|89=x=|y|", "35:3-4 93:8-9 89:13-17"),
    ("35=D|95=0|96=|", "35:3-4 95:8-9 96:13-13"),
    (
        "35=D|95=0000002|96=|||58=x|",
        "35:3-4 95:8-15 96:19-21 58:25-26",
    ),
    (
        "35=D|95=1|96=a|95=3|96=|=||",
        "35:3-4 95:8-9 96:13-14 95:18-19 96:23-26",
    ),
    // Without the other field of their pair they are ordinary fields.
    ("35=D|96=ab|", "35:3-4 96:8-10"),
    ("35=D|96=a|b|", "field 10"),
    ("35=D|95=3|58=x|96=a|b|", "field 20"),
    ("35=D|95=x|58=y|", "35:3-4 95:8-9 58:13-14"),
    ("35=D|95=99999999|58=x|", "35:3-4 95:8-16 58:20-21"),
    ("35=D|90=2|96=a|b|", "field 15"),
    ("35=D|95=3|91=a|b|", "field 15"),
    ("35=D|95=1|96=a|96=b|c|", "field 20"),
    // A length that is not that of the data, or not in its form: the data field cannot be read.
    ("35=D|95=9|96=ab|", "field 10"),
    ("35=D|95=2|96=ab", "field 10"),
    ("35=D|95=3|96=ab|", "field 10"),
    ("35=D|95=1|96=ab|", "field 10"),
    ("35=D|95=0|96=a|", "field 10"),
    ("35=D|95=00000002|96=ab|", "field 17"),
    ("35=D|95=x|96=ab|", "field 10"),
    ("35=D|95=+1|96=a|", "field 11"),
];

/// Bodies that fail a test, beside those that just pass it.
const FAULTS: [(&str, &str); 23] = [
    // The tag has 1 to 9 digits and no leading zero.
    ("35=D|999999999=x|", "35:3-4 999999999:15-16"),
    ("35=D|1234567890=x|", "field 5"),
    ("35=D|05=x|", "field 5"),
    ("35=D|0=x|", "field 5"),
    ("035=D|", "field 0"),
    ("35=D|=x|", "field 5"),
    ("35=D|+1=x|", "field 5"),
    ("35=D|5 8=x|", "field 5"),
    ("35=D|58|49=x|", "field 5"),
    ("35=D|58", "field 5"),
    // The value has a byte, and SOH is after it.
    ("35=D|58=a=b|", "35:3-4 58:8-11"),
    ("35=D|58=|", "field 5"),
    ("35=D|58=", "field 5"),
    ("35=D|58=a", "field 5"),
    ("35=D||", "field 5"),
    ("|", "field 0"),
    // The type comes first, but a field that cannot be read comes before that.
    ("", "type"),
    ("49=A|", "type"),
    ("49=A|35=D|", "type"),
    ("95=3|96=a|b|", "type"),
    ("49=A|58=|", "field 5"),
    ("35=|", "field 0"),
    ("35=D", "field 0"),
];

#[test]
fn messages_are_read(rt: HostRuntime) -> Result<(), Fail> {
    for &(body, wanted) in &MESSAGES {
        let bytes = bytes_of(rt.alloc(), body)?;
        assert!(rt; bytes.len() <= LONGEST_BODY);
        let list = fields(rt.alloc(), &bytes)?;
        assert!(rt; ranges(rt.alloc(), &list)?.as_str() == wanted, "{body}");
        assert!(rt; find_field(&list, 35) == Found::One(0), "{body}");
    }
    Ok(())
}

// Each body is read into a list that the bodies before it were read into.
#[test]
fn other_bodies_are_read(rt: HostRuntime) -> Result<(), Fail> {
    let mut list = Vec::new(rt.alloc());
    for rows in [DATA.as_slice(), FAULTS.as_slice()] {
        for &(body, wanted) in rows {
            let read = answer(&rt, rt.alloc(), body, &mut list)?;
            assert!(rt; read.as_str() == wanted, "{body}");
        }
    }
    Ok(())
}

/// The answer for a body, read into a list that other bodies were read into before.
fn answer(
    rt: &impl Abort,
    alloc: Global,
    body: &str,
    list: &mut Vec<Field>,
) -> Result<String, AllocError> {
    let bytes = bytes_of(alloc, body)?;
    assert!(rt; bytes.len() <= LONGEST_BODY);
    match read_fields(&bytes, list) {
        Ok(()) => ranges(alloc, list),
        Err(FieldFault::Field(at)) => format!(in alloc; "field {at}"),
        Err(FieldFault::MsgType) => String::from_str(alloc, "type"),
        Err(FieldFault::Memory) => Err(AllocError),
    }
}

fn bytes_of(alloc: Global, body: &str) -> Result<Vec<u8>, AllocError> {
    let mut bytes = Vec::new(alloc);
    for byte in body.as_bytes() {
        bytes.push(if *byte == b'|' { 1 } else { *byte })?;
    }
    Ok(bytes)
}

fn ranges(alloc: Global, list: &[Field]) -> Result<String, AllocError> {
    let mut text = String::new(alloc);
    for field in list {
        if !text.is_empty() {
            text.push(' ')?;
        }
        write!(text, "{}:{}-{}", field.tag, field.from, field.to)?;
    }
    Ok(text)
}
