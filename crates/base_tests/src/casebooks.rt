//! A casebook over a keeper in memory: one whose calls fail, and filters.
use audit_base::findings::Property;
use audit_base::names::{Name, read_name};
use audit_base::terms::{Rule, Which};
use case_keeper::case::{Case, Filter, Mark, Offence};
use case_keeper::casebook::{Casebook, Filed};
use case_keeper::map_keeper::MapKeeper;
use std::process::Abort;
use std::test::Fail;

fn name(rt: &impl Abort, text: &str) -> Name {
    read_name(text.as_bytes()).expect(rt, "a name")
}

// Filing makes two calls: it finds the label, and adds the case.
#[test]
fn a_case_is_kept_where_no_call_fails(rt: HostRuntime) -> Result<(), Fail> {
    let case = accepted(&rt, "c1", "Z");
    let all = Filter {
        symbol: None,
        mark: None,
    };
    for (fails, kept) in [(1, 0), (2, 0), (4, 1)] {
        let list = Vec::from_slice(rt.alloc(), &[fails])?;
        let mut book = Casebook::new(MapKeeper::new(rt.alloc(), list));
        assert!(rt; book.file(&case).is_ok() == (kept == 1), "call {fails}");
        assert!(rt; book.list(&all)?.as_slice().len() == kept, "call {fails}");
    }
    Ok(())
}

fn accepted(rt: &impl Abort, label: &str, symbol: &str) -> Case {
    Case {
        label: name(rt, label),
        rule: Rule::Maximum,
        symbol: name(rt, symbol),
        offence: None,
    }
}

fn broken(rt: &impl Abort, label: &str, symbol: &str, property: Property) -> Case {
    let offence = Offence {
        property,
        log: Which::Trades,
        place: 1,
    };
    Case {
        offence: Some(offence),
        ..accepted(rt, label, symbol)
    }
}

/// The mark of the cases that break the greatest volume.
const VOLUME: Option<Mark> = Some(Mark::Broken(Property::Volume));

/// A symbol, a mark, and the labels of one letter of the cases that they pick.
const PICKED: [(Option<&str>, Option<Mark>, &str); 5] = [
    (None, None, "cadb"),
    (Some("Z"), None, "cad"),
    (None, Some(Mark::Accepted), "ab"),
    (Some("Z"), VOLUME, "c"),
    (Some("Y"), VOLUME, ""),
];

#[test]
fn a_filter_picks_by_symbol_and_mark(rt: HostRuntime) -> Result<(), Fail> {
    let mut book = Casebook::new(MapKeeper::new(rt.alloc(), Vec::new(rt.alloc())));
    for case in &[
        broken(&rt, "c", "Z", Property::Volume),
        accepted(&rt, "a", "Z"),
        broken(&rt, "d", "Z", Property::Spread),
        accepted(&rt, "b", "Y"),
    ] {
        assert!(rt; book.file(case)? == Filed::Kept);
    }
    for &(symbol, mark, labels) in &PICKED {
        let filter = Filter {
            symbol: symbol.map(|symbol| name(&rt, symbol)),
            mark,
        };
        let mut listed = Vec::new(rt.alloc());
        for case in book.list(&filter)?.as_slice() {
            listed.extend_from_slice(case.label.bytes())?;
        }
        assert!(rt; listed.as_slice() == labels.as_bytes(), "{labels}");
    }
    Ok(())
}
