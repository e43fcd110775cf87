//! Words that the program hands to another call: the usage line of `desk`, and status 2.
use crate::calls::{Call, assert_call};
use desk_words::texts::desk_usage_text;
use std::test::Fail;

const WORDS: [&str; 2] = ["", "audit uniform o t"];

#[test]
fn words_of_another_call(rt: HostRuntime) -> Result<(), Fail> {
    for line in &WORDS {
        assert_call(&rt, &Call::of(line), 2, desk_usage_text())?;
    }
    Ok(())
}
