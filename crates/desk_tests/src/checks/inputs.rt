//! The words of a command line and the bytes of a log, from short texts.
use audit_base::faults::NoMemory;
use std::alloc::Global;

/// The first line of a CSV order log.
pub(crate) const ORDERS: &str = "kind,firm,id,time,symbol,side,quantity,price,target\n";

/// The first line of a CSV trade log.
pub(crate) const TRADES: &str =
    "trade,time,symbol,buy_firm,buy_id,sell_firm,sell_id,quantity,price\n";

/// The words of a command line, with one space between two of them; an empty line has none.
pub(crate) fn words_of(alloc: Global, line: &str) -> Result<Vec<String>, NoMemory> {
    let mut words = Vec::new(alloc);
    if line.is_empty() {
        return Ok(words);
    }
    for word in line.split(' ') {
        words.push(String::from_str(alloc, word)?)?;
    }
    Ok(words)
}

/// The bytes of these texts one after another, with SOH for each `|`.
pub(crate) fn log_of(alloc: Global, texts: &[&str]) -> Result<Vec<u8>, NoMemory> {
    let mut log = Vec::new(alloc);
    for text in texts {
        for byte in text.as_bytes() {
            log.push(if *byte == b'|' { 1 } else { *byte })?;
        }
    }
    Ok(log)
}
