//! The logs of the tests, and the words of a command line.
ghost use Rattle.std.specs.Prelude.{◌≡◌, false, IfOk};
ghost use Rattle.audit_base.specs.declared.terms.Which.{Which};
ghost use Rattle.log_source.specs.MemoryShelves.{memory_slot};

use audit_base::faults::NoMemory;
use log_source::memory_shelf::MemoryShelf;
use std::alloc::Global;

/// The orders of three symbols, and a trade log of no trades.
const LOGS: [(&str, &str); 2] = [
    (
        "o3",
        "kind,firm,id,time,symbol,side,quantity,price,target
N,A,b1,20240102-09:00:00,X,B,100,10,
N,A,b2,20240102-09:00:00,Y,B,100,10,
N,A,b3,20240102-09:00:00,Z,B,100,10,
",
    ),
    (
        "e",
        "trade,time,symbol,buy_firm,buy_id,sell_firm,sell_id,quantity,price
",
    ),
];

/// A shelf that has the logs.
pub(crate) fn shelf_of_logs(alloc: Global) -> Result<MemoryShelf, NoMemory>
    ensures fresh { IfOk result (λ shelf.
        (which : Which) → (memory_slot shelf which).started ≡ false) }
{
    let mut shelf = MemoryShelf::new(alloc, 64, Vec::new(alloc));
    'logs: for &(name, log) in &LOGS {
        shelf.put(
            String::from_str(alloc, name)?,
            Vec::from_slice(alloc, log.as_bytes())?,
        )?;
    }
    Ok(shelf)
}

/// The words of a command line, split at spaces.
pub(crate) fn split_words(alloc: Global, line: &str) -> Result<Vec<String>, NoMemory> {
    let mut words = Vec::new(alloc);
    for word in line.split(' ') {
        words.push(String::from_str(alloc, word)?)?;
    }
    Ok(words)
}
