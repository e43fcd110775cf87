//! Logs that are read from files in memory: each slot reads the file under the path that was named.
ghost use Rattle.std.specs.Prelude.{◌≡◌, true, IfOk, Some};

use super::stored_files::{StoredFile, StoredFiles};
use audit_base::terms::Which;
use log_source::file_shelf::FileShelf;
use log_source::file_system::FileSystem;
use log_source::take::{TakeFault, take_log};
use std::alloc::Global;
use std::test::Fail;

/// The number of bytes that a log may have here, 64 MiB.
const LIMIT: u64 = 67_108_864;

const FILES: [StoredFile<'static>; 2] = [
    StoredFile {
        path: "day/orders.csv",
        bytes: b"kind,firm,id,time,symbol,side,quantity,price,target\nN,A,b1,20240102-09:00:00,Z,B,100,10,\n",
    },
    StoredFile {
        path: "day/trades.csv",
        bytes: b"trade,time,symbol,buy_firm,buy_id,sell_firm,sell_id,quantity,price\n",
    },
];

// Takes the log under a path in a slot of a shelf over these files. Of every file system whose
// files are known, it is the whole file under that path: the prover shows it from the clauses
// of the shelf and of `take_log`.
fn take_file<S: FileSystem + Drop>(
    alloc: Global,
    files: S,
    slot: Which,
    path: &str,
) -> Result<Vec<u8>, TakeFault>
    ensures { let file = S.file_at files path.now in
        IfOk result (λ log. S.tells files ≡ true → file ≡ Some log.items) }
{
    let mut shelf = FileShelf::new(files);
    take_log(alloc, &mut shelf, slot, path, LIMIT)
}

#[test]
fn a_slot_reads_the_file_under_its_path(rt: HostRuntime) -> Result<(), Fail> {
    let files = StoredFiles { files: &FILES };
    let mut shelf = FileShelf::new(files);
    for slot in [Which::Orders, Which::Trades] {
        for file in &FILES {
            let alone = take_file(rt.alloc(), files, slot, file.path)?;
            assert!(rt; alone.as_slice() == file.bytes, "{}", file.path);
            let after_others = take_log(rt.alloc(), &mut shelf, slot, file.path, LIMIT)?;
            assert!(rt; after_others.as_slice() == file.bytes, "{}", file.path);
        }
        let none = take_log(rt.alloc(), &mut shelf, slot, "day/orders", LIMIT);
        assert!(rt; none == Err(TakeFault::Fault));
    }
    Ok(())
}
