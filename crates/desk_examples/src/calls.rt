//! The call that the first word is for, as the program makes it: with the pictures of its pages,
//! a fixed seed, a sink in memory, and a database in memory in the place of a file.
ghost use Rattle.std.specs.Prelude.{◌≡◌, false};
ghost use Rattle.audit_base.specs.declared.terms.Which.{Which};

use audit_base::faults::NoMemory;
use desk_filing::map_digest_opener::MapDigestOpener;
use desk_filing::running::run_filing;
use desk_page::running::run_page;
use desk_program::pictures::RulePictures;
use desk_run::running::run_desk;
use desk_words::commands::{asks_filing, asks_page};
use digest_keeper::digested::KeptCase;
use digest_keeper::map_digest_keeper::MapDigestKeeper;
use log_source::memory_sink::MemorySink;
use log_source::shelf::Shelf;
use std::alloc::Global;

/// More bytes than the text of any example has.
const ROOM: usize = 65_536;

/// What a call came to: the number of its status, what it wrote, and the database that it opened.
#[derive(Drop)]
pub(crate) struct CallEnd {
    pub(crate) status: u8,
    pub(crate) out: MemorySink,
    pub(crate) book: Option<MapDigestKeeper>,
}

/// Makes the call that the first word is for, over a shelf and a database with this case, or none.
pub(crate) fn make_call<F: Shelf + Drop>(
    alloc: Global,
    words: &[String],
    shelf: F,
    kept: &Option<KeptCase>,
) -> Result<CallEnd, NoMemory>
    requires fresh { (which : Which) → (F.slot shelf which).started ≡ false }
{
    let mut out = MemorySink::new(alloc, ROOM, ROOM, Vec::new(alloc))?;
    if asks_filing(words) {
        let mut opener = MapDigestOpener::new(alloc, *kept, Vec::new(alloc), Vec::new(alloc));
        let ran = run_filing(alloc, words, shelf, &mut out, &mut opener);
        let (status, book) = (ran.status.number(), ran.back.keeper);
        return Ok(CallEnd { status, out, book });
    }
    let status = call_without_database(alloc, words, shelf, &mut out);
    let book = None;
    Ok(CallEnd { status, out, book })
}

/// Makes the call of a page, or that of the other words.
fn call_without_database<F: Shelf + Drop>(
    alloc: Global,
    words: &[String],
    shelf: F,
    out: &mut MemorySink,
) -> u8
    requires fresh { (which : Which) → (F.slot shelf which).started ≡ false }
{
    if asks_page(words) {
        let ran = run_page::<RulePictures, F, MemorySink>(alloc, words, shelf, out);
        return ran.status.number();
    }
    let mut shelf = shelf;
    run_desk(alloc, words, &mut shelf, out).number()
}
