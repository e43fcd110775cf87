//! The shelf of the program: files, each opened under its path.
//!
//! A slot closes its file before it opens the next, so a program that reads a log again needs no
//! third descriptor.
ghost use Rattle.std.specs.Prelude.{◌≡◌, ◌<◌, ◌≤◌, true, false, length, None, IsErrOf, ℕ, List};
ghost use Rattle.audit_base.specs.declared.terms.Which.{Which};
ghost use Rattle.log_source.specs.Sources.{ChangesOneSlot, Starts, Reads, fresh_slot, longest_read};
ghost use Rattle.log_source.specs.FileShelves.{file_state, file_slot};

use crate::file_system::FileSystem;
use crate::shelf::{Failed, Shelf, StartFault};
use audit_base::terms::Which;
use std::io::{ErrorKind, Read};

/// One slot and the file that is open in it.
#[derive(Drop)]
struct FileSlot<X> {
    file: Option<X>,
    taken: u64,
    starts: u64,
    faults: u64,
}

impl<X: Read + Drop> FileSlot<X> {
    fn new() -> FileSlot<X>
        ensures { file_state X.remaining result ≡ fresh_slot None }
    {
        FileSlot {
            file: None,
            taken: 0,
            starts: 0,
            faults: 0,
        }
    }

    /// Opens the file under this name in the slot, in which none is open: it never has two.
    fn open<S: FileSystem<File = X>>(&mut self, files: &S, name: &str) -> Result<(), StartFault>
        requires closed { (file_state X.remaining self.old).started ≡ false }
        ensures slot { let state = file_state X.remaining in
            let file = S.file_at files.now name.now in
            Starts (S.tells files.now) file (state self.old) (state self.new) result }
        ensures memory { IsErrOf result StartFault.Memory → self.new.faults ≡ self.old.faults }
    {
        self.taken = 0;
        self.starts = self.starts.saturating_add(1);
        match files.open(name) {
            Ok(file) => {
                self.file = Some(file);
                Ok(())
            }
            Err(error) if error.kind() == ErrorKind::OutOfMemory => Err(StartFault::Memory),
            Err(_) => {
                self.faults = self.faults.saturating_add(1);
                Err(StartFault::Failed)
            }
        }
    }

    /// Closes the file that is open, if one is, and then opens the one under this name.
    fn start<S: FileSystem<File = X>>(&mut self, files: &S, name: &str) -> Result<(), StartFault>
        ensures slot { let state = file_state X.remaining in
            let file = S.file_at files.now name.now in
            Starts (S.tells files.now) file (state self.old) (state self.new) result }
        ensures memory { IsErrOf result StartFault.Memory → self.new.faults ≡ self.old.faults }
    {
        self.file = None;
        self.open(files, name)
    }

    fn read(&mut self, buf: &mut [u8]) -> Result<usize, Failed>
        requires room { 0 < length buf.old }
        requires started { (file_state X.remaining self.old).started ≡ true }
        requires within { self.old.taken ≤ longest_read }
        ensures { let state = file_state X.remaining in
            Reads (state self.old) (state self.new) result buf.new }
    {
        let Some(file) = &mut self.file else {
            unreachable!()
        };
        match file.read(buf) {
            Ok(count) => {
                self.taken += count as u64;
                Ok(count)
            }
            Err(_) => {
                self.faults = self.faults.saturating_add(1);
                Err(Failed)
            }
        }
    }
}

/// A shelf over files, where a log's name is its path. Its logs are known where the files are:
/// the runtime's are not; where they are, each slot reads the file under the path that was named,
/// from its first byte to its last. A start closes the file that was open in its slot. An open
/// or a read that is refused is counted as a fault of its slot, as of a file that is not there,
/// a directory, or a file that may not be read. An open that finds no memory is no fault.
#[derive(Drop)]
pub struct FileShelf<S: FileSystem> {
    files: S,
    orders: FileSlot<S::File>,
    trades: FileSlot<S::File>,
}

impl<S: FileSystem + Drop> FileShelf<S> {
    /// A shelf over these files, with nothing started and no fault counted.
    pub fn new(files: S) -> FileShelf<S>
        ensures slots { (w : Which) → ⟦<FileShelf<S> as Shelf>⟧.slot result w ≡ fresh_slot None }
        ensures tells { ⟦<FileShelf<S> as Shelf>⟧.tells result ≡ S.tells files }
        ensures logs { (w : Which) (path : List ℕ) →
            ⟦<FileShelf<S> as Shelf>⟧.log_of result w path ≡ S.file_at files path }
    {
        FileShelf {
            files,
            orders: FileSlot::new(),
            trades: FileSlot::new(),
        }
    }
}

impl<S: FileSystem + Drop> Shelf for FileShelf<S> {
    ghost tells = { λ shelf. S.tells shelf.files };

    ghost log_of = { λ shelf _ path. S.file_at shelf.files path };

    ghost slot = { λ shelf which. file_slot S.File.remaining shelf.orders shelf.trades which };

    fn start(&mut self, which: Which, name: &str) -> Result<(), StartFault>
        ensures only { let shelf = ⟦<FileShelf<S> as Shelf>⟧ in
            ChangesOneSlot shelf.tells shelf.log_of shelf.slot which self.old self.new }
        ensures slot { let shelf = ⟦<FileShelf<S> as Shelf>⟧ in
            Starts (shelf.tells self.old) (shelf.log_of self.old which name.now)
            (shelf.slot self.old which) (shelf.slot self.new which) result }
        ensures memory { let slot = ⟦<FileShelf<S> as Shelf>⟧.slot in
            IsErrOf result StartFault.Memory
            → (slot self.new which).faults ≡ (slot self.old which).faults }
    {
        match which {
            Which::Orders => self.orders.start(&self.files, name),
            Which::Trades => self.trades.start(&self.files, name),
        }
    }

    fn read(&mut self, which: Which, buf: &mut [u8]) -> Result<usize, Failed> {
        match which {
            Which::Orders => self.orders.read(buf),
            Which::Trades => self.trades.read(buf),
        }
    }
}
