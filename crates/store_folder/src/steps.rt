//! The calls that change a store: what stands under its names, and what of that a crash leaves. Each method makes its
//! calls of the system, and then notes what step that is.

ghost use Rattle.std.specs.Prelude.{◌≡◌, [], ◌∷◌, IfOk, OnErr, OnOk};
ghost use Rattle.store_core.specs.Calls.{AreFree, MayCall, tables_known};
ghost use Rattle.store_core.specs.declared.calls.StoreCall.TheVariants.{BeginSegment, DropSegment, DropTables, EndSegment, Fail};
ghost use Rattle.store_core.specs.declared.calls.StoreCall.TheVariants.{FindNothing, GoOn, NameTables};
ghost use Rattle.store_core.specs.declared.calls.StoreCall.TheVariants.{SyncName, SyncNames, SyncTables, WriteTables};
ghost use Rattle.store_folder.specs.Steps.{found_calls, if_found};
ghost use Rattle.table_folder.specs.FilesFolder.{IsFilled};

use crate::fault::StoreFault;
use crate::file_name::{segment_path, sizes_path, tables_path};
use crate::finding::{FoundStore, find_store};
use crate::segment::{OpenSegment, made_segment};
use crate::segment_head::SegmentHead;
use crate::sizes::Sizes;
use ghost_list::GhostList;
use journal_file::JournalFile;
use std::alloc::{AllocError, Global};
use std::fs::{self, OpenFile, OpenOptions};
use std::io::{self, ErrorKind, Write};
use std::marker::Model;
use std::rt::Files;
use store_core::StoreCall;
use table_folder::FilesFolder;

/// The steps that a program makes on a store. Contracts see the calls that it has made, the newest first: no memory
/// holds them. Which call may be made behind which, `store_core/specs/Calls` says.
#[derive(Drop)]
pub struct StoreSteps<'a, F: Files> {
    files: &'a F,
    alloc: Global,
    folder: &'a str,
    calls: GhostList<StoreCall>,
}

impl<'a, F: Files> Model for StoreSteps<'a, F> {
    ghost use Rattle.std.specs.Prelude.{List, reverse};
    ghost use Rattle.store_core.specs.declared.calls.StoreCall.{StoreCall as Call};

    ghost Value = { List Call };

    ghost view = { λ s. reverse s.calls.items };
}

/// A segment that was made, and is not written yet.
#[derive(Drop)]
pub struct BegunSegment<O: Drop> {
    // The number of the one before it, and its own.
    before: u64,
    number: u64,
    segment: OpenSegment<O>,
}

// Writes a file and waits until it is on the disk.
fn write_synced<F: Files>(files: &F, path: &str, text: &[u8]) -> io::Result<()> {
    let mut file = OpenOptions::new()
        .write(true)
        .create(true)
        .truncate(true)
        .open(files, path)?;
    file.write_all(text)?;
    file.sync_all()
}

// Waits until the names in a folder are on the disk.
fn sync_folder<F: Files>(files: &F, path: &str) -> io::Result<()> {
    fs::open(files, path)?.sync_all()
}

// The file that becomes the `sizes` of these tables.
fn sizes_part_path(alloc: Global, folder: &str, number: u64) -> Result<String, AllocError> {
    let path = sizes_path(alloc, folder, number)?;
    format!(in alloc; "{path}.part")
}

impl<'a, F: Files> StoreSteps<'a, F> {
    // On which no call was made.
    fn new(files: &'a F, alloc: Global, folder: &'a str) -> StoreSteps<'a, F>
        ensures { result ≡ [] }
    {
        StoreSteps {
            files,
            alloc,
            folder,
            calls: GhostList::new(),
        }
    }

    // Notes a call. It does nothing.
    fn note(&mut self, call: StoreCall)
        ensures { self.new ≡ call ∷ self.old }
    {
        self.calls.push(&call);
    }

    /// The steps of a new store, whose folder has nothing.
    pub fn begin(files: &'a F, alloc: Global, folder: &'a str) -> StoreSteps<'a, F>
        ensures { result ≡ FindNothing ∷ [] }
    {
        let mut steps = StoreSteps::new(files, alloc, folder);
        steps.note(StoreCall::FindNothing);
        steps
    }

    /// Finds a store, and begins the steps of a checkpoint of it, which has the lock against others.
    pub fn find(
        files: &'a F,
        alloc: Global,
        folder: &'a str,
    ) -> Result<(StoreSteps<'a, F>, FoundStore), StoreFault>
    where
        F::File: JournalFile,
        ensures { IfOk result (λ found. found.0 ≡ found_calls found.1.sizes.after found.1.last) }
    {
        let found = find_store(files, alloc, folder, None)?;
        let mut steps = StoreSteps::new(files, alloc, folder);
        steps.note(StoreCall::FindNewest(found.after()));
        steps.note(StoreCall::FindSegment(found.last()));
        Ok((steps, found))
    }

    /// The steps of a server's turn behind its last segment. All of that is on the disk, and the next one begins behind
    /// so many commits.
    pub(crate) fn turn(
        files: &'a F,
        alloc: Global,
        folder: &'a str,
        last: u64,
        next: u64,
    ) -> StoreSteps<'a, F>
        ensures { result ≡ EndSegment last next ∷ [] }
    {
        let mut steps = StoreSteps::new(files, alloc, folder);
        steps.note(StoreCall::EndSegment(last, next));
        steps
    }

    /// The files among which the store is.
    pub fn files(&self) -> &'a F {
        self.files
    }

    /// The store's folder.
    pub fn folder(&self) -> &'a str {
        self.folder
    }

    // Notes a call, or that it has failed.
    fn noted<T>(&mut self, call: StoreCall, made: io::Result<T>) -> io::Result<T>
        ensures ok { OnOk result (self.new ≡ call ∷ self.old) }
        ensures err { OnErr result (self.new ≡ Fail ∷ self.old) }
    {
        match made {
            Ok(value) => {
                self.note(call);
                Ok(value)
            }
            Err(error) => {
                self.note(StoreCall::Fail);
                Err(error)
            }
        }
    }

    /// Looks whether whole tables of this number are there.
    pub fn find_tables(&mut self, number: u64) -> Result<bool, AllocError>
        ensures { IfOk result (λ found. self.new ≡ if_found found number self.old) }
    {
        let path = sizes_path(self.alloc, self.folder, number)?;
        let is_there = fs::metadata(self.files, path.as_str()).is_ok();
        if is_there {
            self.note(StoreCall::FindTables(number));
        }
        Ok(is_there)
    }

    /// Makes a segment that has no commits behind the last one, and syncs it. There is no file of that name yet.
    pub fn begin_segment(
        &mut self,
        last: u64,
        head: &SegmentHead<'_>,
    ) -> io::Result<BegunSegment<F::File>>
    where
        F::File: JournalFile,
        requires { MayCall self.old (BeginSegment last head.now.after) }
        ensures ok { OnOk result (self.new ≡ BeginSegment last head.now.after ∷ self.old) }
        ensures segment { IfOk result (λ begun. (begun.before ≡ last) × (begun.number ≡ head.now.after)) }
        ensures err { OnErr result (self.new ≡ Fail ∷ self.old) }
    {
        let made = made_segment(self.files, self.alloc, self.folder, head);
        let number = head.after;
        let segment = self.noted(StoreCall::BeginSegment(last, number), made)?;
        Ok(BegunSegment {
            before: last,
            number,
            segment,
        })
    }

    /// Waits until the names of segments are on the disk.
    pub fn sync_names(&mut self) -> io::Result<()>
        ensures ok { OnOk result (self.new ≡ SyncNames ∷ self.old) }
        ensures err { OnErr result (self.new ≡ Fail ∷ self.old) }
    {
        let synced = sync_folder(self.files, self.folder);
        self.noted(StoreCall::SyncNames, synced)
    }

    /// The segment that was made, to be written from now on.
    pub(crate) fn go_on(&mut self, begun: BegunSegment<F::File>) -> OpenSegment<F::File>
        requires { MayCall self.old (GoOn begun.before begun.number) }
        ensures { self.new ≡ GoOn begun.before begun.number ∷ self.old }
    {
        let BegunSegment {
            before,
            number,
            segment,
        } = begun;
        self.note(StoreCall::GoOn(before, number));
        segment
    }

    /// Clears away what a checkpoint that was cut off has left of tables of this number.
    pub fn clear_tables(&mut self, number: u64) -> io::Result<()>
        requires { AreFree (tables_known self.old) number }
        ensures ok { OnOk result (self.new ≡ self.old) }
    {
        let path = tables_path(self.alloc, self.folder, number)?;
        match self.files.remove_dir_all(self.alloc, path.as_str()) {
            Err(error) if error.kind() == ErrorKind::NotFound => Ok(()),
            result => result,
        }
    }

    /// Takes note that tables are written: this is their folder, which has all five on the disk. It does nothing.
    pub fn note_written(&mut self, number: u64, written: &FilesFolder<'_, F>)
        requires free { MayCall self.old (WriteTables number) }
        requires filled { IsFilled written.now }
        ensures { self.new ≡ WriteTables number ∷ self.old }
    {
        let _ = written;
        self.note(StoreCall::WriteTables(number));
    }

    /// Writes what tells of tables beside its name, and waits until it is on the disk. All of the tables is then.
    pub fn sync_tables(&mut self, sizes: &Sizes) -> io::Result<()>
        requires { MayCall self.old (SyncTables sizes.now.after) }
        ensures ok { OnOk result (self.new ≡ SyncTables sizes.now.after ∷ self.old) }
        ensures err { OnErr result (self.new ≡ Fail ∷ self.old) }
    {
        let synced = self.write_sizes(sizes);
        self.noted(StoreCall::SyncTables(sizes.after), synced)
    }

    fn write_sizes(&self, sizes: &Sizes) -> io::Result<()> {
        let part = sizes_part_path(self.alloc, self.folder, sizes.after)?;
        write_synced(self.files, part.as_str(), &sizes.text(self.alloc)?)
    }

    /// Gives tables their name: what tells of them is there.
    pub fn name_tables(&mut self, number: u64) -> io::Result<()>
        requires { MayCall self.old (NameTables number) }
        ensures ok { OnOk result (self.new ≡ NameTables number ∷ self.old) }
        ensures err { OnErr result (self.new ≡ Fail ∷ self.old) }
    {
        let named = self.rename_sizes(number);
        self.noted(StoreCall::NameTables(number), named)
    }

    fn rename_sizes(&self, number: u64) -> io::Result<()> {
        let part = sizes_part_path(self.alloc, self.folder, number)?;
        let path = sizes_path(self.alloc, self.folder, number)?;
        fs::rename(self.files, part.as_str(), path.as_str())
    }

    /// Waits until the name of tables is on the disk, and that of their folder.
    pub fn sync_name(&mut self, number: u64) -> io::Result<()>
        requires { MayCall self.old (SyncName number) }
        ensures ok { OnOk result (self.new ≡ SyncName number ∷ self.old) }
        ensures err { OnErr result (self.new ≡ Fail ∷ self.old) }
    {
        let synced = self.sync_folders(number);
        self.noted(StoreCall::SyncName(number), synced)
    }

    fn sync_folders(&self, number: u64) -> io::Result<()> {
        let tables = tables_path(self.alloc, self.folder, number)?;
        sync_folder(self.files, tables.as_str())?;
        sync_folder(self.files, self.folder)
    }

    /// Drops tables that are older than others: what tells of them goes first, and that is on the disk before the tables
    /// go.
    pub fn drop_tables(&mut self, number: u64, newer: u64) -> io::Result<()>
        requires { MayCall self.old (DropTables number newer) }
        ensures ok { OnOk result (self.new ≡ DropTables number newer ∷ self.old) }
        ensures err { OnErr result (self.new ≡ Fail ∷ self.old) }
    {
        let dropped = self.remove_tables(number);
        self.noted(StoreCall::DropTables(number, newer), dropped)
    }

    fn remove_tables(&self, number: u64) -> io::Result<()> {
        let sizes = sizes_path(self.alloc, self.folder, number)?;
        match fs::remove_file(self.files, sizes.as_str()) {
            Err(error) if error.kind() != ErrorKind::NotFound => return Err(error),
            _ => {}
        }
        let tables = tables_path(self.alloc, self.folder, number)?;
        sync_folder(self.files, tables.as_str())?;
        self.files.remove_dir_all(self.alloc, tables.as_str())
    }

    /// Drops a segment before the tables of a number.
    pub fn drop_segment(&mut self, number: u64, newer: u64) -> io::Result<()>
        requires { MayCall self.old (DropSegment number newer) }
        ensures ok { OnOk result (self.new ≡ DropSegment number newer ∷ self.old) }
        ensures err { OnErr result (self.new ≡ Fail ∷ self.old) }
    {
        let dropped = self.remove_segment(number);
        self.noted(StoreCall::DropSegment(number, newer), dropped)
    }

    fn remove_segment(&self, number: u64) -> io::Result<()> {
        let path = segment_path(self.alloc, self.folder, number)?;
        fs::remove_file(self.files, path.as_str())
    }
}
