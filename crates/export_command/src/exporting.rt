//! `export`: the tables after a journal's commits, into a folder.

ghost use Rattle.std.specs.Prelude.{◌≡◌, ◌≢◌, ℕ, [], List, IfOk, IfErr, MatchResult, OnOk};
ghost use Rattle.journal_opening.specs.Kept.{IsKnown};
ghost use Rattle.export_command.specs.Exported.{Exports, IsExport, IsFillFault, IsFindFault, IsJournalRefusal};
ghost use Rattle.export_command.specs.Exported.{HasSoMany, LeftNoneOrExport, TellsExportFault};
ghost use Rattle.export_command.specs.Status.{export_status};
ghost use Rattle.ssb_schema.specs.declared.table.Table.{Table};
ghost use Rattle.ssb_text.specs.Layouts.{AreRows};
ghost use Rattle.ssb_text.specs.RoundTrip.{AreTableRows};
ghost use Rattle.ssb_text.specs.TableText.{base_texts};
ghost use Rattle.table_folder.specs.FilesFolder.{IsFilled, IsUntouched, calls_on};
ghost use Rattle.table_folder.specs.Filled.{HasAll, LeftNoneOrAll};

use crate::fault::ExportRefusal::Journal;
use crate::fault::{ExportFault, ExportRefusal, NotEmpty};
use crate::replaying::replay_first;
use crate::standing_orders::StandingOrders;
use crate::tables_after::TablesAfter;
use journal::{Disk, Found as FoundFile, UnreadDisk};
use journal_opening::{OpeningFault, OpensJournal, table_marks, tell_form};
use row_store::RowStore;
use ssb_base::Base;
use ssb_files::JobFault::{Found, Program};
use ssb_files::{Fault, LoadedFor, TableBytes, checked_base_of};
use ssb_journal::{HeadForm, OpenedJournal, TableMark, open};
use ssb_text::{TableFiles, tables_are_read_back};
use std::alloc::Global;
use std::hash::RandomState;
use std::io::{self, ErrorKind, Read, Write};
use std::marker::Model;
use std::rt::Files;
use std::sync::Arc;
use std::thread::Threads;
use table_folder::{FilesFolder, FillFault, TableFolder, fill};

/// Where the journal is, where the tables go, and what is told.
#[derive(Drop)]
pub struct ExportPlace<'a, F: Files, P> {
    /// The journal's file, which is there.
    pub journal: &'a P,
    /// The files among which the folder is.
    pub files: &'a F,
    /// The folder, which is not there or is empty.
    pub folder: &'a str,
    /// The bytes of the tables, which are counted while these are loaded.
    pub bytes: &'a TableBytes,
    /// Whether it is told how many commits the journal has.
    pub tells: bool,
}

/// Loaded tables, and a journal's file over them, of which nothing was read.
#[derive(Drop)]
pub struct ExportSource<'a, U: UnreadDisk + Drop> {
    pub base: Arc<Base>,
    /// By what the journal's head knows the tables.
    pub marks: &'a [TableMark],
    /// The journal's file.
    pub file: U,
}

/// The tables after a journal's commits, and the journal's file, which was read to its end and is as it was. Contracts
/// see the tables that were loaded, by what the journal's head knows them, and the bytes of the file.
#[derive(Drop)]
pub struct JournalTables<'a, D: Disk> {
    base: Arc<Base>,
    marks: &'a [TableMark],
    found: FoundFile<D>,
    tables: TablesAfter,
    // How many commits there are, the form of the journal's head, and how many bytes stand behind its last whole group.
    commits: u64,
    form: HeadForm,
    torn: usize,
}

impl<'a, D: Disk> Model for JournalTables<'a, D> {
    ghost use Rattle.export_command.specs.Exported.{AreOfFile, ReadJournal};

    ghost Value = { ReadJournal };

    ghost view = { λ r. record { base = r.base.value; marks = r.marks.now; file = D.seen r.found } };

    ghost invariant = { λ r. AreOfFile r.base.value r.marks.now (D.seen r.found) r.tables r.commits r.torn };
}

impl<'a, D: Disk> JournalTables<'a, D> {
    /// How many commits the journal has.
    pub fn commits(&self) -> u64
        ensures { HasSoMany self.now.marks result self.now.file }
    {
        self.commits
    }
}

/// The tables after the commits of a journal's file, which are applied as that is read. Of two faults the first in the
/// file is told. Nothing is written.
pub fn read_journal<'a, U: UnreadDisk + Drop>(
    rt: &(impl Threads + Sync),
    alloc: Global,
    hashing: RandomState,
    source: ExportSource<'a, U>,
) -> Result<JournalTables<'a, U::Whole>, ExportFault>
    requires unread { U.taken source.file ≡ [] }
    ensures base { IfOk result (λ read. read.base ≡ source.entry.base.value) }
    ensures marks { IfOk result (λ read. read.marks ≡ source.entry.marks.now) }
    ensures known { IfOk result (λ read. IsKnown (U.holds source.entry.file) read.file) }
    ensures fault { IfErr result (IsJournalRefusal source.entry.base.value source.entry.marks.now
        (U.holds source.entry.file)) }
{
    let ExportSource { base, marks, file } = source;
    let journal = match open(alloc, marks, file) {
        Ok(journal) => journal,
        Err((fault, _)) => return Err(Found(Journal(OpeningFault::Kept(fault)))),
    };
    let shared = Arc::try_clone(&base)?;
    let mut store = RowStore::new(alloc, shared, hashing)?;
    let mut orders = StandingOrders::new(alloc, hashing);
    let part = match replay_first(rt, alloc, &mut store, &mut orders, journal, None) {
        Ok(part) => part,
        Err(fault) => return Err(fault),
    };
    store.soundness();
    let tables = TablesAfter::new(store, orders);
    let OpenedJournal { found, kept, torn } = part.journal.finish();
    Ok(JournalTables {
        base,
        marks,
        found,
        tables,
        commits: kept.count,
        form: kept.form,
        torn: torn.len(),
    })
}

// Tells that the journal's tables are not checked, if they are not; and if it is asked for, how many commits the
// journal has, and how many bytes stand behind them.
fn tell_read<D: Disk, E: Write>(err: &mut E, read: &JournalTables<'_, D>, tells_commits: bool) {
    tell_form(err, read.form);
    if !tells_commits {
        return;
    }
    let commits = read.commits;
    let _ = match read.torn {
        0 => writeln!(err, "ssb_live: journal: {commits} commits"),
        torn => writeln!(
            err,
            "ssb_live: journal: {commits} commits, {torn} bytes torn"
        ),
    };
}

fn lacks_memory(error: &io::Error) -> bool {
    error.kind() == ErrorKind::OutOfMemory
}

// Why a folder of this path was not filled.
fn not_filled(alloc: Global, path: &str, fault: &FillFault) -> ExportFault
    ensures status { export_status result ≡ 4 }
    ensures fault { IsFillFault result }
{
    match fault {
        FillFault::Folder(error) | FillFault::Tables(error) if lacks_memory(error) => {
            Program(Fault::OutOfMemory)
        }
        FillFault::Folder(_) => match String::from_str(alloc, path) {
            Ok(path) => Found(ExportRefusal::CannotWrite(path)),
            Err(_) => Program(Fault::OutOfMemory),
        },
        FillFault::Tables(_) => Program(Fault::WriteFailed),
    }
}

/// Writes the tables after a history into a folder on which no call was made.
///
/// At `Ok` the folder has the five texts, and each crash from then on leaves them. A crash at any moment, also before
/// an `Err`, leaves no `lineorder`, or all five.
pub fn fill_folder<T: TableFolder>(
    alloc: Global,
    tables: &TablesAfter,
    folder: &mut T,
) -> Result<(), ExportFault>
    requires new { T.calls folder.old ≡ [] }
    ensures all { OnOk result (HasAll (base_texts tables.now) (T.calls folder.new)) }
    ensures known { OnOk result ((t : Table) → AreTableRows tables.now t) }
    ensures any_moment { LeftNoneOrAll (base_texts tables.now) (T.calls folder.new) }
    ensures status { IfErr result (λ fault. export_status fault ≡ 4) }
    ensures fault { IfErr result IsFillFault }
{
    match fill(alloc, folder, tables) {
        Ok(()) => Ok(()),
        Err(fault) => Err(not_filled(alloc, folder.path(), &fault)),
    }
}

/// Writes the tables after a journal's commits into a folder on which no call was made, and tells on `err` what is to
/// be told of the journal.
///
/// At `Ok` the folder has the five texts, and each crash from then on leaves them. A crash at any moment, also before
/// an `Err`, leaves no `lineorder`, or all five.
pub fn export_into<D: Disk + Drop, T: TableFolder, E: Write>(
    alloc: Global,
    read: JournalTables<'_, D>,
    folder: &mut T,
    err: &mut E,
    tells_commits: bool,
) -> Result<(), ExportFault>
    requires new { T.calls folder.old ≡ [] }
    ensures exported { OnOk result (IsExport read.entry.base read.entry.marks read.entry.file (T.calls folder.new)) }
    ensures any_moment { LeftNoneOrExport read.entry.base read.entry.marks read.entry.file (T.calls folder.new) }
    ensures status { IfErr result (λ fault. export_status fault ≡ 4) }
    ensures fault { IfErr result IsFillFault }
{
    tell_read(err, &read, tells_commits);
    read.tables.soundness();
    tables_are_read_back();
    match fill_folder(alloc, &read.tables, folder) {
        Ok(()) => Ok(()),
        Err(fault) => Err(fault),
    }
}

/// The folder of this path, where it is not there or is empty. Nothing is made.
pub fn find_folder<'a, F: Files>(
    files: &'a F,
    alloc: Global,
    path: &'a str,
) -> Result<FilesFolder<'a, F>, ExportFault>
    ensures new { IfOk result IsUntouched }
    ensures fault { IfErr result IsFindFault }
    ensures words { IfErr result (λ fault. export_status fault ≢ 2) }
    ensures trace { IfErr result (λ fault. export_status fault ≢ 3) }
{
    match FilesFolder::find(files, alloc, path) {
        Ok(Some(folder)) => Ok(folder),
        Ok(None) => Err(Found(ExportRefusal::Folder(NotEmpty))),
        Err(error) if lacks_memory(&error) => Err(Program(Fault::OutOfMemory)),
        Err(_) => Err(Program(Fault::CannotRead(String::from_str(alloc, path)?))),
    }
}

/// Writes the tables as they are after a journal's commits into a folder, and tells on `err` how many commits these
/// were. The folder is looked at first, then the tables are read, and then the journal, which is as it was.
pub fn export<
    'a,
    R: Threads + Sync + AllocGlobal,
    F: Files,
    P: OpensJournal,
    I: Read + Drop,
    E: Write,
>(
    rt: &R,
    hashing: RandomState,
    tables: TableFiles<I>,
    place: &ExportPlace<'a, F, P>,
    err: &mut E,
) -> Result<FilesFolder<'a, F>, ExportFault>
    ensures exported { IfOk result (λ folder. (texts : Table → List ℕ) → AreRows I.remaining tables texts
        → Exports texts (P.holds place.now.journal.now) (calls_on folder)) }
    ensures filled { IfOk result IsFilled }
    ensures fault { IfErr result (λ fault. (texts : Table → List ℕ) → AreRows I.remaining tables texts
        → TellsExportFault texts (P.holds place.now.journal.now) (P.is_taken place.now.journal.now)
        (P.is_missing place.now.journal.now) fault) }
    ensures words { IfErr result (λ fault. export_status fault ≢ 2) }
    ensures trace { IfErr result (λ fault. export_status fault ≢ 3) }
{
    let alloc = rt.alloc();
    let mut folder = find_folder(place.files, alloc, place.folder)?;
    let layout = tables.layout;
    let read = checked_base_of(rt, alloc, tables, LoadedFor::Serving)?;
    let (base, checksums) = read;
    let marks = table_marks(&base, layout, place.bytes, &checksums);
    let base = Arc::new(alloc, base)?;
    let file = match place.journal.open(alloc) {
        Ok(file) => file,
        Err(error) => return Err(Found(Journal(OpeningFault::File(error)))),
    };
    let source = ExportSource {
        base,
        marks: &marks,
        file,
    };
    let read = match read_journal(rt, alloc, hashing, source) {
        Ok(read) => read,
        Err(fault) => return Err(fault),
    };
    match export_into(alloc, read, &mut folder, err, place.tells) {
        Ok(()) => Ok(folder),
        Err(fault) => Err(fault),
    }
}

/// How an export ended, and the exit status that says so.
#[derive(Drop)]
pub struct ExportEnd<'a, F: Files> {
    /// 0 where the folder has all tables, and else the fault's.
    pub status: u8,
    /// The folder, where it has all tables; else why not.
    pub ended: Result<FilesFolder<'a, F>, ExportFault>,
}

/// Exports the tables, as `export` does, and tells a fault on a line of `err`.
///
/// The exit status is 0 where the folder has all tables, 1 where the folder, the data or the journal is refused and
/// nothing was made, and else 4.
pub fn run_export<
    'a,
    R: Threads + Sync + AllocGlobal,
    F: Files,
    P: OpensJournal,
    I: Read + Drop,
    E: Write,
>(
    rt: &R,
    hashing: RandomState,
    tables: TableFiles<I>,
    place: &ExportPlace<'a, F, P>,
    err: &mut E,
) -> ExportEnd<'a, F>
    ensures exported { IfOk result.ended (λ folder. (texts : Table → List ℕ) → AreRows I.remaining tables texts
        → Exports texts (P.holds place.now.journal.now) (calls_on folder)) }
    ensures fault { IfErr result.ended (λ fault. (texts : Table → List ℕ) → AreRows I.remaining tables texts
        → TellsExportFault texts (P.holds place.now.journal.now) (P.is_taken place.now.journal.now)
        (P.is_missing place.now.journal.now) fault) }
    ensures status { MatchResult result.ended (λ folder. result.status ≡ 0)
        (λ fault. result.status ≡ export_status fault) }
    ensures others { result.status ≢ 0 → result.status ≢ 1 → result.status ≡ 4 }
{
    let ended = export(rt, hashing, tables, place, err);
    let status = match &ended {
        Ok(_) => 0,
        Err(fault) => fault.tell(err),
    };
    ExportEnd { status, ended }
}
