//! A journal's file that was just opened, as it is read: whether a journal may go on with it, or begin with it.

ghost use Rattle.std.specs.Prelude.{◌≡◌, ◌≢◌, ◌<◌, ◌^◌, ◌++◌, [], List, ℕ, true, false, IfOk, IfErr, IfSome, IsSome, MatchOption};
ghost use Rattle.journal.specs.Disk.{BeginsAsRead};
ghost use Rattle.journal.specs.Groups.{recovered, behind, AreTorn};
ghost use Rattle.journal_opening.specs.Opens.{IsHasBytes, IsStartFault, TellsStartFault};
ghost use Rattle.journal_opening.specs.declared.start.JournalStart.TheVariants.{Begins};
ghost use Rattle.ssb_journal.specs.Kept.{BeginsWithCommits};
ghost use Rattle.ssb_journal.specs.Opening.{IsKept};
ghost use Rattle.ssb_journal.specs.Texts.{IsBeginning};

use crate::fault::OpeningFault;
use crate::start::JournalStart;
use journal::UnreadDisk;
use row_store::Commit;
use ssb_journal::{JournalFault, JournalOpenFault, JournalReader, OpenedJournal, TableMark, open};
use std::alloc::Global;
use std::thread::Threads;

// A journal is to begin, and cannot with the file of this path.
fn has_bytes(alloc: Global, path: &str) -> OpeningFault
    ensures { IsHasBytes path.now result }
{
    match String::from_str(alloc, path) {
        Ok(path) => OpeningFault::HasBytes(path),
        Err(_) => OpeningFault::Kept(JournalOpenFault::Journal(JournalFault::OutOfMemory)),
    }
}

// What is told of a file that is no journal over the tables, or could not be read.
fn start_fault(
    alloc: Global,
    start: JournalStart,
    path: &str,
    fault: JournalOpenFault,
) -> OpeningFault
    ensures { IsStartFault start path.now fault result }
{
    match (start, fault) {
        (JournalStart::GoesOn, _)
        | (_, JournalOpenFault::Disk(_))
        | (_, JournalOpenFault::Journal(JournalFault::OutOfMemory)) => OpeningFault::Kept(fault),
        (JournalStart::Begins, JournalOpenFault::Journal(_)) => has_bytes(alloc, path),
    }
}

// Whether a journal that has these commits may start so.
fn may_start(start: JournalStart, commits: &[Commit]) -> bool
    ensures yes { result ≡ true → start ≡ Begins → commits.now ≡ [] }
    ensures no { result ≡ false → (start ≡ Begins) × (commits.now ≢ []) }
{
    match start {
        JournalStart::GoesOn => true,
        JournalStart::Begins => commits.is_empty(),
    }
}

/// A journal's file that is read as its journal is gone on with, or begins: then it has no commits.
#[derive(Drop)]
pub struct StartedJournal<'a, U: UnreadDisk> {
    pub reader: JournalReader<'a, U>,
    pub start: JournalStart,
    /// The path of the file.
    pub path: &'a str,
    pub ghost new: { start ≡ Begins → reader.commits ≡ [] },
}

impl<'a, U: UnreadDisk> StartedJournal<'a, U> {
    /// Begins to read a journal's file that was just opened from this path, and looks at its head: whether it may be
    /// gone on with, or a journal may begin with it. Nothing is written. An `Err` hands the file back, as far as it
    /// was read.
    pub fn open(
        alloc: Global,
        marks: &'a [TableMark],
        start: JournalStart,
        path: &'a str,
        file: U,
    ) -> Result<StartedJournal<'a, U>, (OpeningFault, U)>
        requires { U.taken file ≡ [] }
        ensures marks { IfOk result (λ started. started.reader.marks ≡ marks.now) }
        ensures none { IfOk result (λ started. started.reader.commits ≡ []) }
        ensures known { IfOk result (λ started. U.holds started.reader.unread ≡ U.holds file) }
        ensures start { IfOk result (λ started. (started.start ≡ start) × (started.path.now ≡ path.now)) }
        // The fault is one of each file that begins with what was read.
        ensures fault { IfErr result (λ e. (whole : List ℕ) → BeginsAsRead (U.taken e.1) (U.is_ended e.1) whole
            → TellsStartFault start path.now marks.now whole e.0) }
        ensures known_err { IfErr result (λ e. U.holds e.1 ≡ U.holds file) }
    {
        match open(alloc, marks, file) {
            Ok(reader) => Ok(StartedJournal {
                reader,
                start,
                path,
            }),
            Err((fault, file)) => Err((start_fault(alloc, start, path, fault), file)),
        }
    }

    /// The next commits; none at the end. Where a journal begins with the file, it may have none. The first fault of
    /// the file is told, and an `Err` hands the file back, as far as it was read.
    pub fn next(
        self,
        rt: &(impl Threads + Sync),
        alloc: Global,
    ) -> Result<(StartedJournal<'a, U>, Option<Vec<Commit>>), (OpeningFault, U)>
        ensures commits { IfOk result (λ next. MatchOption next.1
            ((next.0.reader.commits ≡ self.entry.reader.commits) × (next.0.reader.is_done ≡ true))
            (λ batch. next.0.reader.commits ≡ self.entry.reader.commits ++ batch.items)) }
        ensures same { IfOk result (λ next. (next.0.reader.marks ≡ self.entry.reader.marks)
            × (next.0.reader.form ≡ self.entry.reader.form) × (next.0.reader.is_new ≡ self.entry.reader.is_new)) }
        ensures start { IfOk result (λ next. (next.0.start ≡ self.entry.start)
            × (next.0.path.now ≡ self.entry.path.now)) }
        ensures more { IfOk result (λ next. IsSome next.1
            → (self.entry.reader.texts < next.0.reader.texts) × (next.0.reader.texts < 2 ^ 60)) }
        // Each file that begins with what was read begins with a journal of the commits so far.
        ensures kept { IfOk result (λ next. IsSome next.1 → (whole : List ℕ)
            → BeginsAsRead (U.taken next.0.reader.unread) (U.is_ended next.0.reader.unread) whole
            → BeginsWithCommits self.entry.reader.marks next.0.reader.commits whole) }
        ensures known { IfOk result (λ next. U.holds next.0.reader.unread ≡ U.holds self.entry.reader.unread) }
        // The fault is one of each such file.
        ensures fault { IfErr result (λ e. (whole : List ℕ) → BeginsAsRead (U.taken e.1) (U.is_ended e.1) whole
            → TellsStartFault self.entry.start self.entry.path.now self.entry.reader.marks whole e.0) }
        ensures known_err { IfErr result (λ e. U.holds e.1 ≡ U.holds self.entry.reader.unread) }
    {
        let StartedJournal {
            reader,
            start,
            path,
        } = self;
        let (reader, found) = match reader.next(rt, alloc) {
            Ok(next) => next,
            Err((fault, file)) => return Err((start_fault(alloc, start, path, fault), file)),
        };
        let Some(commits) = found else {
            let started = StartedJournal {
                reader,
                start,
                path,
            };
            return Ok((started, None));
        };
        if !may_start(start, &commits) {
            return Err((has_bytes(alloc, path), reader.into_unread()));
        }
        let started = StartedJournal {
            reader,
            start,
            path,
        };
        Ok((started, Some(commits)))
    }

    /// What the file keeps, where all was read, and what a crash has torn of it.
    pub fn finish(self) -> OpenedJournal<U::Whole>
        requires { self.reader.is_done ≡ true }
        ensures kept { IsKept self.entry.reader.marks (recovered (U.Whole.seen result.found)) result.kept }
        ensures commits { result.kept.commits.items ≡ self.entry.reader.commits }
        ensures form { result.kept.form ≡ self.entry.reader.form }
        ensures beginning { result.kept.is_new ≡ true
            → IsBeginning self.entry.reader.marks (behind (U.Whole.seen result.found)) }
        ensures new { self.entry.start ≡ Begins → result.kept.commits.items ≡ [] }
        ensures torn { AreTorn (U.Whole.seen result.found) result.torn.items }
        ensures known { IfSome (U.holds self.entry.reader.unread) (λ file. U.Whole.seen result.found ≡ file) }
    {
        let StartedJournal {
            reader,
            start: _,
            path: _,
        } = self;
        reader.finish()
    }
}
