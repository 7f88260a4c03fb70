//! What holds of every journal: each law is the contract of a function that does nothing.
ghost use Rattle.std.specs.Prelude.{◌≡◌, List, ℕ, [], length, take, true, false};
ghost use Rattle.journal.specs.Groups.{recovered, behind};
ghost use Rattle.row_store.specs.History.{CommitRecord, IsPrefix};
ghost use Rattle.ssb_journal.specs.declared.fault.JournalFault.{JournalFault};
ghost use Rattle.ssb_journal.specs.declared.head.TableMark.{TableMark};
ghost use Rattle.ssb_journal.specs.declared.kept.KeptCommits.{KeptCommits};
ghost use Rattle.ssb_journal.specs.Counts.{HaveFirst, KeepsFirst};
ghost use Rattle.ssb_journal.specs.Kept.{BeginsWithCommits, KeepsCommits};
ghost use Rattle.ssb_journal.specs.Opening.{IsKept, IsOpenFault};
ghost use Rattle.ssb_journal.specs.Texts.{IsJournalOf, IsNewJournal};

use journal::Disk;
use ssb_trace::one_reading;

/// A file is a journal of one list of texts, over tables of one list of marks.
pub fn one_list_of_texts()
    ensures { (marks : List TableMark) (file : List ℕ) (texts others : List (List ℕ))
        → IsJournalOf marks texts file → IsJournalOf marks others file → texts ≡ others }
{}

/// A file keeps one list of commits: so what is read of it is what was appended.
pub fn one_list_of_commits()
    ensures { (marks : List TableMark) (file : List ℕ) (commits others : List CommitRecord)
        → KeepsCommits marks commits file → KeepsCommits marks others file → commits ≡ others }
{
    one_list_of_texts();
    one_reading();
}

/// A journal that is opened and then begun keeps the commits that were read.
pub fn begun_journal_keeps()
    ensures { (marks : List TableMark) (kept : KeptCommits) (old new : List ℕ)
        → IsKept marks (recovered old) kept
        → (kept.is_new ≡ false → recovered new ≡ recovered old)
        → (kept.is_new ≡ true → IsJournalOf marks [] new)
        → KeepsCommits marks kept.commits.items new }
{}

/// A journal keeps the first commits of each log that begins with its commits.
pub fn first_of_log()
    ensures { (marks : List TableMark) (commits log : List CommitRecord) (file : List ℕ)
        → KeepsCommits marks commits file → IsPrefix commits log → KeepsFirst (length commits) log file }
{}

/// Nothing is told against a new journal, nor against what a crash leaves of one that is being made.
pub fn new_journal_is_opened()
    ensures { (marks : List TableMark) (file : List ℕ) (fault : JournalFault)
        → IsNewJournal marks file → IsOpenFault marks (recovered file) (behind file) fault → ⊥ }
{}

/// Whatever a crash leaves of a disk that has promised commits begins with a journal of them.
pub fn promised_commits_are_left<D: Disk>(disk: &D)
    ensures { (count : ℕ) (log : List CommitRecord) (file : List ℕ)
        → HaveFirst count log (D.promised disk.now) → D.may_leave disk.now file
        → (marks : List TableMark) × BeginsWithCommits marks (take count log) file }
{
    let _disk = disk;
}
