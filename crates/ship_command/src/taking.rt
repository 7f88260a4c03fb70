//! The groups of a journal's file, as they are taken of it: each is looked at before it is handed on.

ghost use Rattle.std.specs.Prelude.{◌≡◌, ◌<◌, ◌≤◌, ◌^◌, ◌++◌, [], ◌∷◌, ℕ, List, length, IfOk, IfErr, MatchOption, OnOk, OnErr};
ghost use Rattle.journal.specs.Groups.{recovered};
ghost use Rattle.journal_opening.specs.declared.fault.OpeningFault.TheVariants as opening;
ghost use Rattle.ssb_files.specs.declared.job.JobFault.TheVariants as job;
ghost use Rattle.ssb_journal.specs.declared.opening.JournalOpenFault.TheVariants as kept;
ghost use Rattle.ship_command.specs.declared.fault.ShipRefusal.TheVariants as refusal;
ghost use Rattle.ship_command.specs.Shipped.{TellsShipFault};
ghost use Rattle.ship_command.specs.Taken.{HasCount, HaveGrown, IsHeadAlone, IsLeftOut};

use crate::fault::ShipFault;
use crate::fault::ShipRefusal::{Commit, Journal};
use journal::{CLOSED, DiskError, Followed, GrowingFile};
use journal_opening::{NoSuchCommit, OpeningFault};
use ssb_files::JobFault::Found;
use ssb_journal::{JournalFault, JournalOpenFault, commits_of_group, form_of_head};
use std::alloc::Global;
use std::cell::Cell;

/// A group of commits, and how many these are.
#[derive(Drop)]
pub struct CountedGroup {
    pub group: Vec<u8>,
    pub commits: u64,
}

/// How many commits of the history come before the groups that are not left out, and the first of these, where it was
/// taken.
#[derive(Drop)]
pub struct LeftOut {
    pub commits: u64,
    pub next: Option<Vec<u8>>,
}

/// A journal's file that grows, and how many groups were taken of it. The first, the head, has number 0.
#[derive(Drop)]
pub struct ShippedFile<'a, F: GrowingFile> {
    pub followed: Followed<F>,
    pub taken: u64,
    /// How many commits of the history come before what is taken next, for a file of several parts: by it, it knows
    /// which one follows.
    pub passed: &'a Cell<u64>,
    pub ghost counted: { taken ≡ length followed.groups },
}

// What is told of a file whose disk fails, or for which memory ran out.
fn disk_fault(error: DiskError) -> ShipFault
    ensures { (past after : ℕ) (file : List ℕ) (groups : List (List ℕ)) (behind : List ℕ)
        → TellsShipFault past after file groups behind result }
{
    Found(Journal(OpeningFault::Kept(JournalOpenFault::Disk(error))))
}

// What is told of a file that is no journal.
fn journal_fault(fault: JournalFault) -> ShipFault
    ensures { result ≡ job.Found (refusal.Journal (opening.Kept (kept.Journal fault))) }
{
    Found(Journal(OpeningFault::Kept(JournalOpenFault::Journal(fault))))
}

impl<'a, F: GrowingFile> ShippedFile<'a, F> {
    /// A file of which nothing was read, and how many commits of the history come before it.
    pub fn new(alloc: Global, file: F, passed: &'a Cell<u64>) -> ShippedFile<'a, F>
        requires { F.seen file ≡ [] }
        ensures groups { result.followed.groups ≡ [] }
        ensures known { F.holds result.followed.file ≡ F.holds file }
    {
        ShippedFile {
            followed: Followed::new(alloc, file),
            taken: 0,
            passed,
        }
    }

    // The next group, of whatever kind; none where the file has no more.
    fn take(&mut self, alloc: Global) -> Result<Option<Vec<u8>>, ShipFault>
        ensures next { IfOk result (λ found. MatchOption found
            ((self.new.followed.groups ≡ self.old.followed.groups)
            × (recovered (F.seen self.new.followed.file) ≡ self.new.followed.groups)
            × F.is_ended self.new.followed.file)
            (λ group. self.new.followed.groups ≡ self.old.followed.groups ++ group.items ∷ [])) }
        ensures none { OnErr result (self.new.followed.groups ≡ self.old.followed.groups) }
        ensures few { length self.new.followed.groups < 2 ^ 60 }
        ensures known { F.holds self.new.followed.file ≡ F.holds self.old.followed.file }
        ensures fault { IfErr result (λ fault. (past after : ℕ) → TellsShipFault past after
            (F.seen self.new.followed.file) self.new.followed.groups self.new.followed.rest fault) }
    {
        self.followed.soundness();
        let next = self.followed.next_group(alloc);
        self.followed.soundness();
        match next {
            Ok(Some(group)) => {
                self.taken += 1;
                Ok(Some(group))
            },
            Ok(None) => Ok(None),
            Err(error) => Err(disk_fault(error)),
        }
    }

    /// The head; none where there is none yet.
    pub(crate) fn head(&mut self, alloc: Global) -> Result<Option<Vec<u8>>, ShipFault>
        requires { self.old.followed.groups ≡ [] }
        ensures next { IfOk result (λ found. MatchOption found
            ((self.new.followed.groups ≡ []) × (recovered (F.seen self.new.followed.file) ≡ [])
            × F.is_ended self.new.followed.file)
            (λ head. self.new.followed.groups ≡ head.items ∷ [])) }
        ensures known { F.holds self.new.followed.file ≡ F.holds self.old.followed.file }
        ensures fault { IfErr result (λ fault. (past after : ℕ) → TellsShipFault past after
            (F.seen self.new.followed.file) self.new.followed.groups self.new.followed.rest fault) }
    {
        let Some(group) = self.take(alloc)? else {
            let rest = self.followed.rest();
            if rest.is_empty() || rest[0] == CLOSED {
                return Ok(None);
            }
            return Err(journal_fault(JournalFault::NotAJournal));
        };
        match form_of_head(alloc, &group) {
            Ok(_) => Ok(Some(group)),
            Err(fault) => Err(journal_fault(fault)),
        }
    }

    /// The next group behind the head, and how many commits it has; none where the file has no more.
    pub(crate) fn next(&mut self, alloc: Global) -> Result<Option<CountedGroup>, ShipFault>
        requires { 0 < length self.old.followed.groups }
        ensures next { IfOk result (λ found. MatchOption found
            ((self.new.followed.groups ≡ self.old.followed.groups)
            × (recovered (F.seen self.new.followed.file) ≡ self.new.followed.groups)
            × F.is_ended self.new.followed.file)
            (λ next. (self.new.followed.groups ≡ self.old.followed.groups ++ next.group.items ∷ [])
            × HasCount next.commits next.group.items)) }
        ensures grown { HaveGrown self.old.followed.groups self.new.followed.groups }
        ensures few { length self.new.followed.groups < 2 ^ 60 }
        ensures known { F.holds self.new.followed.file ≡ F.holds self.old.followed.file }
        ensures fault { IfErr result (λ fault. (past after : ℕ) → TellsShipFault past after
            (F.seen self.new.followed.file) self.new.followed.groups self.new.followed.rest fault) }
    {
        let number = self.taken;
        let Some(group) = self.take(alloc)? else {
            return Ok(None);
        };
        match commits_of_group(alloc, number, &group) {
            Ok(spelled) => {
                let commits = spelled.len() as u64;
                self.passed.set(self.passed.get().saturating_add(commits));
                Ok(Some(CountedGroup { group, commits }))
            },
            Err(fault) => Err(journal_fault(fault)),
        }
    }

    /// Leaves out the groups behind the head that end with this commit of the history or before; so many commits come
    /// before the file's. Where the history has fewer commits, that is told.
    pub(crate) fn leave_out(
        &mut self,
        alloc: Global,
        past: u64,
        after: u64,
    ) -> Result<LeftOut, ShipFault>
        requires head { IsHeadAlone self.old.followed.groups }
        requires behind { past ≤ after }
        ensures left { IfOk result (IsLeftOut past after self.old.followed.groups self.new.followed.groups) }
        ensures grown { HaveGrown self.old.followed.groups self.new.followed.groups }
        ensures known { F.holds self.new.followed.file ≡ F.holds self.old.followed.file }
        ensures fault { IfErr result (TellsShipFault past after (F.seen self.new.followed.file)
            self.new.followed.groups self.new.followed.rest) }
    {
        let mut commits = past;
        loop {
            let Some(next) = self.next(alloc)? else {
                if commits < after {
                    return Err(Found(Commit(NoSuchCommit { number: after })));
                }
                return Ok(LeftOut {
                    commits,
                    next: None,
                });
            };
            let CountedGroup {
                group,
                commits: more,
            } = next;
            match commits.checked_add(more) {
                Some(all) if all <= after => commits = all,
                _ => {
                    return Ok(LeftOut {
                        commits,
                        next: Some(group),
                    });
                },
            }
        }
    }
}
