//! The commits of a journal's file, one after another, as it is read.
ghost use Rattle.std.specs.List.{AllZip};
ghost use Rattle.std.specs.Prelude.{◌≡◌, ◌⊎◌, ◌+◌, ◌<◌, ◌≤◌, ◌^◌, ◌++◌, [], List, ℕ, true, false, length, take, IfOk, IfErr, IfSome, IsSome, IsErrOf, MatchOption};
ghost use Rattle.journal.specs.Disk.{BeginsAsRead};
ghost use Rattle.journal.specs.Groups.{recovered, behind, lists, AreTorn};
ghost use Rattle.ssb_journal.specs.Heads.{head_text};
ghost use Rattle.ssb_journal.specs.Kept.{BeginsWithCommits, IsFirstNoBatch, SpellCommits};
ghost use Rattle.ssb_journal.specs.Gathered.{AreNext, IsFaultBehind, IsFirstGroupFault, IsOfNext, IsTextOf};
ghost use Rattle.ssb_journal.specs.Opening.{IsKept, TellsOpenFault};
ghost use Rattle.ssb_journal.specs.Seals.{sealed};
ghost use Rattle.ssb_journal.specs.Texts.{IsBeginning};

use crate::checksum::unseal;
use crate::commits::{MOST_TOGETHER, SpelledTexts, commits_of};
use crate::fault::JournalFault;
use crate::head::{HeadForm, TableMark, check_head};
use crate::kept::KeptCommits;
use crate::opening::{JournalOpenFault, OpenedJournal};
use crate::texts::is_beginning;
use ghost_list::GhostList;
use journal::{DiskError, UnreadDisk, UnreadJournal};
use rayon::prelude::*;
use row_store::Commit;
use std::alloc::{AllocError, Global};
use std::marker::Model;
use std::thread::Threads;

/// A journal's file whose commits are read one after another. They are handed on and forgotten: memory holds a part of
/// the file, and the commits that are read together. To a contract it is the file, the marks of its tables, how many
/// texts were handed on, the commits so far, the form of its head, and whether it is new and whether all was read.
#[derive(Drop)]
pub struct JournalReader<'a, U: UnreadDisk> {
    marks: &'a [TableMark],
    groups: UnreadJournal<U>,
    texts: u64,
    kept: KeptCommits,
    /// The fault of the group behind those texts, where it was read with them: it is told next.
    fault: Option<JournalFault>,
}

impl<'a, U: UnreadDisk> Model for JournalReader<'a, U> {
    ghost use Rattle.std.specs.Prelude.{MatchOption};
    ghost use Rattle.ssb_journal.specs.Reading.{are_all_read, IsReading, IsToldNext, ReadCommits};

    ghost Value = { ReadCommits U };

    ghost view = { λ r. record {
      unread = r.groups.unread;
      marks = r.marks.now;
      texts = r.texts;
      commits = r.kept.commits.items;
      form = r.kept.form;
      is_new = r.kept.is_new;
      is_done = are_all_read r.groups.is_done r.fault;
    } };

    ghost invariant = { λ r. MatchOption r.fault
        (IsReading r.marks.now r.groups.groups r.groups.rest r.groups.is_done r.texts r.kept)
        (IsToldNext r.marks.now (U.taken r.groups.unread) (U.is_ended r.groups.unread) r.texts) };
}

// The next groups, so many as are read together; none at the end.
fn next_groups<U: UnreadDisk>(
    alloc: Global,
    groups: &mut UnreadJournal<U>,
    together: usize,
) -> Result<Vec<Vec<u8>>, DiskError>
    ensures next { IfOk result (λ next. groups.new.groups ≡ groups.old.groups ++ lists next.items) }
    ensures end { IfOk result (λ next. next.items ≡ [] → groups.new.is_done ≡ true) }
    ensures known { U.holds groups.new.unread ≡ U.holds groups.old.unread }
    ensures later { U.faults groups.old.unread ≤ U.faults groups.new.unread }
    ensures failed { IsErrOf result DiskError.Failed → U.faults groups.old.unread < U.faults groups.new.unread }
    ensures full { IsErrOf result DiskError.Full → 2 ^ 60 ≤ length (U.taken groups.new.unread) }
{
    let mut next = Vec::new(alloc);
    let mut bytes = 0usize;
    loop {
        let Some(group) = groups.next_group(alloc)? else {
            return Ok(next);
        };
        groups.soundness();
        bytes = bytes.saturating_add(group.len());
        next.push(group)?;
        if bytes >= together {
            return Ok(next);
        }
    }
}

// The texts of groups that were read together, up to the first whose bytes are not those that were written, and whether
// there is such a one.
#[derive(Drop)]
struct NextTexts {
    texts: Vec<Vec<u8>>,
    is_damaged: bool,
}

// The text of each group, its checksum reckoned by as many threads as there are processors.
fn texts_found(
    rt: &(impl Threads + Sync),
    alloc: Global,
    groups: &[Vec<u8>],
) -> Result<Vec<Result<Option<Vec<u8>>, AllocError>>, AllocError>
    ensures { IfOk result (λ texts. AllZip (λ group text. IsTextOf group.items text) groups.now texts.items) }
{
    groups
        .par_iter()
        .with_min_len(1)
        .map(
            |group: &Vec<u8>| -> Result<Option<Vec<u8>>, AllocError>
                ensures { IsTextOf group.now.items result }
            { unseal(alloc, group) },
        )
        .collect(rt, alloc)
}

// The texts of groups.
fn texts_of(
    rt: &(impl Threads + Sync),
    alloc: Global,
    groups: &[Vec<u8>],
) -> Result<NextTexts, AllocError>
    ensures texts { IfOk result (λ next. (before : List (List ℕ))
        → AreNext (lists next.texts.items) next.is_damaged before (before ++ lists groups.now)) }
    ensures end { IfOk result (λ next. next.texts.items ≡ [] → next.is_damaged ≡ false → groups.now ≡ []) }
{
    let mut texts = Vec::new(alloc);
    for text in texts_found(rt, alloc, groups)? {
        let Some(text) = text? else {
            return Ok(NextTexts {
                texts,
                is_damaged: true,
            });
        };
        texts.push(text)?;
    }
    Ok(NextTexts {
        texts,
        is_damaged: false,
    })
}

// The texts of the next groups, so many as are read together; none at the end.
fn next_texts<U: UnreadDisk>(
    rt: &(impl Threads + Sync),
    alloc: Global,
    groups: &mut UnreadJournal<U>,
    together: usize,
) -> Result<NextTexts, DiskError>
    ensures texts { IfOk result (λ next. AreNext (lists next.texts.items) next.is_damaged groups.old.groups
        groups.new.groups) }
    ensures end { IfOk result (λ next. next.texts.items ≡ [] → next.is_damaged ≡ false → groups.new.is_done ≡ true) }
    ensures known { U.holds groups.new.unread ≡ U.holds groups.old.unread }
    ensures later { U.faults groups.old.unread ≤ U.faults groups.new.unread }
    ensures failed { IsErrOf result DiskError.Failed → U.faults groups.old.unread < U.faults groups.new.unread }
    ensures full { IsErrOf result DiskError.Full → 2 ^ 60 ≤ length (U.taken groups.new.unread) }
{
    let next = next_groups(alloc, groups, together)?;
    let texts = texts_of(rt, alloc, &next)?;
    Ok(texts)
}

// The fault of the group behind the first of these texts, so many of them, where it was read. The texts come behind so
// many others.
fn fault_behind(before: u64, count: usize, next: &NextTexts) -> Option<JournalFault>
    requires few { before + length next.now.texts.items < 2 ^ 62 }
    requires within { count ≤ length next.now.texts.items }
    requires next { count < length next.now.texts.items
        → IsFirstNoBatch (lists next.now.texts.items) (JournalFault.Damaged (count + 1)) }
    ensures { MatchOption result ((count ≡ length (lists next.now.texts.items)) × (next.now.is_damaged ≡ false))
        (IsFaultBehind before count (lists next.now.texts.items) next.now.is_damaged) }
{
    if count < next.texts.len() || next.is_damaged {
        return Some(JournalFault::Damaged(before + count as u64 + 1));
    }
    None
}

// The same, with some commits more.
fn kept_more(kept: KeptCommits, commits: &[Commit]) -> Result<KeptCommits, JournalFault>
    ensures commits { IfOk result (λ more. more.commits.items ≡ kept.commits.items ++ commits.now) }
    ensures same { IfOk result (λ more. (more.form ≡ kept.form) × (more.is_new ≡ kept.is_new)) }
    ensures fault { IfErr result (λ fault. fault ≡ JournalFault.OutOfMemory) }
{
    let KeptCommits {
        commits: mut all,
        count,
        form,
        is_new,
    } = kept;
    for commit in commits {
        all.push(commit);
    }
    // No memory of texts is so large.
    let Some(count) = count.checked_add(commits.len() as u64) else {
        return Err(JournalFault::OutOfMemory);
    };
    Ok(KeptCommits {
        commits: all,
        count,
        form,
        is_new,
    })
}

// The commits of the first of the texts that were read together, what is kept with them, and the fault of the group
// behind them, where it was read.
#[derive(Drop)]
struct MoreCommits {
    count: u64,
    commits: Vec<Commit>,
    kept: KeptCommits,
    fault: Option<JournalFault>,
}

// The commits of texts that were read together, behind so many others, up to the first fault.
fn commits_more(
    rt: &(impl Threads + Sync),
    alloc: Global,
    before: u64,
    next: &NextTexts,
    kept: KeptCommits,
) -> Result<MoreCommits, JournalFault>
    requires { before + length next.now.texts.items < 2 ^ 62 }
    ensures within { IfOk result (λ more. more.count ≤ length next.now.texts.items) }
    ensures spelled { IfOk result (λ more. SpellCommits (take more.count (lists next.now.texts.items))
        more.commits.items) }
    ensures commits { IfOk result (λ more. more.kept.commits.items ≡ kept.commits.items ++ more.commits.items) }
    ensures same { IfOk result (λ more. (more.kept.form ≡ kept.form) × (more.kept.is_new ≡ kept.is_new)) }
    ensures some { IfOk result (λ more. more.count ≡ 0 → more.fault ≡ None) }
    ensures next { IfOk result (λ more. MatchOption more.fault
        ((more.count ≡ length (lists next.now.texts.items)) × (next.now.is_damaged ≡ false))
        (IsFaultBehind before more.count (lists next.now.texts.items) next.now.is_damaged)) }
    ensures fault { IfErr result (λ fault. (fault ≡ JournalFault.OutOfMemory)
        ⊎ IsFaultBehind before 0 (lists next.now.texts.items) next.now.is_damaged fault) }
{
    let SpelledTexts { count, commits } = commits_of(rt, alloc, &next.texts)?;
    let fault = fault_behind(before, count, next);
    if count == 0 {
        if let Some(fault) = fault {
            return Err(fault);
        }
    }
    let kept = kept_more(kept, &commits)?;
    Ok(MoreCommits {
        count: count as u64,
        commits,
        kept,
        fault,
    })
}

// The form of a head, which is the first group of a journal over tables of these marks.
fn form_of(alloc: Global, marks: &[TableMark], group: &[u8]) -> Result<HeadForm, JournalFault>
    ensures head { IfOk result (λ form. group.now ≡ sealed (head_text form marks.now)) }
    ensures fault { IfErr result (λ fault. (fault ≡ JournalFault.OutOfMemory)
        ⊎ IsFirstGroupFault marks.now group.now fault) }
{
    let Some(head) = unseal(alloc, group)? else {
        return Err(JournalFault::Damaged(0));
    };
    check_head(alloc, marks, &head)
}

// What a file of these groups keeps, of which the head alone was read.
fn kept_at_first<U: UnreadDisk>(
    alloc: Global,
    marks: &[TableMark],
    groups: &mut UnreadJournal<U>,
) -> Result<KeptCommits, JournalOpenFault>
    requires { groups.old.groups ≡ [] }
    ensures kept { IfOk result (IsKept marks.now groups.new.groups) }
    ensures none { IfOk result (λ kept. kept.commits.items ≡ []) }
    ensures one { IfOk result (λ kept. kept.is_new ≡ false → length groups.new.groups ≡ 1) }
    ensures new { IfOk result (λ kept. kept.is_new ≡ true
        → (groups.new.is_done ≡ true) × IsBeginning marks.now groups.new.rest) }
    ensures fault { IfErr result (λ fault. (file : List ℕ)
        → BeginsAsRead (U.taken groups.new.unread) (U.is_ended groups.new.unread) file
        → TellsOpenFault marks.now file fault) }
    ensures known { U.holds groups.new.unread ≡ U.holds groups.old.unread }
    ensures failed { IsErrOf result (JournalOpenFault.Disk DiskError.Failed)
        → U.faults groups.old.unread < U.faults groups.new.unread }
    ensures full { IsErrOf result (JournalOpenFault.Disk DiskError.Full)
        → 2 ^ 60 ≤ length (U.taken groups.new.unread) }
{
    let first = match groups.next_group(alloc) {
        Ok(first) => first,
        Err(error) => return Err(JournalOpenFault::Disk(error)),
    };
    groups.soundness();
    let (form, is_new) = match first {
        Some(group) => match form_of(alloc, marks, &group) {
            Ok(form) => (form, false),
            Err(fault) => return Err(JournalOpenFault::Journal(fault)),
        },
        None => match is_beginning(alloc, marks, groups.rest()) {
            Ok(true) => (HeadForm::Checksums, true),
            Ok(false) => return Err(JournalOpenFault::Journal(JournalFault::NotAJournal)),
            Err(_) => return Err(JournalOpenFault::Journal(JournalFault::OutOfMemory)),
        },
    };
    Ok(KeptCommits {
        commits: GhostList::new(),
        count: 0,
        form,
        is_new,
    })
}

/// Begins to read a journal's file, of which nothing was read: its head is looked at. Nothing is written. An `Err`
/// hands the file back, as far as it was read.
pub fn open<'a, U: UnreadDisk>(
    alloc: Global,
    marks: &'a [TableMark],
    unread: U,
) -> Result<JournalReader<'a, U>, (JournalOpenFault, U)>
    requires { U.taken unread ≡ [] }
    ensures marks { IfOk result (λ reader. reader.marks ≡ marks.now) }
    ensures none { IfOk result (λ reader. (reader.texts ≡ 0) × (reader.commits ≡ [])) }
    ensures known { IfOk result (λ reader. U.holds reader.unread ≡ U.holds unread) }
    // The fault is one of each file that begins with what was read.
    ensures fault { IfErr result (λ e. (file : List ℕ)
        → BeginsAsRead (U.taken e.1) (U.is_ended e.1) file → TellsOpenFault marks.now file e.0) }
    ensures known_err { IfErr result (λ e. U.holds e.1 ≡ U.holds unread) }
    // It does not give up by itself.
    ensures failed { IfErr result (λ e. e.0 ≡ JournalOpenFault.Disk DiskError.Failed
        → U.faults unread < U.faults e.1) }
    ensures full { IfErr result (λ e. e.0 ≡ JournalOpenFault.Disk DiskError.Full → 2 ^ 60 ≤ length (U.taken e.1)) }
{
    let mut groups = UnreadJournal::new(alloc, unread);
    match kept_at_first(alloc, marks, &mut groups) {
        Ok(kept) => Ok(JournalReader {
            marks,
            groups,
            texts: 0,
            kept,
            fault: None,
        }),
        Err(fault) => Err((fault, groups.into_unread())),
    }
}

impl<'a, U: UnreadDisk> JournalReader<'a, U> {
    /// The form of its head.
    pub fn form(&self) -> HeadForm
        ensures { result ≡ self.now.form }
    {
        self.kept.form
    }

    /// The next commits; none at the end. The first fault of the file is told, once all commits before it were handed
    /// on. An `Err` hands the file back, as far as it was read.
    pub fn next(
        self,
        rt: &(impl Threads + Sync),
        alloc: Global,
    ) -> Result<(JournalReader<'a, U>, Option<Vec<Commit>>), (JournalOpenFault, U)>
        ensures commits { IfOk result (λ next. MatchOption next.1
            ((next.0.commits ≡ self.entry.commits) × (next.0.is_done ≡ true))
            (λ batch. next.0.commits ≡ self.entry.commits ++ batch.items)) }
        ensures same { IfOk result (λ next. (next.0.marks ≡ self.entry.marks) × (next.0.form ≡ self.entry.form)
            × (next.0.is_new ≡ self.entry.is_new)) }
        ensures more { IfOk result (λ next. IsSome next.1
            → (self.entry.texts < next.0.texts) × (next.0.texts < 2 ^ 60)) }
        // Each file that begins with what was read begins with a journal of the commits so far.
        ensures kept { IfOk result (λ next. IsSome next.1 → (file : List ℕ)
            → BeginsAsRead (U.taken next.0.unread) (U.is_ended next.0.unread) file
            → BeginsWithCommits self.entry.marks next.0.commits file) }
        ensures known { IfOk result (λ next. U.holds next.0.unread ≡ U.holds self.entry.unread) }
        // The fault is one of each such file.
        ensures fault { IfErr result (λ e. (file : List ℕ)
            → BeginsAsRead (U.taken e.1) (U.is_ended e.1) file → TellsOpenFault self.entry.marks file e.0) }
        // A fault is one of the group behind those whose commits were handed on.
        ensures first { IfErr result (λ e. IsOfNext self.entry.texts e.0) }
        ensures known_err { IfErr result (λ e. U.holds e.1 ≡ U.holds self.entry.unread) }
        // It does not give up by itself.
        ensures failed { IfErr result (λ e. e.0 ≡ JournalOpenFault.Disk DiskError.Failed
            → U.faults self.entry.unread < U.faults e.1) }
        ensures full { IfErr result (λ e. e.0 ≡ JournalOpenFault.Disk DiskError.Full
            → 2 ^ 60 ≤ length (U.taken e.1)) }
    {
        self.next_within(rt, alloc, MOST_TOGETHER)
    }

    /// The same, of groups that are read together until they have so many bytes. Of a stream with 1 each group is handed
    /// on as it comes.
    pub fn next_within(
        self,
        rt: &(impl Threads + Sync),
        alloc: Global,
        together: usize,
    ) -> Result<(JournalReader<'a, U>, Option<Vec<Commit>>), (JournalOpenFault, U)>
        ensures commits { IfOk result (λ next. MatchOption next.1
            ((next.0.commits ≡ self.entry.commits) × (next.0.is_done ≡ true))
            (λ batch. next.0.commits ≡ self.entry.commits ++ batch.items)) }
        ensures same { IfOk result (λ next. (next.0.marks ≡ self.entry.marks) × (next.0.form ≡ self.entry.form)
            × (next.0.is_new ≡ self.entry.is_new)) }
        ensures more { IfOk result (λ next. IsSome next.1
            → (self.entry.texts < next.0.texts) × (next.0.texts < 2 ^ 60)) }
        // Each file that begins with what was read begins with a journal of the commits so far.
        ensures kept { IfOk result (λ next. IsSome next.1 → (file : List ℕ)
            → BeginsAsRead (U.taken next.0.unread) (U.is_ended next.0.unread) file
            → BeginsWithCommits self.entry.marks next.0.commits file) }
        ensures known { IfOk result (λ next. U.holds next.0.unread ≡ U.holds self.entry.unread) }
        // The fault is one of each such file.
        ensures fault { IfErr result (λ e. (file : List ℕ)
            → BeginsAsRead (U.taken e.1) (U.is_ended e.1) file → TellsOpenFault self.entry.marks file e.0) }
        // A fault is one of the group behind those whose commits were handed on.
        ensures first { IfErr result (λ e. IsOfNext self.entry.texts e.0) }
        ensures known_err { IfErr result (λ e. U.holds e.1 ≡ U.holds self.entry.unread) }
        // It does not give up by itself.
        ensures failed { IfErr result (λ e. e.0 ≡ JournalOpenFault.Disk DiskError.Failed
            → U.faults self.entry.unread < U.faults e.1) }
        ensures full { IfErr result (λ e. e.0 ≡ JournalOpenFault.Disk DiskError.Full
            → 2 ^ 60 ≤ length (U.taken e.1)) }
    {
        if let Some(fault) = self.fault {
            return Err((JournalOpenFault::Journal(fault), self.into_unread()));
        }
        if self.kept.is_new {
            return Ok((self, None));
        }
        let JournalReader {
            marks,
            mut groups,
            texts,
            kept,
            fault: _,
        } = self;
        let next = match next_texts(rt, alloc, &mut groups, together) {
            Ok(next) => next,
            Err(error) => return Err((JournalOpenFault::Disk(error), groups.into_unread())),
        };
        groups.soundness();
        let more = match commits_more(rt, alloc, texts, &next, kept) {
            Ok(more) => more,
            Err(fault) => return Err((JournalOpenFault::Journal(fault), groups.into_unread())),
        };
        let reader = JournalReader {
            marks,
            groups,
            texts: texts + more.count,
            kept: more.kept,
            fault: more.fault,
        };
        if more.count == 0 {
            return Ok((reader, None));
        }
        Ok((reader, Some(more.commits)))
    }

    /// The file, as far as it was read.
    pub fn into_unread(self) -> U
        ensures { result ≡ self.entry.unread }
    {
        let JournalReader {
            marks: _,
            groups,
            texts: _,
            kept: _,
            fault: _,
        } = self;
        groups.into_unread()
    }

    /// What the file keeps, where all was read, and what a crash has torn of it.
    pub fn finish(self) -> OpenedJournal<U::Whole>
        requires { self.is_done ≡ true }
        ensures kept { IsKept self.entry.marks (recovered (U.Whole.seen result.found)) result.kept }
        ensures commits { result.kept.commits.items ≡ self.entry.commits }
        ensures form { result.kept.form ≡ self.entry.form }
        ensures new { result.kept.is_new ≡ self.entry.is_new }
        ensures beginning { result.kept.is_new ≡ true
            → IsBeginning self.entry.marks (behind (U.Whole.seen result.found)) }
        ensures same { U.Whole.seen result.found ≡ U.taken self.entry.unread }
        ensures torn { AreTorn (U.Whole.seen result.found) result.torn.items }
        ensures known { IfSome (U.holds self.entry.unread) (λ file. U.Whole.seen result.found ≡ file) }
    {
        let JournalReader {
            marks: _,
            groups,
            texts: _,
            kept,
            fault: _,
        } = self;
        let (found, torn) = groups.into_found();
        OpenedJournal { found, kept, torn }
    }
}
