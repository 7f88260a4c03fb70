//! The groups of a file that grows, one after another, as they come.
ghost use Rattle.std.specs.Prelude.{◌≡◌, ◌<◌, ◌^◌, ◌++◌, [], ◌∷◌, List, ℕ, true, false, length, IfOk, MatchOption, OnOk, OnErr};
ghost use Rattle.journal.specs.Groups.{recovered};
ghost use Rattle.journal.specs.Promises.{AreLeft};
ghost use Rattle.journal.specs.Reading.{HasFirst};

use crate::DiskError;
use crate::groups::{HEAD, first_group};
use crate::growing::GrowingFile;
use ghost_list::GhostList;
use std::alloc::Global;
use std::marker::Model;

/// How many bytes are read at once, where no group is longer.
const PART: usize = 1 << 17;

/// A file that grows, and the groups that were taken of it: each once, in order, and on the disk before it is handed on.
/// They are forgotten: memory holds a part of the file, and as much more as a group takes. To a contract it is the file,
/// the groups so far, and the bytes that were read behind them.
#[derive(Drop)]
pub struct Followed<F: GrowingFile> {
    file: F,
    /// The bytes behind the groups, from this place on, and whether they are on the disk.
    buffer: Vec<u8>,
    place: usize,
    is_synced: bool,
    /// How far the groups reach in the file.
    end: usize,
    groups: GhostList<Vec<u8>>,
}

impl<F: GrowingFile> Model for Followed<F> {
    ghost use Rattle.std.specs.Prelude.{drop};
    ghost use Rattle.journal.specs.Groups.{lists};
    ghost use Rattle.journal.specs.Growing.{AreFollowed, FollowedGroups};

    ghost Value = { FollowedGroups F };

    ghost view = { λ f. record {
      file = f.file;
      groups = lists f.groups.items;
      rest = drop f.place f.buffer.items;
    } };

    ghost invariant = { λ f. AreFollowed (F.seen f.file) (F.may_leave f.file) (lists f.groups.items) f.buffer.items f.place
        f.end f.is_synced };
}

impl<F: GrowingFile> Followed<F> {
    /// A file of which nothing was read.
    pub fn new(alloc: Global, file: F) -> Followed<F>
        requires { F.seen file ≡ [] }
        ensures { result ≡ record { file = file; groups = []; rest = [] } }
    {
        Followed {
            file,
            buffer: Vec::new(alloc),
            place: 0,
            is_synced: false,
            end: 0,
            groups: GhostList::new(),
        }
    }

    // Syncs what was read, if it is not on the disk.
    fn sync_read(&mut self) -> Result<(), DiskError>
        ensures synced { OnOk result (AreLeft (self.new.groups ++ recovered self.new.rest) (F.may_leave self.new.file)) }
        ensures groups { self.new.groups ≡ self.old.groups }
        ensures rest { self.new.rest ≡ self.old.rest }
        ensures ended { F.is_ended self.old.file → F.is_ended self.new.file }
        ensures crash { (c : List ℕ) → F.may_leave self.new.file c → F.may_leave self.old.file c }
        ensures known { F.holds self.new.file ≡ F.holds self.old.file }
    {
        if !self.is_synced {
            self.file.sync()?;
            self.is_synced = true;
        }
        Ok(())
    }

    // The next group of those bytes that were read, if it is whole: it is on the disk then.
    fn pass(&mut self, alloc: Global) -> Result<Option<Vec<u8>>, DiskError>
        ensures group { IfOk result (λ found. MatchOption found
            ((self.new ≡ self.old) × (recovered self.old.rest ≡ []))
            (λ group. self.new.groups ≡ self.old.groups ++ group.items ∷ [])) }
        ensures none { OnErr result (self.new.groups ≡ self.old.groups) }
        ensures crash { (c : List ℕ) → F.may_leave self.new.file c → F.may_leave self.old.file c }
        ensures known { F.holds self.new.file ≡ F.holds self.old.file }
    {
        let Some(group) = first_group(alloc, &self.buffer[self.place..])? else {
            return Ok(None);
        };
        self.sync_read()?;
        let len = HEAD + group.len();
        let Some(end) = self.end.checked_add(len) else {
            return Err(DiskError::Full);
        };
        self.end = end;
        self.place += len;
        self.groups.push(&group);
        Ok(Some(group))
    }

    // Reads once more what stands behind the groups, where no whole one was read: whether that is all of it.
    fn read_more(&mut self, alloc: Global) -> Result<bool, DiskError>
        requires { recovered self.old.rest ≡ [] }
        ensures groups { self.new.groups ≡ self.old.groups }
        ensures more { IfOk result (λ ended. ended ≡ false
            → (length self.old.rest < length self.new.rest) × (length self.new.rest < 2 ^ 64)) }
        ensures end { IfOk result (λ ended. ended ≡ true → F.is_ended self.new.file) }
        ensures crash { (c : List ℕ) → F.may_leave self.new.file c → F.may_leave self.old.file c }
        ensures known { F.holds self.new.file ≡ F.holds self.old.file }
    {
        let rest = self.buffer.len() - self.place;
        let most = rest.saturating_mul(2).saturating_add(PART);
        let bytes = self.file.read_behind(alloc, self.end, most)?;
        let is_ended = bytes.len() < most;
        self.buffer = bytes;
        self.place = 0;
        self.is_synced = false;
        Ok(is_ended)
    }

    /// The next group, which is on the disk; none where the file stands for no more than those so far. After an `Err`
    /// the groups so far are as they were.
    pub fn next_group(&mut self, alloc: Global) -> Result<Option<Vec<u8>>, DiskError>
        ensures next { IfOk result (λ found. MatchOption found
            ((self.new.groups ≡ self.old.groups) × (recovered (F.seen self.new.file) ≡ self.new.groups)
            × F.is_ended self.new.file)
            (λ group. self.new.groups ≡ self.old.groups ++ group.items ∷ [])) }
        ensures none { OnErr result (self.new.groups ≡ self.old.groups) }
        ensures crash { (c : List ℕ) → F.may_leave self.new.file c → F.may_leave self.old.file c }
        ensures known { F.holds self.new.file ≡ F.holds self.old.file }
    {
        let mut is_ended = false;
        loop {
            if let Some(group) = self.pass(alloc)? {
                return Ok(Some(group));
            }
            if is_ended {
                self.soundness();
                return Ok(None);
            }
            is_ended = self.read_more(alloc)?;
        }
    }

    /// The groups so far are the first that the file stands for, and whatever crashes from now on leaves them.
    pub fn soundness(&self)
        ensures first { HasFirst self.now.groups (F.seen self.now.file) }
        ensures all { recovered self.now.rest ≡ [] → recovered (F.seen self.now.file) ≡ self.now.groups }
        ensures left { AreLeft self.now.groups (F.may_leave self.now.file) }
        ensures few { length self.now.groups < 2 ^ 60 }
    {
        let _end = self.end;
    }

    /// The bytes that were read behind the groups so far.
    pub fn rest(&self) -> &[u8]
        ensures { result.now ≡ self.now.rest }
    {
        &self.buffer[self.place..]
    }

    /// The file, as far as it was read.
    pub fn file(&self) -> &F
        ensures { result.now ≡ self.now.file }
    {
        &self.file
    }
}
