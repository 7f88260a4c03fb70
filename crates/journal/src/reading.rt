//! The groups of a file, one after another, as it is read.
ghost use Rattle.std.specs.Prelude.{◌≡◌, ◌≢◌, ◌<◌, ◌≤◌, ◌^◌, ◌++◌, [], ◌∷◌, List, ℕ, true, false, length, drop, IfOk, IfSome, IsErrOf, MatchOption, OnOk, OnErr};
ghost use Rattle.journal.specs.Disk.{HasCause};
ghost use Rattle.journal.specs.Groups.{recovered, behind, AreTorn};
ghost use Rattle.journal.specs.Reading.{HasFirst};

use crate::groups::{CLOSED, HEAD, first_group};
use crate::journal::Found;
use crate::{DiskError, UnreadDisk};
use ghost_list::GhostList;
use std::alloc::{AllocError, Global};
use std::marker::Model;

/// How many bytes are read at once.
const PART: usize = 1 << 18;

/// A file whose groups are read one after another. Each is handed on and forgotten: memory holds a part of the file,
/// and as much more as a group or what a crash has torn takes. To a contract it is the file, the groups so far, and
/// whether they are all.
#[derive(Drop)]
pub struct UnreadJournal<U: UnreadDisk> {
    unread: U,
    /// The bytes behind the groups, from this place on.
    buffer: Vec<u8>,
    place: usize,
    /// How far the groups reach in the file.
    end: usize,
    is_done: bool,
    groups: GhostList<Vec<u8>>,
}

impl<U: UnreadDisk> Model for UnreadJournal<U> {
    ghost use Rattle.std.specs.Prelude.{drop};
    ghost use Rattle.journal.specs.Groups.{lists};
    ghost use Rattle.journal.specs.Reading.{AreRead, ReadGroups};

    ghost Value = { ReadGroups U };

    ghost view = { λ r. record {
      unread = r.unread;
      groups = lists r.groups.items;
      rest = drop r.place r.buffer.items;
      is_done = r.is_done;
    } };

    ghost invariant = { λ r. AreRead (U.taken r.unread) (U.is_ended r.unread) (lists r.groups.items) r.buffer.items r.place
        r.end r.is_done };
}

// What a crash has torn of a file: the bytes behind its groups, unless they are a closed gate alone.
fn torn_of(mut rest: Vec<u8>) -> Vec<u8>
    ensures at_rest { rest.items ≡ 48 ∷ [] → result.items ≡ [] }
    ensures torn { rest.items ≢ 48 ∷ [] → result.items ≡ rest.items }
{
    if matches!(rest.as_slice(), [CLOSED]) {
        rest.clear();
    }
    rest
}

// Forgets the front of a buffer.
fn forget_front(alloc: Global, buffer: &mut Vec<u8>, place: usize) -> Result<(), AllocError>
    requires { place ≤ length buffer.old.items }
    ensures done { OnOk result (buffer.new.items ≡ drop place buffer.old.items) }
    ensures unchanged { OnErr result (buffer.new.items ≡ buffer.old.items) }
{
    if place > 0 {
        let rest = buffer[place..].to_vec(alloc)?;
        *buffer = rest;
    }
    Ok(())
}

impl<U: UnreadDisk> UnreadJournal<U> {
    /// The groups of a file of which nothing was read.
    pub fn new(alloc: Global, unread: U) -> UnreadJournal<U>
        requires { U.taken unread ≡ [] }
        ensures { result ≡ record { unread = unread; groups = []; rest = []; is_done = false } }
    {
        UnreadJournal {
            unread,
            buffer: Vec::new(alloc),
            place: 0,
            end: 0,
            is_done: false,
            groups: GhostList::new(),
        }
    }

    // The next group of those bytes that were read, if it is whole.
    fn pass(&mut self, alloc: Global) -> Result<Option<Vec<u8>>, DiskError>
        requires { self.old.is_done ≡ false }
        ensures group { IfOk result (λ found. MatchOption found
            ((self.new ≡ self.old) × (recovered self.old.rest ≡ []))
            (λ group. self.new.groups ≡ self.old.groups ++ group.items ∷ [])) }
        ensures same { self.new.unread ≡ self.old.unread }
        ensures none { OnErr result (self.new ≡ self.old) }
        ensures failed { IsErrOf result DiskError.Failed → ⊥ }
        ensures full { IsErrOf result DiskError.Full → 2 ^ 60 ≤ length (U.taken self.new.unread) }
    {
        let Some(group) = first_group(alloc, &self.buffer[self.place..])? else {
            return Ok(None);
        };
        let len = HEAD + group.len();
        let Some(end) = self.end.checked_add(len) else {
            return Err(DiskError::Full);
        };
        self.end = end;
        self.place += len;
        self.groups.push(&group);
        Ok(Some(group))
    }

    // Reads a part more, where no whole group was read; none came at the end.
    fn read_more(&mut self, alloc: Global) -> Result<bool, DiskError>
        requires more { self.old.is_done ≡ false }
        requires nothing { recovered self.old.rest ≡ [] }
        ensures groups { self.new.groups ≡ self.old.groups }
        ensures more { IfOk result (λ more. more ≡ true → (self.new.is_done ≡ false)
            × (length self.old.rest < length self.new.rest) × (length self.new.rest < 2 ^ 64)) }
        ensures end { IfOk result (λ more. more ≡ false → self.new.is_done ≡ true) }
        ensures none { OnErr result (self.new.is_done ≡ false) }
        ensures known { U.holds self.new.unread ≡ U.holds self.old.unread }
        ensures cause { HasCause (U.faults self.old.unread) (U.faults self.new.unread) result }
    {
        forget_front(alloc, &mut self.buffer, self.place)?;
        self.place = 0;
        // With this room no part is lost that was read.
        self.buffer.reserve(PART)?;
        let part = self.unread.read_next(alloc, PART)?;
        self.buffer.extend_from_slice(&part)?;
        self.is_done = part.is_empty();
        Ok(!self.is_done)
    }

    /// The next group; none at the end. After an `Err` the groups so far are as they were.
    pub fn next_group(&mut self, alloc: Global) -> Result<Option<Vec<u8>>, DiskError>
        ensures next { IfOk result (λ found. MatchOption found
            ((self.new.groups ≡ self.old.groups) × (self.new.is_done ≡ true))
            (λ group. self.new.groups ≡ self.old.groups ++ group.items ∷ [])) }
        ensures none { OnErr result (self.new.groups ≡ self.old.groups) }
        ensures known { U.holds self.new.unread ≡ U.holds self.old.unread }
        ensures later { U.faults self.old.unread ≤ U.faults self.new.unread }
        // It does not give up by itself.
        ensures failed { IsErrOf result DiskError.Failed → U.faults self.old.unread < U.faults self.new.unread }
        ensures full { IsErrOf result DiskError.Full → 2 ^ 60 ≤ length (U.taken self.new.unread) }
    {
        if self.is_done {
            return Ok(None);
        }
        loop {
            if let Some(group) = self.pass(alloc)? {
                return Ok(Some(group));
            }
            if !self.read_more(alloc)? {
                return Ok(None);
            }
        }
    }

    /// The groups so far are the first of each file that begins with what was read, and in the end they are all.
    pub fn soundness(&self)
        ensures first { (more : List ℕ) → HasFirst self.now.groups (U.taken self.now.unread ++ more) }
        ensures whole { self.now.is_done ≡ true → recovered (U.taken self.now.unread) ≡ self.now.groups }
        ensures behind { self.now.is_done ≡ true → behind (U.taken self.now.unread) ≡ self.now.rest }
        ensures ended { self.now.is_done ≡ true → U.is_ended self.now.unread }
        ensures few { length self.now.groups < 2 ^ 60 }
    {
        let _end = self.end;
    }

    /// The bytes behind the groups that were read.
    pub fn rest(&self) -> &[u8]
        ensures { result.now ≡ self.now.rest }
    {
        &self.buffer[self.place..]
    }

    /// The file, where the groups are all, and what a crash has torn of it.
    pub fn into_found(self) -> (Found<U::Whole>, Vec<u8>)
        requires { self.is_done ≡ true }
        ensures same { U.Whole.seen result.0 ≡ U.taken self.unread }
        ensures groups { recovered (U.Whole.seen result.0) ≡ self.groups }
        ensures torn { AreTorn (U.Whole.seen result.0) result.1.items }
        ensures behind { behind (U.Whole.seen result.0) ≡ self.rest }
        ensures known { IfSome (U.holds self.unread) (λ file. U.Whole.seen result.0 ≡ file) }
    {
        let UnreadJournal {
            unread,
            buffer,
            place: _,
            end,
            is_done: _,
            groups: _,
        } = self;
        (Found::new(unread.into_whole(), end), torn_of(buffer))
    }

    /// The file, as far as it was read.
    pub fn into_unread(self) -> U
        ensures { result ≡ self.unread }
    {
        let UnreadJournal {
            unread,
            buffer: _,
            place: _,
            end: _,
            is_done: _,
            groups: _,
        } = self;
        unread
    }
}
