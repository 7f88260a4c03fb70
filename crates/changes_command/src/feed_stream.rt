//! A stream of a journal's groups, read in the place of the journal's file.

ghost use Rattle.std.specs.Prelude.{◌≡◌, ◌+◌, [], ◌∷◌, Some, length, true};
ghost use Rattle.std.specs.Io.KnownBytes.{prepend_known};
ghost use Rattle.std.proofs.Props.{props};
ghost use Rattle.journal_file.specs.Parts.{bytes_of};
ghost use Rattle.changes_command.specs.Streams.{AreGiven, given_by, groups_promised};

use ghost_list::GhostList;
use journal::{Disk, DiskError, UnreadDisk};
use std::alloc::Global;
use std::io::Read;

/// A stream of a journal's groups, of which a part was read. What it gives is known where its input's bytes are.
#[derive(Drop)]
pub(crate) struct FeedStream<I: Read + Drop> {
    input: I,
    is_ended: bool,
    // The input as it was at first, what was read, part by part, and how often that failed. No memory holds them.
    first: GhostList<I>,
    parts: GhostList<Vec<u8>>,
    faults: GhostList<DiskError>,
    ghost begins: { AreGiven (given_by I.remaining first.items)
        → prepend_known (bytes_of parts.items) (I.remaining input) ≡ given_by I.remaining first.items } by { Prim.hlevel props },
    ghost ends: { is_ended ≡ true → AreGiven (given_by I.remaining first.items) → I.remaining input ≡ Some [] } by { Prim.hlevel props },
}

/// A stream that was read to its end. No crash takes away what was read, and nothing is written.
#[derive(Drop)]
pub(crate) struct ReadStream {
    is_promised: bool,
    // What was read, part by part, and how often a write failed. No memory holds them.
    parts: GhostList<Vec<u8>>,
    faults: GhostList<DiskError>,
}

impl<I: Read + Drop> FeedStream<I> {
    /// A stream of which nothing was read.
    pub(crate) fn new(input: I) -> FeedStream<I>
        ensures unread { result.parts.items ≡ [] }
        ensures given { result.first.items ≡ input ∷ [] }
    {
        let mut first = GhostList::new();
        first.push(&input);
        FeedStream {
            input,
            is_ended: false,
            first,
            parts: GhostList::new(),
            faults: GhostList::new(),
        }
    }
}

impl<I: Read + Drop> UnreadDisk for FeedStream<I> {
    ghost use Rattle.changes_command.specs.Streams.{known};

    type Whole = ReadStream;

    ghost taken = { λ f. bytes_of f.parts.items };

    ghost is_ended = { λ f. f.is_ended ≡ true };

    ghost holds = { λ f. given_by I.remaining f.first.items };

    ghost faults = { λ f. length f.faults.items };

    ghost as_known = { λ f. known (given_by I.remaining f.first.items) (I.remaining f.input) (bytes_of f.parts.items)
        f.is_ended f.begins f.ends };

    #[tactic(auto, using(crate::proofs::StreamLaws::bytes_more, crate::proofs::StreamLaws::reads_on, crate::proofs::StreamLaws::reads_none, crate::proofs::StreamLaws::ends_here))]
    fn read_next(&mut self, alloc: Global, most: usize) -> Result<Vec<u8>, DiskError> {
        let mut part = vec![in alloc; 0; most]?;
        match self.input.read(part.as_mut_slice()) {
            Ok(count) => {
                part.truncate(count);
                self.is_ended = part.is_empty();
                self.parts.push(&part);
                Ok(part)
            }
            Err(_) => {
                self.faults.push(&DiskError::Failed);
                Err(DiskError::Failed)
            }
        }
    }

    fn into_whole(self) -> ReadStream {
        let FeedStream {
            input,
            is_ended: _,
            first: _,
            parts,
            faults: _,
        } = self;
        input.drop();
        ReadStream {
            is_promised: false,
            parts,
            faults: GhostList::new(),
        }
    }
}

impl ReadStream {
    // Notes that a write has failed.
    fn failed(&mut self) -> DiskError
        ensures fault { result ≡ DiskError.Failed }
        ensures noted { length self.new.faults.items ≡ length self.old.faults.items + 1 }
        ensures same { (self.new.parts.items ≡ self.old.parts.items) × (self.new.is_promised ≡ self.old.is_promised) }
    {
        self.faults.push(&DiskError::Failed);
        DiskError::Failed
    }
}

impl Disk for ReadStream {
    ghost use Rattle.std.proofs.Common.{refl};
    ghost use Rattle.changes_command.specs.Streams.{are_left};

    ghost seen = { λ d. bytes_of d.parts.items };

    ghost may_leave = { λ d c. c ≡ bytes_of d.parts.items };

    ghost moment = { λ _. 0 };

    ghost left_since = { λ d _ c. c ≡ bytes_of d.parts.items };

    ghost promised = { λ d. groups_promised d.is_promised (bytes_of d.parts.items) };

    ghost faults = { λ d. length d.faults.items };

    ghost counts_now = { λ _ _ _ _ left. left };

    ghost only_now = { λ _ _ left. left };

    ghost leaves = { λ _. refl };

    ghost keeps = { λ d. are_left d.is_promised (bytes_of d.parts.items) };

    fn promise(&mut self, _count: u64) {
        self.is_promised = true;
    }

    fn write_at(&mut self, _at: usize, _bytes: &[u8]) -> Result<(), DiskError> {
        Err(self.failed())
    }

    fn cut(&mut self, _len: usize) -> Result<(), DiskError> {
        Err(self.failed())
    }

    fn sync(&mut self) -> Result<(), DiskError> {
        Ok(())
    }
}
