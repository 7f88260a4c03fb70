//! The reads and syncs of a file that grows, which only clauses read: no memory holds them.

ghost use Rattle.std.specs.Prelude.{◌≡◌, ◌++◌, ◌∷◌, []};
ghost use Rattle.store_folder.specs.declared.read_notes.ReadNote.TheVariants.{Read};

use ghost_list::GhostList;
use journal_file::ReadPart;

/// A call of a file's reader that succeeded.
#[derive(Drop)]
pub enum ReadNote {
    /// This was read from a place on.
    Read(ReadPart),
    /// What was read is on the disk.
    Synced,
}

/// Notes a read, and hands back its bytes. It does nothing.
pub(crate) fn note_read(notes: &mut GhostList<ReadNote>, part: ReadPart) -> Vec<u8>
    ensures noted { notes.new.items ≡ notes.old.items ++ Read part ∷ [] }
    ensures bytes { result ≡ part.bytes }
{
    let note = ReadNote::Read(part);
    notes.push(&note);
    let ReadNote::Read(ReadPart { at: _, bytes }) = note else {
        unreachable!()
    };
    bytes
}
