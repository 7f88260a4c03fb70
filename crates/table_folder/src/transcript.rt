//! The calls on a folder and the bytes that went into a file, which only clauses read: no memory holds them.

ghost use Rattle.std.specs.Prelude.{◌≡◌, [], ◌∷◌, ◌++◌, take};
ghost use Rattle.table_folder.specs.Noted.{calls_of, call_of};

use ghost_list::GhostList;
use ssb_schema::Table;

/// A call that was made, and whether it succeeded.
#[derive(Drop)]
pub enum Noted {
    /// The folder was made.
    Made(bool),
    /// A file for a table was made.
    Begun(Table, bool),
    /// It was synced, when these bytes had gone into it.
    Synced(Table, GhostList<u8>, bool),
    /// It got its name.
    Named(Table, bool),
    /// The names were synced.
    NamesSynced(bool),
}

/// Notes a call. It does nothing.
pub(crate) fn note(calls: &mut GhostList<Noted>, call: Noted)
    ensures { calls_of calls.new.items ≡ call_of call ∷ calls_of calls.old.items }
{
    calls.push(&call);
}

/// Notes that these bytes went into a file. It does nothing.
pub(crate) fn note_bytes(written: &mut GhostList<u8>, bytes: &[u8])
    ensures { written.new.items ≡ written.old.items ++ bytes.now }
{
    for byte in bytes {
        written.push(byte);
    }
}
