//! A folder that takes tables, and texts that go into it.

ghost use Rattle.std.specs.Prelude.{◌≡◌, List, [], ◌∷◌, Some, is_ok, IfOk, OnOk, ℕ};
ghost use Rattle.std.specs.Io.KnownBytes.{Appends};
ghost use Rattle.ssb_schema.specs.declared.table.Table.{Table as AnyTable};
ghost use Rattle.table_folder.specs.Calls.{FolderCall, Made, Begun, Synced, Named, NamesSynced};

use ssb_schema::Table;
use std::io::{self, Write};

/// A folder that takes the files of tables. Contracts see it as the calls on it, the newest first.
pub trait TableFolder {
    /// A table's file, which has another name at first.
    type File: Write + Drop;

    /// The calls on it, each with whether it succeeded.
    ghost calls: { Self → List FolderCall };

    /// Its path, as a fault line tells it.
    fn path(&self) -> &str;

    /// Makes the folder, where it is not there, and syncs its own name.
    fn make(&mut self) -> io::Result<()>
        ensures { calls self.new ≡ Made (is_ok result) ∷ calls self.old };

    /// Makes a file for a table, of another name.
    fn begin(&mut self, table: Table) -> io::Result<Self::File>
        ensures noted { calls self.new ≡ Begun table (is_ok result) ∷ calls self.old }
        ensures empty { IfOk result (λ file. Self.File.contents file ≡ Some []) };

    /// Syncs a table's file: what was written to it is on the disk.
    fn sync(&mut self, table: Table, file: Self::File) -> io::Result<()>
        ensures { calls self.new ≡ Synced table (Self.File.contents file) (is_ok result) ∷ calls self.old };

    /// Gives a table's file its name.
    fn name(&mut self, table: Table) -> io::Result<()>
        ensures { calls self.new ≡ Named table (is_ok result) ∷ calls self.old };

    /// Syncs the names in the folder.
    fn sync_names(&mut self) -> io::Result<()>
        ensures { calls self.new ≡ NamesSynced (is_ok result) ∷ calls self.old };
}

/// The texts of five tables.
pub trait TableTexts {
    /// The text of each table.
    ghost texts: { Self → AnyTable → List ℕ };

    /// What is known of a table whose text was written.
    ghost known: { Self → AnyTable → Type 0 };

    /// Writes the text of a table. Each piece may be one `write`, so a caller buffers.
    fn write<W: Write>(&self, out: &mut W, table: Table) -> io::Result<()>
        ensures text { OnOk result (Appends (W.contents out.old) (W.contents out.new) (texts self.now table)) }
        ensures known { OnOk result (known self.now table) };
}
