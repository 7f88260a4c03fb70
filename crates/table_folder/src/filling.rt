//! A folder is filled: all texts are written and synced, the dimensions named, and `lineorder` last.

ghost use Rattle.std.specs.Prelude.{◌≡◌, ◌⊎◌, List, [], ◌∷◌, Some, true, false, OnOk, OnErr};
ghost use Rattle.table_folder.specs.Calls.{FolderCall, Made, Begun, Synced, Named, NamesSynced};
ghost use Rattle.table_folder.specs.Filled.{HasAll, LeftNoneOrAll, HasNoLineorder, written_calls, named_calls, ready_calls};
ghost use Rattle.ssb_schema.specs.declared.table.Table.{Table as AnyTable};
ghost use Rattle.ssb_schema.specs.declared.table.Table.TheVariants as any;

use crate::folder::{TableFolder, TableTexts};
use ssb_schema::Table;
use std::alloc::Global;
use std::io::{self, BufWriter};

/// Why a folder was not filled.
#[derive(Debug, Drop)]
pub enum FillFault {
    /// The folder could not be made, or its name could not be synced.
    Folder(io::Error),
    /// A file could not be made, written, synced or named.
    Tables(io::Error),
}

// Writes a table into a file of another name, and syncs it.
fn put<D: TableFolder, T: TableTexts>(
    alloc: Global,
    folder: &mut D,
    texts: &T,
    table: Table,
) -> io::Result<()>
    ensures put { OnOk result (D.calls folder.new ≡ Synced table (Some (T.texts texts.now table)) true
        ∷ Begun table true ∷ D.calls folder.old) }
    ensures known { OnOk result (T.known texts.now table) }
    ensures unnamed { HasNoLineorder (D.calls folder.old) → HasNoLineorder (D.calls folder.new) }
{
    let file = folder.begin(table)?;
    let mut out = BufWriter::new(alloc, file)?;
    texts.write(&mut out, table)?;
    let file = out.into_inner()?;
    folder.sync(table, file)
}

// Writes all tables into files of other names.
fn put_all<D: TableFolder, T: TableTexts>(
    alloc: Global,
    folder: &mut D,
    texts: &T,
) -> io::Result<()>
    ensures put { OnOk result (D.calls folder.new ≡ written_calls (T.texts texts.now) (D.calls folder.old)) }
    ensures known { OnOk result ((t : AnyTable) → T.known texts.now t) }
    ensures unnamed { HasNoLineorder (D.calls folder.old) → HasNoLineorder (D.calls folder.new) }
{
    put(alloc, folder, texts, Table::Customer)?;
    put(alloc, folder, texts, Table::Supplier)?;
    put(alloc, folder, texts, Table::Part)?;
    put(alloc, folder, texts, Table::Date)?;
    put(alloc, folder, texts, Table::Lineorder)
}

// Names the dimensions, and syncs these names.
fn name_dimensions<D: TableFolder>(folder: &mut D) -> io::Result<()>
    ensures named { OnOk result (D.calls folder.new ≡ named_calls (D.calls folder.old)) }
    ensures unnamed { HasNoLineorder (D.calls folder.old) → HasNoLineorder (D.calls folder.new) }
{
    folder.name(Table::Customer)?;
    folder.name(Table::Supplier)?;
    folder.name(Table::Part)?;
    folder.name(Table::Date)?;
    folder.sync_names()
}

// Names lineorder, and syncs its name.
fn name_lineorder<D: TableFolder>(folder: &mut D) -> io::Result<()>
    ensures named { OnOk result (D.calls folder.new
        ≡ NamesSynced true ∷ Named any.Lineorder true ∷ D.calls folder.old) }
    ensures failed { OnErr result ((D.calls folder.new ≡ Named any.Lineorder false ∷ D.calls folder.old)
        ⊎ (D.calls folder.new ≡ NamesSynced false ∷ Named any.Lineorder true ∷ D.calls folder.old)) }
{
    folder.name(Table::Lineorder)?;
    folder.sync_names()
}

// Writes all tables, and names the dimensions.
fn prepare<D: TableFolder, T: TableTexts>(
    alloc: Global,
    folder: &mut D,
    texts: &T,
) -> Result<(), FillFault>
    requires new { D.calls folder.old ≡ [] }
    ensures ready { OnOk result (D.calls folder.new ≡ ready_calls (T.texts texts.now)) }
    ensures known { OnOk result ((t : AnyTable) → T.known texts.now t) }
    ensures unnamed { HasNoLineorder (D.calls folder.new) }
{
    if let Err(error) = folder.make() {
        return Err(FillFault::Folder(error));
    }
    if let Err(error) = put_all(alloc, folder, texts) {
        return Err(FillFault::Tables(error));
    }
    match name_dimensions(folder) {
        Ok(()) => Ok(()),
        Err(error) => Err(FillFault::Tables(error)),
    }
}

/// Makes the folder and fills it with the five texts. At `Ok` it has them, and each crash from then on leaves them; a
/// crash at any moment until then leaves no `lineorder`, or all five.
pub fn fill<D: TableFolder, T: TableTexts>(
    alloc: Global,
    folder: &mut D,
    texts: &T,
) -> Result<(), FillFault>
    requires new { D.calls folder.old ≡ [] }
    ensures all { OnOk result (HasAll (T.texts texts.now) (D.calls folder.new)) }
    ensures any_moment { LeftNoneOrAll (T.texts texts.now) (D.calls folder.new) }
    ensures known { OnOk result ((t : AnyTable) → T.known texts.now t) }
{
    prepare(alloc, folder, texts)?;
    match name_lineorder(folder) {
        Ok(()) => Ok(()),
        Err(error) => Err(FillFault::Tables(error)),
    }
}
