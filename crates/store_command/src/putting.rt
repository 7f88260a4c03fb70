//! A folder for tables, and `sizes`, by whose name these are there.

ghost use Rattle.std.specs.Prelude.{◌≡◌, IfOk, OnOk};
ghost use Rattle.store_core.specs.Calls.{HasSegment, Sure, Unnamed, segment_known, tables_known};
ghost use Rattle.table_folder.specs.FilesFolder.{IsUntouched};

use crate::fault::{StoreJobFault, StoreRefusal};
use export_command::NotEmpty;
use ssb_files::Fault;
use ssb_files::JobFault::{Found, Program};
use std::alloc::Global;
use std::io::{self, ErrorKind};
use std::rt::Files;
use store_folder::{Sizes, StoreSteps};
use table_folder::FilesFolder;

/// The folder of this path, which is not there or is empty. Nothing is made.
pub(crate) fn free_folder<'a, F: Files>(
    files: &'a F,
    alloc: Global,
    path: &'a str,
) -> Result<FilesFolder<'a, F>, StoreJobFault>
    ensures new { IfOk result IsUntouched }
{
    match FilesFolder::find(files, alloc, path) {
        Ok(Some(folder)) => Ok(folder),
        Ok(None) => Err(Found(StoreRefusal::Folder(NotEmpty))),
        Err(error) if error.kind() == ErrorKind::OutOfMemory => Err(Program(Fault::OutOfMemory)),
        Err(_) => Err(Program(Fault::CannotRead(String::from_str(alloc, path)?))),
    }
}

/// Writes what tells of tables that are written, gives them their name, and waits until that is on the disk.
pub(crate) fn put_sizes<F: Files>(steps: &mut StoreSteps<'_, F>, sizes: &Sizes) -> io::Result<()>
    requires written { tables_known steps.old ≡ Unnamed sizes.now.after }
    requires segment { HasSegment (segment_known steps.old) sizes.now.after }
    ensures { OnOk result (tables_known steps.new ≡ Sure sizes.now.after) }
{
    steps.sync_tables(sizes)?;
    steps.name_tables(sizes.after)?;
    steps.sync_name(sizes.after)
}
