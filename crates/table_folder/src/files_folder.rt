//! A folder of the operating system. Each method makes its calls, and then notes them with their answer.

ghost use Rattle.std.specs.Prelude.{Some, IfOk, IfSome};
ghost use Rattle.table_folder.specs.Noted.{calls_of};

use crate::folder::TableFolder;
use crate::transcript::{Noted, note, note_bytes};
use ghost_list::GhostList;
use journal_file::sync_name;
use ssb_schema::Table;
use std::alloc::Global;
use std::fs::{self, OpenFile, OpenOptions};
use std::io::{self, ErrorKind, Read, Write};
use std::rt::Files;

/// A folder for the tables, which was not there, or was empty.
#[derive(Drop)]
pub struct FilesFolder<'a, F: Files> {
    files: &'a F,
    alloc: Global,
    path: &'a str,
    noted: GhostList<Noted>,
}

/// A new file in it.
#[derive(Drop)]
pub struct FolderFile<O: Drop> {
    file: O,
    written: GhostList<u8>,
}

impl<O: Write + Drop> Write for FolderFile<O> {
    ghost contents = { λ file. Some file.written.items };

    fn write(&mut self, buf: &[u8]) -> io::Result<usize> {
        let count = self.file.write(buf)?;
        note_bytes(&mut self.written, &buf[..count]);
        Ok(count)
    }

    fn flush(&mut self) -> io::Result<()> {
        self.file.flush()
    }
}

// Whether a folder has no files: it reads as its names, each ended by a NUL, the two of every folder among them.
fn is_empty<D: Read>(alloc: Global, folder: &mut D) -> io::Result<bool> {
    let mut names = Vec::new(alloc);
    folder.read_to_end(&mut names)?;
    Ok(
        names.split(|byte| *byte == 0).all(|name| {
            name.is_empty() || name == b".".as_slice() || name == b"..".as_slice()
        }),
    )
}

impl<'a, F: Files> FilesFolder<'a, F> {
    ghost use Rattle.table_folder.specs.FilesFolder.{IsUntouched};

    /// The folder of this path, where it is not there or is empty; none where it has files, or is no folder. Nothing is
    /// made.
    pub fn find(
        files: &'a F,
        alloc: Global,
        path: &'a str,
    ) -> io::Result<Option<FilesFolder<'a, F>>>
        ensures { IfOk result (λ found. IfSome found IsUntouched) }
    {
        // The slash follows a link to a folder.
        let within = format!(in alloc; "{path}/")?;
        let is_free = match files.open_dir(within.as_str()) {
            Ok(mut names) => is_empty(alloc, &mut names)?,
            Err(error) if error.kind() == ErrorKind::NotFound => true,
            Err(error) if error.kind() == ErrorKind::NotADirectory => false,
            Err(error) => return Err(error),
        };
        if !is_free {
            return Ok(None);
        }
        Ok(Some(FilesFolder {
            files,
            alloc,
            path,
            noted: GhostList::new(),
        }))
    }

    // Makes the folder, where it is not there, and syncs its name.
    fn create(&self) -> io::Result<()> {
        match fs::create_dir(self.files, self.path) {
            Ok(()) => {}
            Err(error) if error.kind() == ErrorKind::AlreadyExists => return Ok(()),
            Err(error) => return Err(error),
        }
        sync_name(self.files, self.path)
    }

    // The path of a table's file, or of the one that becomes it.
    fn file_path(&self, table: Table, ending: &str) -> io::Result<String> {
        let (folder, name) = (self.path, table.name());
        Ok(format!(in self.alloc; "{folder}/{name}.tbl{ending}")?)
    }

    fn open_new(&self, table: Table) -> io::Result<F::File> {
        let path = self.file_path(table, ".part")?;
        OpenOptions::new()
            .write(true)
            .create_new(true)
            .open(self.files, path.as_str())
    }

    fn rename(&self, table: Table) -> io::Result<()> {
        let from = self.file_path(table, ".part")?;
        let to = self.file_path(table, "")?;
        fs::rename(self.files, from.as_str(), to.as_str())
    }

    fn sync_folder(&self) -> io::Result<()> {
        fs::open(self.files, self.path)?.sync_all()
    }
}

impl<'a, F: Files> TableFolder for FilesFolder<'a, F> {
    type File = FolderFile<F::File>;

    ghost calls = { λ folder. calls_of folder.noted.items };

    fn path(&self) -> &str {
        self.path
    }

    fn make(&mut self) -> io::Result<()> {
        let result = self.create();
        note(&mut self.noted, Noted::Made(result.is_ok()));
        result
    }

    fn begin(&mut self, table: Table) -> io::Result<FolderFile<F::File>> {
        match self.open_new(table) {
            Ok(file) => {
                note(&mut self.noted, Noted::Begun(table, true));
                Ok(FolderFile {
                    file,
                    written: GhostList::new(),
                })
            }
            Err(error) => {
                note(&mut self.noted, Noted::Begun(table, false));
                Err(error)
            }
        }
    }

    fn sync(&mut self, table: Table, file: FolderFile<F::File>) -> io::Result<()> {
        let FolderFile { file, written } = file;
        let result = file.sync_all();
        note(
            &mut self.noted,
            Noted::Synced(table, written, result.is_ok()),
        );
        result
    }

    fn name(&mut self, table: Table) -> io::Result<()> {
        let result = self.rename(table);
        note(&mut self.noted, Noted::Named(table, result.is_ok()));
        result
    }

    fn sync_names(&mut self) -> io::Result<()> {
        let result = self.sync_folder();
        note(&mut self.noted, Noted::NamesSynced(result.is_ok()));
        result
    }
}
