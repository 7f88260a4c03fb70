//! Files in memory that tear at every call, in place of the system's.

use crate::calls::FileCall;
use crate::noted::{NotedTree, not_found};
use crate::tree::{Node, Tree};
use journal_file::{JournalFile, OpenError};
use std::alloc::{AllocError, Allocator, Global};
use std::cell::{Ref, RefCell, RefMut};
use std::collections::BTreeMap;
use std::fs::{Metadata, OpenFile, OpenOptions};
use std::io::{self, Cursor, Error, ErrorKind, Read, Seek, SeekFrom, Write};
use std::os::unix::fs::FileExt;
use std::path::PathBuf;
use std::rc::Rc;
use std::rt::Files;

// Files and folders, as all see them who have opened one.
type SharedTree = Rc<RefCell<NotedTree>>;

/// Files and folders in memory that keep their calls, so that what a crash leaves can be made of them. There are no links.
#[derive(Drop)]
pub struct TearingFiles {
    alloc: Global,
    tree: SharedTree,
}

/// An opened file or folder of [`TearingFiles`].
#[derive(Drop)]
pub struct TearingFile {
    alloc: Global,
    tree: SharedTree,
    number: usize,
    // How many bytes of it were read.
    place: usize,
}

fn unsupported<T>() -> io::Result<T> {
    Err(Error::from(ErrorKind::Unsupported))
}

// To be looked at.
fn look(tree: &SharedTree) -> io::Result<Ref<'_, NotedTree>> {
    match tree.try_borrow() {
        Ok(tree) => Ok(tree),
        Err(_) => Err(Error::from(ErrorKind::WouldBlock)),
    }
}

// To be changed.
fn change(tree: &SharedTree) -> io::Result<RefMut<'_, NotedTree>> {
    match tree.try_borrow_mut() {
        Ok(tree) => Ok(tree),
        Err(_) => Err(Error::from(ErrorKind::WouldBlock)),
    }
}

impl TearingFiles {
    /// An empty folder.
    pub fn new(alloc: Global) -> Result<TearingFiles, AllocError> {
        TearingFiles::of(alloc, NotedTree::new(alloc, Tree::new(alloc)?)?)
    }

    fn of(alloc: Global, tree: NotedTree) -> Result<TearingFiles, AllocError> {
        Ok(TearingFiles {
            alloc,
            tree: Rc::new(alloc, RefCell::new(tree))?,
        })
    }

    /// How many writes, cuts, changes of names, and syncs there were.
    pub fn calls(&self) -> io::Result<usize> {
        Ok(look(&self.tree)?.calls())
    }

    /// What a crash may leave once so many calls have begun, drawn by a seed. No clause says what it makes.
    pub fn crashed(&self, begun: usize, seed: u64) -> io::Result<TearingFiles> {
        let left = look(&self.tree)?.crashed(begun, seed)?;
        let tree = NotedTree::new(self.alloc, left)?;
        Ok(TearingFiles::of(self.alloc, tree)?)
    }

    /// What a program leaves that is killed once so many calls have begun: nothing is lost, and nothing more is on the
    /// disk. A crash may come later.
    pub fn killed(&self, begun: usize) -> io::Result<TearingFiles> {
        let tree = look(&self.tree)?.killed(begun)?;
        Ok(TearingFiles::of(self.alloc, tree)?)
    }
}

impl Alloc for TearingFiles {
    type A = Global;

    fn alloc(&self) -> Global {
        self.alloc
    }
}

impl Files for TearingFiles {
    type File = TearingFile;

    type Dir = Cursor<Vec<u8>>;

    fn open_file(&self, how: &OpenOptions, path: &str) -> io::Result<TearingFile> {
        let mut tree = change(&self.tree)?;
        let number = match tree.now().at_path(path) {
            Some(_) if how.asks_create_new() => return Err(Error::from(ErrorKind::AlreadyExists)),
            Some(number) => number,
            None if how.asks_create() || how.asks_create_new() => {
                tree.make(path, Node::File(Vec::new(self.alloc)))?
            }
            None => return Err(not_found()),
        };
        if how.asks_truncate() {
            tree.call(FileCall::Cut {
                file: number,
                len: 0,
            })?;
        }
        Ok(TearingFile {
            alloc: self.alloc,
            tree: self.tree.clone()?,
            number,
            place: 0,
        })
    }

    fn open_dir(&self, path: &str) -> io::Result<Cursor<Vec<u8>>> {
        let tree = look(&self.tree)?;
        let Some(number) = tree.now().at_path(path) else {
            return Err(not_found());
        };
        if tree.now().names(number).is_none() {
            return Err(Error::from(ErrorKind::NotADirectory));
        }
        let mut names = Vec::new(self.alloc);
        for name in &tree.names_in(number)? {
            names.extend_from_slice(name.as_bytes())?;
            names.push(0)?;
        }
        Ok(Cursor::new(names))
    }

    fn metadata(&self, path: &str) -> io::Result<Metadata> {
        let tree = look(&self.tree)?;
        match tree.now().at_path(path) {
            Some(number) => match tree.now().bytes(number) {
                Some(bytes) => Ok(Metadata::of_file(bytes.len() as u64)),
                None => Ok(Metadata::of_dir()),
            },
            None => Err(not_found()),
        }
    }

    fn symlink_metadata(&self, path: &str) -> io::Result<Metadata> {
        self.metadata(path)
    }

    fn copy(&self, _from: &str, _to: &str) -> io::Result<u64> {
        unsupported()
    }

    fn rename(&self, from: &str, to: &str) -> io::Result<()> {
        change(&self.tree)?.rename(from, to)
    }

    fn remove_file(&self, path: &str) -> io::Result<()> {
        change(&self.tree)?.remove(path)
    }

    fn create_dir(&self, path: &str) -> io::Result<()> {
        let mut tree = change(&self.tree)?;
        if tree.now().at_path(path).is_some() {
            return Err(Error::from(ErrorKind::AlreadyExists));
        }
        tree.make(path, Node::Folder(BTreeMap::new(self.alloc)))?;
        Ok(())
    }

    fn remove_dir(&self, _path: &str) -> io::Result<()> {
        unsupported()
    }

    fn remove_dir_all<B: Allocator>(&self, _alloc: B, path: &str) -> io::Result<()> {
        change(&self.tree)?.remove(path)
    }

    fn canonicalize<B: Allocator>(&self, _alloc: B, _path: &str) -> io::Result<PathBuf<B>> {
        unsupported()
    }
}

impl Read for TearingFile {
    fn read(&mut self, buf: &mut [u8]) -> io::Result<usize> {
        let count = self.read_at(buf, self.place as u64)?;
        self.place = self.place.saturating_add(count);
        Ok(count)
    }
}

impl Write for TearingFile {
    // Behind all that it has: a new file is written from its beginning on, and an old one to be appended to.
    fn write(&mut self, buf: &[u8]) -> io::Result<usize> {
        let end = OpenFile::metadata(self)?.len();
        self.write_at(buf, end)
    }

    fn flush(&mut self) -> io::Result<()> {
        Ok(())
    }
}

impl Seek for TearingFile {
    fn seek(&mut self, _to: SeekFrom) -> io::Result<u64> {
        unsupported()
    }
}

impl OpenFile for TearingFile {
    fn metadata(&self) -> io::Result<Metadata> {
        match look(&self.tree)?.now().bytes(self.number) {
            Some(bytes) => Ok(Metadata::of_file(bytes.len() as u64)),
            None => Ok(Metadata::of_dir()),
        }
    }

    fn set_len(&self, size: u64) -> io::Result<()> {
        change(&self.tree)?.call(FileCall::Cut {
            file: self.number,
            len: size as usize,
        })?;
        Ok(())
    }

    fn sync_all(&self) -> io::Result<()> {
        change(&self.tree)?.call(FileCall::Sync { node: self.number })?;
        Ok(())
    }

    fn sync_data(&self) -> io::Result<()> {
        self.sync_all()
    }
}

impl FileExt for TearingFile {
    fn read_at(&self, buf: &mut [u8], offset: u64) -> io::Result<usize> {
        match look(&self.tree)?.now().bytes(self.number) {
            Some(bytes) => {
                let mut rest = bytes.get(offset as usize..).unwrap_or(&[]);
                rest.read(buf)
            }
            None => Err(Error::from(ErrorKind::IsADirectory)),
        }
    }

    fn write_at(&self, buf: &[u8], offset: u64) -> io::Result<usize> {
        let bytes = Vec::from_slice(self.alloc, buf)?;
        change(&self.tree)?.call(FileCall::Write {
            file: self.number,
            at: offset as usize,
            bytes,
        })?;
        Ok(buf.len())
    }
}

// All run one after another in one thread, and nobody else has a file.
impl JournalFile for TearingFile {
    fn lock_alone(&self) -> Result<(), OpenError> {
        Ok(())
    }
}
