//! Files and folders that note each call.

use crate::calls::{FileCall, NameChange};
use crate::crash::left_by_crash;
use crate::tree::{Node, Tree};
use std::alloc::{AllocError, Global};
use std::io::{self, Error, ErrorKind};

/// Files and folders as they were at first and as they are now, and the calls between, in order.
#[derive(Drop)]
pub(crate) struct NotedTree {
    alloc: Global,
    first: Tree,
    now: Tree,
    calls: Vec<FileCall>,
}

/// The error of a path that names nothing.
pub(crate) fn not_found() -> Error {
    Error::from(ErrorKind::NotFound)
}

impl NotedTree {
    /// Files and folders on which no call was made.
    pub(crate) fn new(alloc: Global, first: Tree) -> Result<NotedTree, AllocError> {
        Ok(NotedTree {
            alloc,
            now: first.clone()?,
            first,
            calls: Vec::new(alloc),
        })
    }

    /// As they are now.
    pub(crate) fn now(&self) -> &Tree {
        &self.now
    }

    /// How many calls there were.
    pub(crate) fn calls(&self) -> usize {
        self.calls.len()
    }

    /// What a crash may leave once so many calls have begun, drawn by a seed.
    pub(crate) fn crashed(&self, begun: usize, seed: u64) -> Result<Tree, AllocError> {
        let calls = &self.calls[..begun.min(self.calls.len())];
        left_by_crash(self.alloc, &self.first, &self.now, calls, seed)
    }

    /// As a program leaves them that is killed once so many calls have begun: nothing is lost, and nothing more is on
    /// the disk.
    pub(crate) fn killed(&self, begun: usize) -> Result<NotedTree, AllocError> {
        let mut killed = NotedTree {
            alloc: self.alloc,
            first: self.first.clone()?,
            now: self.first.with_new_of(self.alloc, &self.now)?,
            calls: Vec::new(self.alloc),
        };
        for call in self.calls.iter().take(begun) {
            killed.call(call.clone()?)?;
        }
        Ok(killed)
    }

    /// Makes a call, and notes it.
    pub(crate) fn call(&mut self, call: FileCall) -> Result<(), AllocError> {
        self.now.take(&call)?;
        self.calls.push(call)?;
        Ok(())
    }

    // The folder of a path, which is there, and the name in it.
    fn place<'a>(&self, path: &'a str) -> io::Result<(usize, &'a str)> {
        let (folder, name) = match path.rsplit_once('/') {
            Some(parts) => parts,
            None => ("", path),
        };
        match self.now.at_path(folder) {
            Some(folder) if self.now.names(folder).is_some() => Ok((folder, name)),
            _ => Err(not_found()),
        }
    }

    // A change of the name at a path.
    fn change_name(&mut self, path: &str, node: Option<usize>) -> io::Result<()> {
        let (folder, name) = self.place(path)?;
        let name = String::from_str(self.alloc, name)?;
        let changes = vec![in self.alloc; NameChange { name, node }]?;
        self.call(FileCall::Names { folder, changes })?;
        Ok(())
    }

    /// Makes a file or a folder at a path that names nothing, and gives its number.
    pub(crate) fn make(&mut self, path: &str, node: Node) -> io::Result<usize> {
        self.place(path)?;
        let number = self.now.add(node)?;
        self.change_name(path, Some(number))?;
        Ok(number)
    }

    /// Removes what a path names, and all that is in it.
    pub(crate) fn remove(&mut self, path: &str) -> io::Result<()> {
        let Some(number) = self.now.at_path(path) else {
            return Err(not_found());
        };
        for name in self.names_in(number)? {
            let changes = vec![in self.alloc; NameChange { name, node: None }]?;
            self.call(FileCall::Names {
                folder: number,
                changes,
            })?;
        }
        self.change_name(path, None)
    }

    /// The names in a folder; a file has none.
    pub(crate) fn names_in(&self, number: usize) -> Result<Vec<String>, AllocError> {
        let mut found = Vec::new(self.alloc);
        if let Some(names) = self.now.names(number) {
            for name in names.keys() {
                found.push(name.clone()?)?;
            }
        }
        Ok(found)
    }

    /// Gives what a path names another name in the same folder.
    pub(crate) fn rename(&mut self, from: &str, to: &str) -> io::Result<()> {
        let Some(number) = self.now.at_path(from) else {
            return Err(not_found());
        };
        let (folder, old) = self.place(from)?;
        let (other, new) = self.place(to)?;
        if other != folder {
            return Err(Error::from(ErrorKind::Unsupported));
        }
        let mut changes = Vec::new(self.alloc);
        changes.push(NameChange {
            name: String::from_str(self.alloc, old)?,
            node: None,
        })?;
        changes.push(NameChange {
            name: String::from_str(self.alloc, new)?,
            node: Some(number),
        })?;
        self.call(FileCall::Names { folder, changes })?;
        Ok(())
    }
}
