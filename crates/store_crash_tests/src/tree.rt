//! Files and folders in memory, each by its number.

use crate::calls::{FileCall, NameChange};
use journal_tests::write_over;
use std::alloc::{AllocError, Global};
use std::collections::BTreeMap;

// The number of the folder in which all others are.
const ROOT: usize = 0;

/// A file or a folder.
#[derive(Clone, Drop)]
pub(crate) enum Node {
    /// A file: its bytes.
    File(Vec<u8>),
    /// A folder: the numbers of what is in it, by the names.
    Folder(BTreeMap<String, usize>),
}

/// Files and folders, each by its number. What no name leads to is there, and is not found.
#[derive(Clone, Drop)]
pub(crate) struct Tree {
    nodes: Vec<Node>,
}

impl Tree {
    /// One folder, which is empty.
    pub(crate) fn new(alloc: Global) -> Result<Tree, AllocError> {
        let mut nodes = Vec::new(alloc);
        nodes.push(Node::Folder(BTreeMap::new(alloc)))?;
        Ok(Tree { nodes })
    }

    /// Takes up a file or a folder that has no name yet, and gives its number.
    pub(crate) fn add(&mut self, node: Node) -> Result<usize, AllocError> {
        let number = self.nodes.len();
        self.nodes.push(node)?;
        Ok(number)
    }

    /// It with all files and folders that a later one has, of which the new ones are empty and have no names.
    pub(crate) fn with_new_of(&self, alloc: Global, later: &Tree) -> Result<Tree, AllocError> {
        let mut nodes = self.nodes.clone()?;
        for node in later.nodes.iter().skip(self.nodes.len()) {
            let empty = match node {
                Node::File(_) => Node::File(Vec::new(alloc)),
                Node::Folder(_) => Node::Folder(BTreeMap::new(alloc)),
            };
            nodes.push(empty)?;
        }
        Ok(Tree { nodes })
    }

    /// The bytes of a file.
    pub(crate) fn bytes(&self, number: usize) -> Option<&[u8]> {
        match self.nodes.get(number) {
            Some(Node::File(bytes)) => Some(bytes.as_slice()),
            _ => None,
        }
    }

    /// What is in a folder, by its names.
    pub(crate) fn names(&self, number: usize) -> Option<&BTreeMap<String, usize>> {
        match self.nodes.get(number) {
            Some(Node::Folder(names)) => Some(names),
            _ => None,
        }
    }

    /// What a path names.
    pub(crate) fn at_path(&self, path: &str) -> Option<usize> {
        let mut number = ROOT;
        for name in path.split('/') {
            if !name.is_empty() && name != "." {
                number = *self.names(number)?.get(name)?;
            }
        }
        Some(number)
    }

    /// Changes names in a folder.
    pub(crate) fn change_names(
        &mut self,
        folder: usize,
        changes: &[NameChange],
    ) -> Result<(), AllocError> {
        if let Some(Node::Folder(names)) = self.nodes.get_mut(folder) {
            for NameChange { name, node } in changes {
                match node {
                    Some(node) => {
                        names.insert(name.clone()?, *node)?;
                    }
                    None => {
                        names.remove(name);
                    }
                }
            }
        }
        Ok(())
    }

    /// The bytes of a file, to be changed.
    pub(crate) fn bytes_mut(&mut self, number: usize) -> Option<&mut Vec<u8>> {
        match self.nodes.get_mut(number) {
            Some(Node::File(bytes)) => Some(bytes),
            _ => None,
        }
    }

    /// Takes a call as it succeeds.
    pub(crate) fn take(&mut self, call: &FileCall) -> Result<(), AllocError> {
        match call {
            FileCall::Names { folder, changes } => self.change_names(*folder, changes),
            FileCall::Write { file, at, bytes } => match self.bytes_mut(*file) {
                Some(old) => write_over(old, *at, bytes),
                None => Ok(()),
            },
            FileCall::Cut { file, len } => {
                if let Some(old) = self.bytes_mut(*file) {
                    old.truncate(*len);
                }
                Ok(())
            }
            FileCall::Sync { node: _ } => Ok(()),
        }
    }
}
