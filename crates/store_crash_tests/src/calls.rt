//! The calls that change files and folders, or put changes on the disk.

/// What a name in a folder names from now on: a file or a folder by its number, or nothing.
#[derive(Clone, Drop)]
pub(crate) struct NameChange {
    pub(crate) name: String,
    pub(crate) node: Option<usize>,
}

/// A call. Files and folders are named by their numbers.
#[derive(Clone, Drop)]
pub(crate) enum FileCall {
    /// One change of names in a folder: of one where something is made or removed, of two where it is renamed.
    Names {
        folder: usize,
        changes: Vec<NameChange>,
    },
    Write {
        file: usize,
        at: usize,
        bytes: Vec<u8>,
    },
    Cut {
        file: usize,
        len: usize,
    },
    /// Of a file, its bytes; of a folder, its names.
    Sync {
        node: usize,
    },
}

impl FileCall {
    // The file or the folder that it changes.
    fn changed(&self) -> Option<usize> {
        match self {
            FileCall::Names { folder, changes: _ } => Some(*folder),
            FileCall::Write {
                file,
                at: _,
                bytes: _,
            }
            | FileCall::Cut { file, len: _ } => Some(*file),
            FileCall::Sync { node: _ } => None,
        }
    }

    /// Whether one of these later calls has put on the disk what it changes.
    pub(crate) fn is_synced_by(&self, later: &[FileCall]) -> bool {
        let changed = self.changed();
        later.iter().any(|call| match call {
            FileCall::Sync { node } => Some(*node) == changed,
            _ => false,
        })
    }
}
