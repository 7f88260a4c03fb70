//! Which file a path names, by what the system says of it.

ghost use Rattle.std.specs.Prelude.{◌≡◌};
ghost use Rattle.ssb_files.specs.Paths.{are_one, are_one_node};

use crate::fault::Fault;
use std::fs;
use std::fs::Metadata;
use std::io::{self, ErrorKind};
use std::os::unix::fs::MetadataExt;
use std::path::{Path, PathBuf};
use std::rt::Files;

// So many links are followed, one to the next, as Linux does.
const MOST_LINKS: u32 = 40;

// The folder of a path that is one name.
const HERE: &str = ".";

/// The file of a path, or the file that would be made there.
#[derive(Drop)]
pub struct FileIdentity {
    // The device and the inode; of a file that is not there those of its folder. None where the system says 0 of both,
    // or nothing.
    node: Option<(u64, u64)>,
    // The path without `.`, `//`, `..` and links; of a file that is not there that of its folder.
    path: String,
    // The name in that folder; no bytes where the file is there.
    name: String,
}

// What the system gives, or nothing where it has none. Memory that ran out is told.
fn given<T>(answer: io::Result<T>) -> Result<Option<T>, Fault> {
    match answer {
        Ok(value) => Ok(Some(value)),
        Err(error) if error.kind() == ErrorKind::OutOfMemory => Err(Fault::OutOfMemory),
        Err(_) => Ok(None),
    }
}

// The device and the inode, where they are not 0.
fn node_of(metadata: &Metadata) -> Option<(u64, u64)> {
    match (metadata.dev(), metadata.ino()) {
        (0, 0) => None,
        node => Some(node),
    }
}

// The path that names the same without `.`, `//`, `..` and links; the path itself where the system gives none.
fn resolved<R: Files + AllocGlobal>(rt: &R, path: &str) -> Result<String, Fault> {
    match given(fs::canonicalize(rt, path))? {
        Some(path) => Ok(path.into_string()),
        None => Ok(String::from_str(rt.alloc(), path)?),
    }
}

// The path of what would be made at a path: links to what is not there are followed.
fn made_path<R: Files + AllocGlobal>(rt: &R, path: &str) -> Result<PathBuf, Fault> {
    let mut made = PathBuf::from_str(rt.alloc(), path)?;
    for _ in 0..MOST_LINKS {
        let Some(link) = given(fs::read_link(rt, made.as_str()))? else {
            break;
        };
        made.pop();
        made.push(link.as_str())?;
    }
    Ok(made)
}

impl FileIdentity {
    /// The file of a path, of which the system said this.
    pub fn of_file<R: Files + AllocGlobal>(
        rt: &R,
        path: &str,
        metadata: &Metadata,
    ) -> Result<FileIdentity, Fault> {
        Ok(FileIdentity {
            node: node_of(metadata),
            path: resolved(rt, path)?,
            name: String::new(rt.alloc()),
        })
    }

    /// The file that would be made at a path that has none.
    pub fn of_missing<R: Files + AllocGlobal>(rt: &R, path: &str) -> Result<FileIdentity, Fault> {
        let made = made_path(rt, path)?;
        let path: Path<'_> = made.as_path();
        let folder = match path.parent() {
            Some(folder) if !folder.as_str().is_empty() => folder.as_str(),
            _ => HERE,
        };
        let name = path.file_name().unwrap_or("");
        Ok(FileIdentity {
            node: match fs::metadata(rt, folder) {
                Ok(metadata) => node_of(&metadata),
                Err(_) => None,
            },
            path: resolved(rt, folder)?,
            name: String::from_str(rt.alloc(), name)?,
        })
    }

    // Whether both have this device and inode.
    fn has_node_of(&self, other: &FileIdentity) -> bool
        ensures { result ≡ are_one_node self.now.node other.now.node }
    {
        match (self.node, other.node) {
            (Some((device, inode)), Some((other_device, other_inode))) => {
                device == other_device && inode == other_inode
            }
            _ => false,
        }
    }

    /// Whether the two are one file.
    pub fn is_file_of(&self, other: &FileIdentity) -> bool
        ensures { result ≡ are_one self.now other.now }
    {
        self.name.as_str() == other.name.as_str()
            && (self.path.as_str() == other.path.as_str() || self.has_node_of(other))
    }
}
