//! What a crash has torn, kept beside the journal.
ghost use Rattle.std.specs.Prelude.{◌≡◌, List, ℕ, IfOk};

use crate::file_disk::sync_name;
use std::alloc::{AllocError, Global};
use std::fs::{OpenFile, OpenOptions};
use std::io::{self, Write};
use std::marker::Model;
use std::rt::Files;

/// The path of the file that keeps what a crash has torn of a journal: `PATH.torn`.
pub fn torn_path(alloc: Global, path: &str) -> Result<String, AllocError> {
    format!(in alloc; "{path}.torn")
}

/// The evidence that bytes are in the file `PATH.torn`, which was synced: [`keep_torn`] alone makes it. To a contract
/// it is the bytes.
#[derive(Drop)]
pub struct TornFile {
    bytes: Vec<u8>,
}

impl Model for TornFile {
    ghost Value = { List ℕ };

    ghost view = { λ kept. kept.bytes.items };
}

/// Puts bytes behind those of the file `PATH.torn`, which is made where there is none, and syncs it and its folder. Of
/// no bytes there is nothing to keep.
pub fn keep_torn<R: Files>(
    files: &R,
    alloc: Global,
    path: &str,
    torn: Vec<u8>,
) -> io::Result<TornFile>
    ensures { IfOk result (λ kept. kept ≡ torn.items) }
{
    if torn.is_empty() {
        return Ok(TornFile { bytes: torn });
    }
    let beside = torn_path(alloc, path)?;
    let mut file = OpenOptions::new()
        .append(true)
        .create(true)
        .open(files, beside.as_str())?;
    file.write_all(&torn)?;
    file.sync_all()?;
    sync_name(files, path)?;
    Ok(TornFile { bytes: torn })
}
