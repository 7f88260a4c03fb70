//! What a store adds to the figures of its server.

use crate::stores::ServedStore;
use server_figures::Figures;
use std::alloc::AllocError;
use std::rt::Files;
use std::{fmt, fs, io};
use store_folder::{list_store, segment_path, sizes_path};

/// What the folder of a store has now.
#[derive(Clone, Copy)]
pub(crate) struct StoreFigures {
    // After how many commits its newest tables are.
    tables_after: u64,
    // How many segments are behind them, and how many bytes these have.
    segments: u64,
    bytes: u64,
}

// After how many commits the newest whole tables are, of these.
fn newest_after<F: Files + AllocGlobal>(
    files: &F,
    folder: &str,
    tables: &[u64],
) -> Result<u64, AllocError> {
    for after in tables.iter().rev() {
        let sizes = sizes_path(files.alloc(), folder, *after)?;
        if fs::metadata(files, sizes.as_str()).is_ok() {
            return Ok(*after);
        }
    }
    Ok(0)
}

impl StoreFigures {
    /// Those of a folder. A file that a checkpoint deletes meanwhile is not counted.
    pub(crate) fn of<F: Files + AllocGlobal>(files: &F, folder: &str) -> io::Result<StoreFigures> {
        let numbers = list_store(files, files.alloc(), folder)?;
        let tables_after = newest_after(files, folder, numbers.tables.as_slice())?;
        let mut segments = 0u64;
        let mut bytes = 0u64;
        for number in &numbers.segments {
            if *number >= tables_after {
                let path = segment_path(files.alloc(), folder, *number)?;
                if let Ok(metadata) = fs::metadata(files, path.as_str()) {
                    segments = segments.saturating_add(1);
                    bytes = bytes.saturating_add(metadata.len());
                }
            }
        }
        Ok(StoreFigures {
            tables_after,
            segments,
            bytes,
        })
    }

    /// How many bytes the segments behind the newest tables have.
    pub(crate) fn journal_bytes(&self) -> u64 {
        self.bytes
    }
}

// As metrics of Prometheus.
impl fmt::Display for StoreFigures {
    fn fmt<W: fmt::Write>(&self, f: &mut fmt::Formatter<W>) -> fmt::Result {
        writeln!(
            f,
            "# HELP ssb_live_store_tables_after Commits before the newest tables of the store."
        )?;
        writeln!(f, "# TYPE ssb_live_store_tables_after gauge")?;
        writeln!(f, "ssb_live_store_tables_after {}", self.tables_after)?;
        writeln!(
            f,
            "# HELP ssb_live_store_segments Segments behind the newest tables of the store."
        )?;
        writeln!(f, "# TYPE ssb_live_store_segments gauge")?;
        writeln!(f, "ssb_live_store_segments {}", self.segments)
    }
}

/// The commits of a server over a store: those before the tables that it has loaded, and those behind them.
#[derive(Clone, Copy)]
pub(crate) struct StoreCommits {
    after: u64,
    behind: u64,
}

impl StoreCommits {
    /// Those of a server that counts so many behind its tables.
    pub(crate) fn of(store: &ServedStore, figures: Figures) -> StoreCommits {
        StoreCommits {
            after: store.after(),
            behind: figures.commits,
        }
    }

    /// The figures of the server, where its commits count from the store's first one.
    pub(crate) fn counted(self, figures: Figures) -> Figures {
        Figures {
            commits: self.after.saturating_add(self.behind),
            ..figures
        }
    }
}

// As a line of a status.
impl fmt::Display for StoreCommits {
    fn fmt<W: fmt::Write>(&self, f: &mut fmt::Formatter<W>) -> fmt::Result {
        writeln!(f, "store {} + {}", self.after, self.behind)
    }
}
