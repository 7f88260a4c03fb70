//! The file of a server's figures: which file it may be, and how it is written while the server serves.

ghost use Rattle.std.specs.Prelude.{◌≡◌};

use crate::end_bell::EndBell;
use crate::memory::resident;
use crate::named_journal::NamedJournal;
use crate::seconds_view::NamedSeconds;
use crate::store_figures::{StoreCommits, StoreFigures};
use crate::stores::ServedStore;
use arguments::ServeWords;
use serve_command::MOST_CLIENTS;
use server_figures::{LiveFigures, Metrics, NotMetrics, SIGN_LENGTH, may_be_replaced};
use ssb_files::{Fault, Finding, JobFault, PathUse, UsedPath};
use std::alloc::{AllocError, Global};
use std::io::{self, ErrorKind, Print, Read, Write};
use std::rt::Files;
use std::sync::{Arc, Wait};
use std::time::Duration;
use std::{fmt, fs};

// So many seconds lie between two texts.
const PAUSE: u64 = 10;

/// Why a server's figures are written to no file.
#[derive(Debug, Drop)]
pub(crate) enum MetricsRefusal {
    /// A file that would be written over is no text of figures.
    NotMetrics(NotMetrics<String>),
}

impl Finding for MetricsRefusal {
    ghost found_status = { λ _. 1 };

    fn status(&self) -> u8 {
        1
    }
}

impl fmt::Display for MetricsRefusal {
    fn fmt<W: fmt::Write>(&self, f: &mut fmt::Formatter<W>) -> fmt::Result {
        match self {
            MetricsRefusal::NotMetrics(fault) => write!(f, "metrics: {fault}"),
        }
    }
}

/// Why a server's figures are written to no file. The exit status is 1 where a file is refused, and else 4.
pub(crate) type MetricsFault = JobFault<MetricsRefusal>;

// The path of the file that is written, and then renamed.
fn new_path(alloc: Global, path: &str) -> Result<String, AllocError> {
    format!(in alloc; "{path}.new")
}

// Whether a file may be written over: there is none, or a plain one that has no bytes or a text of figures. Where the
// system says nothing of a path, nothing can be written there either.
fn is_free<F: Files + AllocGlobal>(files: &F, path: &str) -> io::Result<bool> {
    let Ok(metadata) = fs::metadata(files, path) else {
        return Ok(true);
    };
    if !metadata.is_file() {
        return Ok(false);
    }
    let mut head = Vec::new(files.alloc());
    let mut first = fs::open(files, path)?.take(SIGN_LENGTH as u64);
    first.read_to_end(&mut head)?;
    Ok(may_be_replaced(head.as_slice()))
}

// Looks whether a file may be written over.
fn check<F: Files + AllocGlobal>(files: &F, path: &str) -> Result<(), MetricsFault> {
    match is_free(files, path) {
        Ok(true) => Ok(()),
        Ok(false) => {
            let path = String::from_str(files.alloc(), path)?;
            let fault = MetricsRefusal::NotMetrics(NotMetrics(path));
            Err(MetricsFault::Found(fault))
        }
        Err(error) if error.kind() == ErrorKind::OutOfMemory => {
            Err(MetricsFault::Program(Fault::OutOfMemory))
        }
        Err(_) => {
            let path = String::from_str(files.alloc(), path)?;
            Err(MetricsFault::Program(Fault::CannotRead(path)))
        }
    }
}

/// Puts the paths of a file of figures to those that a command writes, if the words name one.
pub(crate) fn push_metrics<F: Files + AllocGlobal>(
    files: &F,
    word: Option<&str>,
    paths: &mut Vec<UsedPath>,
) -> Result<(), Fault> {
    if let Some(path) = word {
        let new = new_path(files.alloc(), path)?;
        paths.push(UsedPath::find(files, path, PathUse::Write)?)?;
        paths.push(UsedPath::find(files, new.as_str(), PathUse::Write)?)?;
    }
    Ok(())
}

/// The file of a server's figures.
#[derive(Drop)]
pub(crate) struct MetricsFile<'a, F: Files> {
    files: &'a F,
    path: String,
    // That of the file which is written and then renamed.
    new: String,
    // The journal, where there is one.
    journal: Option<NamedJournal>,
    figures: Arc<LiveFigures>,
}

impl<'a, F: Files + AllocGlobal> MetricsFile<'a, F> {
    // The file of this path, for these figures and for what this journal has. Nothing is written. A file that has
    // something else is refused.
    fn find(
        files: &'a F,
        path: &str,
        journal: Option<&NamedJournal>,
        figures: &Arc<LiveFigures>,
    ) -> Result<MetricsFile<'a, F>, MetricsFault> {
        let new = new_path(files.alloc(), path)?;
        check(files, path)?;
        check(files, new.as_str())?;
        let journal = match journal {
            Some(journal) => Some(journal.share()?),
            None => None,
        };
        Ok(MetricsFile {
            files,
            path: String::from_str(files.alloc(), path)?,
            new,
            journal,
            figures: Arc::try_clone(figures)?,
        })
    }

    /// The file that the words name for these figures, if they name one. Where there are too many clients, that is told
    /// elsewhere, and no file is looked at.
    pub(crate) fn named_by(
        files: &'a F,
        words: &ServeWords<'_>,
        journal: Option<&NamedJournal>,
        figures: &Arc<LiveFigures>,
    ) -> Result<Option<MetricsFile<'a, F>>, MetricsFault> {
        match words.metrics {
            Some(path) if words.clients.len() / 2 <= MOST_CLIENTS => {
                let file = MetricsFile::find(files, path, journal, figures)?;
                Ok(Some(file))
            }
            _ => Ok(None),
        }
    }

    // The store, where there is one.
    fn store(&self) -> Option<&ServedStore> {
        self.journal.as_ref()?.store()
    }

    // How many bytes the journal's file has, where there is one.
    fn file_bytes(&self) -> Option<u64> {
        match self.journal.as_ref()? {
            NamedJournal::File(path, _) => {
                let metadata = fs::metadata(self.files, path.as_str()).ok()?;
                Some(metadata.len())
            }
            NamedJournal::Store(_) => None,
        }
    }

    // Writes the figures as they are now, and those of the store, where there is one.
    fn write_figures<W: Write>(&self, out: &mut W) -> io::Result<()> {
        let figures = self.figures.now();
        let resident_bytes = resident(self.files);
        let Some(store) = self.store() else {
            let metrics = Metrics {
                figures,
                journal_bytes: self.file_bytes(),
                resident_bytes,
            };
            return write!(out, "{metrics}");
        };
        let folder = StoreFigures::of(self.files, store.folder())?;
        let metrics = Metrics {
            figures: StoreCommits::of(store, figures).counted(figures),
            journal_bytes: Some(folder.journal_bytes()),
            resident_bytes,
        };
        write!(out, "{metrics}{folder}")
    }

    // Writes the figures as they are now into a file of another name, and renames it: so nobody reads a part of them.
    fn write<R: Wait>(&self, rt: &R, seconds: &NamedSeconds<'_>) -> io::Result<()> {
        let mut text = Vec::new(self.files.alloc());
        self.write_figures(&mut text)?;
        seconds.write_metrics(rt, &mut text)?;
        let mut file = fs::create(self.files, self.new.as_str())?;
        file.write_all(text.as_slice())?;
        file.drop();
        fs::rename(self.files, self.new.as_str(), self.path.as_str())
    }

    /// Writes the figures at once, every ten seconds, and when the server has ended; those of second servers among them,
    /// where there are some. The first time that they cannot be written is told, if the screen takes it.
    pub(crate) fn write_until<R: Wait, E: Print>(
        &self,
        rt: &R,
        seconds: &NamedSeconds<'_>,
        bell: &EndBell,
        screen: &E,
    ) {
        let mut is_told = false;
        for _ in rt.forever() {
            let is_last = bell.has_rung();
            if self.write(rt, seconds).is_err() && !is_told {
                is_told = true;
                let mut screen = io::writer(screen);
                let _ = writeln!(screen, "ssb_live: metrics: cannot write {}", self.path);
            }
            if is_last {
                return;
            }
            bell.await_for(rt, Duration::from_secs(PAUSE));
        }
    }
}
