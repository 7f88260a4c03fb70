//! The words of stores: `store`, `checkpoint`, and those that stand in the place of the tables and the journal.

use crate::grammar::command;
use crate::job::{HintsWord, Job, hints_of, layout_of, word_of};
use crate::notice::Notice;
use clap::ArgMatches;
use clap::error::ErrorKind;
use ssb_text::TableLayout;
use std::alloc::Global;

// How many it has at most where nothing says so.
const SEGMENT: u64 = 250_000;

/// The store of a server.
#[derive(Clone, Copy)]
pub struct StoreWord<'a> {
    pub folder: &'a str,
    /// How many commits a segment has at most.
    pub segment: u64,
}

/// The table files of a folder, and how they are laid out.
#[derive(Clone, Copy)]
pub struct FilesWord<'a> {
    pub data: &'a str,
    pub layout: TableLayout,
}

/// A store that is read.
#[derive(Clone, Copy)]
pub struct StoredWord<'a> {
    pub folder: &'a str,
    /// After how many of its commits; after all where nothing says so.
    pub at: Option<u64>,
}

/// Where tables come from.
#[derive(Clone, Copy)]
pub enum SourceWord<'a> {
    Files(FilesWord<'a>),
    Store(StoredWord<'a>),
}

impl<'a> SourceWord<'a> {
    /// The table files, where no store stands in their place.
    pub fn files(self) -> Option<FilesWord<'a>> {
        match self {
            SourceWord::Files(files) => Some(files),
            SourceWord::Store(_) => None,
        }
    }

    /// The folder of the store, where one stands in the place of table files.
    pub fn store(self) -> Option<&'a str> {
        match self {
            SourceWord::Files(_) => None,
            SourceWord::Store(store) => Some(store.folder),
        }
    }
}

/// The words of `store`.
#[derive(Drop)]
pub struct StoreWords<'a> {
    pub data: &'a str,
    pub layout: TableLayout,
    pub folder: &'a str,
    pub quiet: bool,
    pub hints: HintsWord,
}

/// The words of `checkpoint`.
#[derive(Drop)]
pub struct CheckpointWords<'a> {
    pub folder: &'a str,
    /// From the tables after so many commits on everything is kept, or from older ones; nothing for it where nothing
    /// says so.
    pub keep_from: Option<u64>,
    pub quiet: bool,
    pub hints: HintsWord,
}

// Refuses a number that only a store has, where none is named.
fn check_number(
    alloc: Global,
    matches: &ArgMatches<'_>,
    name: &str,
    told: &str,
) -> Result<(), Notice> {
    if matches.get_one::<u64>(name).is_none() || matches.get_str("store").is_some() {
        return Ok(());
    }
    let fault = command(alloc, false)?.error(ErrorKind::MissingRequiredArgument, told)?;
    Err(Notice::from(fault))
}

/// The store of a server that the words name, if they name one.
pub(crate) fn store_of<'a>(
    alloc: Global,
    matches: &ArgMatches<'a>,
) -> Result<Option<StoreWord<'a>>, Notice> {
    check_number(
        alloc,
        matches,
        "segment",
        "the argument '--segment <N>' cannot be used without '--store <FOLDER>'",
    )?;
    let segment = matches.get_one::<u64>("segment").unwrap_or(SEGMENT);
    Ok(
        matches
            .get_str("store")
            .map(|folder| StoreWord { folder, segment }),
    )
}

/// The store that is read, if the words name one.
pub(crate) fn stored_of<'a>(
    alloc: Global,
    matches: &ArgMatches<'a>,
) -> Result<Option<StoredWord<'a>>, Notice> {
    check_number(
        alloc,
        matches,
        "at",
        "the argument '--at <N>' cannot be used without '--store <FOLDER>'",
    )?;
    let at = matches.get_one::<u64>("at");
    Ok(
        matches
            .get_str("store")
            .map(|folder| StoredWord { folder, at }),
    )
}

/// The table files that the words name.
pub(crate) fn files_of<'a>(
    alloc: Global,
    matches: &ArgMatches<'a>,
) -> Result<FilesWord<'a>, Notice> {
    Ok(FilesWord {
        data: word_of(matches, "data"),
        layout: layout_of(alloc, matches)?,
    })
}

/// Where tables come from; the grammar lets no two words through.
pub(crate) fn source_of<'a>(
    alloc: Global,
    matches: &ArgMatches<'a>,
) -> Result<SourceWord<'a>, Notice> {
    match stored_of(alloc, matches)? {
        Some(store) => Ok(SourceWord::Store(store)),
        None => Ok(SourceWord::Files(files_of(alloc, matches)?)),
    }
}

/// The words of `store` that were matched.
pub(crate) fn store_job<'a>(alloc: Global, matches: &ArgMatches<'a>) -> Result<Job<'a>, Notice> {
    Ok(Job::Store(StoreWords {
        data: word_of(matches, "data"),
        layout: layout_of(alloc, matches)?,
        folder: word_of(matches, "store"),
        quiet: matches.get_flag("quiet"),
        hints: hints_of(matches),
    }))
}

/// The words of `checkpoint` that were matched.
pub(crate) fn checkpoint_job<'a>(matches: &ArgMatches<'a>) -> Job<'a> {
    Job::Checkpoint(CheckpointWords {
        folder: word_of(matches, "store"),
        keep_from: matches.get_one::<u64>("keep-from"),
        quiet: matches.get_flag("quiet"),
        hints: hints_of(matches),
    })
}
