//! The words of `ship`.

use crate::job::{HintsWord, Job, hints_of, word_of};
use clap::ArgMatches;

/// Whose groups are shipped.
#[derive(Clone, Copy)]
pub enum ShippedWord<'a> {
    /// Those of the journal in this file.
    Journal(&'a str),
    /// Those of the store in this folder.
    Store(&'a str),
}

impl<'a> ShippedWord<'a> {
    /// The path of the journal's file, where that was named.
    pub fn journal(self) -> Option<&'a str> {
        match self {
            ShippedWord::Journal(path) => Some(path),
            ShippedWord::Store(_) => None,
        }
    }

    /// The folder of the store, where one is named.
    pub fn store(self) -> Option<&'a str> {
        match self {
            ShippedWord::Journal(_) => None,
            ShippedWord::Store(folder) => Some(folder),
        }
    }
}

/// The words of `ship`.
#[derive(Drop)]
pub struct ShipWords<'a> {
    pub shipped: ShippedWord<'a>,
    /// Those that end with this commit or before are left out.
    pub after: u64,
    pub once: bool,
    pub hints: HintsWord,
}

// Whose groups the words ask for; the grammar lets no two words through.
fn shipped_of<'a>(matches: &ArgMatches<'a>) -> ShippedWord<'a> {
    match matches.get_str("store") {
        Some(folder) => ShippedWord::Store(folder),
        None => ShippedWord::Journal(word_of(matches, "journal")),
    }
}

/// Those that were matched.
pub(crate) fn ship_job<'a>(matches: &ArgMatches<'a>) -> Job<'a> {
    Job::Ship(ShipWords {
        shipped: shipped_of(matches),
        after: matches.get_one::<u64>("after").unwrap_or(0),
        once: matches.get_flag("once"),
        hints: hints_of(matches),
    })
}
