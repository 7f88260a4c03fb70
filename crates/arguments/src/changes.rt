//! The words of `changes`.

use crate::job::{HintsWord, Job, hints_of, word_of};
use crate::notice::Notice;
use crate::store::{FilesWord, files_of};
use clap::ArgMatches;
use std::alloc::Global;

/// From where on changes are written.
#[derive(Clone, Copy)]
pub enum StartWord {
    /// From the loaded lines on.
    Base,
    /// Behind the first commits, so many of them.
    After(u64),
}

/// Where the groups of a journal come from.
#[derive(Clone, Copy)]
pub enum GroupsWord<'a> {
    /// The journal's file.
    Journal(&'a str),
    /// A stream of its groups, by its path.
    Feed(&'a str),
    /// Standard input.
    Input,
}

/// Whose commits are written.
#[derive(Clone, Copy)]
pub enum ChangedWord<'a> {
    /// Those of a journal over table files.
    Journal(FilesWord<'a>, GroupsWord<'a>),
    /// Those of the store in this folder.
    Store(&'a str),
}

impl<'a> ChangedWord<'a> {
    /// The table files, where no store stands in their place.
    pub fn files(self) -> Option<FilesWord<'a>> {
        match self {
            ChangedWord::Journal(files, _) => Some(files),
            ChangedWord::Store(_) => None,
        }
    }

    /// The path of the journal's file, where that was named.
    pub fn journal(self) -> Option<&'a str> {
        match self {
            ChangedWord::Journal(_, GroupsWord::Journal(path)) => Some(path),
            _ => None,
        }
    }

    /// What the fault of a stream is told of: its path.
    pub fn feed(self) -> Option<&'a str> {
        match self {
            ChangedWord::Journal(_, GroupsWord::Feed(path)) => Some(path),
            ChangedWord::Journal(_, GroupsWord::Input) => Some("-"),
            _ => None,
        }
    }

    /// The folder of the store, where one is named.
    pub fn store(self) -> Option<&'a str> {
        match self {
            ChangedWord::Journal(_, _) => None,
            ChangedWord::Store(folder) => Some(folder),
        }
    }
}

/// How signed lines are written.
#[derive(Clone, Copy)]
pub enum LinesFormatWord {
    Report,
    Csv,
    Json,
}

/// The words of `changes`.
#[derive(Drop)]
pub struct ChangesWords<'a> {
    pub changed: ChangedWord<'a>,
    pub start: StartWord,
    pub format: LinesFormatWord,
    pub quiet: bool,
    pub hints: HintsWord,
}

// From where on the words ask for changes; the grammar lets no two words through.
fn start_of(matches: &ArgMatches<'_>) -> StartWord {
    if matches.get_flag("base") {
        return StartWord::Base;
    }
    StartWord::After(matches.get_one::<u64>("after").unwrap_or(0))
}

// The format that the words name; without the word it is the report.
fn format_of(matches: &ArgMatches<'_>) -> LinesFormatWord {
    match word_of(matches, "format") {
        "csv" => LinesFormatWord::Csv,
        "json" => LinesFormatWord::Json,
        _ => LinesFormatWord::Report,
    }
}

// Where groups come from; the grammar lets no two words through.
fn groups_of<'a>(matches: &ArgMatches<'a>) -> GroupsWord<'a> {
    match matches.get_str("feed") {
        Some("-") => GroupsWord::Input,
        Some(path) => GroupsWord::Feed(path),
        None => GroupsWord::Journal(word_of(matches, "journal")),
    }
}

// Whose commits the words ask for; the grammar lets no two words through.
fn changed_of<'a>(alloc: Global, matches: &ArgMatches<'a>) -> Result<ChangedWord<'a>, Notice> {
    match matches.get_str("store") {
        Some(folder) => Ok(ChangedWord::Store(folder)),
        None => Ok(ChangedWord::Journal(files_of(alloc, matches)?, groups_of(matches))),
    }
}

/// Those that were matched.
pub(crate) fn changes_job<'a>(alloc: Global, matches: &ArgMatches<'a>) -> Result<Job<'a>, Notice> {
    Ok(Job::Changes(ChangesWords {
        changed: changed_of(alloc, matches)?,
        start: start_of(matches),
        format: format_of(matches),
        quiet: matches.get_flag("quiet"),
        hints: hints_of(matches),
    }))
}
