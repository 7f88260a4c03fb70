//! What is wrong with a journal.

use crate::lines::write_line;
use crate::observed_files::ObservedFiles;
use crate::paths::{help_with_last_call, missing};
use crate::records::open_plain;
use std::io::{Read, Write};
use std::rt::Files;
use std::{fmt, io};

/// Help about the journal of this path.
#[derive(Clone, Copy)]
pub enum JournalHelp<'a> {
    /// It is not there.
    NoJournal,
    /// It has fewer commits than those behind which others are asked for.
    FewerCommits(&'a str),
    /// It is a segment of a store.
    Segment(&'a str),
    /// It has this form, which is not known yet.
    NewerForm(&'a str, &'a str),
    /// It is another file.
    NotAJournal(&'a str),
    /// The table that it was not made over.
    OtherTables(&'a str, &'a str),
    /// The tables refuse its commits.
    Refused(&'a str),
    /// Its bytes are others.
    Damaged(&'a str),
    /// Another process has it.
    InUse(&'a str),
    /// It was named as a trace.
    NotATrace(&'a str),
    /// A journal is to begin, and it has bytes.
    HasBytes(&'a str),
}

impl<'a> fmt::Display for JournalHelp<'a> {
    fn fmt<W: fmt::Write>(&self, f: &mut fmt::Formatter<W>) -> fmt::Result {
        match self {
            JournalHelp::NoJournal => f.write_str(
                "look whether the path is right, and whether its disk is there; a journal begins with serve \
                 --new-journal",
            ),
            JournalHelp::FewerCommits(path) => write!(
                f,
                "{path} has fewer commits; look whether it is the journal whose first ones you have, and no older copy of \
                 it"
            ),
            JournalHelp::Segment(path) => write!(
                f,
                "{path} is a segment of a store, and no journal; name the folder of the store with --store"
            ),
            JournalHelp::NewerForm(path, form) => write!(
                f,
                "{path} has form {form}, which a newer program made; use that program, and leave the file as it is"
            ),
            JournalHelp::NotAJournal(path) => write!(
                f,
                "{path} is no journal; look whether the path is right, and whether another file took its place"
            ),
            JournalHelp::OtherTables(path, table) => write!(
                f,
                "{path} was made with another file of {table}; serve the tables with which it was made, or begin \
                 another journal with --new-journal"
            ),
            JournalHelp::Refused(path) => write!(
                f,
                "{path} was made with other tables; serve the tables with which it was made, or begin another journal \
                 with --new-journal"
            ),
            JournalHelp::Damaged(path) => write!(
                f,
                "{path} has bytes that were not written there; put a copy of it in its place"
            ),
            JournalHelp::InUse(path) => write!(
                f,
                "{path} is open in another process; end that server, or name another journal"
            ),
            JournalHelp::NotATrace(path) => write!(
                f,
                "{path} is a journal, and no trace; audit takes what run --trace has written, export takes a journal"
            ),
            JournalHelp::HasBytes(path) => write!(
                f,
                "{path} has commits, or is no journal of these tables; --journal goes on with a journal, \
                 --new-journal begins one where no file is"
            ),
        }
    }
}

// What stands in the first group of every journal, of whatever form.
const SIGN: &[u8] = b"ssb_live journal ";

// So many first bytes have it.
const SIGN_IS_WITHIN: u64 = 128;

/// Says that a file is a journal where a trace is wanted, if it is one, and whether it is.
pub fn help_with_journal_as_trace<F: Files, E: Write>(
    files: &ObservedFiles<'_, F>,
    path: &str,
    err: &mut E,
) -> io::Result<bool> {
    let mut head = Vec::new(files.alloc());
    let mut first = open_plain(files, path)?.take(SIGN_IS_WITHIN);
    first.read_to_end(&mut head)?;
    if !head.windows(SIGN.len()).any(|bytes| bytes == SIGN) {
        return Ok(false);
    }
    write_line(err, &JournalHelp::NotATrace(path))?;
    Ok(true)
}

// Says that a journal is not there: what there is not of its path, and what to do.
fn help_with_no_journal<F: Files, E: Write>(
    files: &ObservedFiles<'_, F>,
    path: &str,
    err: &mut E,
) -> io::Result<()> {
    write_line(err, &missing(files, path))?;
    write_line(err, &JournalHelp::NoJournal)
}

/// Says what is wrong with a journal, by the words of its fault. Those of a fault without a number are the system's, of
/// the last call that failed.
pub fn help_with_journal<F: Files, E: Write>(
    files: &ObservedFiles<'_, F>,
    path: &str,
    words: &[&str],
    err: &mut E,
) -> io::Result<()> {
    match words {
        ["65", ..] => help_with_no_journal(files, path, err),
        ["69", ..] => write_line(err, &JournalHelp::FewerCommits(path)),
        // The form of the segments of a store.
        ["66", _, "3"] => write_line(err, &JournalHelp::Segment(path)),
        ["66", _, form] => write_line(err, &JournalHelp::NewerForm(path, form)),
        ["90", ..] => write_line(err, &JournalHelp::NotAJournal(path)),
        ["91", _, table] => write_line(err, &JournalHelp::OtherTables(path, table)),
        ["92", ..] => write_line(err, &JournalHelp::Refused(path)),
        ["93", ..] => write_line(err, &JournalHelp::Damaged(path)),
        ["94", ..] => write_line(err, &JournalHelp::InUse(path)),
        ["97", ..] => write_line(err, &JournalHelp::HasBytes(path)),
        _ => help_with_last_call(files, err),
    }
}
