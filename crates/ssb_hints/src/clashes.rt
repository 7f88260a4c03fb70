//! Why a path of a command may not be used: it is another path's file, or has what would be lost.

use crate::lines::write_line;
use crate::named::Named;
use crate::observed_files::ObservedFiles;
use ssb_schema::Table;
use std::io::Write;
use std::rt::Files;
use std::{fmt, fs, io};

/// What a path of a command is for.
#[derive(Clone, Copy, Debug, PartialEq, Eq)]
pub enum PathRole {
    Table,
    Script,
    Standing,
    ClientEnd,
    Journal,
}

impl fmt::Display for PathRole {
    fn fmt<W: fmt::Write>(&self, f: &mut fmt::Formatter<W>) -> fmt::Result {
        f.write_str(match self {
            PathRole::Table => "a table",
            PathRole::Script => "a script",
            PathRole::Standing => "the file of standing questions",
            PathRole::ClientEnd => "an end of a client",
            PathRole::Journal => "the journal",
        })
    }
}

/// Help about a path that may not be used.
#[derive(Clone, Copy)]
pub enum ClashHelp<'a> {
    /// It is the file of an earlier path, which is for this.
    SameFile(&'a str, PathRole),
    /// It is to keep a trace, and has something else.
    NotATrace(&'a str),
    /// Answers would be written over what it has.
    HasBytes(&'a str),
    /// Another process has it.
    InUse(&'a str),
    /// It is to keep figures, and has something else.
    NotMetrics(&'a str),
    /// Tables are to be written into it, and it has files.
    NotEmpty(&'a str),
}

impl<'a> fmt::Display for ClashHelp<'a> {
    fn fmt<W: fmt::Write>(&self, f: &mut fmt::Formatter<W>) -> fmt::Result {
        match self {
            ClashHelp::SameFile(path, role) => {
                write!(
                    f,
                    "{path} is also {role} of this command; name another file"
                )
            }
            ClashHelp::NotATrace(path) => write!(
                f,
                "{path} has bytes and is no trace; name a file that does not exist, or a trace"
            ),
            ClashHelp::HasBytes(path) => write!(
                f,
                "{path} has bytes that answers would be written over; look whether IN and OUT changed places"
            ),
            ClashHelp::InUse(path) => {
                write!(
                    f,
                    "another process has {path}; end that one, or name another path"
                )
            }
            ClashHelp::NotMetrics(path) => write!(
                f,
                "{path} has bytes and is no file of figures; name a file that does not exist, or one of such figures"
            ),
            ClashHelp::NotEmpty(path) => write!(
                f,
                "{path} has files, or is no folder; name a folder that does not exist, or is empty"
            ),
        }
    }
}

// Whether two paths name one file; one that is not there is compared as it is written.
fn is_one_file<F: Files>(files: &ObservedFiles<'_, F>, one: &str, other: &str) -> bool {
    let alloc = files.alloc();
    match (
        files.canonicalize(alloc, one),
        files.canonicalize(alloc, other),
    ) {
        (Ok(one), Ok(other)) => one.as_str() == other.as_str(),
        _ => one == other,
    }
}

const TABLES: [Table; 5] = [
    Table::Customer,
    Table::Supplier,
    Table::Part,
    Table::Date,
    Table::Lineorder,
];

// Whether a path is the file of a table of this folder.
fn is_table<F: Files>(files: &ObservedFiles<'_, F>, folder: &str, path: &str) -> io::Result<bool> {
    for table in TABLES {
        let file = format!(in files.alloc(); "{folder}/{table}.tbl")?;
        if is_one_file(files, file.as_str(), path) {
            return Ok(true);
        }
    }
    Ok(false)
}

// What the first path of a command is for that is the file of this one.
fn first_role<F: Files>(
    files: &ObservedFiles<'_, F>,
    named: &Named<'_>,
    path: &str,
) -> io::Result<Option<PathRole>> {
    if let Some(tables) = named.data {
        if is_table(files, tables.folder, path)? {
            return Ok(Some(PathRole::Table));
        }
    }
    let is_path = |named: &&str| is_one_file(files, *named, path);
    if named.scripts.iter().any(is_path) {
        return Ok(Some(PathRole::Script));
    }
    if named.standing.iter().any(is_path) {
        return Ok(Some(PathRole::Standing));
    }
    if named.clients.iter().any(is_path) {
        return Ok(Some(PathRole::ClientEnd));
    }
    if named.journal.iter().any(is_path) {
        return Ok(Some(PathRole::Journal));
    }
    Ok(None)
}

/// Says why a path may not be used, by the words of its fault, of which the path is the rest.
pub fn help_with_clash<F: Files, E: Write>(
    files: &ObservedFiles<'_, F>,
    named: &Named<'_>,
    fault: &str,
    err: &mut E,
) -> io::Result<()> {
    if let Some(path) = fault.strip_prefix("94 InUse ") {
        return write_line(err, &ClashHelp::InUse(path));
    }
    if let Some(path) = fault.strip_prefix("64 NotMetrics ") {
        return write_line(err, &ClashHelp::NotMetrics(path));
    }
    if let ("95 NotEmpty", Some(path)) = (fault, named.folder) {
        return write_line(err, &ClashHelp::NotEmpty(path));
    }
    if let Some(path) = fault.strip_prefix("97 HasBytes ") {
        return match named.trace {
            Some(_) => write_line(err, &ClashHelp::NotATrace(path)),
            None => write_line(err, &ClashHelp::HasBytes(path)),
        };
    }
    let Some(path) = fault.strip_prefix("96 SameFile ") else {
        return Ok(());
    };
    match first_role(files, named, path)? {
        Some(role) => write_line(err, &ClashHelp::SameFile(path, role)),
        None => Ok(()),
    }
}
