//! What is wrong with the file of a board.

use crate::lines::write_line;
use crate::observed_files::ObservedFiles;
use crate::paths::help_with_path;
use crate::questions::help_with_question;
use crate::records::{open_plain, texts_from};
use crate::scripts::show_record;
use crate::statements::help_with_statement;
use csv::ByteRecord;
use std::alloc::Global;
use std::io::Write;
use std::rt::Files;
use std::{fmt, io};

/// Help about a board.
#[derive(Clone, Copy)]
pub enum BoardHelp {
    /// A line has no title.
    Form,
    /// A line is no text.
    NotUtf8,
    /// There are more lines than a board has.
    TooManyReports,
}

impl fmt::Display for BoardHelp {
    fn fmt<W: fmt::Write>(&self, f: &mut fmt::Formatter<W>) -> fmt::Result {
        f.write_str(match self {
            BoardHelp::Form => {
                "a line of a board is a title, a bar and the name of a query, and behind it each constant behind a bar; or \
                 behind the title sql and a statement, each behind a bar"
            }
            BoardHelp::NotUtf8 => "the line is not UTF-8; convert the file",
            BoardHelp::TooManyReports => "a board has at most 64 lines; make two of it",
        })
    }
}

// Says what is wrong with the question, or the statement, of a board's line, which stands behind its title.
fn help_with_report<E: Write>(alloc: Global, line: &ByteRecord, err: &mut E) -> io::Result<()> {
    let texts = texts_from(alloc, line, 1)?;
    let mut words = Vec::new(alloc);
    for text in texts.iter() {
        words.push(text.as_str())?;
    }
    match words.as_slice() {
        ["sql", parts @ ..] => help_with_statement(alloc, parts.join(alloc, "|")?.as_str(), err),
        [name, constants @ ..] => {
            help_with_question(alloc, name, constants, err)?;
            Ok(())
        }
        [] => Ok(()),
    }
}

// Shows a line, and says what is wrong with it, by the number of the fault.
fn help_with_line<F: Files, E: Write>(
    files: &ObservedFiles<'_, F>,
    path: &str,
    line: &str,
    fault: &str,
    err: &mut E,
) -> io::Result<()> {
    let Ok(number) = line.parse::<u64>() else {
        return Ok(());
    };
    let shown = show_record(files.alloc(), path, open_plain(files, path)?, number, err)?;
    match (fault, shown) {
        ("33", _) => write_line(err, &BoardHelp::Form),
        ("34", _) => write_line(err, &BoardHelp::NotUtf8),
        ("35", _) => write_line(err, &BoardHelp::TooManyReports),
        (_, Some(line)) => help_with_report(files.alloc(), &line, err),
        (_, None) => Ok(()),
    }
}

/// Says what is wrong with the file of a board, by the words of its fault, which has the line before it.
pub fn help_with_board<F: Files, E: Write>(
    files: &ObservedFiles<'_, F>,
    path: &str,
    words: &[&str],
    err: &mut E,
) -> io::Result<()> {
    match words {
        ["75", ..] => help_with_path(files, path, err),
        ["line", line, fault, ..] => {
            let line = line.strip_suffix(":").unwrap_or(*line);
            help_with_line(files, path, line, fault, err)
        }
        _ => write_line(err, &BoardHelp::Form),
    }
}
