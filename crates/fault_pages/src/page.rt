//! The rows of the page's tables of faults.

use std::alloc::{AllocError, Global};

/// A row of a table of faults.
#[derive(Drop)]
pub struct PageRow {
    /// The line that it promises.
    pub line: String,
    /// Whether it also says what the fault means and what to do.
    pub is_whole: bool,
}

// The value that a word in capitals stands for in the listed faults; any other word stands for itself.
fn value_of(word: &str) -> &str {
    match word {
        "\\|" => "|",
        "C" => "|",
        "WORD" => "LO_TAX",
        "CONSTANT" => "year",
        "VALUE" => "1x",
        "WANTED" => "8",
        "LEAST" => "1",
        "MOST" => "7",
        "FOLDER" => "tables",
        "RECORD" => "commit",
        "SYSTEM" => "broken",
        "TABLE" => "customer",
        "ROW" => "2",
        "LINE" => "2",
        "COLUMN" => "C_CITY",
        "N" => "3",
        "FAULT" => "11 FieldTooLong C_CITY",
        "NAME" => "Q2.1",
        "PLACE" => "4",
        "KEY" => "77",
        "CLIENT" => "5",
        "K" => "6",
        "ACTION" => "4",
        "CAUSE" => "47 Absent 77",
        "PATH" => "answers",
        _ => word,
    }
}

// Whether a mark ends a word in a line of help.
fn is_mark(mark: char) -> bool {
    matches!(mark, ';' | ':' | ',' | '?')
}

// The line that a row's first cell promises.
fn line_of(alloc: Global, cell: &str) -> Result<String, AllocError> {
    let mut line = String::new(alloc);
    for word in cell.split(' ') {
        if !line.is_empty() {
            line.push(' ')?;
        }
        let name = word.trim_end_matches(is_mark);
        line.push_str(value_of(name))?;
        line.push_str(word.strip_prefix(name).unwrap_or(""))?;
    }
    Ok(line)
}

// Whether the text is a fault's line, which a number begins, a line of help or a note.
fn is_line(text: &str) -> bool {
    match text.as_bytes() {
        [first, ..] => {
            first.is_ascii_digit() || text.starts_with("help: ") || text.starts_with("note: ")
        }
        [] => false,
    }
}

// Whether the cells behind the first are two, and neither is empty.
fn are_two(cells: &str) -> bool {
    match cells.split_once(" | ") {
        Some((means, to_do)) => {
            let to_do = to_do.strip_suffix(" |").unwrap_or("");
            !means.trim().is_empty() && !to_do.trim().is_empty()
        }
        None => false,
    }
}

/// The row of a table of faults that a line of the page is, if it is one: its first cell is a fault's line, or a line
/// of help, in code.
pub fn row_of(alloc: Global, text: &str) -> Result<Option<PageRow>, AllocError> {
    let Some(rest) = text.strip_prefix("| `") else {
        return Ok(None);
    };
    let Some((cell, cells)) = rest.split_once("` | ") else {
        return Ok(None);
    };
    if !is_line(cell) {
        return Ok(None);
    }
    Ok(Some(PageRow {
        line: line_of(alloc, cell)?,
        is_whole: are_two(cells),
    }))
}
