//! What is wrong with a request that was typed at a prompt.

use crate::lines::write_line;
use crate::nearest::nearest;
use crate::questions::QuestionHelp;
use crate::records::{record_of, text_at};
use crate::scripts::{begins_record, record_told, write_record_help, write_script_help};
use ssb_questions::QUERIES_AND_STAR;
use ssb_script::ScriptError;
use std::alloc::{AllocError, Global};
use std::io::Write;
use std::{fmt, io};

// What help calls the request, where it calls a script by its path.
const REQUEST: &str = "the request's";

/// Help at a prompt.
#[derive(Clone, Copy)]
pub enum PromptHelp<'a> {
    /// A word that begins no request.
    NoRequest(&'a str),
    /// A word of SQL.
    NoSql,
    /// A word that shows tables elsewhere.
    NoTables,
    /// A word that takes back what was done.
    NoUndo,
    /// The mark that ends a statement of SQL.
    NoSemicolon,
    /// A record that a block has, and its fault.
    InBlock(u64, ScriptError),
}

impl<'a> fmt::Display for PromptHelp<'a> {
    fn fmt<W: fmt::Write>(&self, f: &mut fmt::Formatter<W>) -> fmt::Result {
        match self {
            PromptHelp::NoRequest(word) => write!(
                f,
                "{word} begins no request; help lists the words and the queries"
            ),
            PromptHelp::NoSql => f.write_str(
                "of SQL this prompt reads SELECT alone, up to its ;, over these tables; orders come and go between begin and \
                 commit, as help begin shows",
            ),
            PromptHelp::NoTables => f.write_str(
                "the tables are customer, supplier, part, date and lineorder; help star lists the columns that can be \
                 asked for",
            ),
            PromptHelp::NoUndo => f.write_str(
                "abort drops what was begun and not committed; a commit is taken back by another refresh alone",
            ),
            PromptHelp::NoSemicolon => f.write_str("a request ends with its line; no ; is wanted"),
            PromptHelp::InBlock(number, fault) => write!(
                f,
                "record {number} of the block is not taken, so that its end will be answered by fault: {fault}; abort \
                 drops the block"
            ),
        }
    }
}

static SQL: [&str; 15] = [
    "insert", "update", "delete", "create", "drop", "alter", "with", "explain", "set", "use",
    "truncate", "merge", "grant", "copy", "pragma",
];

static TABLES: [&str; 9] = [
    "show", "tables", "describe", "desc", "schema", "\\d", "\\dt", ".tables", ".schema",
];

static UNDO: [&str; 3] = ["rollback", "undo", "savepoint"];

fn is_one_of(words: &[&str], word: &str) -> bool {
    words.iter().any(|own| own.eq_ignore_ascii_case(word))
}

// What is said of a word that begins no request.
fn word_help(word: &str) -> PromptHelp<'_> {
    if word.is_empty() {
        PromptHelp::NoSemicolon
    } else if is_one_of(&SQL, word) {
        PromptHelp::NoSql
    } else if is_one_of(&TABLES, word) {
        PromptHelp::NoTables
    } else if is_one_of(&UNDO, word) {
        PromptHelp::NoUndo
    } else {
        PromptHelp::NoRequest(word)
    }
}

// The words that a request may begin with: names of queries, and words.
fn request_words(alloc: Global) -> Result<Vec<&'static str>, AllocError> {
    let mut words = Vec::new(alloc);
    for query in &QUERIES_AND_STAR {
        words.push(query.name())?;
    }
    for word in [
        "query", "select", "order", "begin", "ask", "format", "columns", "values", "help",
        "status", "timing", "quit", "exit", "abort", "commit", "add", "amend", "put", "withdraw",
        "line", "answer",
    ] {
        words.push(word)?;
    }
    Ok(words)
}

// Says that a word begins no request, and which one may be meant.
fn help_with_word<E: Write>(alloc: Global, word: &str, err: &mut E) -> io::Result<()> {
    let help = word_help(word);
    if let PromptHelp::NoRequest(_) = help {
        let words = request_words(alloc)?;
        if let Some(near) = nearest(alloc, word, words.as_slice(), 2)? {
            write_line(err, &QuestionHelp::DidYouMean(near))?;
        }
    }
    write_line(err, &help)
}

// The first word of a text, without a mark that ends a statement of SQL.
fn first_word(text: &str) -> &str {
    let word = text.trim_start().split(' ').next().unwrap_or("");
    word.trim_end_matches(';')
}

/// Writes what is wrong with a request that was typed, and has this fault: one line or more, each begun with `  help: `,
/// or none.
pub fn write_request_help<E: Write>(
    alloc: Global,
    request: &[u8],
    fault: &ScriptError,
    err: &mut E,
) -> io::Result<()> {
    let Some(number) = record_told(fault) else {
        return write_script_help(alloc, REQUEST, request, fault, err);
    };
    let Some(record) = record_of(alloc, request, number)? else {
        return Ok(());
    };
    let word = text_at(alloc, &record, 0)?;
    match fault {
        ScriptError::BadLine(_) if !begins_record(word.as_str()) => {
            help_with_word(alloc, first_word(word.as_str()), err)
        }
        _ => write_record_help(alloc, &record, fault, err),
    }
}

/// Writes what is wrong with a record of a block that has not ended, which has this fault.
pub fn write_block_help<E: Write>(
    alloc: Global,
    request: &[u8],
    fault: &ScriptError,
    err: &mut E,
) -> io::Result<()> {
    let Some(number) = record_told(fault) else {
        return Ok(());
    };
    write_request_help(alloc, request, fault, err)?;
    write_line(err, &PromptHelp::InBlock(number, *fault))
}
