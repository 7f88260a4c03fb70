//! Runs a case, and finds what differs first from what it wants.

use case_files::{
    Breaking, Case, Command, CommandEnd, ErrorScreen, MemoryFiles, Stream, find_difference,
};
use command_line::{Streams, run_command_line};
use std::io;
use std::random::RandomSource;
use std::sync::Wait;
use std::thread::Threads;
use std::time::Clock;

// What a command runs in, and its words.
#[derive(Clone, Copy)]
struct Setting<'a> {
    is_typed: bool,
    columns: Option<&'a str>,
    words: &'a [String],
}

// Whether the input is typed at a terminal, as a command's first word says, and the other words.
fn typed_and_words(words: &[String]) -> (bool, &[String]) {
    match words {
        [first, words @ ..] if first.as_str() == "TERMINAL" => (true, words),
        _ => (false, words),
    }
}

// The variable COLUMNS, where a command's first word gives it, and its words.
fn columns_and_words(words: &[String]) -> (Option<&str>, &[String]) {
    if let [first, words @ ..] = words {
        if let Some(columns) = first.strip_prefix("COLUMNS=") {
            return (Some(columns), words);
        }
    }
    (None, words)
}

// What a command runs in.
fn setting_of(words: &[String]) -> Setting<'_> {
    let (is_typed, words) = typed_and_words(words);
    let (columns, words) = columns_and_words(words);
    Setting {
        is_typed,
        columns,
        words,
    }
}

// Runs a command over these files.
fn run_command<R>(rt: &R, files: &MemoryFiles, command: &Command) -> io::Result<CommandEnd>
where
    R: Clock + RandomSource + Threads + Sync + Wait + AllocGlobal,
{
    let output = Stream::new(rt.alloc(), command.break_of("output"))?;
    let errors = Stream::new(rt.alloc(), command.break_of("errors"))?;
    let screen = ErrorScreen::new(errors.writer()?);
    let Setting {
        is_typed,
        columns,
        words,
    } = setting_of(command.words.as_slice());
    let streams = Streams {
        input: Breaking::new(command.input.as_slice(), command.break_of("input")),
        is_typed,
        output: output.writer()?,
        errors: &screen,
        shows_progress: false,
        columns,
    };
    let status = run_command_line(rt, files, words, streams);
    Ok(CommandEnd {
        output: output.bytes()?,
        errors: errors.bytes()?,
        status,
    })
}

/// Runs the commands of a case, one after the other over the same files, and says what differs first from what the case
/// wants; nothing where all is as wanted.
pub fn run_case<R>(rt: &R, case: &Case) -> io::Result<Option<String>>
where
    R: Clock + RandomSource + Threads + Sync + Wait + AllocGlobal,
{
    let alloc = rt.alloc();
    let files = MemoryFiles::with_small_data(alloc)?;
    for file in &case.files {
        files.put(file.path.as_str(), file.bytes.as_slice())?;
    }
    let mut number = 0u64;
    for command in &case.commands {
        number = number.saturating_add(1);
        files.break_after(command.breaks.as_slice())?;
        files.take(command.taken.as_slice())?;
        let outcome = run_command(rt, &files, command)?;
        if let Some(difference) = find_difference(alloc, &files, command, &outcome)? {
            return Ok(Some(format!(in alloc; "command {number}, {difference}")?));
        }
    }
    Ok(None)
}
