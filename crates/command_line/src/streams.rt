//! The words and the standard streams, as a command line gets them.

use arguments::Notice;
use ssb_files::Fault;
use std::env::{Env, VarError};
use std::io;
use std::io::{Print, Write};

/// The standard streams. The errors' stream is shared by the threads that tell faults.
#[derive(Drop)]
pub struct Streams<'a, I: Drop, O: Drop, E: Print> {
    pub input: I,
    /// Whether a person types the input, who is to see a prompt among the errors.
    pub is_typed: bool,
    pub output: O,
    pub errors: &'a E,
    /// Whether a person sees the errors, and so the progress of a long load, and help below a fault.
    pub shows_progress: bool,
    /// The variable COLUMNS, where the environment has it: how many columns a line of bars may take.
    pub columns: Option<&'a str>,
}

/// The words of the command line, the program's name first.
pub fn words<R: Env + AllocGlobal>(rt: &R) -> Result<Vec<String>, Fault> {
    match std::env::args(rt) {
        Ok(words) => Ok(words.collect(rt.alloc())?),
        Err(error) => Err(match error.kind() {
            io::ErrorKind::OutOfMemory => Fault::OutOfMemory,
            _ => Fault::BadWord,
        }),
    }
}

/// The variable COLUMNS, where the environment has it as a text.
pub fn columns<R: Env + AllocGlobal>(rt: &R) -> Result<Option<String>, Fault> {
    match std::env::var(rt, "COLUMNS") {
        Ok(text) => Ok(Some(text)),
        Err(VarError::OutOfMemory) => Err(Fault::OutOfMemory),
        Err(_) => Ok(None),
    }
}

/// Writes what is told in place of a job, and gives the exit status. A fault of the words goes to the errors, with
/// status 2 whether or not these take it; help and the version go to the output, which has to take them.
pub fn tell<I: Drop, W: Write + Drop, E: Print>(
    notice: &Notice,
    streams: Streams<'_, I, W, E>,
) -> u8 {
    let mut out = streams.output;
    let err = &mut io::writer(streams.errors);
    if notice.is_out_of_memory() {
        return Fault::OutOfMemory.tell(err);
    }
    if notice.is_fault() {
        let _ = write!(err, "{notice}");
        return 2;
    }
    if write!(out, "{notice}").is_err() || out.flush().is_err() {
        return Fault::WriteFailed.tell(err);
    }
    0
}
