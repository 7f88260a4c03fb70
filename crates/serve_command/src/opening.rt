//! How a client's ends are opened: in whatever order the client opens its own.

use crate::attendant::{Attendant, Awaited};
use crate::ends::{EndFault, EndPaths, Ends, is_named_pipe, open_unread};
use std::fs;
use std::rt::Files;
use std::sync::Wait;

// Opens the end that is written, and waits until somebody reads it. Where it is not there it is made, and a file is
// emptied.
fn open_output<'a, F: Files>(files: &F, path: &'a str) -> Result<F::File, EndFault<'a>> {
    fs::create(files, path).map_err(|_| EndFault::CannotWrite(path))
}

// Opens the end that is read, and waits until somebody writes it.
fn open_input<'a, F: Files>(files: &F, path: &'a str) -> Result<F::File, EndFault<'a>> {
    fs::open(files, path).map_err(|_| EndFault::CannotRead(path))
}

// Whether the output is opened with no reader, for a client that opens its end of it first: now, or by the attendant once
// that is due. It is not where it is no named pipe, or may not be read.
fn opens_unread<R: Wait, F: Files>(
    rt: &R,
    files: &F,
    path: &str,
    attendant: &Attendant<F::File>,
    number: u64,
) -> bool {
    if !is_named_pipe(fs::metadata(files, path)) {
        return false;
    }
    if attendant.opens_later(rt, number) {
        return true;
    }
    match open_unread(files, path) {
        Some(unread) => {
            attendant.hold(rt, number, unread);
            true
        }
        None => false,
    }
}

// Opens both ends, each when the attendant knows whom that waits for. An output that is opened with no reader is opened
// again behind the input, since a client may not read it yet; any other is opened before the input.
fn open_in_turn<'a, R: Wait, F: Files>(
    rt: &R,
    files: &F,
    paths: &'a EndPaths,
    attendant: &Attendant<F::File>,
    number: u64,
) -> Result<Ends<F::File>, EndFault<'a>> {
    if opens_unread(rt, files, paths.output.as_str(), attendant, number) {
        attendant.awaits(rt, number, Awaited::Writer);
        let input = open_input(files, paths.input.as_str())?;
        attendant.awaits(rt, number, Awaited::Reader);
        let output = open_output(files, paths.output.as_str())?;
        return Ok(Ends { input, output });
    }
    attendant.awaits(rt, number, Awaited::Reader);
    let output = open_output(files, paths.output.as_str())?;
    attendant.awaits(rt, number, Awaited::Writer);
    let input = open_input(files, paths.input.as_str())?;
    Ok(Ends { input, output })
}

/// Opens the ends of the client of this number, when it has opened both of its own, in either order. The opening of a
/// named pipe waits until its other end is opened.
///
/// Between two sessions the output stays closed until the input is open, or until the attendant opens it: who read the
/// one session has to see its end, and cannot while somebody has the output open. Who opens the input has seen it.
pub(crate) fn open_ends<'a, R: Wait, F: Files>(
    rt: &R,
    files: &F,
    paths: &'a EndPaths,
    attendant: &Attendant<F::File>,
    number: u64,
) -> Result<Ends<F::File>, EndFault<'a>> {
    let ends = open_in_turn(rt, files, paths, attendant, number);
    attendant.awaits_nobody(rt, number);
    ends
}
