//! What is wrong with a request that was typed.

use ssb_hints::{ScriptHelp, write_block_help, write_refusal_help, write_request_help};
use ssb_script::{MOST_RECORDS, Request, ScriptError, read_script};
use std::alloc::Global;
use std::io;
use std::io::Write;

// Says what is wrong with the request, which is read once more.
fn help_with_request<E: Write>(alloc: Global, request: &[u8], err: &mut E) -> io::Result<()> {
    match read_script(alloc, request, MOST_RECORDS) {
        Ok(_) => Ok(()),
        Err(fault) => write_request_help(alloc, request, &fault, err),
    }
}

// Says what is wrong by what the fault says.
fn help_with_fault<E: Write>(
    alloc: Global,
    fault: &str,
    request: &[u8],
    err: &mut E,
) -> io::Result<()> {
    match fault {
        "68 ReadOnly" => writeln!(err, "  help: {}", ScriptHelp::ReadOnly),
        "76 RequestTooLong" => writeln!(err, "  help: {}", ScriptHelp::RequestTooLong),
        _ => help_with_request(alloc, request, err),
    }
}

// What the fault says, where a reply is one, in a report or as JSON.
fn fault_in(reply: &str) -> Option<&str> {
    match reply.strip_prefix("fault: ") {
        Some(fault) => Some(fault),
        None => reply.strip_prefix("{\"fault\":\"")?.strip_suffix("\"}"),
    }
}

// The numbers of the action for which a refresh is refused, and of the cause.
#[derive(Clone, Copy)]
struct ToldRefusal<'a> {
    action: &'a str,
    cause: &'a str,
}

impl<'a> ToldRefusal<'a> {
    // As a report has it: `refused at 0 action 1: 47 Absent 77`.
    fn in_report(line: &'a str) -> Option<ToldRefusal<'a>> {
        let (_, behind) = line.strip_prefix("refused at ")?.split_once(" action ")?;
        let (action, cause) = behind.split_once(": ")?;
        ToldRefusal::of(action, cause)
    }

    // As JSON: `{"action":1,"at":0,"refused":"47 Absent 77"}`.
    fn in_json(line: &'a str) -> Option<ToldRefusal<'a>> {
        let (action, behind) = line.strip_prefix("{\"action\":")?.split_once(",\"at\":")?;
        let (_, cause) = behind.split_once(",\"refused\":\"")?;
        ToldRefusal::of(action, cause)
    }

    // Of a cause the number is kept, and not its name.
    fn of(action: &'a str, cause: &'a str) -> Option<ToldRefusal<'a>> {
        let (cause, _) = cause.split_once(' ')?;
        Some(ToldRefusal { action, cause })
    }
}

// Says what is wrong with the refresh that was typed.
fn help_with_refusal<E: Write>(
    alloc: Global,
    refusal: ToldRefusal<'_>,
    request: &[u8],
    err: &mut E,
) -> io::Result<()> {
    let Ok(action) = refusal.action.parse::<usize>() else {
        return Ok(());
    };
    let Ok(script) = read_script(alloc, request, MOST_RECORDS) else {
        return Ok(());
    };
    for request in script.requests {
        if let Request::Refresh(refresh) = request {
            write_refusal_help(&refresh, action, refusal.cause, err)?;
        }
    }
    Ok(())
}

/// Writes what is wrong with a request, by the first line of its reply: one line or more, each begun with `  help: `,
/// or none.
pub(crate) fn write_reply_help<E: Write>(
    alloc: Global,
    reply: &str,
    request: &[u8],
    err: &mut E,
) -> io::Result<()> {
    if let Some(fault) = fault_in(reply) {
        return help_with_fault(alloc, fault, request, err);
    }
    match ToldRefusal::in_report(reply).or(ToldRefusal::in_json(reply)) {
        Some(refusal) => help_with_refusal(alloc, refusal, request, err),
        None => Ok(()),
    }
}

/// Writes what is wrong with the records of a block that has not ended, and gives whether anything is.
pub(crate) fn write_open_help<E: Write>(
    alloc: Global,
    request: &[u8],
    err: &mut E,
) -> io::Result<bool> {
    match read_script(alloc, request, MOST_RECORDS) {
        Ok(_) | Err(ScriptError::NoCommit | ScriptError::NoAnswer) => Ok(false),
        Err(fault) => {
            write_block_help(alloc, request, &fault, err)?;
            Ok(true)
        }
    }
}
