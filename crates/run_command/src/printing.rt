//! What a run prints.

ghost use Rattle.std.specs.Prelude.{◌≡◌, ◌+◌, ◌<◌, ◌^◌, length, map};
ghost use Rattle.run_command.specs.Served.{client_text, clients_text, run_text};
ghost use Rattle.ssb_text.specs.Written.{Writes};

use crate::run::Run;
use ssb_text::{Piece, WriteFault, write_bytes, write_pieces};
use std::io::Write;

// Writes a client's number and its report.
fn write_client<W: Write>(out: &mut W, number: u64, report: &[u8]) -> Result<(), WriteFault>
    ensures { Writes (W.contents out.old) (W.contents out.new) result (client_text number report.now) }
{
    let line = [
        Piece::Text("client "),
        Piece::Number(number),
        Piece::Text("\n"),
    ];
    write_pieces(out, &line)?;
    write_bytes(out, report)
}

// Writes the reports of all clients, who are numbered from 1.
fn write_clients<W: Write>(out: &mut W, reports: &[Vec<u8>]) -> Result<(), WriteFault>
    ensures { Writes (W.contents out.old) (W.contents out.new) result
        (clients_text 1 (map (λ report. report.items) reports.now)) }
{
    for (before, report) in reports.iter().enumerate() {
        write_client(out, before as u64 + 1, report.as_slice())?;
    }
    Ok(())
}

/// Writes what a run prints: each client's report, and the number of commits. It takes no memory.
pub fn write_run<W: Write>(out: &mut W, run: &Run) -> Result<(), WriteFault>
    ensures { Writes (W.contents out.old) (W.contents out.new) result
        (run_text (map (λ report. report.items) run.now.reports.items) run.now.trace) }
{
    write_clients(out, run.reports.as_slice())?;
    let commits = run.trace.commits.as_slice().len();
    let line = [
        Piece::Text("commits "),
        Piece::Number(commits as u64),
        Piece::Text("\n"),
    ];
    write_pieces(out, &line)
}
