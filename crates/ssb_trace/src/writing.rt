//! A trace, written.
ghost use Rattle.std.specs.Prelude.{OnOk, OnErr};
ghost use Rattle.std.specs.Io.KnownBytes.{Appends};
ghost use Rattle.ssb_text.specs.Written.{StopsShort, Writes};
ghost use Rattle.ssb_trace.specs.TraceText.{trace_text};

use crate::answers::write_answers;
use crate::commits::write_commits;
use ssb_audit::Trace;
use ssb_text::WriteFault;
use std::io::Write;

// The records of the commits, and then those of the answers.
fn write_all<W: Write>(writer: &mut W, trace: &Trace) -> Result<(), WriteFault>
    ensures { Writes (W.contents writer.old) (W.contents writer.new) result (trace_text trace.now) }
{
    write_commits(writer, trace.commits.as_slice())?;
    write_answers(writer, trace.answers.as_slice())
}

/// Writes the text of a trace: its commits in order, and then its answers in order. Each piece of a record is one
/// `write`, so a caller buffers. It takes no memory.
pub fn write_trace<W: Write>(writer: &mut W, trace: &Trace) -> Result<(), WriteFault>
    ensures text { OnOk result (Appends (W.contents writer.old) (W.contents writer.new) (trace_text trace.now)) }
    ensures fault { OnErr result (StopsShort (W.contents writer.old) (W.contents writer.new) (trace_text trace.now)) }
{
    write_all(writer, trace)
}
