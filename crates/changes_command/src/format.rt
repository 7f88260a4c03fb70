//! The formats of signed lines.

ghost use Rattle.std.specs.Prelude.{◌≡◌};
ghost use Rattle.ssb_text.specs.Written.{Writes};
ghost use Rattle.changes_command.specs.SignedText.{heads_text, signed_text};

use crate::csv_text::{csv_heads, write_csv};
use crate::json_text::write_json;
use crate::report_text::write_report;
use crate::signed::Sign;
use ssb_schema::Line;
use ssb_text::WriteFault;
use std::io::Write;

/// How signed lines are written.
#[derive(Clone, Copy, Debug, PartialEq, Eq)]
pub enum ChangesFormat {
    /// Fields between bars, without heads.
    Report,
    /// Comma-separated values, below the names of the fields.
    Csv,
    /// A JSON object on each line.
    Json,
}

/// What stands above the lines.
pub(crate) fn heads(format: ChangesFormat) -> &'static str
    ensures { result.now ≡ heads_text format }
{
    match format {
        ChangesFormat::Report => "",
        ChangesFormat::Csv => csv_heads(),
        ChangesFormat::Json => "",
    }
}

/// Writes a line with its commit and its sign.
pub(crate) fn write_signed<W: Write>(
    out: &mut W,
    format: ChangesFormat,
    commit: u64,
    sign: Sign,
    line: &Line,
) -> Result<(), WriteFault>
    ensures { Writes (W.contents out.old) (W.contents out.new) result (signed_text format commit sign line.now) }
{
    match format {
        ChangesFormat::Report => write_report(out, commit, sign, line),
        ChangesFormat::Csv => write_csv(out, commit, sign, line),
        ChangesFormat::Json => write_json(out, commit, sign, line),
    }
}
