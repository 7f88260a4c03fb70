//! A signed line whose fields stand between bars.

ghost use Rattle.std.specs.Prelude.{◌≡◌};
ghost use Rattle.ssb_text.specs.Written.{Writes};
ghost use Rattle.changes_command.specs.SignedText.{barred, sign_text, signed_text};
ghost use Rattle.changes_command.specs.declared.format.ChangesFormat.TheVariants.{Report};

use crate::signed::Sign;
use ssb_schema::Line;
use ssb_text::{Piece, WriteFault, write_pieces, write_row};
use std::io::Write;

// The sign, between bars.
fn mark(sign: Sign) -> &'static str
    ensures { result.now ≡ barred (sign_text sign) }
{
    match sign {
        Sign::Came => "|1|",
        Sign::Went => "|-1|",
    }
}

/// Writes a line with its commit and its sign.
pub(crate) fn write_report<W: Write>(
    out: &mut W,
    commit: u64,
    sign: Sign,
    line: &Line,
) -> Result<(), WriteFault>
    ensures { Writes (W.contents out.old) (W.contents out.new) result (signed_text Report commit sign line.now) }
{
    write_pieces(out, &[Piece::Number(commit), Piece::Text(mark(sign))])?;
    write_row(out, line)
}
