//! A line of help.

use std::fmt::Display;
use std::io;
use std::io::Write;

/// Writes a line of help.
pub fn write_line<H: Display, E: Write>(err: &mut E, help: &H) -> io::Result<()> {
    writeln!(err, "  help: {help}")
}
