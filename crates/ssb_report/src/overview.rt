//! The report of what a client looks up beside its answers.
ghost use Rattle.std.specs.Prelude.{◌++◌, length};
ghost use Rattle.ssb_text.specs.Written.{Writes};
ghost use Rattle.ssb_report.specs.OverviewText as spec;
ghost use Rattle.ssb_report.specs.OverviewText.{overview_of};

use crate::statement::write_lines;
use ssb_schema::{Items, Text};
use ssb_statements::StatementCell;
use ssb_text::{Piece, WriteFault, write_pieces};
use std::io::Write;

/// What a client looks up beside its answers, as the values of a column: rows under heads.
#[derive(Drop)]
pub struct Overview {
    /// What it is of.
    pub name: Text,
    pub heads: Vec<Text>,
    /// Which of the columns have numbers.
    pub are_numbers: Vec<bool>,
    /// All rows, or the first of them.
    pub rows: Vec<Items<StatementCell>>,
    /// How many rows there are in all.
    pub count: usize,
}

// Writes how many rows are shown of so many in all.
fn write_counted<W: Write>(writer: &mut W, shown: u64, count: u64) -> Result<(), WriteFault>
    ensures { Writes (W.contents writer.old) (W.contents writer.new) result (spec.counted shown count) }
{
    if shown == count {
        return write_pieces(writer, &[Piece::Number(count)]);
    }
    write_pieces(
        writer,
        &[
            Piece::Number(shown),
            Piece::Text(" of "),
            Piece::Number(count),
        ],
    )
}

// The line before the rows, without its end.
fn write_head<W: Write>(
    writer: &mut W,
    name: &str,
    shown: u64,
    count: u64,
) -> Result<(), WriteFault>
    ensures { Writes (W.contents writer.old) (W.contents writer.new) result (spec.head_text name.now shown count) }
{
    write_pieces(writer, &[Piece::Text(name), Piece::Text(" rows ")])?;
    write_counted(writer, shown, count)
}

// The rows, behind the end of the line before them.
fn write_below<W: Write>(writer: &mut W, rows: &[Items<StatementCell>]) -> Result<(), WriteFault>
    ensures { Writes (W.contents writer.old) (W.contents writer.new) result (spec.below_text rows.now) }
{
    write_pieces(writer, &[Piece::Text("\n")])?;
    write_lines(writer, rows)
}

// The line before these rows, and a line for each.
fn write_counted_rows<W: Write>(
    writer: &mut W,
    name: &str,
    rows: &[Items<StatementCell>],
    count: usize,
) -> Result<(), WriteFault>
    ensures { Writes (W.contents writer.old) (W.contents writer.new) result
        (spec.head_text name.now (length rows.now) count ++ spec.below_text rows.now) }
{
    write_head(writer, name, rows.len() as u64, count as u64)?;
    write_below(writer, rows)
}

/// Writes the report of an overview: a line with its name and how many rows it shows, and of how many, where these are
/// not all; and a line for each. It takes no memory.
pub fn write_overview<W: Write>(writer: &mut W, overview: &Overview) -> Result<(), WriteFault>
    ensures { Writes (W.contents writer.old) (W.contents writer.new) result
        (spec.overview_text (overview_of overview.now)) }
{
    write_counted_rows(
        writer,
        overview.name.as_str(),
        overview.rows.as_slice(),
        overview.count,
    )
}
