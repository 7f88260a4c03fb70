//! The records of commits.
ghost use Rattle.std.specs.Prelude.{[], ◌++◌, flat_map};
ghost use Rattle.ssb_text.specs.Written.{Writes};
ghost use Rattle.ssb_trace.specs.TraceText.{line_text, action_text, begun_text, commit_text};
ghost use Rattle.ssb_text.specs.TableText.{record_text};

use row_store::Commit;
use ssb_schema::{Action, Line};
use ssb_text::{Piece, WriteFault, write_pieces, write_row};
use std::io::Write;

// A line of an order.
fn write_line<W: Write>(writer: &mut W, line: &Line) -> Result<(), WriteFault>
    ensures { Writes (W.contents writer.old) (W.contents writer.new) result (line_text line.now) }
{
    write_pieces(writer, &[Piece::Text("line|")])?;
    write_row(writer, line)
}

fn write_lines<W: Write>(writer: &mut W, lines: &[Line]) -> Result<(), WriteFault>
    ensures { Writes (W.contents writer.old) (W.contents writer.new) result (flat_map line_text lines.now) }
{
    for line in lines {
        write_line(writer, line)?;
    }
    Ok(())
}

// The record that begins an order, and its lines.
fn write_order<W: Write>(writer: &mut W, word: &str, lines: &[Line]) -> Result<(), WriteFault>
    ensures { Writes (W.contents writer.old) (W.contents writer.new) result
        (record_text word.now [] ++ flat_map line_text lines.now) }
{
    write_pieces(writer, &[Piece::Text(word), Piece::Text("\n")])?;
    write_lines(writer, lines)
}

fn write_action<W: Write>(writer: &mut W, action: &Action) -> Result<(), WriteFault>
    ensures { Writes (W.contents writer.old) (W.contents writer.new) result (action_text action.now) }
{
    match action {
        Action::Add(order) => write_order(writer, "add", order.lines()),
        Action::Amend(order) => write_order(writer, "amend", order.lines()),
        Action::Put(order) => write_order(writer, "put", order.lines()),
        Action::Withdraw(key) => write_pieces(
            writer,
            &[
                Piece::Text("withdraw|"),
                Piece::Number(*key),
                Piece::Text("\n"),
            ],
        ),
    }
}

fn write_actions<W: Write>(writer: &mut W, actions: &[Action]) -> Result<(), WriteFault>
    ensures { Writes (W.contents writer.old) (W.contents writer.new) result (flat_map action_text actions.now) }
{
    for action in actions {
        write_action(writer, action)?;
    }
    Ok(())
}

// The record that begins a commit, and its actions.
fn write_begun<W: Write>(writer: &mut W, client: u32, actions: &[Action]) -> Result<(), WriteFault>
    ensures { Writes (W.contents writer.old) (W.contents writer.new) result (begun_text client actions.now) }
{
    write_pieces(
        writer,
        &[
            Piece::Text("commit|"),
            Piece::Number(u64::from(client)),
            Piece::Text("\n"),
        ],
    )?;
    write_actions(writer, actions)
}

fn write_commit<W: Write>(writer: &mut W, commit: &Commit) -> Result<(), WriteFault>
    ensures { Writes (W.contents writer.old) (W.contents writer.new) result (commit_text commit.now) }
{
    write_begun(writer, commit.client, commit.refresh.actions())?;
    write_pieces(writer, &[Piece::Text("end\n")])
}

pub(crate) fn write_commits<W: Write>(writer: &mut W, commits: &[Commit]) -> Result<(), WriteFault>
    ensures { Writes (W.contents writer.old) (W.contents writer.new) result (flat_map commit_text commits.now) }
{
    for commit in commits {
        write_commit(writer, commit)?;
    }
    Ok(())
}
