//! The rows of a table, written.

ghost use Rattle.std.specs.Prelude.{OnOk, map};
ghost use Rattle.std.specs.List.{AllByRecursion};
ghost use Rattle.ssb_text.specs.RoundTrip.{IsTableRow};
ghost use Rattle.ssb_text.specs.TableText.{row_text, rows_text};
ghost use Rattle.ssb_text.specs.Written.{Writes};

use crate::cells::{are_texts, write_cells};
use crate::piece::WriteFault;
use crate::row::TableRow;
use std::io::Write;

// A row is such as its table may have. This looks at its cells, and does nothing.
fn is_table_row<T: TableRow>(row: &T)
    ensures { IsTableRow T.of_table (T.values row.now) }
{
    are_texts(row.cells().as_slice());
}

/// Rows are such as their table may have. This looks at each, and does nothing.
pub fn are_table_rows<T: TableRow>(rows: &[T])
    ensures { AllByRecursion (λ row. IsTableRow T.of_table (T.values row)) rows.now }
{
    for row in rows {
        is_table_row(row);
    }
}

/// Writes a row as its table's file has it, without a closing bar. Each piece of it is one `write`, so a caller
/// buffers. It takes no memory.
pub fn write_row<T: TableRow, W: Write>(writer: &mut W, row: &T) -> Result<(), WriteFault>
    ensures text { Writes (W.contents writer.old) (W.contents writer.new) result (row_text (T.values row.now)) }
    ensures row { OnOk result (IsTableRow T.of_table (T.values row.now)) }
{
    is_table_row(row);
    write_cells(writer, row.cells().as_slice())
}

/// Writes the rows of a table, in order.
pub fn write_rows<T: TableRow, W: Write>(writer: &mut W, rows: &[T]) -> Result<(), WriteFault>
    ensures text { Writes (W.contents writer.old) (W.contents writer.new) result (rows_text (map T.values rows.now)) }
    ensures rows { OnOk result (AllByRecursion (IsTableRow T.of_table) (map T.values rows.now)) }
{
    for row in rows {
        write_row(writer, row)?;
    }
    Ok(())
}
