//! The tables after a history, written.

ghost use Rattle.std.specs.Prelude.{nat_eq, OnOk};
ghost use Rattle.std.specs.HashMap.{get};
ghost use Rattle.std.specs.HashSet.{contains};
ghost use Rattle.ssb_text.specs.Written.{Writes};
ghost use Rattle.ssb_text.specs.RoundTrip.{AreTableRows};
ghost use Rattle.ssb_text.specs.TableText.{base_texts};
ghost use Rattle.export_command.specs.Standing.{WritesLines, left_of_added, left_of_loaded};

use crate::standing_orders::StandingOrders;
use crate::tables_after::TablesAfter;
use ssb_schema::{Line, Table};
use ssb_text::{WriteFault, write_row, write_rows};
use std::io::Write;

// Writes the loaded lines that stand.
fn write_loaded<W: Write>(
    out: &mut W,
    orders: &StandingOrders,
    lines: &[Line],
) -> Result<(), WriteFault>
    ensures { WritesLines (W.contents out.old) (W.contents out.new) result
        (left_of_loaded (contains nat_eq orders.now.gone) lines.now) }
{
    for line in lines {
        if orders.has_loaded(line.order_key()) {
            write_row(out, line)?;
        }
    }
    Ok(())
}

// Writes the lines that were added and stand.
fn write_added<W: Write>(out: &mut W, orders: &StandingOrders) -> Result<(), WriteFault>
    ensures { WritesLines (W.contents out.old) (W.contents out.new) result
        (left_of_added (get nat_eq orders.now.numbers) orders.now.added.items) }
{
    for order in orders.added() {
        if orders.has_added(order) {
            write_rows(out, order.lines())?;
        }
    }
    Ok(())
}

// Writes the lines after the history.
fn write_lines<W: Write>(out: &mut W, tables: &TablesAfter) -> Result<(), WriteFault>
    ensures { WritesLines (W.contents out.old) (W.contents out.new) result tables.now.lines }
{
    write_loaded(out, &tables.orders, tables.base.lines())?;
    write_added(out, &tables.orders)
}

/// Writes the text of a table after the history: rows without a closing bar, dimensions in their order, lines in that
/// of `lines_after`. Each piece of a row is one `write`, so a caller buffers. It takes no memory.
pub fn write_table<W: Write>(
    out: &mut W,
    tables: &TablesAfter,
    table: Table,
) -> Result<(), WriteFault>
    ensures text { Writes (W.contents out.old) (W.contents out.new) result (base_texts tables.now table) }
    ensures rows { OnOk result (AreTableRows tables.now table) }
{
    match table {
        Table::Customer => write_rows(out, tables.base.customers().rows()),
        Table::Supplier => write_rows(out, tables.base.suppliers().rows()),
        Table::Part => write_rows(out, tables.base.parts().rows()),
        Table::Date => write_rows(out, tables.base.dates().rows()),
        Table::Lineorder => write_lines(out, tables),
    }
}
