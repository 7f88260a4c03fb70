//! The files of the five tables, whatever their layout, and their rows.

ghost use Rattle.std.specs.Prelude.{◌≡◌, ℕ, List, IfErr, IfOk, Some};
ghost use Rattle.ssb_schema.specs.declared.table.Table.{Table as Name};
ghost use Rattle.ssb_text.specs.Layouts.{AreRows, HasHeadsFault, IsHeadsFault, IsRowsText, barred_remaining};
ghost use Rattle.ssb_text.specs.Load.{AreTexts};

use crate::barred::Barred;
use crate::error::LoadError;
use crate::heads::read_heads;
use crate::layout::TableLayout;
use crate::loading::Tables;
use ssb_schema::Table;
use std::io::Read;

/// The readers of the five tables' files, and how these are laid out.
#[derive(Drop)]
pub struct TableFiles<R> {
    pub tables: Tables<R>,
    pub layout: TableLayout,
}

// The rows of a table's file. The line of heads is read now, where there is one.
fn rows_of<R: Read + Drop>(
    table: Table,
    layout: TableLayout,
    file: R,
) -> Result<Barred<R>, LoadError>
    ensures rows { IfOk result (λ rows. (text : List ℕ) → IsRowsText layout table (R.remaining file) text
        → barred_remaining R.remaining rows ≡ Some text) }
    ensures fault { IfErr result (IsHeadsFault layout table (R.remaining file)) }
{
    if !layout.has_heads {
        return Ok(Barred::new(file, layout.delimiter));
    }
    let mut file = file;
    read_heads(table, layout.delimiter, &mut file)?;
    Ok(Barred::new(file, layout.delimiter))
}

impl<R: Read + Drop> TableFiles<R> {
    /// Files as the benchmark's generator writes them: their texts are those of their rows.
    pub fn benchmark(tables: Tables<R>) -> TableFiles<R>
        ensures { (texts : Name → List ℕ) → AreTexts R.remaining tables texts → AreRows R.remaining result texts }
    {
        TableFiles {
            tables,
            layout: TableLayout::benchmark(),
        }
    }

    /// The rows of the tables, whose fields are parted by bars, without lines of heads. These lines are read now, in
    /// the order of the tables; the first that is not there, or has not as many fields as its table, is told as row 1.
    pub fn into_rows(self) -> Result<Tables<Barred<R>>, LoadError>
        ensures rows { IfOk result (λ rows. (texts : Name → List ℕ) → AreRows R.remaining self texts
            → AreTexts (barred_remaining R.remaining) rows texts) }
        ensures fault { IfErr result (HasHeadsFault R.remaining self) }
    {
        let TableFiles { tables, layout } = self;
        let customer = rows_of(Table::Customer, layout, tables.customer)?;
        let supplier = rows_of(Table::Supplier, layout, tables.supplier)?;
        let part = rows_of(Table::Part, layout, tables.part)?;
        let date = rows_of(Table::Date, layout, tables.date)?;
        let lineorder = rows_of(Table::Lineorder, layout, tables.lineorder)?;
        Ok(Tables {
            customer,
            supplier,
            part,
            date,
            lineorder,
        })
    }
}
