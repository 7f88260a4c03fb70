//! All group columns of a question, made ready.
ghost use Rattle.std.specs.Prelude.{◌≡◌, ℕ, ◌<◌, ◌≤◌, IfOk, length};
ghost use Rattle.ssb_base.specs.Limits.{most_dimension_rows};
ghost use Rattle.scan_kernel.specs.Masks.{questions_a_pass};
ghost use Rattle.scan_kernel.specs.Groups.{counts_of, size_of};
ghost use Rattle.dimension_index.specs.Values.{values_of};
ghost use Rattle.ssb_schema.specs.declared.column.Column.{Column as GroupedBy};
ghost use Rattle.shared_scan.specs.Prepared.{masks_in};
ghost use Rattle.shared_scan.specs.Grouped.{ArePrepared, HaveMasks};
ghost use Rattle.shared_scan.specs.Parts.{parts_in, IsFew};

use crate::group_columns::prepare;
use crate::parts::{Parts, parts_for};
use dimension_index::FirstRows;
use scan_kernel::Masks;
use ssb_answers::Value;
use ssb_schema::{Column, Items, Table};
use std::alloc::{AllocError, Global};

/// The groups of a question: each group column's values by number, what each code of it adds to the number of a group,
/// and how many groups there are.
#[derive(Drop)]
pub struct Groups {
    pub columns: Vec<Items<Value>>,
    pub parts: Parts,
    pub size: u128,
}

/// The masks of a dimension; no question looks at rows of the fact table, and any masks will do.
fn masks_of(masks: &Masks, table: Table) -> &Option<Items<u16>>
    ensures { result.now ≡ masks_in table masks.now }
{
    match table {
        Table::Customer => &masks.customers,
        Table::Supplier => &masks.suppliers,
        Table::Part => &masks.parts,
        Table::Date => &masks.dates,
        Table::Lineorder => &masks.dates,
    }
}

/// Makes the group columns of a question ready, one after another.
pub fn prepare_groups(
    alloc: Global,
    index: &FirstRows,
    masks: &Masks,
    columns: &[Column],
    question: usize,
) -> Result<Groups, AllocError>
    requires question { question < questions_a_pass }
    requires four { length columns.now ≤ 4 }
    requires few { (column : GroupedBy) → length (values_of index.now column) ≤ most_dimension_rows }
    requires masks { HaveMasks index.now masks.now }
    ensures prepared { IfOk result (λ groups. ArePrepared index.now masks.now question columns.now groups.columns.items
        1 (parts_in groups.parts)) }
    ensures size { IfOk result (λ groups. groups.size ≡ size_of (counts_of groups.columns.items)) }
    ensures few { IfOk result (λ groups. IsFew groups.parts groups.size) }
{
    let mut values = Vec::new(alloc);
    let mut parts = Vec::new(alloc);
    let mut size = 1u128;
    for column in columns {
        let of_table = masks_of(masks, column.table);
        let made = prepare(alloc, index, *column, of_table, question, size)?;
        size = made.values.len() as u128 * size;
        values.push(made.values)?;
        parts.push(Items::from_vec(made.parts))?;
    }
    let parts = parts_for(alloc, parts, size)?;
    Ok(Groups {
        columns: values,
        parts,
        size,
    })
}
