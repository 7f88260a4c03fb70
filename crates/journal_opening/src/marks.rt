//! By what a journal's head knows the tables.

ghost use Rattle.std.specs.Prelude.{◌≡◌, ℕ, List, All};
ghost use Rattle.journal_opening.specs.Marks.{AreMarks, HaveChecksums};
ghost use Rattle.ssb_schema.specs.declared.table.Table.{Table as Name};
ghost use Rattle.ssb_text.specs.Checksums.{AreChecksums};

use ssb_base::Base;
use ssb_files::TableBytes;
use ssb_journal::TableMark;
use ssb_schema::Table;
use ssb_text::{TableLayout, Tables};

/// How many bytes each table's file has, how it is laid out, how many rows it has and the checksum of their text, in
/// the order of a journal's head. The bytes were counted while the table was loaded.
pub fn table_marks(
    base: &Base,
    layout: TableLayout,
    bytes: &TableBytes,
    checksums: &Tables<[u8; 16]>,
) -> [TableMark; 5]
    ensures marks { AreMarks base.now result }
    ensures layout { All (λ mark. mark.layout ≡ layout) result }
    ensures checksums { (texts : Name → List ℕ) → AreChecksums texts checksums.now → HaveChecksums texts result }
{
    let mark = |table: Table, rows: usize, checksum: [u8; 16]| TableMark {
        table,
        bytes: bytes.of(table),
        rows: rows as u64,
        checksum,
        layout,
    };
    [
        mark(
            Table::Customer,
            base.customers().rows().len(),
            checksums.customer,
        ),
        mark(
            Table::Supplier,
            base.suppliers().rows().len(),
            checksums.supplier,
        ),
        mark(Table::Part, base.parts().rows().len(), checksums.part),
        mark(Table::Date, base.dates().rows().len(), checksums.date),
        mark(Table::Lineorder, base.lines().len(), checksums.lineorder),
    ]
}
