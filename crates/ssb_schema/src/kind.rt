//! What each column takes, as data, and the one check of a row's values.

ghost use Rattle.std.specs.Prelude.{◌≡◌, ◌+◌, None, length, map, slice_get, true};
ghost use Rattle.std.specs.List.{list_all};
ghost use Rattle.ssb_schema.specs.Columns.{Value, Number, Text, is_plain_byte, is_plain, column_fault, first_fault};
ghost use Rattle.ssb_schema.specs.Columns.{column_kind, key, kinds_of, row_fault, value_of};
ghost use Rattle.ssb_schema.specs.declared.column.Column.{Column};
ghost use Rattle.ssb_schema.specs.declared.kind.Kind.TheVariants as kind;

use crate::column::Column;
use crate::fault::SchemaFault;
use crate::table::Table;

/// What a column takes: a number from `least` to `most`, both included, or a text.
#[derive(Clone, Copy, Debug)]
pub enum Kind {
    /// A number within these bounds.
    Number { least: u64, most: u64 },
    /// A text that a table file can hold.
    Text,
}

/// A value that is offered for a column.
#[derive(Clone, Copy)]
pub enum Cell<'a> {
    /// A number.
    Number(u64),
    /// A text.
    Text(&'a str),
}

const KEY: Kind = Kind::Number {
    least: 0,
    most: u64::MAX,
};

// Prices and the numbers of a date.
const AMOUNT: Kind = Kind::Number {
    least: 0,
    most: 4_294_967_295,
};

const TEXT: Kind = Kind::Text;

static CUSTOMER: [Kind; 8] = [KEY, TEXT, TEXT, TEXT, TEXT, TEXT, TEXT, TEXT];

static SUPPLIER: [Kind; 7] = [KEY, TEXT, TEXT, TEXT, TEXT, TEXT, TEXT];

static PART: [Kind; 9] = [KEY, TEXT, TEXT, TEXT, TEXT, TEXT, TEXT, TEXT, TEXT];

static DATE: [Kind; 17] = [
    KEY, TEXT, TEXT, TEXT, AMOUNT, AMOUNT, TEXT, TEXT, TEXT, TEXT, TEXT, AMOUNT, TEXT, TEXT, TEXT,
    TEXT, TEXT,
];

static LINEORDER: [Kind; 17] = [
    KEY,
    Kind::Number { least: 1, most: 7 },
    KEY,
    KEY,
    KEY,
    KEY,
    TEXT,
    TEXT,
    Kind::Number { least: 1, most: 50 },
    AMOUNT,
    AMOUNT,
    Kind::Number { least: 0, most: 10 },
    AMOUNT,
    AMOUNT,
    Kind::Number { least: 0, most: 8 },
    KEY,
    TEXT,
];

impl Table {
    /// What each column of the table takes, in the order of its file.
    pub fn kinds(self) -> &'static [Kind]
        ensures { result.now ≡ kinds_of self }
    {
        match self {
            Table::Customer => &CUSTOMER,
            Table::Supplier => &SUPPLIER,
            Table::Part => &PART,
            Table::Date => &DATE,
            Table::Lineorder => &LINEORDER,
        }
    }
}

// What the column at a place takes, counted from 0.
fn kind_at(kinds: &[Kind], at: usize) -> Option<Kind>
    ensures { result ≡ slice_get kinds.now at }
{
    kinds.get(at).copied()
}

impl Column {
    /// What the column takes; none where the table has no such place.
    pub fn kind(self) -> Option<Kind>
        ensures { result ≡ column_kind self }
    {
        if self.place == 0 {
            return None;
        }
        kind_at(self.table.kinds(), self.place - 1)
    }
}

// Whether each byte may stand in a text.
fn has_plain_bytes(text: &[u8]) -> bool
    ensures { result ≡ list_all is_plain_byte text.now }
{
    text.iter()
        .all(|b| *b != b'|' && *b != b'\r' && *b != b'\n')
}

// Whether a table file can hold the text: it has no `|`, CR or LF, and ends in no space.
fn is_storable(text: &[u8]) -> bool
    ensures { result ≡ is_plain text.now }
{
    has_plain_bytes(text) && !text.ends_with(b" ")
}

/// What is wrong with a text in a column: more than 64 bytes, or bytes that a table file can't hold as they are.
pub fn text_fault(column: Column, text: &str) -> Option<SchemaFault>
    ensures { result ≡ column_fault column kind.Text (Text text.now) }
{
    if text.len() > 64 {
        Some(SchemaFault::FieldTooLong(column))
    } else if !is_storable(text.as_bytes()) {
        Some(SchemaFault::OutOfRange(column))
    } else {
        None
    }
}

/// A column of keys takes each number of 64 bits. The law alone: it does nothing.
pub(crate) fn key_is_taken(number: u64)
    ensures { (column : Column) → column_fault column key (Number number) ≡ None }
{
    let _number = number;
}

/// Whether a column of texts takes a text.
pub(crate) fn takes_text(text: &str) -> bool
    ensures { result ≡ true → (column : Column) → column_fault column kind.Text (Text text.now) ≡ None }
{
    text.len() <= 64 && is_storable(text.as_bytes())
}

// What is wrong with a value in a column.
fn cell_fault(column: Column, kind: Kind, cell: &Cell<'_>) -> Option<SchemaFault>
    ensures { result ≡ column_fault column kind (value_of cell.now) }
{
    match (kind, cell) {
        (Kind::Number { least, most }, Cell::Number(n)) => {
            if *n < least || most < *n {
                Some(SchemaFault::OutOfRange(column))
            } else {
                None
            }
        }
        (Kind::Text, Cell::Text(text)) => text_fault(column, text),
        _ => None,
    }
}

/// The first fault of a row's cells, in the order of the table's columns.
pub(crate) fn check(table: Table, cells: &[Cell<'_>]) -> Option<SchemaFault>
    requires { length cells.now ≡ length (kinds_of table) }
    ensures { result ≡ row_fault table (map value_of cells.now) }
{
    let kinds = table.kinds();
    for (i, kind) in kinds.iter().enumerate() {
        let column = Column {
            table,
            place: i + 1,
        };
        if let Some(fault) = cell_fault(column, *kind, &cells[i]) {
            return Some(fault);
        }
    }
    None
}
