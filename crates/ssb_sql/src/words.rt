//! What words stand for.
ghost use Rattle.std.specs.Prelude.{◌≡◌, option_map, map};
ghost use Rattle.ssb_sql.specs.Texts.{bare_token};
ghost use Rattle.ssb_sql.specs.Words as spec;

use crate::token::{LineColumn, SqlToken, SqlWord};
use ssb_schema::{Column, Table, query_columns};

static WORDS: [(&str, SqlWord); 23] = [
    ("SELECT", SqlWord::Select),
    ("SUM", SqlWord::Sum),
    ("AVG", SqlWord::Average),
    ("COUNT", SqlWord::Count),
    ("NULLIF", SqlWord::NullIf),
    ("AS", SqlWord::As),
    ("FROM", SqlWord::From),
    ("JOIN", SqlWord::Join),
    ("INNER", SqlWord::Inner),
    ("ON", SqlWord::On),
    ("WHERE", SqlWord::Where),
    ("AND", SqlWord::And),
    ("OR", SqlWord::Or),
    ("NOT", SqlWord::Not),
    ("IN", SqlWord::In),
    ("BETWEEN", SqlWord::Between),
    ("GROUP", SqlWord::Group),
    ("HAVING", SqlWord::Having),
    ("ORDER", SqlWord::Order),
    ("BY", SqlWord::By),
    ("ASC", SqlWord::Asc),
    ("DESC", SqlWord::Desc),
    ("LIMIT", SqlWord::Limit),
];

static TABLES: [(&str, Table); 6] = [
    ("LINEORDER", Table::Lineorder),
    ("CUSTOMER", Table::Customer),
    ("SUPPLIER", Table::Supplier),
    ("PART", Table::Part),
    ("DATE", Table::Date),
    ("DWDATE", Table::Date),
];

// The keys that are no column of a question.
static KEYS: [(&str, Table); 3] = [
    ("C_CUSTKEY", Table::Customer),
    ("S_SUPPKEY", Table::Supplier),
    ("P_PARTKEY", Table::Part),
];

static LINE_KEYS: [(&str, Table); 4] = [
    ("LO_CUSTKEY", Table::Customer),
    ("LO_SUPPKEY", Table::Supplier),
    ("LO_PARTKEY", Table::Part),
    ("LO_ORDERDATE", Table::Date),
];

static LINE_COLUMNS: [(&str, LineColumn); 5] = [
    ("LO_QUANTITY", LineColumn::Quantity),
    ("LO_EXTENDEDPRICE", LineColumn::ExtendedPrice),
    ("LO_DISCOUNT", LineColumn::Discount),
    ("LO_REVENUE", LineColumn::Revenue),
    ("LO_SUPPLYCOST", LineColumn::SupplyCost),
];

static ALL: [Table; 5] = [
    Table::Lineorder,
    Table::Customer,
    Table::Supplier,
    Table::Part,
    Table::Date,
];

// The places that columns of a table can have.
static PLACES: [usize; 17] = [1, 2, 3, 4, 5, 6, 7, 8, 9, 10, 11, 12, 13, 14, 15, 16, 17];

// Words of SQL that a statement here does not have.
static FOREIGN: [&str; 42] = [
    "ALL",
    "ANY",
    "CASE",
    "CAST",
    "COALESCE",
    "CREATE",
    "CROSS",
    "DELETE",
    "DISTINCT",
    "DROP",
    "ELSE",
    "END",
    "ESCAPE",
    "EXCEPT",
    "EXISTS",
    "EXPLAIN",
    "FALSE",
    "FETCH",
    "FULL",
    "GLOB",
    "INSERT",
    "INTERSECT",
    "INTO",
    "IS",
    "LEFT",
    "LIKE",
    "MAX",
    "MIN",
    "NATURAL",
    "NULL",
    "OFFSET",
    "OUTER",
    "OVER",
    "RIGHT",
    "SET",
    "THEN",
    "TRUE",
    "UNION",
    "UPDATE",
    "USING",
    "WHEN",
    "WITH",
];

/// Whether two words are the same: ASCII case does not count.
pub(crate) fn same_word(a: &str, b: &str) -> bool
    ensures { result ≡ spec.same_word a.now b.now }
{
    a.eq_ignore_ascii_case(b)
}

fn is_listed(words: &[&str], name: &str) -> bool
    ensures { result ≡ spec.is_listed (map (λ word. word.now) words.now) name.now }
{
    match words {
        [] => false,
        [first, others @ ..] => same_word(first, name) || is_listed(others, name),
    }
}

fn is_foreign(name: &str) -> bool
    ensures { result ≡ spec.is_listed spec.foreign name.now }
{
    is_listed(&FOREIGN, name)
}

// What has a name.
fn named<X: Copy>(names: &[(&str, X)], name: &str) -> Option<X>
    ensures { result ≡ spec.named (map spec.entry_now names.now) name.now }
{
    match names {
        [] => None,
        [first, others @ ..] => {
            if same_word(first.0, name) {
                Some(first.1)
            } else {
                named(others, name)
            }
        }
    }
}

fn word_named(name: &str) -> Option<SqlWord>
    ensures { result ≡ spec.named spec.words name.now }
{
    named(&WORDS, name)
}

// The table that a name stands for.
fn table_named(name: &str) -> Option<Table>
    ensures { result ≡ spec.named spec.tables name.now }
{
    named(&TABLES, name)
}

fn key_named(name: &str) -> Option<Table>
    ensures { result ≡ spec.named spec.keys name.now }
{
    named(&KEYS, name)
}

fn line_key_named(name: &str) -> Option<Table>
    ensures { result ≡ spec.named spec.line_keys name.now }
{
    named(&LINE_KEYS, name)
}

fn line_column_named(name: &str) -> Option<LineColumn>
    ensures { result ≡ spec.named spec.line_columns name.now }
{
    named(&LINE_COLUMNS, name)
}

fn column_named(name: &str) -> Option<Column>
    ensures { result ≡ spec.column_named name.now }
{
    query_columns()
        .iter()
        .copied()
        .find(|column| same_word(column.name(), name))
}

// Whether a table has a column of this name.
fn has_column(table: Table, name: &str) -> bool
    ensures { result ≡ spec.has_column table name.now }
{
    PLACES.iter().any(|place| same_word(
        Column {
            table,
            place: *place,
        }
        .name(),
        name,
    ))
}

/// The table that has a column of this name.
pub(crate) fn table_with(name: &str) -> Option<Table>
    ensures { result ≡ spec.table_with name.now }
{
    ALL.iter().copied().find(|table| has_column(*table, name))
}

// What a column's name stands for.
fn column_token<'a>(name: &str) -> Option<SqlToken<'a>>
    ensures { option_map bare_token result ≡ spec.column_token name.now }
{
    if let Some(column) = column_named(name) {
        return Some(SqlToken::Column(column));
    }
    if let Some(column) = line_column_named(name) {
        return Some(SqlToken::Line(column));
    }
    if let Some(table) = key_named(name) {
        return Some(SqlToken::Key(table));
    }
    if let Some(table) = line_key_named(name) {
        return Some(SqlToken::LineKey(table));
    }
    table_with(name)?;
    Some(SqlToken::Foreign)
}

/// What a word stands for: ASCII case does not count.
pub(crate) fn token_of(word: &str) -> SqlToken<'_>
    ensures { bare_token result ≡ spec.token_of word.now }
{
    if let Some(known) = word_named(word) {
        return SqlToken::Word(known);
    }
    if let Some(table) = table_named(word) {
        return SqlToken::Table(table);
    }
    if let Some(token) = column_token(word) {
        return token;
    }
    if is_foreign(word) {
        SqlToken::Foreign
    } else {
        SqlToken::Name(word)
    }
}
