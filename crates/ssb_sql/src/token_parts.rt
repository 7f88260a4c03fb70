//! What a token is.
ghost use Rattle.std.specs.Prelude.{◌≡◌};
ghost use Rattle.ssb_sql.specs.Step as spec;

use crate::piece::Comparison;
use crate::state::SqlStep;
use crate::token::{LineColumn, Mark, SqlToken, SqlWord};
use ssb_questions::Spelled;
use ssb_schema::{Column, Table};

impl Mark {
    fn code(self) -> u8
        ensures { result ≡ spec.mark_code self }
    {
        match self {
            Mark::Open => 0,
            Mark::Close => 1,
            Mark::Comma => 2,
            Mark::Semicolon => 3,
            Mark::Star => 4,
            Mark::Minus => 5,
            Mark::Equal => 6,
            Mark::Less => 7,
            Mark::LessOrEqual => 8,
            Mark::Greater => 9,
            Mark::GreaterOrEqual => 10,
            Mark::NotEqual => 11,
        }
    }
}

impl SqlWord {
    fn code(self) -> u8
        ensures { result ≡ spec.word_code self }
    {
        match self {
            SqlWord::Select => 0,
            SqlWord::Sum => 1,
            SqlWord::Count => 2,
            SqlWord::As => 3,
            SqlWord::From => 4,
            SqlWord::Join => 5,
            SqlWord::Inner => 6,
            SqlWord::On => 7,
            SqlWord::Where => 8,
            SqlWord::And => 9,
            SqlWord::Or => 10,
            SqlWord::In => 11,
            SqlWord::Between => 12,
            SqlWord::Group => 13,
            SqlWord::Order => 14,
            SqlWord::By => 15,
            SqlWord::Asc => 16,
            SqlWord::Desc => 17,
            SqlWord::Limit => 18,
            SqlWord::ByBytes => 19,
            SqlWord::Average => 20,
            SqlWord::NullIf => 21,
            SqlWord::Having => 22,
            SqlWord::Not => 23,
        }
    }
}

fn table_code(table: Table) -> u8
    ensures { result ≡ spec.table_code table }
{
    match table {
        Table::Customer => 0,
        Table::Supplier => 1,
        Table::Part => 2,
        Table::Date => 3,
        Table::Lineorder => 4,
    }
}

pub(crate) fn same_table(a: Table, b: Table) -> bool
    ensures { result ≡ spec.same_table a b }
{
    table_code(a) == table_code(b)
}

pub(crate) fn on_mark<'a>(
    token: SqlToken<'a>,
    mark: Mark,
    taken: Option<SqlStep<'a>>,
) -> Option<SqlStep<'a>>
    ensures { result ≡ spec.on_mark token.entry mark taken.entry }
{
    match token {
        SqlToken::Mark(own) if own.code() == mark.code() => taken,
        _ => None,
    }
}

pub(crate) fn on_word<'a>(
    token: SqlToken<'a>,
    word: SqlWord,
    taken: Option<SqlStep<'a>>,
) -> Option<SqlStep<'a>>
    ensures { result ≡ spec.on_word token.entry word taken.entry }
{
    match token {
        SqlToken::Word(own) if own.code() == word.code() => taken,
        _ => None,
    }
}

/// Whether a column is the key of a table's rows, which stands first in each dimension.
pub(crate) fn is_key_of(table: Table, column: Column) -> bool
    ensures { result ≡ spec.is_key_of table column }
{
    same_table(table, column.table) && column.place == 1
}

pub(crate) fn on_key<'a>(
    token: SqlToken<'a>,
    table: Table,
    taken: Option<SqlStep<'a>>,
) -> Option<SqlStep<'a>>
    ensures { result ≡ spec.on_key token.entry table taken.entry }
{
    match token {
        SqlToken::Key(own) if same_table(table, own) => taken,
        SqlToken::Column(column) if is_key_of(table, column) => taken,
        _ => None,
    }
}

pub(crate) fn on_line_key<'a>(
    token: SqlToken<'a>,
    table: Table,
    taken: Option<SqlStep<'a>>,
) -> Option<SqlStep<'a>>
    ensures { result ≡ spec.on_line_key token.entry table taken.entry }
{
    match token {
        SqlToken::LineKey(own) if same_table(table, own) => taken,
        _ => None,
    }
}

pub(crate) fn value_in<'a>(token: SqlToken<'a>) -> Option<Spelled<'a>>
    ensures { result ≡ spec.value_in token.entry }
{
    match token {
        SqlToken::Value(value) => Some(value),
        SqlToken::Large(number) => Some(Spelled::Number(number)),
        _ => None,
    }
}

pub(crate) fn number_in<'a>(token: SqlToken<'a>) -> Option<u64>
    ensures { result ≡ spec.number_in token.entry }
{
    match token {
        SqlToken::Value(Spelled::Number(number)) => Some(number),
        _ => None,
    }
}

// A number that aggregates are compared with.
pub(crate) fn amount_in<'a>(token: SqlToken<'a>) -> Option<u64>
    ensures { result ≡ spec.amount_in token.entry }
{
    match token {
        SqlToken::Value(Spelled::Number(number)) => Some(number),
        SqlToken::Large(number) => Some(number),
        _ => None,
    }
}

// How what stands before a token is compared by it.
pub(crate) fn comparison_in<'a>(token: SqlToken<'a>) -> Option<Comparison>
    ensures { result ≡ spec.comparison_in token.entry }
{
    match token {
        SqlToken::Mark(Mark::Equal) => Some(Comparison::Equal),
        SqlToken::Mark(Mark::NotEqual) => Some(Comparison::NotEqual),
        SqlToken::Mark(Mark::Less) => Some(Comparison::Less),
        SqlToken::Mark(Mark::LessOrEqual) => Some(Comparison::LessOrEqual),
        SqlToken::Mark(Mark::Greater) => Some(Comparison::Greater),
        SqlToken::Mark(Mark::GreaterOrEqual) => Some(Comparison::GreaterOrEqual),
        _ => None,
    }
}

pub(crate) fn name_in<'a>(token: SqlToken<'a>) -> Option<&'a str>
    ensures { result ≡ spec.name_in token.entry }
{
    match token {
        SqlToken::Name(name) => Some(name),
        _ => None,
    }
}

pub(crate) fn table_in<'a>(token: SqlToken<'a>) -> Option<Table>
    ensures { result ≡ spec.table_in token.entry }
{
    match token {
        SqlToken::Table(table) => Some(table),
        _ => None,
    }
}

pub(crate) fn column_in<'a>(token: SqlToken<'a>) -> Option<Column>
    ensures { result ≡ spec.column_in token.entry }
{
    match token {
        SqlToken::Column(column) => Some(column),
        _ => None,
    }
}

pub(crate) fn line_in<'a>(token: SqlToken<'a>) -> Option<LineColumn>
    ensures { result ≡ spec.line_in token.entry }
{
    match token {
        SqlToken::Line(column) => Some(column),
        _ => None,
    }
}

pub(crate) fn mark_in<'a>(token: SqlToken<'a>) -> Option<Mark>
    ensures { result ≡ spec.mark_in token.entry }
{
    match token {
        SqlToken::Mark(mark) => Some(mark),
        _ => None,
    }
}
