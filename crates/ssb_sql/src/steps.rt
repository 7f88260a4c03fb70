//! Where a token leads.
ghost use Rattle.std.specs.Prelude.{◌≡◌};
ghost use Rattle.ssb_sql.specs.Step as spec;

use crate::piece::SqlPiece;
use crate::state::{
    InAggregate, InEnd, InHaving, InList, InTables, InTests, Purpose, SqlStep, State,
};
use crate::token::{Mark, SqlToken, SqlWord};

pub(crate) fn list<'a>(next: InList) -> Option<SqlStep<'a>>
    ensures { result ≡ spec.list next }
{
    Some(SqlStep {
        next: State::List(next),
        says: None,
    })
}

pub(crate) fn list_says<'a>(next: InList, piece: SqlPiece<'a>) -> Option<SqlStep<'a>>
    ensures { result ≡ spec.list_says next piece.entry }
{
    Some(SqlStep {
        next: State::List(next),
        says: Some(piece),
    })
}

pub(crate) fn tables<'a>(next: InTables) -> Option<SqlStep<'a>>
    ensures { result ≡ spec.tables next }
{
    Some(SqlStep {
        next: State::Tables(next),
        says: None,
    })
}

pub(crate) fn tables_say<'a>(next: InTables, piece: SqlPiece<'a>) -> Option<SqlStep<'a>>
    ensures { result ≡ spec.tables_say next piece.entry }
{
    Some(SqlStep {
        next: State::Tables(next),
        says: Some(piece),
    })
}

pub(crate) fn tests<'a>(next: InTests<'a>) -> Option<SqlStep<'a>>
    ensures { result ≡ spec.tests next.entry }
{
    Some(SqlStep {
        next: State::Tests(next),
        says: None,
    })
}

pub(crate) fn tests_say<'a>(next: InTests<'a>, piece: SqlPiece<'a>) -> Option<SqlStep<'a>>
    ensures { result ≡ spec.tests_say next.entry piece.entry }
{
    Some(SqlStep {
        next: State::Tests(next),
        says: Some(piece),
    })
}

pub(crate) fn end<'a>(next: InEnd) -> Option<SqlStep<'a>>
    ensures { result ≡ spec.end next }
{
    Some(SqlStep {
        next: State::End(next),
        says: None,
    })
}

pub(crate) fn end_says<'a>(next: InEnd, piece: SqlPiece<'a>) -> Option<SqlStep<'a>>
    ensures { result ≡ spec.end_says next piece.entry }
{
    Some(SqlStep {
        next: State::End(next),
        says: Some(piece),
    })
}

pub(crate) fn having<'a>(next: InHaving) -> Option<SqlStep<'a>>
    ensures { result ≡ spec.having next }
{
    Some(SqlStep {
        next: State::Having(next),
        says: None,
    })
}

pub(crate) fn having_says<'a>(next: InHaving, piece: SqlPiece<'a>) -> Option<SqlStep<'a>>
    ensures { result ≡ spec.having_says next piece.entry }
{
    Some(SqlStep {
        next: State::Having(next),
        says: Some(piece),
    })
}

pub(crate) fn computing<'a>(purpose: Purpose, next: InAggregate) -> Option<SqlStep<'a>>
    ensures { result ≡ spec.computing purpose next }
{
    Some(SqlStep {
        next: State::Aggregate(purpose, next),
        says: None,
    })
}

/// What may follow the group columns, and the tests of groups.
pub(crate) fn behind_groups<'a>(token: SqlToken<'a>) -> Option<SqlStep<'a>>
    ensures { result ≡ spec.behind_groups token.entry }
{
    match token {
        SqlToken::Word(SqlWord::Order) => end(InEnd::OrderBy),
        SqlToken::Word(SqlWord::Limit) => end(InEnd::Limit),
        SqlToken::Mark(Mark::Semicolon) => end(InEnd::Done),
        _ => None,
    }
}
