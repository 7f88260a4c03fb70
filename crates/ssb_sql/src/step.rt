//! Which token may come, what it leads to, and what it says.
ghost use Rattle.std.specs.Prelude.{◌≡◌};
ghost use Rattle.ssb_sql.specs.Step as spec;

use crate::aggregate_step::{begun, in_aggregate, in_having};
use crate::piece::{Comparison, Operand, SqlPiece};
use crate::state::{
    InChoice, InEnd, InHaving, InList, InTables, InTests, InValues, Listing, Purpose, SqlStep,
    State,
};
use crate::steps::{
    behind_groups, end, end_says, having, list, list_says, tables, tables_say, tests, tests_say,
};
use crate::token::{LineColumn, Mark, SqlToken, SqlWord};
use crate::token_parts::{
    column_in, comparison_in, is_key_of, name_in, number_in, on_key, on_line_key, on_mark, on_word,
    table_in, value_in,
};
use ssb_questions::Spelled;
use ssb_schema::Table;

// Behind a column, or an aggregate.
fn behind_total<'a>(token: SqlToken<'a>) -> Option<SqlStep<'a>>
    ensures { result ≡ spec.behind_total token.entry }
{
    match token {
        SqlToken::Word(SqlWord::As) => list(InList::As),
        SqlToken::Name(name) => list_says(InList::Behind, SqlPiece::Called(name)),
        SqlToken::Mark(Mark::Comma) => list(InList::Item),
        SqlToken::Word(SqlWord::From) => tables(InTables::Table),
        _ => None,
    }
}

fn item<'a>(token: SqlToken<'a>) -> Option<SqlStep<'a>>
    ensures { result ≡ spec.item token.entry }
{
    match token {
        SqlToken::Column(column) => list_says(InList::Total, SqlPiece::Prints(column)),
        token => begun(Purpose::Printing, token),
    }
}

// Behind a name.
fn behind_item<'a>(token: SqlToken<'a>) -> Option<SqlStep<'a>>
    ensures { result ≡ spec.behind_item token.entry }
{
    match token {
        SqlToken::Mark(Mark::Comma) => list(InList::Item),
        SqlToken::Word(SqlWord::From) => tables(InTables::Table),
        _ => None,
    }
}

fn in_list<'a>(state: InList, token: SqlToken<'a>) -> Option<SqlStep<'a>>
    ensures { result ≡ spec.in_list state token.entry }
{
    match state {
        InList::Start => on_word(token, SqlWord::Select, list(InList::Item)),
        InList::Item => item(token),
        InList::Total => behind_total(token),
        InList::As => list_says(InList::Behind, SqlPiece::Called(name_in(token)?)),
        InList::Behind => behind_item(token),
    }
}

// What may follow the conditions.
fn behind_tests<'a>(token: SqlToken<'a>) -> Option<SqlStep<'a>>
    ensures { result ≡ spec.behind_tests token.entry }
{
    match token {
        SqlToken::Word(SqlWord::Group) => end(InEnd::GroupBy),
        SqlToken::Word(SqlWord::Having) => having(InHaving::Test),
        token => behind_groups(token),
    }
}

fn behind_table<'a>(token: SqlToken<'a>) -> Option<SqlStep<'a>>
    ensures { result ≡ spec.behind_table token.entry }
{
    match token {
        SqlToken::Mark(Mark::Comma) => tables(InTables::Table),
        SqlToken::Word(SqlWord::Inner) => tables(InTables::Inner),
        SqlToken::Word(SqlWord::Join) => tables(InTables::Joined),
        SqlToken::Word(SqlWord::Where) => tests(InTests::Test),
        token => behind_tests(token),
    }
}

// The first key of a join.
fn join_key<'a>(token: SqlToken<'a>) -> Option<SqlStep<'a>>
    ensures { result ≡ spec.join_key token.entry }
{
    match token {
        SqlToken::Key(table) => tables(InTables::EqualKey(table)),
        SqlToken::LineKey(table) => tables(InTables::EqualLineKey(table)),
        SqlToken::Column(column) if column.place == 1 => tables(InTables::EqualKey(column.table)),
        _ => None,
    }
}

fn in_tables<'a>(state: InTables, token: SqlToken<'a>) -> Option<SqlStep<'a>>
    ensures { result ≡ spec.in_tables state token.entry }
{
    match state {
        InTables::Table => tables_say(InTables::Behind, SqlPiece::From(table_in(token)?)),
        InTables::Behind => behind_table(token),
        InTables::Inner => on_word(token, SqlWord::Join, tables(InTables::Joined)),
        InTables::Joined => tables_say(InTables::On, SqlPiece::From(table_in(token)?)),
        InTables::On => on_word(token, SqlWord::On, tables(InTables::Key)),
        InTables::Key => join_key(token),
        InTables::EqualKey(table) => on_mark(token, Mark::Equal, tables(InTables::LineKey2(table))),
        InTables::EqualLineKey(table) => on_mark(token, Mark::Equal, tables(InTables::Key2(table))),
        InTables::Key2(table) => {
            let taken = tables_say(InTables::Behind, SqlPiece::Joined(table));
            on_key(token, table, taken)
        }
        InTables::LineKey2(table) => {
            let taken = tables_say(InTables::Behind, SqlPiece::Joined(table));
            on_line_key(token, table, taken)
        }
    }
}

fn tested<'a>(token: SqlToken<'a>) -> Option<Operand>
    ensures { result ≡ spec.tested token.entry }
{
    match token {
        SqlToken::Column(column) => Some(Operand::Dimension(column)),
        SqlToken::Line(LineColumn::Quantity) => Some(Operand::Quantity),
        SqlToken::Line(LineColumn::Discount) => Some(Operand::Discount),
        _ => None,
    }
}

// A condition comes.
fn test<'a>(token: SqlToken<'a>) -> Option<SqlStep<'a>>
    ensures { result ≡ spec.test token.entry }
{
    match token {
        SqlToken::Key(table) => tests(InTests::EqualKey(table)),
        SqlToken::LineKey(table) => tests(InTests::EqualLineKey(table)),
        SqlToken::Mark(Mark::Open) => tests(InTests::Choice(InChoice::Open)),
        token => tests(InTests::Tested(tested(token)?)),
    }
}

// Behind what is tested.
fn behind_tested<'a>(operand: Operand, token: SqlToken<'a>) -> Option<SqlStep<'a>>
    ensures { result ≡ spec.behind_tested operand token.entry }
{
    match token {
        SqlToken::Mark(Mark::Equal) => tests(InTests::Equal(operand)),
        SqlToken::Word(SqlWord::Between) => tests(InTests::From(operand)),
        SqlToken::Word(SqlWord::In) => tests(InTests::Values(
            operand,
            Listing::OneOf,
            InValues::Open,
        )),
        SqlToken::Word(SqlWord::Not) => tests(InTests::Not(operand)),
        SqlToken::Word(SqlWord::ByBytes) => tests(InTests::Tested(operand)),
        token => tests(InTests::Stands(operand, comparison_in(token)?)),
    }
}

// Behind a condition.
fn behind_test<'a>(token: SqlToken<'a>) -> Option<SqlStep<'a>>
    ensures { result ≡ spec.behind_test token.entry }
{
    match token {
        SqlToken::Word(SqlWord::And) => tests(InTests::Test),
        token => behind_tests(token),
    }
}

// In a list of values.
fn behind_value<'a>(operand: Operand, listing: Listing, token: SqlToken<'a>) -> Option<SqlStep<'a>>
    ensures { result ≡ spec.behind_value operand listing token.entry }
{
    match token {
        SqlToken::Mark(Mark::Comma) => tests(InTests::Values(operand, listing, InValues::Next)),
        SqlToken::Mark(Mark::Close) => tests(InTests::Behind),
        _ => None,
    }
}

// In a choice.
fn behind_choice<'a>(token: SqlToken<'a>) -> Option<SqlStep<'a>>
    ensures { result ≡ spec.behind_choice token.entry }
{
    match token {
        SqlToken::Word(SqlWord::Or) => tests(InTests::Choice(InChoice::Or)),
        SqlToken::Mark(Mark::Close) => tests(InTests::Behind),
        _ => None,
    }
}

// What the first value of a list says.
fn first_said<'a>(listing: Listing, operand: Operand, value: Spelled<'a>) -> SqlPiece<'a>
    ensures { result ≡ spec.first_said listing operand value.entry }
{
    match listing {
        Listing::OneOf => SqlPiece::Is(operand, value),
        Listing::NoneOf => SqlPiece::Stands(operand, Comparison::NotEqual, value),
    }
}

// What a later value of a list says.
fn next_said<'a>(listing: Listing, operand: Operand, value: Spelled<'a>) -> SqlPiece<'a>
    ensures { result ≡ spec.next_said listing operand value.entry }
{
    match listing {
        Listing::OneOf => SqlPiece::OrIs(operand, value),
        Listing::NoneOf => SqlPiece::Stands(operand, Comparison::NotEqual, value),
    }
}

fn in_values<'a>(
    operand: Operand,
    listing: Listing,
    state: InValues,
    token: SqlToken<'a>,
) -> Option<SqlStep<'a>>
    ensures { result ≡ spec.in_values operand listing state token.entry }
{
    let listed = InTests::Values(operand, listing, InValues::Listed);
    match state {
        InValues::Open => {
            on_mark(
                token,
                Mark::Open,
                tests(InTests::Values(operand, listing, InValues::First)),
            )
        }
        InValues::First => tests_say(listed, first_said(listing, operand, value_in(token)?)),
        InValues::Listed => behind_value(operand, listing, token),
        InValues::Next => tests_say(listed, next_said(listing, operand, value_in(token)?)),
    }
}

fn choice<'a>(next: InChoice) -> Option<SqlStep<'a>>
    ensures { result ≡ spec.choice next }
{
    tests(InTests::Choice(next))
}

fn choice_says<'a>(piece: SqlPiece<'a>) -> Option<SqlStep<'a>>
    ensures { result ≡ spec.choice_says piece.entry }
{
    tests_say(InTests::Choice(InChoice::Either), piece)
}

fn in_choice<'a>(state: InChoice, token: SqlToken<'a>) -> Option<SqlStep<'a>>
    ensures { result ≡ spec.in_choice state token.entry }
{
    match state {
        InChoice::Open => choice(InChoice::Tested(tested(token)?)),
        InChoice::Tested(operand) => on_mark(token, Mark::Equal, choice(InChoice::Equal(operand))),
        InChoice::Equal(operand) => choice_says(SqlPiece::Is(operand, value_in(token)?)),
        InChoice::Either => behind_choice(token),
        InChoice::Or => choice(InChoice::OrTested(tested(token)?)),
        InChoice::OrTested(operand) => {
            on_mark(token, Mark::Equal, choice(InChoice::OrEqual(operand)))
        }
        InChoice::OrEqual(operand) => choice_says(SqlPiece::OrIs(operand, value_in(token)?)),
    }
}

// Behind a condition that says this.
fn tested_by<'a>(piece: SqlPiece<'a>) -> Option<SqlStep<'a>>
    ensures { result ≡ spec.tested_by piece.entry }
{
    tests_say(InTests::Behind, piece)
}

// Whether what is tested is the key of a dimension.
fn is_key(table: Table, operand: Operand) -> bool
    ensures { result ≡ spec.is_key table operand }
{
    match operand {
        Operand::Dimension(column) => is_key_of(table, column),
        Operand::Quantity | Operand::Discount => false,
    }
}

// Behind `=`: a value, or, behind the key of a dimension, that of a line.
fn equal<'a>(operand: Operand, token: SqlToken<'a>) -> Option<SqlStep<'a>>
    ensures { result ≡ spec.equal operand token.entry }
{
    match token {
        SqlToken::LineKey(table) => {
            if is_key(table, operand) {
                tested_by(SqlPiece::Joined(table))
            } else {
                None
            }
        }
        token => tested_by(SqlPiece::Is(operand, value_in(token)?)),
    }
}

fn in_tests<'a>(state: InTests<'a>, token: SqlToken<'a>) -> Option<SqlStep<'a>>
    ensures { result ≡ spec.in_tests state.entry token.entry }
{
    match state {
        InTests::Test => test(token),
        InTests::Behind => behind_test(token),
        InTests::EqualKey(table) => on_mark(token, Mark::Equal, tests(InTests::LineKey(table))),
        InTests::EqualLineKey(table) => on_mark(token, Mark::Equal, tests(InTests::Key(table))),
        InTests::Key(table) => on_key(token, table, tested_by(SqlPiece::Joined(table))),
        InTests::LineKey(table) => on_line_key(token, table, tested_by(SqlPiece::Joined(table))),
        InTests::Tested(operand) => behind_tested(operand, token),
        InTests::Equal(operand) => equal(operand, token),
        InTests::Stands(operand, how) => {
            tested_by(SqlPiece::Stands(operand, how, value_in(token)?))
        }
        InTests::From(operand) => tests(InTests::And(operand, value_in(token)?)),
        InTests::And(operand, from) => {
            on_word(token, SqlWord::And, tests(InTests::To(operand, from)))
        }
        InTests::To(operand, from) => {
            tested_by(SqlPiece::Between(operand, from, value_in(token)?))
        }
        InTests::Not(operand) => {
            let values = InTests::Values(operand, Listing::NoneOf, InValues::Open);
            on_word(token, SqlWord::In, tests(values))
        }
        InTests::Values(operand, listing, state) => in_values(operand, listing, state, token),
        InTests::Choice(state) => in_choice(state, token),
    }
}

// Behind a group column.
fn behind_group<'a>(token: SqlToken<'a>) -> Option<SqlStep<'a>>
    ensures { result ≡ spec.behind_group token.entry }
{
    match token {
        SqlToken::Mark(Mark::Comma) => end(InEnd::Group),
        SqlToken::Word(SqlWord::Having) => having(InHaving::Test),
        token => behind_groups(token),
    }
}

// What rows stand by.
fn key<'a>(token: SqlToken<'a>) -> Option<SqlStep<'a>>
    ensures { result ≡ spec.key token.entry }
{
    match token {
        SqlToken::Column(column) => end_says(InEnd::Keyed, SqlPiece::OrdersBy(column)),
        SqlToken::Name(name) => end_says(InEnd::Keyed, SqlPiece::OrdersByName(name)),
        SqlToken::Value(Spelled::Number(place)) => {
            end_says(InEnd::Keyed, SqlPiece::OrdersByPlace(place))
        }
        token => begun(Purpose::Ordering, token),
    }
}

// Behind a direction.
fn behind_direction<'a>(token: SqlToken<'a>) -> Option<SqlStep<'a>>
    ensures { result ≡ spec.behind_direction token.entry }
{
    match token {
        SqlToken::Mark(Mark::Comma) => end(InEnd::Key),
        SqlToken::Word(SqlWord::Limit) => end(InEnd::Limit),
        SqlToken::Mark(Mark::Semicolon) => end(InEnd::Done),
        _ => None,
    }
}

// Behind a key of the order.
fn behind_key<'a>(token: SqlToken<'a>) -> Option<SqlStep<'a>>
    ensures { result ≡ spec.behind_key token.entry }
{
    match token {
        SqlToken::Word(SqlWord::ByBytes) => end(InEnd::Keyed),
        SqlToken::Word(SqlWord::Asc) => end(InEnd::Directed),
        SqlToken::Word(SqlWord::Desc) => end_says(InEnd::Directed, SqlPiece::Descending),
        token => behind_direction(token),
    }
}

fn in_end<'a>(state: InEnd, token: SqlToken<'a>) -> Option<SqlStep<'a>>
    ensures { result ≡ spec.in_end state token.entry }
{
    match state {
        InEnd::GroupBy => on_word(token, SqlWord::By, end(InEnd::Group)),
        InEnd::Group => end_says(InEnd::Grouped, SqlPiece::GroupsBy(column_in(token)?)),
        InEnd::Grouped => behind_group(token),
        InEnd::OrderBy => on_word(token, SqlWord::By, end(InEnd::Key)),
        InEnd::Key => key(token),
        InEnd::Keyed => behind_key(token),
        InEnd::Directed => behind_direction(token),
        InEnd::Limit => end_says(InEnd::Limited, SqlPiece::Limit(number_in(token)?)),
        InEnd::Limited => on_mark(token, Mark::Semicolon, end(InEnd::Done)),
        InEnd::Done => None,
    }
}

/// What a token leads to from a state; none where it may not come.
pub fn step<'a>(state: State<'a>, token: SqlToken<'a>) -> Option<SqlStep<'a>>
    ensures { result ≡ spec.step state.entry token.entry }
{
    match state {
        State::List(state) => in_list(state, token),
        State::Tables(state) => in_tables(state, token),
        State::Tests(state) => in_tests(state, token),
        State::Having(state) => in_having(state, token),
        State::End(state) => in_end(state, token),
        State::Aggregate(purpose, state) => in_aggregate(purpose, state, token),
    }
}

fn ends_end(state: InEnd) -> bool
    ensures { result ≡ spec.ends_end state }
{
    match state {
        InEnd::Grouped | InEnd::Keyed | InEnd::Directed | InEnd::Limited | InEnd::Done => true,
        _ => false,
    }
}

/// Whether a statement may end there.
pub fn may_end(state: State<'_>) -> bool
    ensures { result ≡ spec.may_end state.entry }
{
    match state {
        State::List(_) | State::Aggregate(_, _) => false,
        State::Tables(state) => matches!(state, InTables::Behind),
        State::Tests(state) => matches!(state, InTests::Behind),
        State::Having(state) => matches!(state, InHaving::Behind),
        State::End(state) => ends_end(state),
    }
}
