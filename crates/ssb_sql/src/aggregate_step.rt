//! The aggregates, and the tests of groups.
ghost use Rattle.std.specs.Prelude.{◌≡◌};
ghost use Rattle.ssb_sql.specs.Step as spec;

use crate::piece::{Aggregate, Comparison, SignedNumber, SqlPiece};
use crate::state::{Adding, InAggregate, InEnd, InHaving, InList, InNullIf, Purpose, SqlStep};
use crate::steps::{behind_groups, computing, end_says, having, having_says, list_says};
use crate::token::{LineColumn, Mark, SqlToken, SqlWord};
use crate::token_parts::{amount_in, comparison_in, line_in, mark_in, number_in, on_mark, on_word};
use ssb_questions::Measure;

// What is done with the numbers of lines.
fn computed(adding: Adding, measure: Measure) -> Aggregate
    ensures { result ≡ spec.computed adding measure }
{
    match adding {
        Adding::Sum => Aggregate::Total(measure),
        Adding::Average => Aggregate::Average(measure),
    }
}

// Behind an aggregate.
fn closed<'a>(purpose: Purpose, made: Aggregate) -> Option<SqlStep<'a>>
    ensures { result ≡ spec.closed purpose made }
{
    match purpose {
        Purpose::Printing => list_says(InList::Total, SqlPiece::Computes(made)),
        Purpose::Keeping => having(InHaving::Tested(made)),
        Purpose::Ordering => end_says(InEnd::Keyed, SqlPiece::OrdersByAggregate(made)),
    }
}

// An aggregate comes.
pub(crate) fn begun<'a>(purpose: Purpose, token: SqlToken<'a>) -> Option<SqlStep<'a>>
    ensures { result ≡ spec.begun purpose token.entry }
{
    match token {
        SqlToken::Word(SqlWord::Sum) => computing(purpose, InAggregate::Adds(Adding::Sum)),
        SqlToken::Word(SqlWord::Average) => computing(purpose, InAggregate::Adds(Adding::Average)),
        SqlToken::Word(SqlWord::Count) => computing(purpose, InAggregate::Count),
        SqlToken::Word(SqlWord::NullIf) => null_if(purpose, InNullIf::Open),
        _ => None,
    }
}

// Behind the first column of a sum.
fn behind_revenue<'a>(purpose: Purpose, adding: Adding, mark: Mark) -> Option<SqlStep<'a>>
    ensures { result ≡ spec.behind_revenue purpose adding mark }
{
    match mark {
        Mark::Close => closed(purpose, computed(adding, Measure::Revenue)),
        Mark::Minus => computing(purpose, InAggregate::Minus(adding)),
        _ => None,
    }
}

fn behind_price<'a>(purpose: Purpose, adding: Adding, mark: Mark) -> Option<SqlStep<'a>>
    ensures { result ≡ spec.behind_price purpose adding mark }
{
    match mark {
        Mark::Close => closed(purpose, computed(adding, Measure::ExtendedPrice)),
        Mark::Star => computing(purpose, InAggregate::Times(adding)),
        _ => None,
    }
}

fn behind_added<'a>(
    purpose: Purpose,
    adding: Adding,
    column: LineColumn,
    token: SqlToken<'a>,
) -> Option<SqlStep<'a>>
    ensures { result ≡ spec.behind_added purpose adding column token.entry }
{
    match column {
        LineColumn::Revenue => behind_revenue(purpose, adding, mark_in(token)?),
        LineColumn::Quantity => {
            let taken = closed(purpose, computed(adding, Measure::Quantity));
            on_mark(token, Mark::Close, taken)
        }
        LineColumn::ExtendedPrice => behind_price(purpose, adding, mark_in(token)?),
        LineColumn::SupplyCost => {
            let taken = closed(purpose, computed(adding, Measure::SupplyCost));
            on_mark(token, Mark::Close, taken)
        }
        LineColumn::Discount => {
            on_mark(
                token,
                Mark::Star,
                computing(purpose, InAggregate::TimesPrice(adding)),
            )
        }
    }
}

// The second column of a sum.
fn behind_minus<'a>(purpose: Purpose, adding: Adding, column: LineColumn) -> Option<SqlStep<'a>>
    ensures { result ≡ spec.behind_minus purpose adding column }
{
    match column {
        LineColumn::SupplyCost => {
            computing(
                purpose,
                InAggregate::Close(computed(adding, Measure::Profit)),
            )
        }
        _ => None,
    }
}

fn behind_times<'a>(purpose: Purpose, adding: Adding, column: LineColumn) -> Option<SqlStep<'a>>
    ensures { result ≡ spec.behind_times purpose adding column }
{
    match column {
        LineColumn::Discount => {
            computing(
                purpose,
                InAggregate::Close(computed(adding, Measure::PriceTimesDiscount)),
            )
        }
        _ => None,
    }
}

fn behind_discount_times<'a>(
    purpose: Purpose,
    adding: Adding,
    column: LineColumn,
) -> Option<SqlStep<'a>>
    ensures { result ≡ spec.behind_discount_times purpose adding column }
{
    match column {
        LineColumn::ExtendedPrice => {
            computing(
                purpose,
                InAggregate::Close(computed(adding, Measure::PriceTimesDiscount)),
            )
        }
        _ => None,
    }
}

// Behind NULLIF.
fn null_if<'a>(purpose: Purpose, next: InNullIf) -> Option<SqlStep<'a>>
    ensures { result ≡ spec.null_if purpose next }
{
    computing(purpose, InAggregate::NullIf(next))
}

// The 0 of NULLIF comes.
fn on_zero<'a>(purpose: Purpose, number: u64) -> Option<SqlStep<'a>>
    ensures { result ≡ spec.on_zero purpose number }
{
    if number == 0 {
        computing(purpose, InAggregate::Close(Aggregate::CountOrNull))
    } else {
        None
    }
}

fn in_null_if<'a>(purpose: Purpose, state: InNullIf, token: SqlToken<'a>) -> Option<SqlStep<'a>>
    ensures { result ≡ spec.in_null_if purpose state token.entry }
{
    match state {
        InNullIf::Open => on_mark(token, Mark::Open, null_if(purpose, InNullIf::Count)),
        InNullIf::Count => on_word(token, SqlWord::Count, null_if(purpose, InNullIf::CountOpen)),
        InNullIf::CountOpen => on_mark(token, Mark::Open, null_if(purpose, InNullIf::Star)),
        InNullIf::Star => on_mark(token, Mark::Star, null_if(purpose, InNullIf::CountClose)),
        InNullIf::CountClose => on_mark(token, Mark::Close, null_if(purpose, InNullIf::Comma)),
        InNullIf::Comma => on_mark(token, Mark::Comma, null_if(purpose, InNullIf::Zero)),
        InNullIf::Zero => on_zero(purpose, number_in(token)?),
    }
}

/// In an aggregate.
pub(crate) fn in_aggregate<'a>(
    purpose: Purpose,
    state: InAggregate,
    token: SqlToken<'a>,
) -> Option<SqlStep<'a>>
    ensures { result ≡ spec.in_aggregate purpose state token.entry }
{
    match state {
        InAggregate::Adds(adding) => {
            on_mark(
                token,
                Mark::Open,
                computing(purpose, InAggregate::Added(adding)),
            )
        }
        InAggregate::Added(adding) => {
            computing(purpose, InAggregate::AddedOf(adding, line_in(token)?))
        }
        InAggregate::AddedOf(adding, column) => behind_added(purpose, adding, column, token),
        InAggregate::Minus(adding) => behind_minus(purpose, adding, line_in(token)?),
        InAggregate::Times(adding) => behind_times(purpose, adding, line_in(token)?),
        InAggregate::TimesPrice(adding) => behind_discount_times(purpose, adding, line_in(token)?),
        InAggregate::Close(made) => on_mark(token, Mark::Close, closed(purpose, made)),
        InAggregate::Count => {
            on_mark(token, Mark::Open, computing(purpose, InAggregate::Counted))
        }
        InAggregate::Counted => on_mark(
            token,
            Mark::Star,
            computing(
                purpose,
                InAggregate::Close(Aggregate::Total(Measure::Lines)),
            ),
        ),
        InAggregate::NullIf(state) => in_null_if(purpose, state, token),
    }
}

// The number that an aggregate is compared with.
fn compared<'a>(
    made: Aggregate,
    how: Comparison,
    is_negative: bool,
    size: u64,
) -> Option<SqlStep<'a>>
    ensures { result ≡ spec.compared made how is_negative size }
{
    let number = SignedNumber { is_negative, size };
    having_says(InHaving::Behind, SqlPiece::Keeps(made, how, number))
}

// `-` comes, or the number itself.
fn in_stands<'a>(made: Aggregate, how: Comparison, token: SqlToken<'a>) -> Option<SqlStep<'a>>
    ensures { result ≡ spec.in_stands made how token.entry }
{
    match token {
        SqlToken::Mark(Mark::Minus) => having(InHaving::Minus(made, how)),
        token => compared(made, how, false, amount_in(token)?),
    }
}

// Behind a test of groups.
fn behind_having<'a>(token: SqlToken<'a>) -> Option<SqlStep<'a>>
    ensures { result ≡ spec.behind_having token.entry }
{
    match token {
        SqlToken::Word(SqlWord::And) => having(InHaving::Test),
        token => behind_groups(token),
    }
}

/// Behind HAVING.
pub(crate) fn in_having<'a>(state: InHaving, token: SqlToken<'a>) -> Option<SqlStep<'a>>
    ensures { result ≡ spec.in_having state token.entry }
{
    match state {
        InHaving::Test => begun(Purpose::Keeping, token),
        InHaving::Tested(made) => having(InHaving::Stands(made, comparison_in(token)?)),
        InHaving::Stands(made, how) => in_stands(made, how, token),
        InHaving::Minus(made, how) => compared(made, how, true, amount_in(token)?),
        InHaving::Behind => behind_having(token),
    }
}
