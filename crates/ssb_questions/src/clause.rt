//! What one constant of a star question says.
ghost use Rattle.std.specs.Prelude.{◌≡◌, ◌<◌, codes, option_map, length};
ghost use Rattle.ssb_questions.specs.Clause as spec;
ghost use Rattle.ssb_questions.specs.ClauseSaid.{said, pair_now, value_said};

use crate::kind::ConstantKind;
use crate::plan::{Measure, NumberRange};
use ssb_schema::{Column, Kind, number, query_columns, text_fault};

/// A value as a constant spells it.
#[derive(Clone, Copy)]
pub enum Spelled<'a> {
    /// A text.
    Text(&'a str),
    /// A number.
    Number(u64),
}

/// What one constant of a star question says.
#[derive(Clone, Copy)]
pub enum Clause<'a> {
    /// This is summed over the lines.
    Sums(Measure),
    /// The column is a group column.
    GroupsBy(Column),
    /// The column has this value, or that of another such clause.
    Is(Column, Spelled<'a>),
    /// The column has not this value.
    IsNot(Column, Spelled<'a>),
    /// The column lies between these values, both included.
    FromTo(Column, Spelled<'a>, Spelled<'a>),
    /// LO_QUANTITY lies in it.
    QuantityIn(NumberRange),
    /// LO_DISCOUNT lies in it.
    DiscountIn(NumberRange),
    /// Rows stand from the greatest sum down.
    BySum,
}

static MEASURES: [Measure; 7] = [
    Measure::Revenue,
    Measure::Profit,
    Measure::PriceTimesDiscount,
    Measure::Quantity,
    Measure::ExtendedPrice,
    Measure::SupplyCost,
    Measure::Lines,
];

impl Measure {
    /// How a star question spells the measure.
    pub fn name(self) -> &'static str
        ensures { result.now ≡ spec.measure_name self }
    {
        match self {
            Measure::Revenue => "LO_REVENUE",
            Measure::Profit => "LO_REVENUE-LO_SUPPLYCOST",
            Measure::PriceTimesDiscount => "LO_EXTENDEDPRICE*LO_DISCOUNT",
            Measure::Quantity => "LO_QUANTITY",
            Measure::ExtendedPrice => "LO_EXTENDEDPRICE",
            Measure::SupplyCost => "LO_SUPPLYCOST",
            Measure::Lines => "COUNT",
        }
    }
}

fn measure_named(word: &str) -> Option<Measure>
    ensures { result ≡ spec.measure_named word.now }
{
    MEASURES
        .iter()
        .copied()
        .find(|measure| measure.name() == word)
}

fn column_named(word: &str) -> Option<Column>
    ensures { result ≡ spec.column_named word.now }
{
    query_columns()
        .iter()
        .copied()
        .find(|column| column.name() == word)
}

// The text before the first place where the mark stands, and the text behind the mark.
fn parted<'a>(mark: &str, text: &'a str) -> Option<(&'a str, &'a str)>
    requires { 0 < length mark.now }
    ensures { option_map pair_now result ≡ spec.parted mark.now text.now }
{
    text.split_once(mark)
}

// The number of 32 bits that a text spells.
fn number_spelled(text: &str) -> Option<u64>
    ensures { result ≡ spec.number_spelled text.now }
{
    match number(text.as_bytes()) {
        Some(n) if n < 4_294_967_296 => Some(n),
        _ => None,
    }
}

// The number up to a greatest one that a text spells.
fn number_up_to(most: u64, text: &str) -> Option<u64>
    ensures { result ≡ spec.number_up_to most text.now }
{
    match number(text.as_bytes()) {
        Some(n) if n <= most => Some(n),
        _ => None,
    }
}

fn range_spelled(text: &str) -> Option<NumberRange>
    ensures { result ≡ spec.range_spelled text.now }
{
    match parted("..", text) {
        Some((from, to)) => Some(NumberRange {
            from: number_spelled(from)?,
            to: number_spelled(to)?,
        }),
        None => {
            let only = number_spelled(text)?;
            Some(NumberRange {
                from: only,
                to: only,
            })
        }
    }
}

/// What may be looked for in a column.
pub fn kind_in(column: Column) -> ConstantKind
    ensures { result ≡ spec.kind_in column }
{
    match column.kind() {
        Some(Kind::Number { .. }) => ConstantKind::Number,
        Some(Kind::Text) | None => ConstantKind::Text(column),
    }
}

// The greatest number that a column takes; 0 where it takes texts.
fn most_in(column: Column) -> u64
    ensures { result ≡ spec.most_in column }
{
    match column.kind() {
        Some(Kind::Number { most, .. }) => most,
        Some(Kind::Text) | None => 0,
    }
}

fn value_for(column: Column, text: &str) -> Option<Spelled<'_>>
    ensures { option_map value_said result ≡ spec.value_for column text.now }
{
    match kind_in(column) {
        ConstantKind::Text(column) => {
            if text_fault(column, text).is_none() {
                Some(Spelled::Text(text))
            } else {
                None
            }
        }
        ConstantKind::Number => match number_up_to(most_in(column), text) {
            Some(number) => Some(Spelled::Number(number)),
            None => None,
        },
    }
}

fn column_test(column: Column, text: &str) -> Option<Clause<'_>>
    ensures { option_map said result ≡ spec.column_test column text.now (spec.parted (codes "..") text.now) }
{
    match parted("..", text) {
        Some((from, to)) => Some(Clause::FromTo(
            column,
            value_for(column, from)?,
            value_for(column, to)?,
        )),
        None => Some(Clause::Is(column, value_for(column, text)?)),
    }
}

fn column_clause<'a>(name: &str, text: &'a str) -> Option<Clause<'a>>
    ensures { option_map said result ≡ spec.column_clause name.now text.now }
{
    column_test(column_named(name)?, text)
}

fn test_clause<'a>(name: &str, text: &'a str) -> Option<Clause<'a>>
    ensures { option_map said result ≡ spec.test_clause name.now text.now }
{
    match name {
        "LO_QUANTITY" => Some(Clause::QuantityIn(range_spelled(text)?)),
        "LO_DISCOUNT" => Some(Clause::DiscountIn(range_spelled(text)?)),
        _ => column_clause(name, text),
    }
}

// What a column is not; a range is no value.
fn exclusion_clause<'a>(name: &str, text: &'a str) -> Option<Clause<'a>>
    ensures { option_map said result ≡ spec.exclusion_clause name.now text.now }
{
    let column = column_named(name)?;
    match parted("..", text) {
        Some(_) => None,
        None => Some(Clause::IsNot(column, value_for(column, text)?)),
    }
}

// What stands before `=` is a name, or a name with `!` behind it.
fn named_clause<'a>(name: &str, text: &'a str) -> Option<Clause<'a>>
    ensures { option_map said result ≡ spec.named_clause name.now text.now (spec.parted (codes "!") name.now) }
{
    match parted("!", name) {
        None => test_clause(name, text),
        Some((own, "")) => exclusion_clause(own, text),
        Some(_) => None,
    }
}

fn word_clause(word: &str) -> Option<Clause<'_>>
    ensures { option_map said result ≡ spec.word_clause word.now }
{
    match measure_named(word) {
        Some(measure) => Some(Clause::Sums(measure)),
        None => Some(Clause::GroupsBy(column_named(word)?)),
    }
}

/// What a constant says; none where it is no clause of a star question.
pub fn clause_of(constant: &str) -> Option<Clause<'_>>
    ensures { option_map said result ≡ spec.clause_of constant.now }
{
    if constant == "ORDER=SUM" {
        return Some(Clause::BySum);
    }
    match parted("=", constant) {
        Some((name, text)) => named_clause(name, text),
        None => word_clause(constant),
    }
}
