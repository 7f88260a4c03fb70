//! The constants that a query has where none are given, and those at a place.
ghost use Rattle.std.specs.Prelude.{◌≡◌, ◌↔◌, map, IfOk, IsTrue};
ghost use Rattle.std.specs.Cmp.Lexicographic.{pointwise};
ghost use Rattle.std.specs.Ordering.{eq_by_cmp};
ghost use Rattle.ssb_questions.specs.Queries.{standard_constants, number_at, text_at};
ghost use Rattle.ssb_questions.specs.Constant.{constant_value};
ghost use Rattle.ssb_questions.specs.Value.{value_cmp};

use crate::query::Query;
use crate::value::Value;
use ssb_schema::{Items, Text};
use std::alloc::{AllocError, Global};

/// The number at a place; 0 where there is none.
pub fn number_at(constants: &[Value], place: usize) -> u64
    ensures { result ≡ number_at constants.now place }
{
    match constants.get(place) {
        Some(Value::Number(number)) => *number,
        _ => 0,
    }
}

/// A copy of the text at a place; empty where there is none.
pub fn text_at(alloc: Global, constants: &[Value], place: usize) -> Result<Text, AllocError>
    ensures { IfOk result (λ text. text ≡ text_at constants.now place) }
{
    match constants.get(place) {
        Some(Value::Text(text)) => text.clone(),
        _ => Text::from_str(alloc, ""),
    }
}

// A constant as it stands in the program.
#[derive(Clone, Copy)]
enum Constant {
    Text(&'static str),
    Number(u64),
}

use Constant::{Number, Text as Name};

impl Constant {
    fn to_value(self, alloc: Global) -> Result<Value, AllocError>
        ensures { IfOk result (λ value. value ≡ constant_value self) }
    {
        match self {
            Constant::Text(text) => Ok(Value::Text(Text::from_str(alloc, text)?)),
            Constant::Number(number) => Ok(Value::Number(number)),
        }
    }

    fn is(self, value: &Value) -> bool
        ensures { result ≡ eq_by_cmp value_cmp value.now (constant_value self) }
    {
        match (self, value) {
            (Constant::Text(text), Value::Text(value)) => value.as_str() == text,
            (Constant::Number(number), Value::Number(value)) => *value == number,
            _ => false,
        }
    }
}

// The constants that each of the thirteen has where none are given.
const Q1_1: &[Constant] = &[Number(1993), Number(1), Number(3), Number(0), Number(24)];

const Q1_2: &[Constant] = &[Number(199401), Number(4), Number(6), Number(26), Number(35)];

const Q1_3: &[Constant] = &[
    Number(6),
    Number(1994),
    Number(5),
    Number(7),
    Number(26),
    Number(35),
];

const Q2_1: &[Constant] = &[Name("MFGR#12"), Name("AMERICA")];

const Q2_2: &[Constant] = &[Name("MFGR#2221"), Name("MFGR#2228"), Name("ASIA")];

const Q2_3: &[Constant] = &[Name("MFGR#2239"), Name("EUROPE")];

const Q3_1: &[Constant] = &[Name("ASIA"), Name("ASIA"), Number(1992), Number(1997)];

const Q3_2: &[Constant] = &[
    Name("UNITED STATES"),
    Name("UNITED STATES"),
    Number(1992),
    Number(1997),
];

const Q3_3: &[Constant] = &[
    Name("UNITED KI1"),
    Name("UNITED KI5"),
    Name("UNITED KI1"),
    Name("UNITED KI5"),
    Number(1992),
    Number(1997),
];

const Q3_4: &[Constant] = &[
    Name("UNITED KI1"),
    Name("UNITED KI5"),
    Name("UNITED KI1"),
    Name("UNITED KI5"),
    Name("Dec1997"),
];

const Q4_1: &[Constant] = &[
    Name("AMERICA"),
    Name("AMERICA"),
    Name("MFGR#1"),
    Name("MFGR#2"),
];

const Q4_2: &[Constant] = &[
    Name("AMERICA"),
    Name("AMERICA"),
    Name("MFGR#1"),
    Name("MFGR#2"),
    Number(1997),
    Number(1998),
];

const Q4_3: &[Constant] = &[
    Name("AMERICA"),
    Name("UNITED STATES"),
    Number(1997),
    Number(1998),
    Name("MFGR#14"),
];

// Those of a query, as they stand in the program.
fn standard(query: Query) -> &'static [Constant]
    ensures { map constant_value result.now ≡ standard_constants query }
{
    match query {
        Query::Q1_1 => Q1_1,
        Query::Q1_2 => Q1_2,
        Query::Q1_3 => Q1_3,
        Query::Q2_1 => Q2_1,
        Query::Q2_2 => Q2_2,
        Query::Q2_3 => Q2_3,
        Query::Q3_1 => Q3_1,
        Query::Q3_2 => Q3_2,
        Query::Q3_3 => Q3_3,
        Query::Q3_4 => Q3_4,
        Query::Q4_1 => Q4_1,
        Query::Q4_2 => Q4_2,
        Query::Q4_3 => Q4_3,
        Query::Star => &[],
    }
}

/// The constants that a query has where none are given; `star` has none.
pub fn standard_constants(alloc: Global, query: Query) -> Result<Items<Value>, AllocError>
    ensures { IfOk result (λ constants. constants ≡ standard_constants query) }
{
    let mut constants = Vec::new(alloc);
    for constant in standard(query) {
        constants.push(constant.to_value(alloc)?)?;
    }
    Ok(Items::from_vec(constants))
}

// Whether the values are these constants, one by one.
fn equal_constants(values: &[Value], constants: &[Constant]) -> bool
    ensures { result ≡ pointwise (eq_by_cmp value_cmp) values.now (map constant_value constants.now) }
{
    match (values, constants) {
        ([], []) => true,
        ([value, values @ ..], [constant, constants @ ..]) => {
            constant.is(value) && equal_constants(values, constants)
        }
        _ => false,
    }
}

/// Whether these are the constants that a query has where none are given.
pub fn is_standard(query: Query, constants: &[Value]) -> bool
    ensures { IsTrue result ↔ (constants.now ≡ standard_constants query) }
{
    equal_constants(constants, standard(query))
}
