//! The thirteen queries and `star`, and their names.
ghost use Rattle.std.specs.Prelude.{◌≡◌, ◌≢◌, IfOk, IfErr, Some, option_map};
ghost use Rattle.ssb_questions.specs.declared.query.Query.{Query as Named};
ghost use Rattle.ssb_questions.specs.Kind.{constant_kinds};
ghost use Rattle.ssb_questions.specs.Query.{name_of, sum_first};

use crate::kind::ConstantKind;
use crate::kind::ConstantKind::{Number, Text};
use ssb_schema::{
    C_CITY, C_NATION, C_REGION, D_YEARMONTH, P_BRAND1, P_CATEGORY, P_MFGR, S_CITY, S_NATION,
    S_REGION,
};
use std::fmt;
use thiserror::Error;

/// A query, without its constants: one of the benchmark's thirteen, or `star`.
#[derive(Clone, Copy, Debug, PartialEq, Eq)]
pub enum Query {
    /// What discounts took away in a year.
    Q1_1,
    /// What discounts took away in a month.
    Q1_2,
    /// What discounts took away in a week of a year.
    Q1_3,
    /// Revenue by year and brand, of a category and of suppliers of a region.
    Q2_1,
    /// Revenue by year and brand, of a range of brands and of suppliers of a region.
    Q2_2,
    /// Revenue by year and brand, of one brand and of suppliers of a region.
    Q2_3,
    /// Revenue by customers' and suppliers' nations and year, within a region.
    Q3_1,
    /// Revenue by customers' and suppliers' cities and year, within a nation.
    Q3_2,
    /// Revenue by customers' and suppliers' cities and year, of two cities.
    Q3_3,
    /// Revenue by customers' and suppliers' cities and year, of two cities in a month.
    Q3_4,
    /// Profit by year and customers' nation, of two manufacturers within a region.
    Q4_1,
    /// Profit by year, suppliers' nation and category, of two manufacturers in two years.
    Q4_2,
    /// Profit by year, suppliers' city and brand, of a category in two years.
    Q4_3,
    /// What its constants spell.
    Star,
}

/// No query has the name.
#[derive(Clone, Copy, Debug, PartialEq, Eq, Error)]
#[error("30 NoSuchQuery")]
pub struct NoSuchQuery;

/// The benchmark's queries in the order of their names.
pub const QUERIES: [Query; 13] = [
    Query::Q1_1,
    Query::Q1_2,
    Query::Q1_3,
    Query::Q2_1,
    Query::Q2_2,
    Query::Q2_3,
    Query::Q3_1,
    Query::Q3_2,
    Query::Q3_3,
    Query::Q3_4,
    Query::Q4_1,
    Query::Q4_2,
    Query::Q4_3,
];

/// The queries that have a name: the benchmark's, and `star`.
pub const QUERIES_AND_STAR: [Query; 14] = [
    Query::Q1_1,
    Query::Q1_2,
    Query::Q1_3,
    Query::Q2_1,
    Query::Q2_2,
    Query::Q2_3,
    Query::Q3_1,
    Query::Q3_2,
    Query::Q3_3,
    Query::Q3_4,
    Query::Q4_1,
    Query::Q4_2,
    Query::Q4_3,
    Query::Star,
];

impl Query {
    /// The name as scripts and reports have it: `Q1.1` to `Q4.3`, or `star`.
    pub fn name(self) -> &'static str
        ensures { result.now ≡ name_of self }
    {
        match self {
            Query::Q1_1 => "Q1.1",
            Query::Q1_2 => "Q1.2",
            Query::Q1_3 => "Q1.3",
            Query::Q2_1 => "Q2.1",
            Query::Q2_2 => "Q2.2",
            Query::Q2_3 => "Q2.3",
            Query::Q3_1 => "Q3.1",
            Query::Q3_2 => "Q3.2",
            Query::Q3_3 => "Q3.3",
            Query::Q3_4 => "Q3.4",
            Query::Q4_1 => "Q4.1",
            Query::Q4_2 => "Q4.2",
            Query::Q4_3 => "Q4.3",
            Query::Star => "star",
        }
    }

    /// The query of a name, letter for letter.
    pub fn by_name(name: &str) -> Result<Query, NoSuchQuery>
        ensures named { IfOk result (λ query. name_of query ≡ name.now) }
        ensures none { IfErr result (λ _. (query : Named) → name_of query ≢ name.now) }
    {
        for query in &QUERIES_AND_STAR {
            if query.name() == name {
                return Ok(*query);
            }
        }
        Err(NoSuchQuery)
    }

    /// The kinds of the query's constants, in the order in which a question gives them; none of `star`, whose
    /// constants are clauses: texts, as many as are given.
    pub fn constant_kinds(self) -> Option<&'static [ConstantKind]>
        ensures { option_map (λ kinds. kinds.now) result ≡ constant_kinds self }
    {
        match self {
            Query::Q1_1 | Query::Q1_2 => Some(&[Number, Number, Number, Number, Number]),
            Query::Q1_3 => Some(&[Number, Number, Number, Number, Number, Number]),
            Query::Q2_1 => Some(&[Text(P_CATEGORY), Text(S_REGION)]),
            Query::Q2_2 => Some(&[Text(P_BRAND1), Text(P_BRAND1), Text(S_REGION)]),
            Query::Q2_3 => Some(&[Text(P_BRAND1), Text(S_REGION)]),
            Query::Q3_1 => Some(&[Text(C_REGION), Text(S_REGION), Number, Number]),
            Query::Q3_2 => Some(&[Text(C_NATION), Text(S_NATION), Number, Number]),
            Query::Q3_3 => Some(&[
                Text(C_CITY),
                Text(C_CITY),
                Text(S_CITY),
                Text(S_CITY),
                Number,
                Number,
            ]),
            Query::Q3_4 => Some(&[
                Text(C_CITY),
                Text(C_CITY),
                Text(S_CITY),
                Text(S_CITY),
                Text(D_YEARMONTH),
            ]),
            Query::Q4_1 => Some(&[Text(C_REGION), Text(S_REGION), Text(P_MFGR), Text(P_MFGR)]),
            Query::Q4_2 => Some(&[
                Text(C_REGION),
                Text(S_REGION),
                Text(P_MFGR),
                Text(P_MFGR),
                Number,
                Number,
            ]),
            Query::Q4_3 => Some(&[
                Text(C_REGION),
                Text(S_NATION),
                Number,
                Number,
                Text(P_CATEGORY),
            ]),
            Query::Star => None,
        }
    }

    /// Whether a report prints the sum before the group columns; else it stands after them.
    pub fn sum_stands_first(self) -> bool
        ensures { result ≡ sum_first self }
    {
        matches!(
            self,
            Query::Q1_1 | Query::Q1_2 | Query::Q1_3 | Query::Q2_1 | Query::Q2_2 | Query::Q2_3
        )
    }
}

impl fmt::Display for Query {
    ghost output = { λ query. Some (name_of query) };

    fn fmt<W: fmt::Write>(&self, f: &mut fmt::Formatter<W>) -> fmt::Result {
        f.write_str(self.name())
    }
}
