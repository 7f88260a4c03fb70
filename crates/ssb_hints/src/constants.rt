//! What the constants of the thirteen queries are called.

use ssb_questions::Query;

static Q1_1: [&str; 5] = [
    "year",
    "discount from",
    "discount to",
    "quantity from",
    "quantity to",
];

static Q1_2: [&str; 5] = [
    "year and month",
    "discount from",
    "discount to",
    "quantity from",
    "quantity to",
];

static Q1_3: [&str; 6] = [
    "week",
    "year",
    "discount from",
    "discount to",
    "quantity from",
    "quantity to",
];

static Q2_1: [&str; 2] = ["category", "supplier region"];

static Q2_2: [&str; 3] = ["brand from", "brand to", "supplier region"];

static Q2_3: [&str; 2] = ["brand", "supplier region"];

static Q3_1: [&str; 4] = ["customer region", "supplier region", "year from", "year to"];

static Q3_2: [&str; 4] = ["customer nation", "supplier nation", "year from", "year to"];

static Q3_3: [&str; 6] = [
    "customer city",
    "another customer city",
    "supplier city",
    "another supplier city",
    "year from",
    "year to",
];

static Q3_4: [&str; 5] = [
    "customer city",
    "another customer city",
    "supplier city",
    "another supplier city",
    "year and month",
];

static Q4_1: [&str; 4] = [
    "customer region",
    "supplier region",
    "manufacturer",
    "another manufacturer",
];

static Q4_2: [&str; 6] = [
    "customer region",
    "supplier region",
    "manufacturer",
    "another manufacturer",
    "year",
    "another year",
];

static Q4_3: [&str; 5] = [
    "customer region",
    "supplier nation",
    "year",
    "another year",
    "category",
];

/// The names of a query's constants, in their order; none of `star`, whose constants are clauses.
pub fn constant_names(query: Query) -> &'static [&'static str] {
    match query {
        Query::Q1_1 => &Q1_1,
        Query::Q1_2 => &Q1_2,
        Query::Q1_3 => &Q1_3,
        Query::Q2_1 => &Q2_1,
        Query::Q2_2 => &Q2_2,
        Query::Q2_3 => &Q2_3,
        Query::Q3_1 => &Q3_1,
        Query::Q3_2 => &Q3_2,
        Query::Q3_3 => &Q3_3,
        Query::Q3_4 => &Q3_4,
        Query::Q4_1 => &Q4_1,
        Query::Q4_2 => &Q4_2,
        Query::Q4_3 => &Q4_3,
        Query::Star => &[],
    }
}
