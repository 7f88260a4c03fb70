//! Which constants spell a star question.
ghost use Rattle.std.specs.Prelude.{◌≡◌, ◌≤◌, length, option_and_then, slice_get};
ghost use Rattle.std.specs.List.{list_all};
ghost use Rattle.ssb_questions.specs.Clauses as spec;

use crate::clause::{Clause, clause_of};
use crate::value::Value;
use ssb_schema::Column;

/// The most constants of a star question.
pub const MOST_CONSTANTS: usize = 64;

/// The most values of one column that a star question looks for, and the most that it excludes.
pub const MOST_VALUES: usize = 16;

/// The most group columns of a star question.
pub const MOST_GROUPS: usize = 4;

/// What a clause speaks of, without its values.
#[derive(Clone, Copy, Debug)]
pub enum Subject {
    /// What is summed.
    Measure,
    /// A group column.
    Group(Column),
    /// One value of a column.
    OneValue(Column),
    /// A value that a column has not.
    Exclusion(Column),
    /// All values of a column between two.
    Range(Column),
    /// LO_QUANTITY.
    Quantity,
    /// LO_DISCOUNT.
    Discount,
    /// The order of the rows.
    Order,
}

/// Whether the two are one column, of those that queries read: no other has its name.
pub fn same_column(a: Column, b: Column) -> bool
    ensures { result ≡ spec.same_column a b }
{
    a.name() == b.name()
}

impl Subject {
    // Whether the two are of one subject.
    fn is(self, other: Subject) -> bool
        ensures { result ≡ spec.same_subject self other }
    {
        match (self, other) {
            (Subject::Measure, Subject::Measure)
            | (Subject::Quantity, Subject::Quantity)
            | (Subject::Discount, Subject::Discount)
            | (Subject::Order, Subject::Order) => true,
            (Subject::Group(a), Subject::Group(b))
            | (Subject::OneValue(a), Subject::OneValue(b))
            | (Subject::Exclusion(a), Subject::Exclusion(b))
            | (Subject::Range(a), Subject::Range(b)) => same_column(a, b),
            _ => false,
        }
    }

    fn is_head(self) -> bool
        ensures { result ≡ spec.is_head self }
    {
        matches!(self, Subject::Measure | Subject::Group(_))
    }
}

// What a constant speaks of, if it is a clause.
fn subject_of(constant: &Value) -> Option<Subject>
    ensures { result ≡ spec.subject_of constant.now }
{
    let Value::Text(text) = constant else {
        return None;
    };
    match clause_of(text.as_str())? {
        Clause::Sums(_) => Some(Subject::Measure),
        Clause::GroupsBy(column) => Some(Subject::Group(column)),
        Clause::Is(column, _) => Some(Subject::OneValue(column)),
        Clause::IsNot(column, _) => Some(Subject::Exclusion(column)),
        Clause::FromTo(column, _, _) => Some(Subject::Range(column)),
        Clause::QuantityIn(_) => Some(Subject::Quantity),
        Clause::DiscountIn(_) => Some(Subject::Discount),
        Clause::BySum => Some(Subject::Order),
    }
}

// How many of the constants speak of a subject.
fn count_of(wanted: Subject, constants: &[Value]) -> usize
    ensures { result ≡ spec.count_of wanted (spec.subjects_of constants.now) }
{
    constants
        .iter()
        .filter_map(subject_of)
        .filter(|subject| wanted.is(*subject))
        .count()
}

fn is_absent(wanted: Subject, constants: &[Value]) -> bool
    ensures { result ≡ spec.is_absent wanted (spec.subjects_of constants.now) }
{
    count_of(wanted, constants) == 0
}

// Whether the constants are but the measure and group columns.
fn are_heads(constants: &[Value]) -> bool
    ensures { result ≡ list_all spec.is_head (spec.subjects_of constants.now) }
{
    constants
        .iter()
        .filter_map(subject_of)
        .all(|subject| subject.is_head())
}

// Whether one value more may be excluded of a column behind these constants.
fn may_exclude(earlier: &[Value], column: Column) -> bool
    ensures { result ≡ spec.may_exclude (spec.subjects_of earlier.now) column }
{
    is_absent(Subject::Order, earlier)
        && count_of(Subject::Exclusion(column), earlier) < MOST_VALUES
}

// Whether a clause of the subject may stand behind these constants, which are so many or more.
fn may_follow(place: usize, earlier: &[Value], subject: Subject) -> bool
    ensures { result ≡ spec.may_follow place (spec.subjects_of earlier.now) subject }
{
    match subject {
        Subject::Measure => false,
        Subject::Group(_) => {
            place <= MOST_GROUPS && are_heads(earlier) && is_absent(subject, earlier)
        }
        Subject::OneValue(column) => {
            is_absent(Subject::Order, earlier)
                && is_absent(Subject::Range(column), earlier)
                && count_of(subject, earlier) < MOST_VALUES
        }
        Subject::Exclusion(column) => may_exclude(earlier, column),
        Subject::Range(column) => {
            is_absent(Subject::Order, earlier)
                && is_absent(subject, earlier)
                && is_absent(Subject::OneValue(column), earlier)
        }
        Subject::Quantity | Subject::Discount => {
            is_absent(Subject::Order, earlier) && is_absent(subject, earlier)
        }
        Subject::Order => is_absent(subject, earlier),
    }
}

// Whether a clause of the subject may stand at a place, behind these constants.
fn may_stand_at(place: usize, earlier: &[Value], subject: Option<Subject>) -> bool
    ensures { result ≡ spec.may_stand_at place (spec.subjects_of earlier.now) subject }
{
    match subject {
        None => false,
        Some(subject) => {
            if place == 0 {
                matches!(subject, Subject::Measure)
            } else {
                may_follow(place, earlier, subject)
            }
        }
    }
}

// What the constant at a place speaks of.
fn subject_at(constants: &[Value], place: usize) -> Option<Subject>
    ensures { result ≡ option_and_then spec.subject_of (slice_get constants.now place) }
{
    match constants.get(place) {
        Some(constant) => subject_of(constant),
        None => None,
    }
}

// Whether the constant at a place says what may stand there.
fn may_stand(constants: &[Value], place: usize) -> bool
    requires { place ≤ length constants.now }
    ensures { result ≡ spec.may_stand constants.now place }
{
    place < MOST_CONSTANTS && may_stand_at(place, &constants[..place], subject_at(constants, place))
}

/// The place, from 0, of the first constant that may not stand there in a star question; without constants the first.
pub fn first_bad(constants: &[Value]) -> Option<usize>
    ensures { result ≡ spec.first_bad constants.now }
{
    (0..constants.len().max(1)).find(|place| !may_stand(constants, *place))
}
