//! What a question asks for that no row has.

use crate::column_values::ColumnValues;
use crate::nearest::nearest;
use crate::question_note::QuestionNote;
use ssb_questions::{Cond, NumberRange, Plan, Question, Test, question};
use ssb_schema::{
    C_CITY, C_NATION, C_REGION, Column, P_BRAND1, P_CATEGORY, P_MFGR, S_CITY, S_NATION, S_REGION,
    Text,
};
use std::collections::BTreeSet;
use std::io;
use std::io::Write;
use std::rt::Files;

/// What is told of questions, each note once.
#[derive(Drop)]
pub(crate) struct Notes<'a, F: Files + AllocGlobal> {
    values: ColumnValues<'a, F>,
    told: BTreeSet<String>,
}

// A column and one that it lies in: each value of the first has but one of the second.
static WITHIN: [(Column, Column); 6] = [
    (C_CITY, C_NATION),
    (C_NATION, C_REGION),
    (S_CITY, S_NATION),
    (S_NATION, S_REGION),
    (P_BRAND1, P_CATEGORY),
    (P_CATEGORY, P_MFGR),
];

// Whether a value is a number of this range.
fn lies_in(value: &str, from: u64, to: u64) -> bool {
    match value.parse::<u64>() {
        Ok(number) => from <= number && number <= to,
        Err(_) => false,
    }
}

// Whether a plan groups by a column, or tests it.
fn uses(plan: &Plan, column: Column) -> bool {
    let is_tested = |tests: &[Test]| tests.iter().any(|test| test.column == column);
    plan.groups.as_slice().iter().any(|own| *own == column)
        || is_tested(plan.customers.as_slice())
        || is_tested(plan.suppliers.as_slice())
        || is_tested(plan.parts.as_slice())
}

impl<'a, F: Files + AllocGlobal> Notes<'a, F> {
    /// None yet, on questions over these values.
    pub(crate) fn new(values: ColumnValues<'a, F>) -> Notes<'a, F> {
        let told = BTreeSet::new(values.files.alloc());
        Notes { values, told }
    }
}

// Writes a note, if it was not told.
fn tell<E: Write>(told: &mut BTreeSet<String>, text: String, err: &mut E) -> io::Result<()> {
    if told.contains(text.as_str()) {
        return Ok(());
    }
    writeln!(err, "note: {text}")?;
    told.insert(text)?;
    Ok(())
}

// Says that no row has a value, where none has.
fn note_value<F: Files + AllocGlobal, E: Write>(
    notes: &mut Notes<'_, F>,
    column: Column,
    value: &str,
    err: &mut E,
) -> io::Result<()> {
    let alloc = notes.values.files.alloc();
    let Some(values) = notes.values.of(column) else {
        return Ok(());
    };
    if values.contains(value) {
        return Ok(());
    }
    let note = QuestionNote::NoRow(column, value, values);
    tell(&mut notes.told, format!(in alloc; "{note}")?, err)?;
    let mut names = Vec::new(alloc);
    for name in values.iter() {
        names.push(name.as_str())?;
    }
    match nearest(alloc, value, names.as_slice(), 1)? {
        Some(near) => {
            let note = QuestionNote::DidYouMean(near);
            tell(&mut notes.told, format!(in alloc; "{note}")?, err)
        }
        None => Ok(()),
    }
}

fn note_number<F: Files + AllocGlobal, E: Write>(
    notes: &mut Notes<'_, F>,
    column: Column,
    number: u64,
    err: &mut E,
) -> io::Result<()> {
    let text = format!(in notes.values.files.alloc(); "{number}")?;
    note_value(notes, column, text.as_str(), err)
}

// Says that the ends of a range are turned round.
fn note_turned<'x, F: Files + AllocGlobal, E: Write>(
    notes: &mut Notes<'_, F>,
    name: &'x str,
    from: &'x str,
    to: &'x str,
    err: &mut E,
) -> io::Result<()> {
    let note = QuestionNote::TurnedRound(name, from, to);
    let text = format!(in notes.values.files.alloc(); "{note}")?;
    tell(&mut notes.told, text, err)
}

// Says that none of the values of a column lies in a range.
fn note_none_between<F: Files + AllocGlobal, E: Write>(
    notes: &mut Notes<'_, F>,
    column: Column,
    range: &str,
    err: &mut E,
) -> io::Result<()> {
    let alloc = notes.values.files.alloc();
    let Some(values) = notes.values.of(column) else {
        return Ok(());
    };
    let note = QuestionNote::NoneBetween(column, range, values);
    tell(&mut notes.told, format!(in alloc; "{note}")?, err)
}

// Says that a range of numbers holds nothing, where it does.
fn note_numbers<F: Files + AllocGlobal, E: Write>(
    notes: &mut Notes<'_, F>,
    column: Column,
    from: u64,
    to: u64,
    err: &mut E,
) -> io::Result<()> {
    let holds = match notes.values.of(column) {
        Some(values) => values.iter().any(|value| lies_in(value.as_str(), from, to)),
        None => true,
    };
    if holds {
        return Ok(());
    }
    let alloc = notes.values.files.alloc();
    let first = format!(in alloc; "{from}")?;
    let last = format!(in alloc; "{to}")?;
    if from > to {
        return note_turned(notes, column.name(), first.as_str(), last.as_str(), err);
    }
    let range = format!(in alloc; "{from} to {to}")?;
    note_none_between(notes, column, range.as_str(), err)
}

// Says that a range of texts holds nothing, where it does.
fn note_texts<F: Files + AllocGlobal, E: Write>(
    notes: &mut Notes<'_, F>,
    column: Column,
    from: &Text,
    to: &Text,
    err: &mut E,
) -> io::Result<()> {
    let (first, last) = (from.as_str(), to.as_str());
    if from > to {
        return note_turned(notes, column.name(), first, last, err);
    }
    let holds = match notes.values.of(column) {
        Some(values) => values
            .iter()
            .any(|value| first <= value.as_str() && value.as_str() <= last),
        None => true,
    };
    if holds {
        return Ok(());
    }
    let range = format!(in notes.values.files.alloc(); "{first} to {last}")?;
    note_none_between(notes, column, range.as_str(), err)
}

// Says which of the values that a test looks for no row has.
fn note_test<F: Files + AllocGlobal, E: Write>(
    notes: &mut Notes<'_, F>,
    test: &Test,
    err: &mut E,
) -> io::Result<()> {
    let column = test.column;
    notes.values.load(column)?;
    match &test.cond {
        Cond::TextIs(text) => note_value(notes, column, text.as_str(), err),
        Cond::TextOneOf(texts) => {
            for text in texts.as_slice() {
                note_value(notes, column, text.as_str(), err)?;
            }
            Ok(())
        }
        Cond::TextNoneOf(texts) => {
            for text in texts.as_slice() {
                note_value(notes, column, text.as_str(), err)?;
            }
            Ok(())
        }
        Cond::NumberIs(number) => note_number(notes, column, *number, err),
        Cond::NumberOneOf(numbers) => {
            for number in numbers.as_slice() {
                note_number(notes, column, *number, err)?;
            }
            Ok(())
        }
        Cond::NumberNoneOf(numbers) => {
            for number in numbers.as_slice() {
                note_number(notes, column, *number, err)?;
            }
            Ok(())
        }
        Cond::TextFromTo(from, to) => note_texts(notes, column, from, to, err),
        Cond::NumberFromTo(from, to) => note_numbers(notes, column, *from, *to, err),
    }
}

fn note_tests<F: Files + AllocGlobal, E: Write>(
    notes: &mut Notes<'_, F>,
    tests: &[Test],
    err: &mut E,
) -> io::Result<()> {
    for test in tests {
        note_test(notes, test, err)?;
    }
    Ok(())
}

// Says that the ends of a range of a line's column are turned round, where they are.
fn note_line_range<F: Files + AllocGlobal, E: Write>(
    notes: &mut Notes<'_, F>,
    name: &str,
    range: Option<NumberRange>,
    err: &mut E,
) -> io::Result<()> {
    let Some(range) = range else {
        return Ok(());
    };
    if range.from <= range.to {
        return Ok(());
    }
    let alloc = notes.values.files.alloc();
    let first = format!(in alloc; "{}", range.from)?;
    let last = format!(in alloc; "{}", range.to)?;
    note_turned(notes, name, first.as_str(), last.as_str(), err)
}

// Says which values a plan looks for that no row has, and which ranges hold nothing.
fn note_plan<F: Files + AllocGlobal, E: Write>(
    notes: &mut Notes<'_, F>,
    plan: &Plan,
    err: &mut E,
) -> io::Result<()> {
    note_line_range(notes, "LO_QUANTITY", plan.quantity, err)?;
    note_line_range(notes, "LO_DISCOUNT", plan.discount, err)?;
    note_tests(notes, plan.customers.as_slice(), err)?;
    note_tests(notes, plan.suppliers.as_slice(), err)?;
    note_tests(notes, plan.parts.as_slice(), err)?;
    note_tests(notes, plan.dates.as_slice(), err)
}

// Says that a column has fewer values than one that it lies in, where it has.
fn note_within<F: Files + AllocGlobal, E: Write>(
    notes: &mut Notes<'_, F>,
    within: Column,
    column: Column,
    err: &mut E,
) -> io::Result<()> {
    let fewer = notes.values.count(within)?;
    let more = notes.values.count(column)?;
    if more <= fewer {
        return Ok(());
    }
    let note = QuestionNote::MoreThanWithin(column, more, within, fewer);
    let text = format!(in notes.values.files.alloc(); "{note}")?;
    tell(&mut notes.told, text, err)
}

/// Says which values a question looks for that no row of the tables has, and which ranges hold nothing, where its tests
/// are looked at; and whether columns that it uses changed places in a table.
pub(crate) fn note_question<F: Files + AllocGlobal, E: Write>(
    notes: &mut Notes<'_, F>,
    asked: &Question,
    looks_at_tests: bool,
    err: &mut E,
) -> io::Result<()> {
    let plan = question::plan(notes.values.files.alloc(), asked)?;
    if looks_at_tests {
        note_plan(notes, &plan, err)?;
    }
    for (within, column) in WITHIN.iter().copied() {
        if uses(&plan, within) || uses(&plan, column) {
            note_within(notes, within, column, err)?;
        }
    }
    Ok(())
}
