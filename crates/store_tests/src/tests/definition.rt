//! The definition of answers, which no program runs.

use crate::tests::reads;
use row_store::{Commit, PlainLines, Replica};
use small_data::stored;
use ssb_answers::{Answer, QUERIES, Question, evaluate};
use ssb_base::{Base, MOST_LINES};
use ssb_report::write_answer;
use ssb_schema::Line;
use std::alloc::Global;
use std::process::Abort;
use std::sync::Arc;
use std::test::Fail;
use test_fixtures::{asking, refresh, standard_base};

// Writes the report of a question over these lines.
fn report(
    alloc: Global,
    base: &Base,
    lines: &[Line],
    question: &Question,
    reports: &mut Vec<u8>,
) -> Result<(), Fail> {
    if lines.len() > MOST_LINES {
        return Err("too many lines")?;
    }
    let found = evaluate(alloc, base, lines, question)?;
    let answer = Answer::Rows {
        question: found.question,
        at: 0,
        rows: found.list,
    };
    Ok(write_answer(reports, &answer)?)
}

#[test]
fn the_definition_gives_the_thirteen_reports(rt: HostRuntime) -> Result<(), Fail> {
    let alloc = rt.alloc();
    let base = standard_base(&rt, alloc)?;
    let mut reports = Vec::new(alloc);
    for query in &QUERIES {
        let question = Question::standard(alloc, *query)?;
        report(alloc, &base, base.lines(), &question, &mut reports)?;
    }
    reads(&rt, str::from_utf8(reports.as_slice())?, stored::THIRTEEN);
    Ok(())
}

// Takes a commit of these actions.
fn take(alloc: Global, lines: &mut PlainLines, actions: &str) -> Result<(), Fail> {
    let refresh = refresh(alloc, actions)?;
    Ok(lines.absorb(&Commit { client: 1, refresh })?)
}

const DATES: [&str; 4] = ["19930101", "19940105", "19940208", "19971215"];

// Adds the order of this number, whose one line is that of the cases `questions_over_..`.
fn add(alloc: Global, lines: &mut PlainLines, number: usize) -> Result<(), Fail> {
    let (customer, part, supplier) = (number % 3 + 1, number % 4 + 1, number % 9 / 3 + 1);
    let (date, quantity, discount) = (DATES[number / 2 % 4], number % 50 + 1, number % 11);
    let price = number.wrapping_mul(10);
    let revenue = number.wrapping_mul(7).wrapping_add(1);
    let cost = number.wrapping_mul(3);
    let order = format!(in alloc;
        "add\nline|{number}|1|{customer}|{part}|{supplier}|{date}|o|0|{quantity}|{price}|0|{discount}\
         |{revenue}|{cost}|0|19930101|AIR\n"
    )?;
    take(alloc, lines, &order)
}

// The first so many of these lines, in the place of those of the small data set.
fn first_lines(alloc: Global, base: &Arc<Base>, count: usize) -> Result<PlainLines, Fail> {
    let mut lines = PlainLines::new(alloc, Arc::try_clone(base)?)?;
    take(alloc, &mut lines, "withdraw|1\nwithdraw|2\nwithdraw|3\n")?;
    for before in 0..count {
        add(alloc, &mut lines, before + 1)?;
    }
    Ok(lines)
}

// Withdraws every third of so many orders.
fn withdraw_thirds(alloc: Global, lines: &mut PlainLines, count: usize) -> Result<(), Fail> {
    for before in 0..count {
        let number = before + 1;
        if number % 3 == 0 {
            take(alloc, lines, &format!(in alloc; "withdraw|{number}\n")?)?;
        }
    }
    Ok(())
}

// The reports of three questions over the lines: how many there are, the quantities by year, and Q4.1.
fn three_reports(alloc: Global, base: &Base, lines: &PlainLines) -> Result<String, Fail> {
    let mut reports = Vec::new(alloc);
    for question in asking(alloc, "star|COUNT star|LO_QUANTITY|D_YEAR Q4.1")?.as_slice() {
        report(alloc, base, lines.lines(), question, &mut reports)?;
    }
    Ok(String::from_utf8(reports)?)
}

const NO_LINES: &str = "star at 0 rows 1\nNULL\nstar at 0 rows 0\nQ4.1 at 0 rows 0\n";

const ONE_LINE: &str = "star at 0 rows 1\n1\nstar at 0 rows 1\n1993|2\nQ4.1 at 0 rows 0\n";

// How many lines there are, and the quantities of 1993, 1994 and 1997.
type Counts = (u32, u32, u32, u32);

// Lines, and what SQLite gives: over them, after every third order was withdrawn, and for Q4.1 in both.
const OVER_LINES: &[(usize, Counts, Counts, (u32, u32, u32))] = &[
    (
        63,
        (63, 371, 640, 368),
        (42, 245, 415, 255),
        (102, 636, 249),
    ),
    (
        64,
        (64, 386, 640, 368),
        (43, 260, 415, 255),
        (102, 636, 249),
    ),
    (
        65,
        (65, 402, 640, 368),
        (44, 276, 415, 255),
        (102, 636, 249),
    ),
    (
        4099,
        (4099, 26186, 52227, 26136),
        (2733, 17426, 34851, 17423),
        (925110, 1874844, 933321),
    ),
];

// What is told of so many lines.
fn told(alloc: Global, counts: Counts, profits: (u32, u32, u32)) -> Result<String, Fail> {
    let (count, in_1993, in_1994, in_1997) = counts;
    let (of_1993, of_1994, of_1997) = profits;
    Ok(format!(in alloc;
        "star at 0 rows 1\n{count}\n\
         star at 0 rows 3\n1993|{in_1993}\n1994|{in_1994}\n1997|{in_1997}\n\
         Q4.1 at 0 rows 3\n1993|UNITED STATES|{of_1993}\n1994|UNITED STATES|{of_1994}\n\
         1997|UNITED STATES|{of_1997}\n"
    )?)
}

// The definition gives this over so many lines, and this after every third order was withdrawn.
fn gives<A: Abort>(
    rt: &A,
    alloc: Global,
    base: &Arc<Base>,
    count: usize,
    all: &str,
    left: &str,
) -> Result<(), Fail> {
    let mut lines = first_lines(alloc, base, count)?;
    reads(rt, &three_reports(alloc, base, &lines)?, all);
    withdraw_thirds(alloc, &mut lines, count)?;
    reads(rt, &three_reports(alloc, base, &lines)?, left);
    Ok(())
}

#[test]
fn the_definition_gives_what_sqlite_gives(rt: HostRuntime) -> Result<(), Fail> {
    let alloc = rt.alloc();
    let base = standard_base(&rt, alloc)?;
    gives(&rt, alloc, &base, 0, NO_LINES, NO_LINES)?;
    gives(&rt, alloc, &base, 1, ONE_LINE, ONE_LINE)?;
    for (count, all, left, profits) in OVER_LINES {
        let all = told(alloc, *all, *profits)?;
        let left = told(alloc, *left, *profits)?;
        gives(&rt, alloc, &base, *count, &all, &left)?;
    }
    Ok(())
}
