//! Averages, and how cells stand to numbers.
ghost use Rattle.std.specs.Prelude.{◌≡◌, ◌≤◌, ◌<◌, ◌^◌, ◌+ℤ◌, ◌≤ℤ◌, ℤ, pos, neg_ℤ};
ghost use Rattle.ssb_statements.specs.Arranged.{number_of};
ghost use Rattle.ssb_statements.specs.Statement as spec;

use crate::cell::StatementCell;
use ssb_sql::{Comparison, SignedNumber};
use std::cmp::Ordering;

// A size of at most 100 bits, with the sign of a sum.
fn with_sign_of(sum: i64, size: u128) -> i128
    requires { size < 2 ^ 100 }
    ensures { result ≡ spec.with_sign_of sum size }
{
    let size = size as i128;
    if sum < 0 { -size } else { size }
}

// A sum by a number of lines, in ten-thousandths; halves are rounded away from 0.
#[tactic(auto, using(crate::proofs::KeptLaws::small_quotient))]
fn quotient(sum: i64, lines: u64) -> i128
    requires { 0 < lines }
    ensures { result ≡ spec.quotient sum lines }
{
    let lines = u128::from(lines);
    let twice = u128::from(sum.unsigned_abs()) * 20_000 + lines;
    with_sign_of(sum, twice / (2 * lines))
}

/// The same of a sum that may be NULL; none over no lines.
pub(crate) fn average(sum: Option<i64>, lines: i64) -> Option<i128>
    ensures { result ≡ spec.average sum lines }
{
    match sum {
        Some(sum) if lines > 0 => Some(quotient(sum, lines.unsigned_abs())),
        _ => None,
    }
}

/// The number that is written so.
pub(crate) fn number_of(number: SignedNumber) -> i128
    ensures value { result ≡ number_of number }
    ensures low { neg_ℤ (pos (2 ^ 64)) ≤ℤ result }
    ensures high { result ≤ℤ pos (2 ^ 64) }
{
    if number.is_negative {
        -i128::from(number.size)
    } else {
        i128::from(number.size)
    }
}

// How a cell stands to a number of 64 bits; NULL stands to none, nor does the value of a column.
fn compare_cell(cell: &StatementCell, number: i128) -> Option<Ordering>
    requires low { neg_ℤ (pos (2 ^ 64)) ≤ℤ number }
    requires high { number ≤ℤ pos (2 ^ 64) }
    ensures { result ≡ spec.cell_cmp cell.now number }
{
    match cell {
        StatementCell::Number(Some(own)) => Some(i128::from(*own).cmp(&number)),
        StatementCell::Decimal(Some(own)) => Some(own.cmp(&(number * 10_000))),
        _ => None,
    }
}

// Whether a comparison holds of what stands so.
fn holds(how: Comparison, stands: Option<Ordering>) -> bool
    ensures { result ≡ spec.holds how stands }
{
    match stands {
        None => false,
        Some(stands) => match how {
            Comparison::Equal => stands.is_eq(),
            Comparison::NotEqual => !stands.is_eq(),
            Comparison::Less => stands.is_lt(),
            Comparison::LessOrEqual => stands.is_le(),
            Comparison::Greater => stands.is_gt(),
            Comparison::GreaterOrEqual => stands.is_ge(),
        },
    }
}

/// Whether a cell passes a test.
pub(crate) fn passes(how: Comparison, number: i128, cell: &StatementCell) -> bool
    requires low { neg_ℤ (pos (2 ^ 64)) ≤ℤ number }
    requires high { number ≤ℤ pos (2 ^ 64) }
    ensures { result ≡ spec.passes how number cell.now }
{
    holds(how, compare_cell(cell, number))
}
