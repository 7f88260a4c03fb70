//! The rows of a statement, as its questions' answers give them.

use ssb_questions::Value;

/// What stands in a row of a statement.
#[derive(Debug)]
pub enum StatementCell {
    /// The value of a group column.
    Plain(Option<Value>),
    /// A sum or a number of lines, or NULL.
    Number(Option<i64>),
    /// An average in ten-thousandths, or NULL.
    Decimal(Option<i128>),
}

impl Drop for StatementCell {
    fn drop(self) {
        match self {
            StatementCell::Plain(_) => {}
            StatementCell::Number(_) => {}
            StatementCell::Decimal(_) => {}
        }
    }
}
