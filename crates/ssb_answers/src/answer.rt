//! What a query answers.
ghost use Rattle.std.specs.Prelude.{◌≡◌, ◌↔◌, IsTrue};
ghost use Rattle.std.specs.Cmp.{partial_equiv_from_equiv};
ghost use Rattle.ssb_answers.specs.AnswerEq.{row_eq, rows_eq, cause_eq, answer_eq};
ghost use Rattle.ssb_answers.specs.AnswerEqLaws.{row_eq-equiv, rows_eq-equiv, cause_eq-equiv, answer_eq-equiv};

use ssb_questions::{Question, Value};
use ssb_schema::Items;

/// One row of an answer: the values of the group columns in printed order, and the sum over the
/// row's combinations, which is `None` (NULL) where there is no combination.
#[derive(Debug)]
pub struct ResultRow {
    pub groups: Items<Value>,
    pub sum: Option<i64>,
}

impl Drop for ResultRow {
    fn drop(self) {
        let ResultRow { groups: _, sum: _ } = self;
    }
}

/// The rows that answer a question, in the order of its plan.
#[derive(Debug, Drop)]
pub struct Rows {
    pub question: Question,
    pub list: Items<ResultRow>,
}

/// What a client gets for a question.
#[derive(Debug, Drop)]
pub enum Answer {
    /// The rows over the warehouse as it stood after the first `at` commits.
    Rows {
        question: Question,
        at: u64,
        rows: Items<ResultRow>,
    },
    /// No rows; the client may ask again.
    Unserved {
        question: Question,
        cause: Unserved,
    },
}

/// Why a question was not answered by rows.
#[derive(Clone, Copy, Debug)]
pub enum Unserved {
    /// There was no memory for the rows, or for the commits that they are over.
    OutOfMemory,
    /// The copy of the secondary replica that was entered holds another number of commits than was
    /// told (BatchDB, section 5: a batch reads one snapshot).
    Twin { told: u64, found: u64 },
}

impl PartialEq for ResultRow {
    ghost eq = { row_eq };

    ghost laws = { partial_equiv_from_equiv row_eq-equiv };

    fn eq(&self, other: &ResultRow) -> bool
        ensures value { result ≡ row_eq self.now other.now }
        ensures same { IsTrue result ↔ (self.now ≡ other.now) }
    {
        self.groups == other.groups && self.sum == other.sum
    }
}

impl Eq for ResultRow {
    ghost laws = { row_eq-equiv };
}

impl PartialEq for Rows {
    ghost eq = { rows_eq };

    ghost laws = { partial_equiv_from_equiv rows_eq-equiv };

    fn eq(&self, other: &Rows) -> bool
        ensures value { result ≡ rows_eq self.now other.now }
        ensures same { IsTrue result ↔ (self.now ≡ other.now) }
    {
        self.question == other.question && self.list == other.list
    }
}

impl Eq for Rows {
    ghost laws = { rows_eq-equiv };
}

impl PartialEq for Unserved {
    ghost eq = { cause_eq };

    ghost laws = { partial_equiv_from_equiv cause_eq-equiv };

    fn eq(&self, other: &Unserved) -> bool
        ensures value { result ≡ cause_eq self.now other.now }
        ensures same { IsTrue result ↔ (self.now ≡ other.now) }
    {
        match (self, other) {
            (Unserved::OutOfMemory, Unserved::OutOfMemory) => true,
            (
                Unserved::Twin { told, found },
                Unserved::Twin {
                    told: other_told,
                    found: other_found,
                },
            ) => { told == other_told && found == other_found }
            _ => false,
        }
    }
}

impl Eq for Unserved {
    ghost laws = { cause_eq-equiv };
}

impl PartialEq for Answer {
    ghost eq = { answer_eq };

    ghost laws = { partial_equiv_from_equiv answer_eq-equiv };

    fn eq(&self, other: &Answer) -> bool
        ensures value { result ≡ answer_eq self.now other.now }
        ensures same { IsTrue result ↔ (self.now ≡ other.now) }
    {
        match (self, other) {
            (
                Answer::Rows { question, at, rows },
                Answer::Rows {
                    question: other_question,
                    at: other_at,
                    rows: other_rows,
                },
            ) => question == other_question && at == other_at && rows == other_rows,
            (
                Answer::Unserved { question, cause },
                Answer::Unserved {
                    question: other_question,
                    cause: other_cause,
                },
            ) => question == other_question && cause == other_cause,
            _ => false,
        }
    }
}

impl Eq for Answer {
    ghost laws = { answer_eq-equiv };
}

/// Whether two lists of rows are the same, row by row.
pub fn same_rows(a: &[ResultRow], b: &[ResultRow]) -> bool
    ensures { IsTrue result ↔ (a.now ≡ b.now) }
{
    a == b
}
