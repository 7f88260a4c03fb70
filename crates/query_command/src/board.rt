//! A board: the reports that a file asks for, each under its title.

ghost use Rattle.std.specs.Prelude.{◌≡◌, ◌≤◌, ℕ, List, Some, IfOk, IfErr, MatchOption, false, map, true};
ghost use Rattle.csv.specs.Records.{fields_of};
ghost use Rattle.query_command.specs.Asked.{IsAsked};
ghost use Rattle.query_command.specs.Board as spec;
ghost use Rattle.query_command.specs.Board.{Asks, IsBoard, IsBoardFault, IsLine, IsLineFault, IsQuestionFault, IsRefusal};
ghost use Rattle.query_command.specs.Board.{IsSqlFault};
ghost use Rattle.query_command.specs.Board.{board_status, fault_of_read};
ghost use Rattle.query_command.specs.declared.board.BoardFault.TheVariants.{OutOfMemory};
ghost use Rattle.ssb_text.specs.Spelling.{field, is_utf8};

use crate::asked::ask;
use crate::asking::ReportAsked;
use csv::ByteRecord;
use ssb_files::{Fault, Finding};
use ssb_questions::{ConstantsFault, NoSuchQuery, Question};
use ssb_schema::Text;
use ssb_sql::{SqlFault, Statement, statement_of};
use ssb_text::{ReadError, next_record, record_reader, text, trimmed_at};
use std::alloc::{AllocError, AllocFailed, Global};
use std::io::Read;
use thiserror::Error;

/// The most lines of a board.
pub const MOST_REPORTS: u64 = 64;

/// Why a line of a board asks for no report.
#[derive(Clone, Copy, Debug, PartialEq, Eq, Error)]
pub enum BoardLineFault {
    /// No query has the name.
    #[error("{0}")]
    NoSuchQuery(NoSuchQuery),
    /// The query does not take these constants.
    #[error("{0}")]
    Constants(ConstantsFault),
    /// The text behind `sql` is no statement.
    #[error("{0}")]
    Sql(SqlFault),
    /// There is no bar, or nothing before it.
    #[error("33 NoTitle")]
    NoTitle,
    /// A field is no UTF-8.
    #[error("34 NotUtf8")]
    NotUtf8,
    /// There are 64 lines before it.
    #[error("35 TooManyReports")]
    TooManyReports,
}

/// A board without lines.
#[derive(Clone, Copy, Debug, PartialEq, Eq, Error)]
#[error("36 NoReports")]
pub struct NoReports;

/// Why a text is no board. Lines are numbered from 1; those of no bytes are not counted.
#[derive(Clone, Copy, Debug, PartialEq, Eq, Error)]
pub enum BoardFault {
    /// The first line that asks for no report.
    #[error("board: line {0}: {1}")]
    Line(u64, BoardLineFault),
    /// There is no line.
    #[error("board: {0}")]
    NoReports(NoReports),
    /// The reader underneath failed.
    #[error("board: 75 Read")]
    Read,
    /// Memory ran out.
    #[error("out of memory")]
    OutOfMemory,
}

impl Finding for BoardFault {
    ghost found_status = { board_status };

    fn status(&self) -> u8 {
        match self {
            BoardFault::Line(_, _) | BoardFault::NoReports(_) => 2,
            BoardFault::Read | BoardFault::OutOfMemory => 4,
        }
    }
}

impl From<AllocError> for BoardFault {
    ghost from_gives = { λ _ e. e ≡ OutOfMemory };

    fn from(_e: AllocError) -> BoardFault {
        BoardFault::OutOfMemory
    }
}

impl<T: Drop> From<AllocFailed<T>> for BoardFault {
    ghost from_gives = { λ _ e. e ≡ OutOfMemory };

    fn from(_e: AllocFailed<T>) -> BoardFault {
        BoardFault::OutOfMemory
    }
}

impl From<ReadError> for BoardFault {
    ghost from_gives = { λ why e. e ≡ fault_of_read why };

    fn from(why: ReadError) -> BoardFault {
        match why {
            ReadError::Read => BoardFault::Read,
            ReadError::OutOfMemory => BoardFault::OutOfMemory,
        }
    }
}

/// The titles of a board, and what is reported under each.
#[derive(Drop)]
pub struct Board {
    pub titles: Vec<Text>,
    pub asked: Vec<ReportAsked>,
}

// A line of a board.
#[derive(Drop)]
struct BoardLine {
    title: Text,
    asked: ReportAsked,
}

// A field without the spaces at its end, if it is UTF-8.
fn cell_at(fields: &ByteRecord, place: usize) -> Option<&str>
    ensures { MatchOption result (is_utf8 (field (fields_of fields.now) place) ≡ false)
        (λ cell. cell.now ≡ field (fields_of fields.now) place) }
{
    text(trimmed_at(fields, place))
}

// The fields behind the name, if all are UTF-8.
fn words_of(alloc: Global, fields: &ByteRecord) -> Result<Option<Vec<&str>>, AllocError>
    ensures { IfOk result (λ found. MatchOption found
        ((place : ℕ) × (is_utf8 (field (fields_of fields.now) place) ≡ false))
        (λ words. map (λ word. word.now) words.items ≡ spec.words_of (fields_of fields.now))) }
{
    let mut words = Vec::new(alloc);
    for place in 2..fields.len() {
        let Some(word) = cell_at(fields, place) else {
            return Ok(None);
        };
        words.push(word)?;
    }
    Ok(Some(words))
}

// Whether a line has a title, and a field behind it.
fn has_title(fields: &ByteRecord) -> bool
    ensures { result ≡ spec.has_title (fields_of fields.now) }
{
    !trimmed_at(fields, 0).is_empty() && fields.len() > 1
}

// The question of a name and words on the line of this number.
fn question_of(
    alloc: Global,
    number: u64,
    name: &str,
    words: &[&str],
) -> Result<Question, BoardFault>
    ensures question { IfOk result (λ question. IsAsked name.now (map (λ word. word.now) words.now) question) }
    ensures fault { IfErr result
        (IsRefusal (IsQuestionFault name.now (map (λ word. word.now) words.now)) number) }
{
    match ask(alloc, name, words) {
        Ok(question) => Ok(question),
        Err(Fault::NoSuchQuery(why)) => {
            Err(BoardFault::Line(number, BoardLineFault::NoSuchQuery(why)))
        }
        Err(Fault::Constants(why)) => Err(BoardFault::Line(number, BoardLineFault::Constants(why))),
        Err(_) => Err(BoardFault::OutOfMemory),
    }
}

// The statement of words on the line of this number: bars in a text part it into words.
fn statement_in(alloc: Global, number: u64, words: &[&str]) -> Result<Statement, BoardFault>
    ensures { IfErr result (IsRefusal IsSqlFault number) }
{
    let text = words.join(alloc, "|")?;
    match statement_of(alloc, text.as_str()) {
        Ok(statement) => Ok(statement),
        Err(SqlFault::OutOfMemory) => Err(BoardFault::OutOfMemory),
        Err(why) => Err(BoardFault::Line(number, BoardLineFault::Sql(why))),
    }
}

// What a name and words ask on the line of this number.
fn asked_by(
    alloc: Global,
    number: u64,
    name: &str,
    words: &[&str],
) -> Result<ReportAsked, BoardFault>
    ensures asked { IfOk result (λ asked. Asks name.now (map (λ word. word.now) words.now) asked) }
    ensures fault { IfErr result
        (IsRefusal (IsQuestionFault name.now (map (λ word. word.now) words.now)) number) }
{
    if name == "sql" {
        return Ok(ReportAsked::Statement(statement_in(alloc, number, words)?));
    }
    Ok(ReportAsked::Question(question_of(alloc, number, name, words)?))
}

// The line of this number that a record makes.
fn line_of(alloc: Global, number: u64, fields: &ByteRecord) -> Result<BoardLine, BoardFault>
    ensures line { IfOk result (λ line. IsLine (fields_of fields.now) line.title line.asked) }
    ensures fault { IfErr result (IsRefusal (IsLineFault (fields_of fields.now)) number) }
{
    let Some(title) = cell_at(fields, 0) else {
        return Err(BoardFault::Line(number, BoardLineFault::NotUtf8));
    };
    let Some(name) = cell_at(fields, 1) else {
        return Err(BoardFault::Line(number, BoardLineFault::NotUtf8));
    };
    let Some(words) = words_of(alloc, fields)? else {
        return Err(BoardFault::Line(number, BoardLineFault::NotUtf8));
    };
    if !has_title(fields) {
        return Err(BoardFault::Line(number, BoardLineFault::NoTitle));
    }
    let asked = asked_by(alloc, number, name, words.as_slice())?;
    let title = Text::from_str(alloc, title)?;
    Ok(BoardLine { title, asked })
}

// Whether no line stands before.
fn is_first(before: u64) -> bool
    ensures yes { result ≡ true → before ≡ 0 }
    ensures no { result ≡ false → 1 ≤ before }
{
    before == 0
}

/// Reads a board of 1 to 64 lines to its end. The error is that of the first line that asks for no report, or of the
/// 65th.
pub fn read_board<R: Read + Drop>(alloc: Global, source: R) -> Result<Board, BoardFault>
    ensures board { IfOk result (λ board. (text : List ℕ) → R.remaining source ≡ Some text
        → IsBoard text board.titles.items board.asked.items) }
    ensures fault { IfErr result (λ fault. (text : List ℕ) → R.remaining source ≡ Some text
        → IsBoardFault text fault) }
{
    let mut reader = record_reader(alloc, source);
    let mut fields = ByteRecord::new(alloc);
    let mut titles = Vec::new(alloc);
    let mut asked = Vec::new(alloc);
    for before in 0..MOST_REPORTS {
        if !next_record(&mut reader, &mut fields)? {
            if is_first(before) {
                return Err(BoardFault::NoReports(NoReports));
            }
            return Ok(Board { titles, asked });
        }
        let line = line_of(alloc, before + 1, &fields)?;
        titles.push(line.title)?;
        asked.push(line.asked)?;
    }
    if next_record(&mut reader, &mut fields)? {
        return Err(BoardFault::Line(MOST_REPORTS + 1, BoardLineFault::TooManyReports));
    }
    Ok(Board { titles, asked })
}
