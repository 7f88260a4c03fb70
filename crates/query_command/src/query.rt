//! `query`: the answers to one question, to all thirteen queries or to a board over the base of a source.

ghost use Rattle.std.specs.Prelude.{◌≡◌, ◌≢◌, ◌⊎◌, ℕ, List, false, IfOk, IfErr, OnOk, OnErr, MatchResult};
ghost use Rattle.std.specs.Prelude.{Some, flat_map, map};
ghost use Rattle.base_source.specs.Over.{IsOver};
ghost use Rattle.query_command.specs.Asked.{AskNothing};
ghost use Rattle.query_command.specs.Board.{IsRefusedBoard};
ghost use Rattle.query_command.specs.BoardReported.{ReportsBoard, ReportsBoardPart};
ghost use Rattle.query_command.specs.Reported.{Reports, ReportsPart, ReportsAll, ReportsAllPart, answers_over};
ghost use Rattle.query_command.specs.ReportsAsked.{HasReports, questions_in};
ghost use Rattle.ssb_files.specs.Status.{status_of};
ghost use Rattle.ssb_formats.specs.Formats.{answers_shown};
ghost use Rattle.ssb_formats.specs.Titled.{board_shown};
ghost use Rattle.ssb_text.specs.Written.{AppendsPart};
ghost use Rattle.std.specs.Io.KnownBytes.{Appends, Keeps};

use crate::asked::{QuestionWords, ask, standard_questions};
use crate::asking::{ReportAsked, questions_of, reports_of};
use crate::board::{Board, read_board};
use crate::opening::opening_answers;
use crate::stopwatch::{Stopwatch, TimedStep};
use base_source::{BaseSource, SourcedBase};
use ssb_answers::Answer;
use ssb_files::{Fault, JobFault};
use ssb_formats::{Format, FormatFault, Reported, write_board, write_formatted};
use ssb_questions::Question;
use ssb_schema::Text;
use std::alloc::{AllocError, Global};
use std::hash::RandomState;
use std::io::{Read, Write};
use std::thread::Threads;
use std::time::Clock;

/// How questions are answered, whichever they are.
#[derive(Drop)]
pub struct Settings {
    /// Hashes the keys of the loaded orders; at random, so that no data can make them collide.
    pub hashing: RandomState,
    /// Whether the times of the steps are told on standard error.
    pub times: bool,
    /// How the answers are written.
    pub format: Format,
}

// The answers to the questions of reports, over a base.
pub(crate) fn asked_answers<R: Threads + Sync + Clock + AllocGlobal>(
    rt: &R,
    hashing: RandomState,
    sourced: SourcedBase,
    asked: &[ReportAsked],
    watch: &mut Stopwatch,
) -> Result<Vec<Answer>, AllocError>
    ensures { IfOk result (λ answers. answers.items
        ≡ answers_over sourced.base sourced.after (flat_map questions_in asked.now)) }
{
    let questions = questions_of(rt.alloc(), asked)?;
    opening_answers(
        rt,
        rt.alloc(),
        hashing,
        sourced,
        questions.as_slice(),
        watch,
    )
}

pub(crate) fn fault_of(fault: FormatFault) -> Fault
    ensures { status_of result ≡ 4 }
{
    match fault {
        FormatFault::OutOfMemory => Fault::OutOfMemory,
        FormatFault::WriteFailed => Fault::WriteFailed,
    }
}

// Has a writer hand on what it holds.
pub(crate) fn hand_on<W: Write>(out: &mut W) -> Result<(), Fault>
    ensures kept { Keeps (W.contents out.old) (W.contents out.new) }
    ensures fault { IfErr result (λ fault. status_of fault ≡ 4) }
{
    match out.flush() {
        Ok(()) => Ok(()),
        Err(_) => Err(Fault::WriteFailed),
    }
}

// Writes answers, and has the writer hand on what it holds.
fn write<W: Write>(
    alloc: Global,
    format: Format,
    answers: &[Answer],
    out: &mut W,
) -> Result<(), Fault>
    ensures written { MatchResult result
        (λ _. Appends (W.contents out.old) (W.contents out.new) (answers_shown format answers.now))
        (λ _. AppendsPart (W.contents out.old) (W.contents out.new) (answers_shown format answers.now)) }
    ensures fault { IfErr result (λ fault. status_of fault ≡ 4) }
{
    match write_formatted(alloc, out, format, answers) {
        Ok(()) => hand_on(out),
        Err(fault) => Err(fault_of(fault)),
    }
}

// Writes the reports of a board, each under its title, and has the writer hand on what it holds.
fn write_titled<W: Write>(
    alloc: Global,
    format: Format,
    titles: &[Text],
    reports: &[Reported<'_>],
    out: &mut W,
) -> Result<(), Fault>
    ensures written { MatchResult result
        (λ _. Appends (W.contents out.old) (W.contents out.new) (board_shown format titles.now reports.now))
        (λ _. AppendsPart (W.contents out.old) (W.contents out.new) (board_shown format titles.now reports.now)) }
    ensures fault { IfErr result (λ fault. status_of fault ≡ 4) }
{
    match write_board(alloc, out, format, titles, reports) {
        Ok(()) => hand_on(out),
        Err(fault) => Err(fault_of(fault)),
    }
}

// Writes the answers to the questions over a base.
fn report<R: Threads + Sync + Clock + AllocGlobal, W: Write>(
    rt: &R,
    settings: Settings,
    sourced: SourcedBase,
    questions: &[Question],
    watch: &mut Stopwatch,
    out: &mut W,
) -> Result<(), Fault>
    ensures written { MatchResult result
        (λ _. Appends (W.contents out.old) (W.contents out.new)
        (answers_shown settings.format (answers_over sourced.base sourced.after questions.now)))
        (λ _. AppendsPart (W.contents out.old) (W.contents out.new)
        (answers_shown settings.format (answers_over sourced.base sourced.after questions.now))) }
    ensures fault { IfErr result (λ fault. status_of fault ≡ 4) }
{
    let answers = opening_answers(rt, rt.alloc(), settings.hashing, sourced, questions, watch)?;
    write(rt.alloc(), settings.format, answers.as_slice(), out)
}

// Tells the times where they are asked for.
pub(crate) fn tell_times<E: Write>(watch: &Stopwatch, times: bool, err: &mut E)
    ensures { times ≡ false → err.new ≡ err.old }
{
    if !times {
        return;
    }
    watch.tell(err);
}

// Writes the answers to the questions over the base of a source, and tells the times or a fault. The result is the exit
// status.
fn run<R: Threads + Sync + Clock + AllocGlobal, S: BaseSource + Drop, W: Write, E: Write>(
    rt: &R,
    settings: Settings,
    source: S,
    questions: &[Question],
    out: &mut W,
    err: &mut E,
) -> u8
    ensures report { result ≡ 0 → IsOver (S.holds source) (λ base after. Appends (W.contents out.old)
        (W.contents out.new) (answers_shown settings.format (answers_over base after questions.now))) }
    ensures fault { result ≢ 0 → (W.contents out.new ≡ W.contents out.old)
        ⊎ IsOver (S.holds source) (λ base after. AppendsPart (W.contents out.old) (W.contents out.new)
        (answers_shown settings.format (answers_over base after questions.now))) }
    ensures quiet { result ≡ 0 → settings.times ≡ false → err.new ≡ err.old }
    ensures data { result ≡ 1 → S.is_refused source }
    ensures words { result ≢ 2 }
{
    let times = settings.times;
    let mut watch = Stopwatch::start(rt, times);
    let sourced = match source.load(rt, err) {
        Ok(sourced) => sourced,
        Err(status) => return status,
    };
    watch.lap(rt, TimedStep::Load);
    match report(rt, settings, sourced, questions, &mut watch, out) {
        Ok(()) => {
            tell_times(&watch, times, err);
            0
        }
        Err(fault) => fault.tell(err),
    }
}

/// Writes the answer to the question that the words ask, over the base of a source; or a fault line to `err`. The
/// question is looked at first. The result is the exit status: 0 with nothing written to `err` but the times, where
/// they are asked for; 1 where what the source holds is refused, 2 where the question is, and else 4.
pub fn run_query<R: Threads + Sync + Clock + AllocGlobal, S: BaseSource + Drop, W: Write, E: Write>(
    rt: &R,
    settings: Settings,
    source: S,
    words: QuestionWords<'_>,
    out: &mut W,
    err: &mut E,
) -> u8
    ensures report { result ≡ 0 → IsOver (S.holds source) (λ base after. Reports settings.format base after
        words.entry.name.now (map (λ word. word.now) words.entry.constants.now)
        (W.contents out.old) (W.contents out.new)) }
    ensures fault { result ≢ 0 → (W.contents out.new ≡ W.contents out.old)
        ⊎ IsOver (S.holds source) (λ base after. ReportsPart settings.format base after
        words.entry.name.now (map (λ word. word.now) words.entry.constants.now)
        (W.contents out.old) (W.contents out.new)) }
    ensures quiet { result ≡ 0 → settings.times ≡ false → err.new ≡ err.old }
    ensures data { result ≡ 1 → S.is_refused source }
    ensures words { result ≡ 2 → AskNothing words.entry.name.now (map (λ word. word.now) words.entry.constants.now) }
{
    let question = match ask(rt.alloc(), words.name, words.constants) {
        Ok(question) => question,
        Err(fault) => return fault.tell(err),
    };
    run(rt, settings, source, &[question], out, err)
}

/// Writes the answers to the thirteen queries with the benchmark's constants, in order, over the base of a source, from
/// one pass over its lines; or a fault line to `err`. The result is the exit status, as of `run_query`, and never 2.
pub fn run_all<R: Threads + Sync + Clock + AllocGlobal, S: BaseSource + Drop, W: Write, E: Write>(
    rt: &R,
    settings: Settings,
    source: S,
    out: &mut W,
    err: &mut E,
) -> u8
    ensures report { result ≡ 0 → IsOver (S.holds source)
        (λ base after. ReportsAll settings.format base after (W.contents out.old) (W.contents out.new)) }
    ensures fault { result ≢ 0 → (W.contents out.new ≡ W.contents out.old)
        ⊎ IsOver (S.holds source)
        (λ base after. ReportsAllPart settings.format base after (W.contents out.old) (W.contents out.new)) }
    ensures quiet { result ≡ 0 → settings.times ≡ false → err.new ≡ err.old }
    ensures data { result ≡ 1 → S.is_refused source }
    ensures words { result ≢ 2 }
{
    let questions = match standard_questions(rt.alloc()) {
        Ok(questions) => questions,
        Err(_) => return Fault::OutOfMemory.tell(err),
    };
    run(rt, settings, source, questions.as_slice(), out, err)
}

// Writes the reports of a board over a base.
fn report_board<R: Threads + Sync + Clock + AllocGlobal, W: Write>(
    rt: &R,
    settings: Settings,
    sourced: SourcedBase,
    board: &Board,
    watch: &mut Stopwatch,
    out: &mut W,
) -> Result<(), Fault>
    ensures report { OnOk result ((report : List ℕ) × HasReports settings.format sourced.base sourced.after
        board.now.titles.items board.now.asked.items report
        × Appends (W.contents out.old) (W.contents out.new) report) }
    ensures part { OnErr result ((W.contents out.new ≡ W.contents out.old)
        ⊎ ((report : List ℕ) × HasReports settings.format sourced.base sourced.after
        board.now.titles.items board.now.asked.items report
        × AppendsPart (W.contents out.old) (W.contents out.new) report)) }
    ensures fault { IfErr result (λ fault. status_of fault ≡ 4) }
{
    let after = sourced.after;
    let asked = board.asked.as_slice();
    let answers = asked_answers(rt, settings.hashing, sourced, asked, watch)?;
    let reports = reports_of(rt.alloc(), asked, answers.as_slice(), after)?;
    let titles = board.titles.as_slice();
    write_titled(rt.alloc(), settings.format, titles, reports.as_slice(), out)
}

/// Writes the reports that the board in `reader` asks for, in order and each under its title, over the base of a
/// source; or a fault line to `err`. The board is read first. The result is the exit status, as of `run_query`: 2 where
/// the board is refused, and then nothing is written to `out`.
pub fn run_board<
    R: Threads + Sync + Clock + AllocGlobal,
    B: Read + Drop,
    S: BaseSource + Drop,
    W: Write,
    E: Write,
>(rt: &R, settings: Settings, reader: B, source: S, out: &mut W, err: &mut E) -> u8
    ensures reports { result ≡ 0 → (text : List ℕ) → B.remaining reader ≡ Some text → IsOver (S.holds source)
        (λ base after. ReportsBoard settings.format text base after (W.contents out.old) (W.contents out.new)) }
    ensures fault { result ≢ 0 → (W.contents out.new ≡ W.contents out.old)
        ⊎ ((text : List ℕ) → B.remaining reader ≡ Some text → IsOver (S.holds source)
        (λ base after. ReportsBoardPart settings.format text base after (W.contents out.old) (W.contents out.new))) }
    ensures quiet { result ≡ 0 → settings.times ≡ false → err.new ≡ err.old }
    ensures data { result ≡ 1 → S.is_refused source }
    ensures refused { result ≡ 2 → (W.contents out.new ≡ W.contents out.old)
        × ((text : List ℕ) → B.remaining reader ≡ Some text → IsRefusedBoard text) }
{
    let board = match read_board(rt.alloc(), reader) {
        Ok(board) => board,
        Err(fault) => return JobFault::Found(fault).tell(err),
    };
    let times = settings.times;
    let mut watch = Stopwatch::start(rt, times);
    let sourced = match source.load(rt, err) {
        Ok(sourced) => sourced,
        Err(status) => return status,
    };
    watch.lap(rt, TimedStep::Load);
    match report_board(rt, settings, sourced, &board, &mut watch, out) {
        Ok(()) => {
            tell_times(&watch, times, err);
            0
        }
        Err(fault) => fault.tell(err),
    }
}
