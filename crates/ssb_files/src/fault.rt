//! Why the program stops, and the status that it ends with.

ghost use Rattle.std.specs.Prelude.{◌≡◌};
ghost use Rattle.ssb_files.specs.Status.{not_standing_status, questions_status, script_status, status_of};
ghost use Rattle.ssb_files.specs.declared.fault.Fault.TheVariants.{OutOfMemory};

use crate::path_fault::PathFault;
use crate::standing::TooManyGroups;
use shared_scan::StandingError;
use ssb_questions::{ConstantsFault, NoSuchQuery};
use ssb_script::{QuestionsError, ScriptError};
use ssb_text::LoadError;
use std::alloc::{AllocError, AllocFailed};
use std::fmt;
use std::io::Write;

/// A fault of the program. Its text stands after the program's name in the fault line.
#[derive(Debug, Drop)]
pub enum Fault {
    /// The first file, by its path, that could not be opened.
    CannotRead(String),
    /// The paths may not be used together.
    Paths(PathFault<String>),
    /// The system gave no random bytes.
    NoRandomness,
    /// A word of the command line is no UTF-8.
    BadWord,
    /// No query has this name.
    NoSuchQuery(NoSuchQuery),
    /// The query does not take these constants.
    Constants(ConstantsFault),
    /// More scripts than a server has clients.
    TooManyScripts,
    /// The five texts are no base.
    Data(LoadError),
    /// The first script that can't be read, by its number from 1.
    Script(u64, ScriptError),
    /// The questions that are to stand can't be read.
    Standing(QuestionsError),
    /// A question that is to stand has too many groups.
    TooManyGroups(TooManyGroups),
    /// A trace that can't be read.
    Trace(ScriptError),
    /// A report could not be written, or handed on.
    WriteFailed,
    /// Memory ran out.
    OutOfMemory,
}

/// Writes a fault line, if the writer takes it: the program's name, and then what the fault says of itself.
pub(crate) fn write_fault<F: fmt::Display, E: Write>(err: &mut E, fault: &F) {
    let _ = writeln!(err, "ssb_live: {fault}");
}

// The exit status of a fault of a script or a trace.
fn script_status(fault: &ScriptError) -> u8
    ensures { result ≡ script_status fault.now }
{
    match fault {
        ScriptError::Read | ScriptError::OutOfMemory => 4,
        _ => 1,
    }
}

// The exit status of a fault of the questions that are to stand.
fn questions_status(fault: QuestionsError) -> u8
    ensures { result ≡ questions_status fault }
{
    match fault {
        QuestionsError::NotAQuestion(_) | QuestionsError::Sql(_, _) => 1,
        QuestionsError::Read | QuestionsError::OutOfMemory => 4,
    }
}

impl Fault {
    /// The exit status: 1 where paths, data, a script, a trace or a question that is to stand were refused, 2 for a
    /// wrong command line, 4 where reading, writing or memory failed.
    pub fn status(&self) -> u8
        ensures { result ≡ status_of self.now }
    {
        match self {
            Fault::NoSuchQuery(_) | Fault::Constants(_) | Fault::BadWord => 2,
            Fault::TooManyScripts => 2,
            Fault::Paths(_) => 1,
            Fault::Data(LoadError::Read(_)) | Fault::Data(LoadError::OutOfMemory) => 4,
            Fault::Data(_) => 1,
            Fault::Script(_, fault) | Fault::Trace(fault) => script_status(fault),
            Fault::Standing(fault) => questions_status(*fault),
            Fault::TooManyGroups(_) => 1,
            Fault::CannotRead(_) | Fault::NoRandomness => 4,
            Fault::WriteFailed | Fault::OutOfMemory => 4,
        }
    }

    /// Writes the fault line, if the writer takes it, and gives the exit status.
    pub fn tell<E: Write>(&self, err: &mut E) -> u8
        ensures { result ≡ status_of self.now }
    {
        write_fault(err, self);
        self.status()
    }
}

impl fmt::Display for Fault {
    fn fmt<W: fmt::Write>(&self, f: &mut fmt::Formatter<W>) -> fmt::Result {
        match self {
            Fault::CannotRead(path) => write!(f, "cannot read {path}"),
            Fault::Paths(fault) => write!(f, "paths: {fault}"),
            Fault::NoRandomness => f.write_str("cannot read random bytes"),
            Fault::BadWord => f.write_str("a word is no UTF-8"),
            Fault::NoSuchQuery(fault) => write!(f, "query: {fault}"),
            Fault::Constants(fault) => write!(f, "query: {fault}"),
            Fault::TooManyScripts => f.write_str("too many scripts"),
            Fault::Data(LoadError::OutOfMemory)
            | Fault::Script(_, ScriptError::OutOfMemory)
            | Fault::Standing(QuestionsError::OutOfMemory)
            | Fault::Trace(ScriptError::OutOfMemory) => f.write_str("out of memory"),
            Fault::Data(fault) => write!(f, "data: {fault}"),
            Fault::Script(number, fault) => write!(f, "script {number}: {fault}"),
            Fault::Standing(fault) => write!(f, "standing: {fault}"),
            Fault::TooManyGroups(fault) => write!(f, "standing: {fault}"),
            Fault::Trace(fault) => write!(f, "trace: {fault}"),
            Fault::WriteFailed => f.write_str("write failed"),
            Fault::OutOfMemory => f.write_str("out of memory"),
        }
    }
}

impl From<StandingError> for Fault {
    ghost from_gives = { λ error fault. status_of fault ≡ not_standing_status error };

    // Questions are counted from 1, and their places from 0.
    fn from(error: StandingError) -> Fault {
        match error {
            StandingError::OutOfMemory => Fault::OutOfMemory,
            StandingError::TooManyGroups(place) => {
                Fault::TooManyGroups(TooManyGroups((place as u64).saturating_add(1)))
            }
        }
    }
}

impl From<AllocError> for Fault {
    ghost from_gives = { λ _ e. e ≡ OutOfMemory };

    fn from(_error: AllocError) -> Fault {
        Fault::OutOfMemory
    }
}

impl<T: Drop> From<AllocFailed<T>> for Fault {
    ghost from_gives = { λ _ e. e ≡ OutOfMemory };

    fn from(_error: AllocFailed<T>) -> Fault {
        Fault::OutOfMemory
    }
}
