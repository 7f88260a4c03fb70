//! Why a script could not be read.

ghost use Rattle.std.specs.Prelude.{◌≡◌};
ghost use Rattle.ssb_script.specs.Errors.{error_of_read};
ghost use Rattle.ssb_script.specs.declared.error.ScriptError.TheVariants.{OutOfMemory};

use ssb_schema::SchemaFault;
use ssb_sql::SqlFault;
use ssb_text::ReadError;
use std::alloc::{AllocError, AllocFailed};
use thiserror::Error;

/// Why a script could not be read. Records are numbered from 1. Its text is its number, its name and its values.
#[derive(Clone, Copy, Debug, PartialEq, Eq, Error)]
pub enum ScriptError {
    /// A record that is none of a script's, or stands in a wrong place.
    #[error("70 BadLine {0}")]
    BadLine(u64),
    /// The script ends inside a refresh.
    #[error("71 NoCommit")]
    NoCommit,
    /// The `commit` of a refresh without actions, or the `answer` of a block without questions.
    #[error("72 EmptyBlock {0}")]
    EmptyBlock(u64),
    /// The schema refuses a line, an order that began at this record, or one action more.
    #[error("73 Row {0} {1}")]
    Row(u64, SchemaFault),
    /// The script has more records than the reader takes.
    #[error("74 TooLong")]
    TooLong,
    /// The reader underneath failed.
    #[error("75 Read")]
    Read,
    /// The script ends inside a block of questions.
    #[error("77 NoAnswer")]
    NoAnswer,
    /// This record is one question more than a block takes.
    #[error("78 TooManyQuestions {0}")]
    TooManyQuestions(u64),
    /// The text of this `sql` record is no statement.
    #[error("79 Sql {0} {1}")]
    Sql(u64, SqlFault),
    /// Memory ran out.
    #[error("out of memory")]
    OutOfMemory,
}

impl From<AllocError> for ScriptError {
    ghost from_gives = { λ _ e. e ≡ OutOfMemory };

    fn from(_e: AllocError) -> ScriptError {
        ScriptError::OutOfMemory
    }
}

impl<T: Drop> From<AllocFailed<T>> for ScriptError {
    ghost from_gives = { λ _ e. e ≡ OutOfMemory };

    fn from(_e: AllocFailed<T>) -> ScriptError {
        ScriptError::OutOfMemory
    }
}

impl From<ReadError> for ScriptError {
    ghost from_gives = { λ why e. e ≡ error_of_read why };

    fn from(why: ReadError) -> ScriptError {
        match why {
            ReadError::Read => ScriptError::Read,
            ReadError::OutOfMemory => ScriptError::OutOfMemory,
        }
    }
}
