//! The questions that are to stand, as a file has them.

ghost use Rattle.std.specs.Prelude.{IfOk, IfErr};
ghost use Rattle.ssb_files.specs.Standing.{AreAskedAlone, IsStandingFault};

use crate::fault::Fault;
use ssb_questions::Question;
use ssb_script::read_questions;
use std::alloc::Global;
use std::fmt;
use std::io::Read;

/// The first of the questions that are to stand which has too many groups, by its number; those of a statement follow one
/// another.
#[derive(Clone, Copy, Debug, PartialEq, Eq)]
pub struct TooManyGroups(pub u64);

impl fmt::Display for TooManyGroups {
    fn fmt<W: fmt::Write>(&self, f: &mut fmt::Formatter<W>) -> fmt::Result {
        write!(f, "99 TooManyGroups {}", self.0)
    }
}

/// The questions that the source asks, 1 to 64 by `query` and `sql` records and nothing else; or its first fault.
pub fn read_standing<I: Read + Drop>(alloc: Global, source: I) -> Result<Vec<Question>, Fault>
    ensures questions { IfOk result (λ questions. AreAskedAlone (I.remaining source) questions.items) }
    ensures fault { IfErr result (IsStandingFault (I.remaining source)) }
{
    match read_questions(alloc, source) {
        Ok(questions) => Ok(questions),
        Err(fault) => Err(Fault::Standing(fault)),
    }
}
