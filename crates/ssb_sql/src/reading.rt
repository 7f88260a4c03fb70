//! Tokens, read one after another.
ghost use Rattle.std.specs.Prelude.{◌≡◌, IfOk, IfErr, OnOk, Ok};
ghost use Rattle.ssb_sql.specs.Faults.{IsFault};
ghost use Rattle.ssb_sql.specs.Reading.{Outcome, read, said, say_all};
ghost use Rattle.ssb_sql.specs.declared.reading.ReadFault.TheVariants.{OutOfMemory};

use crate::piece::SqlPiece;
use crate::state::{InList, State};
use crate::step::{may_end, step};
use crate::token::SqlToken;
use std::alloc::{AllocError, Global};

/// Why tokens are no statement.
#[derive(Clone, Copy, Debug, PartialEq, Eq)]
pub enum ReadFault {
    /// The first token that may not come is the last but so many, itself among them; 0: more had to come.
    Unexpected(usize),
    /// Memory ran out.
    OutOfMemory,
}

impl From<AllocError> for ReadFault {
    ghost from_gives = { λ _ e. e ≡ OutOfMemory };

    fn from(_: AllocError) -> ReadFault {
        ReadFault::OutOfMemory
    }
}

// Adds what a token says.
#[tactic(auto, using(crate::proofs::SayLaws::say_all_last))]
fn note<'a>(found: &mut Vec<SqlPiece<'a>>, says: Option<SqlPiece<'a>>) -> Result<(), AllocError>
    ensures { OnOk result ((outcome : Outcome)
        → say_all found.new.items outcome ≡ say_all found.old.items (said says.entry outcome)) }
{
    if let Some(piece) = says {
        found.push(piece)?;
    }
    Ok(())
}

/// What the tokens of a statement say.
pub fn pieces<'a>(alloc: Global, tokens: &[SqlToken<'a>]) -> Result<Vec<SqlPiece<'a>>, ReadFault>
    ensures pieces { IfOk result (λ found. read tokens.now ≡ Ok found.items) }
    ensures fault { IfErr result (λ fault. IsFault (read tokens.now) fault) }
{
    let mut found = Vec::new(alloc);
    let mut state = State::List(InList::Start);
    let mut left = tokens.len();
    for token in tokens {
        let Some(taken) = step(state, *token) else {
            return Err(ReadFault::Unexpected(left));
        };
        note(&mut found, taken.says)?;
        state = taken.next;
        left -= 1;
    }
    if may_end(state) {
        Ok(found)
    } else {
        Err(ReadFault::Unexpected(0))
    }
}
