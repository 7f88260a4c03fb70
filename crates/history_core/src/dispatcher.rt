//! What the machine keeps of each dispatcher.
ghost use Rattle.std.specs.Prelude.{◌≡◌, ◌++◌, ◌∷◌, [], IfOk, OnOk, OnErr};
ghost use Rattle.history_core.specs.Fresh.{OpeningDispatchers};

use ssb_answers::Unserved;
use std::alloc::{AllocError, Global};
use std::marker::Model;

/// What became of a request.
#[derive(Clone, Copy, Debug, PartialEq, Eq)]
pub enum Outcome {
    /// Rows after so many commits.
    Served(u64),
    /// No rows, for this cause.
    GivenUp(Unserved),
}

/// An answer that a dispatcher gave, to a client's request with this floor.
#[derive(Clone, Copy, Debug, PartialEq, Eq)]
pub struct Given {
    pub client: u32,
    pub floor: u64,
    pub outcome: Outcome,
}

/// The answers that a dispatcher gave, in order. Contracts see them as a list.
#[derive(Drop)]
pub struct GivenList {
    list: Vec<Given>,
}

impl Model for GivenList {
    ghost use Rattle.std.specs.Prelude.{List};
    ghost use Rattle.history_core.specs.declared.dispatcher.Given.{Given as One};

    ghost Value = { List One };

    ghost view = { λ g. g.list.items };
}

impl GivenList {
    /// No answers.
    pub fn new(alloc: Global) -> GivenList
        ensures { result ≡ [] }
    {
        GivenList {
            list: Vec::new(alloc),
        }
    }

    /// One answer more. After an error the answers are as they were.
    pub fn push(&mut self, given: Given) -> Result<(), AllocError>
        ensures pushed { OnOk result (self.new ≡ self.old ++ given ∷ []) }
        ensures unchanged { OnErr result (self.new ≡ self.old) }
    {
        self.list.push(given)?;
        Ok(())
    }
}

/// How many commits a dispatcher has seen, its mark, its version, and the answers that it gave.
#[derive(Drop)]
pub struct WorldDispatcher {
    pub seen: usize,
    pub mark: Option<u64>,
    pub version: Option<u64>,
    pub given: GivenList,
}

/// So many dispatchers, numbered from 1, which have seen nothing and have given no answer.
pub fn opening_dispatchers(alloc: Global, count: u32) -> Result<Vec<WorldDispatcher>, AllocError>
    ensures { IfOk result (λ list. OpeningDispatchers count list.items) }
{
    let mut list = Vec::new(alloc);
    for _ in 0..count {
        list.push(WorldDispatcher {
            seen: 0,
            mark: None,
            version: None,
            given: GivenList::new(alloc),
        })?;
    }
    Ok(list)
}
