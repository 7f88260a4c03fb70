//! A replica as one of the two copies.
ghost use Rattle.row_store.specs.State.{state_after};

use left_right::Absorb;
use row_store::{Commit, PlainLines, Replica};
use std::alloc::AllocError;
use std::marker::Model;

/// The state of a replica, which both copies come to. No value of it is made.
pub struct SideState {
    lines: PlainLines,
}

impl Model for SideState {
    ghost use Rattle.std.specs.Coded.{codes};
    ghost use Rattle.row_store.specs.State.{State, state_of, counts_code};

    ghost Value = { State };

    ghost coded = { Prim.hlevel (codes, counts_code) };

    ghost view = { λ s. state_of s.lines.base s.lines.log };
}

/// One of the two copies. What it absorbs are commits.
#[derive(Drop)]
pub struct Side<R> {
    pub replica: R,
}

impl<R: Replica> Absorb<Commit> for Side<R> {
    type State = SideState;

    ghost state = { λ side. R.state side.replica };

    ghost applied = { state_after };

    fn absorb_first(&mut self, operation: &Commit, _other: &Side<R>) -> Result<(), AllocError> {
        self.replica.absorb(operation)
    }
}
