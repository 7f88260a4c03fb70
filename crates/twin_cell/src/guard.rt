//! The hold of a copy.
ghost use Rattle.std.specs.Prelude.{◌≡◌};

use crate::reader::TwinReader;
use crate::rule::{CellView, Published};
use crate::side::Side;
use left_right::reader::Reading;
use row_store::Replica;
use std::marker::Model;

/// A reader with a copy in hand. Contracts see the copy's state, a list of commits that it stands for, and those that
/// the reader was told. A writer that goes waits for it, so it is not to outlive the writer in one thread.
pub struct Guard<R: Replica + Drop> {
    pub(crate) reading: Reading<Side<R>, CellView, Published>,
}

impl<R: Replica + Drop> Model for Guard<R> {
    ghost use Rattle.std.specs.Prelude.{◌≡◌, Some};
    ghost use Rattle.std.specs.Coded.{codes};
    ghost use Rattle.left_right.specs.Sides.{view as view_of};
    ghost use Rattle.row_store.specs.History.{IsPrefix};
    ghost use Rattle.row_store.specs.State.{state_of, counts_code};
    ghost use Rattle.twin_cell.specs.Twin.{Entered, IsEntered, entered};

    ghost Value = { Entered };

    ghost coded = { Prim.hlevel (codes, counts_code) };

    ghost view = { λ guard. entered (R.state guard.reading.part.value.replica) (view_of guard.reading.place) };

    ghost invariant = { λ guard. IsEntered (R.state guard.reading.part.value.replica) (view_of guard.reading.place) };
}

impl<R: Replica + Drop> Guard<R> {
    /// The copy. It stays as it is until the reader leaves.
    pub fn replica(&self) -> &R
        ensures state { R.state result.now ≡ self.now.state }
    {
        &self.reading.get().replica
    }

    /// Gives the copy back. The reader knows what it was told, as before, and what the copy stood for.
    pub fn leave(self) -> TwinReader<R>
        ensures base { result.base ≡ self.state.base }
        ensures told { result.told ≡ self.told }
        ensures last { result.last ≡ self.list }
    {
        let Guard { reading } = self;
        TwinReader {
            seat: reading.leave(),
        }
    }
}

impl<R: Replica + Drop> Drop for Guard<R> {
    fn drop(self) {
        let Guard { reading } = self;
        drop(reading.leave());
    }
}
