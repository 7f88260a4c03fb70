//! The readers.
ghost use Rattle.std.specs.Prelude.{◌≡◌, length, MatchResult};
ghost use Rattle.left_right.specs.Sides.{view as view_of};
ghost use Rattle.row_store.specs.History.{IsPrefix};
ghost use Rattle.row_store.specs.State.{StandsFor};
ghost use Rattle.twin_cell.specs.Rule.{HasSeen};

use crate::guard::Guard;
use crate::note::Note;
use crate::rule::{CellView, Published, Sees};
use crate::side::Side;
use left_right::reader::{Reader, Reading};
use row_store::Replica;
use std::marker::Model;
use std::sync::Wait;

/// A reader's seat, as `left_right` has it.
pub(crate) type ReaderSeat<R> = Reader<Side<R>, CellView, Published>;

/// A reader that has no copy in hand. Contracts see the base, the commits that it was told to be published, and those
/// that the copy stood for which it held last.
pub struct TwinReader<R: Replica + Drop> {
    pub(crate) seat: ReaderSeat<R>,
}

impl<R: Replica + Drop> Drop for TwinReader<R> {
    fn drop(self) {
        let TwinReader { seat: _ } = self;
    }
}

impl<R: Replica + Drop> Model for TwinReader<R> {
    ghost use Rattle.left_right.specs.Sides.{view as view_of};
    ghost use Rattle.twin_cell.specs.Twin.{Reading, IsNamed, reading};

    ghost Value = { Reading };

    ghost view = { λ reader. reading (view_of reader.seat.place) };

    ghost invariant = { λ reader. IsNamed (view_of reader.seat.place) };
}

// A step under the rule, by the play `Sees`: the seat takes the copy that is published, or comes back.
fn try_enter<R: Replica + Drop>(
    seat: ReaderSeat<R>,
) -> Result<Reading<Side<R>, CellView, Published>, ReaderSeat<R>>
    ensures { MatchResult result
        (λ reading. HasSeen (view_of seat.place) (R.state reading.part.value.replica) (view_of reading.place))
        (λ back. view_of back.place ≡ view_of seat.place) }
{
    seat.enter_as::<Sees>()
}

impl<R: Replica + Drop> TwinReader<R> {
    /// From now on it knows what the note tells. The note is of a writer over the same base, and tells no less than the
    /// reader was told before.
    pub fn learn(&mut self, note: Note<R>)
        requires base { note.base ≡ self.old.base }
        requires longer { IsPrefix self.old.told note.told }
        ensures base { self.new.base ≡ note.base }
        ensures told { self.new.told ≡ note.told }
    {
        let Note { seat } = note;
        self.seat = seat;
    }

    /// Takes the copy that is published. It tries until the copies give one, as they do while there is a writer: a
    /// reader that enters after the writer has gone waits for ever.
    pub fn enter<W: Wait>(self, rt: &W) -> Guard<R>
        ensures base { result.state.base ≡ self.base }
        ensures told { result.told ≡ self.told }
        ensures stands { StandsFor result.state result.list }
        ensures begins { IsPrefix self.told result.list }
        ensures whole { result.state.commits ≡ length self.told → StandsFor result.state self.told }
    {
        let TwinReader { seat } = self;
        let mut seat = seat;
        for _ in rt.forever() {
            match try_enter(seat) {
                Ok(reading) => return Guard { reading },
                Err(back) => seat = back,
            }
        }
        unreachable!()
    }
}
