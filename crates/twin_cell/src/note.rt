//! What the writer tells a reader.
ghost use Rattle.std.specs.Prelude.{◌≡◌, IfOk};
ghost use Rattle.left_right.specs.Sides.{view as view_of};
ghost use Rattle.twin_cell.specs.Rule.{newcomer};

use crate::reader::ReaderSeat;
use crate::rule::Tells;
use crate::writer::Copies;
use row_store::Replica;
use std::alloc::AllocError;
use std::marker::Model;

/// What the writer told: the commits that were published then. It has a seat of its own, which the reader that learns
/// it takes over. Contracts see the base and those commits.
#[derive(Drop)]
pub struct Note<R: Replica + Drop> {
    pub(crate) seat: ReaderSeat<R>,
}

impl<R: Replica + Drop> Model for Note<R> {
    ghost use Rattle.left_right.specs.Sides.{view as view_of};
    ghost use Rattle.twin_cell.specs.Twin.{Known, IsNamed, known};

    ghost Value = { Known };

    ghost view = { λ note. known (view_of note.seat.place) };

    ghost invariant = { λ note. IsNamed (view_of note.seat.place) };
}

// A step under the rule: a new seat, which knows nothing.
fn new_seat<R: Replica + Drop>(copies: &Copies<R>) -> Result<ReaderSeat<R>, AllocError>
    ensures newcomer { IfOk result (λ seat. view_of seat.place ≡ newcomer) }
    ensures table { IfOk result (λ seat. seat.place.table_id ≡ copies.now.desk.place.table_id) }
{
    copies.factory().reader()
}

// Two steps under the rule, by the play `Tells`: the writer cuts off a part of what it knows, and the seat takes it in.
fn tell_seat<R: Replica + Drop>(copies: &mut Copies<R>, seat: &mut ReaderSeat<R>)
    requires table { seat.old.place.table_id ≡ copies.old.desk.place.table_id }
    ensures shown { copies.new.desk.shown ≡ copies.old.desk.shown }
    ensures log { (copies.new.log ≡ copies.old.log) × (copies.new.behind ≡ copies.old.behind) }
    ensures kept { view_of copies.new.desk.place ≡ view_of copies.old.desk.place }
    ensures told { view_of seat.new.place ≡ view_of copies.old.desk.place }
{
    seat.learn::<Tells>(copies.tell::<Tells>());
}

// A new seat that knows what the writer knows.
pub(crate) fn told_seat<R: Replica + Drop>(
    copies: &mut Copies<R>,
) -> Result<ReaderSeat<R>, AllocError>
    ensures shown { copies.new.desk.shown ≡ copies.old.desk.shown }
    ensures log { (copies.new.log ≡ copies.old.log) × (copies.new.behind ≡ copies.old.behind) }
    ensures kept { view_of copies.new.desk.place ≡ view_of copies.old.desk.place }
    ensures told { IfOk result (λ seat. view_of seat.place ≡ view_of copies.old.desk.place) }
{
    let mut seat = new_seat(copies)?;
    tell_seat(copies, &mut seat);
    Ok(seat)
}
