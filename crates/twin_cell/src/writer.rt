//! The writer.
ghost use Rattle.std.specs.Prelude.{◌≡◌, [], ◌∷◌, ◌++◌, length, drop, fold, IfOk, OnOk, OnErr, MatchResult};
ghost use Rattle.left_right.specs.Sides.{view as view_of};
ghost use Rattle.row_store.specs.State.{StandsFor, state_after};
ghost use Rattle.twin_cell.specs.Rule.{HasPublished};

use crate::ends::EndsCopies;
use crate::note::{Note, told_seat};
use crate::rule::{Adds, CellView, Pending, Published};
use crate::side::{Side, SideState};
use left_right::Absorb;
use left_right::writer::Writer;
use row_store::{Commit, Follower, Replica};
use std::alloc::AllocError;
use std::marker::{Brand, Model};
use std::sync::Wait;

/// The two copies, as `left_right` has them.
pub(crate) type Copies<R> = Writer<Side<R>, Commit, CellView, Published>;

/// Takes commits, and publishes them together. Contracts see the base and two lists of commits: those that readers
/// take, and those that are pending. When it goes, it waits for every reader that holds a copy.
pub struct TwinWriter<R: Replica + Drop, W: EndsCopies + Drop>
where
    Side<R>: Absorb<Commit, State = SideState>,
{
    pub(crate) copies: Writer<Side<R>, Commit, CellView, Published>,
    // How many commits it has taken: those published, and those pending.
    pub(crate) taken: u64,
    pub(crate) rt: W,
}

impl<R: Replica + Drop, W: EndsCopies + Drop> Model for TwinWriter<R, W>
where
    Side<R>: Absorb<Commit, State = SideState>,
{
    ghost use Rattle.std.specs.Prelude.{drop};
    ghost use Rattle.left_right.specs.Sides.{view as view_of};
    ghost use Rattle.twin_cell.specs.Twin.{Writing, IsWriting, writing};

    ghost Value = { Writing };

    ghost view = { λ writer. writing (R.state writer.copies.desk.shown.value.replica) (view_of writer.copies.desk.place)
        (drop writer.copies.behind writer.copies.log.items) };

    ghost invariant = { λ writer. IsWriting (R.state writer.copies.desk.shown.value.replica)
        (view_of writer.copies.desk.place) (drop writer.copies.behind writer.copies.log.items) writer.taken };
}

impl<R: Replica + Drop, W: EndsCopies + Drop> Drop for TwinWriter<R, W> {
    fn drop(self) {
        let TwinWriter {
            copies,
            taken: _,
            rt,
        } = self;
        rt.end(copies);
    }
}

// A step under the rule, by the play `Adds<K>`: publishes what K names, which is all that is pending.
fn publish_list<R: Replica + Drop, K: Pending, W: Wait>(
    rt: &W,
    copies: Copies<R>,
) -> (Copies<R>, Result<(), AllocError>)
    requires pending { drop copies.behind copies.log.items ≡ K.list }
    requires stands { StandsFor (R.state copies.desk.shown.value.replica) (view_of copies.desk.place).told }
    ensures told { OnOk result.1 (HasPublished K.list (view_of copies.desk.place)
        (R.state result.0.desk.shown.value.replica) (view_of result.0.desk.place)) }
    ensures state { OnOk result.1 (R.state result.0.desk.shown.value.replica ≡ fold state_after
        (R.state copies.desk.shown.value.replica) K.list) }
    ensures emptied { OnOk result.1 (drop result.0.behind result.0.log.items ≡ []) }
    ensures kept { OnErr result.1 ((view_of result.0.desk.place ≡ view_of copies.desk.place)
        × (result.0.desk.shown.value ≡ copies.desk.shown.value)) }
    ensures pending { OnErr result.1 (drop result.0.behind result.0.log.items ≡ drop copies.behind copies.log.items) }
{
    copies.publish_as::<Adds<K>, W>(rt)
}

// Publishes all that is pending.
pub(crate) fn publish_pending<R: Replica + Drop, W: Wait>(
    copies: Copies<R>,
    rt: &W,
) -> (Copies<R>, Result<(), AllocError>)
    requires { StandsFor (R.state copies.desk.shown.value.replica) (view_of copies.desk.place).told }
    ensures told { OnOk result.1 (HasPublished (drop copies.behind copies.log.items) (view_of copies.desk.place)
        (R.state result.0.desk.shown.value.replica) (view_of result.0.desk.place)) }
    ensures state { OnOk result.1 (R.state result.0.desk.shown.value.replica ≡ fold state_after
        (R.state copies.desk.shown.value.replica) (drop copies.behind copies.log.items)) }
    ensures emptied { OnOk result.1 (drop result.0.behind result.0.log.items ≡ []) }
    ensures kept { OnErr result.1 ((view_of result.0.desk.place ≡ view_of copies.desk.place)
        × (result.0.desk.shown.value ≡ copies.desk.shown.value)) }
    ensures pending { OnErr result.1 (drop result.0.behind result.0.log.items ≡ drop copies.behind copies.log.items) }
{
    publish_list::<R, Brand, W>(rt, copies)
}

impl<R: Replica + Drop, W: EndsCopies + Drop> TwinWriter<R, W> {
    /// The commit is pending from now on, behind the others. Readers do not see it yet.
    pub fn append(&mut self, commit: Commit) -> Result<(), AllocError>
        ensures appended { OnOk result (self.new ≡ record self.old { pending = self.old.pending ++ commit ∷ [] }) }
        ensures unchanged { OnErr result (self.new ≡ self.old) }
    {
        let Some(taken) = self.taken.checked_add(1) else {
            return Err(AllocError);
        };
        match self.copies.append(commit) {
            Ok(()) => {
                self.taken = taken;
                Ok(())
            }
            Err(_) => Err(AllocError),
        }
    }

    /// How many commits are pending.
    pub fn pending(&self) -> u64
        ensures { result ≡ length self.now.pending }
    {
        self.taken - self.told()
    }

    /// How many commits are published.
    pub fn told(&self) -> u64
        ensures { result ≡ length self.now.published }
    {
        self.copies.published().replica.commits()
    }

    /// Tells what is published. It is refused where each place for a reader is in use: each reader has one, and each
    /// note that is not learned or dropped. It may find none while other threads leave theirs: then it can be tried
    /// again.
    pub fn tell(&mut self) -> Result<Note<R>, AllocError>
        ensures kept { self.new ≡ self.old }
        ensures told { IfOk result (λ note. note ≡ record { base = self.old.base; told = self.old.published }) }
    {
        let seat = told_seat(&mut self.copies)?;
        Ok(Note { seat })
    }
}

impl<R: Replica + Drop, W: Wait + Drop> TwinWriter<R, W> {
    /// Readers that enter from now on take the pending commits too. It waits for those that still hold the other copy.
    /// At `Err` a commit could not be absorbed, and what readers take is as it was.
    pub fn publish(self) -> (TwinWriter<R, W>, Result<(), AllocError>)
        ensures published { OnOk result.1 (result.0 ≡ record self
            { published = self.published ++ self.pending; pending = [] }) }
        ensures unchanged { OnErr result.1 (result.0 ≡ self) }
    {
        let TwinWriter { copies, taken, rt } = self;
        let (copies, published) = publish_pending(copies, &rt);
        if published.is_err() {
            let writer = TwinWriter { copies, taken, rt };
            return (writer, Err(AllocError));
        }
        let writer = TwinWriter { copies, taken, rt };
        (writer, Ok(()))
    }
}

impl<R: Replica + Drop, W: EndsCopies + Drop> Follower for TwinWriter<R, W> {
    ghost base = { λ writer. writer.base };

    ghost commits = { λ writer. writer.published ++ writer.pending };

    fn taken(&self) -> u64 {
        self.taken
    }
}
