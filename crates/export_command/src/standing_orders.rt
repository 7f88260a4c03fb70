//! Which orders stand after commits, as these come: the loaded ones that none of them took away, and those that they
//! added.

ghost use Rattle.std.specs.Prelude.{◌≡◌, ◌+◌, ◌*◌, ◌++◌, ◌<◌, ◌≤◌, ◌^◌, [], List, length, nat_eq, not, slice_get};
ghost use Rattle.std.specs.Prelude.{Some, false, None, OnOk};
ghost use Rattle.std.specs.HashMap.{get};
ghost use Rattle.std.specs.HashSet.{contains};
ghost use Rattle.std.specs.List.{AllByRecursion};
ghost use Rattle.row_store.specs.History.{CommitRecord};
ghost use Rattle.row_store.specs.Legal.{IsLegal};
ghost use Rattle.row_store.specs.Lines.{added_by, is_present, lines_after_action, lines_after_refresh, lines_without};
ghost use Rattle.row_store.specs.Refusals.{cause_of, first_refusal};
ghost use Rattle.ssb_base.specs.Base.{Tables};
ghost use Rattle.ssb_schema.specs.declared.line.LineFields.{LineFields};
ghost use Rattle.ssb_schema.specs.declared.refresh.Action.{Action as ActionRecord};
ghost use Rattle.export_command.specs.Standing.{AreLeft, Follows, lines_at, order_lines, stands_yet};

use crate::orders::{adds_order, all_add_orders};
use row_store::Commit;
use ssb_schema::{Action, Line, Refresh};
use std::alloc::{AllocError, Global};
use std::collections::{HashMap, HashSet};
use std::hash::RandomState;
use std::sync::Arc;

// So many orders that do not stand are not looked for.
const FEW: usize = 4_096;

/// An order that an action of a commit added. It shares the refresh.
#[derive(Drop)]
pub(crate) struct AddedOrder {
    key: u64,
    // Of all orders that commits added, counted from 1.
    number: u64,
    refresh: Arc<Refresh>,
    // The action's place in the refresh.
    place: usize,
}

// The lines that an action adds.
fn lines_added(action: &Action) -> &[Line]
    ensures { result.now ≡ added_by action.now }
{
    match action {
        Action::Add(order) | Action::Amend(order) | Action::Put(order) => order.lines(),
        Action::Withdraw(_) => &[],
    }
}

impl AddedOrder {
    /// Its lines.
    pub(crate) fn lines(&self) -> &[Line]
        ensures { result.now ≡ order_lines self.now }
    {
        match self.refresh.actions().get(self.place) {
            Some(action) => lines_added(action),
            None => &[],
        }
    }
}

/// The orders that stand after commits. It is as large as they are: what went is forgotten, but which loaded orders
/// did.
#[derive(Drop)]
pub(crate) struct StandingOrders {
    // The keys of loaded orders that are gone. Clients picked the keys, so they hash with random keys.
    gone: HashSet<u64, RandomState>,
    // The number of each added order that stands, by its key.
    numbers: HashMap<u64, u64, RandomState>,
    // Orders that were added, as they came: all that stand, and as many others or a few more.
    added: Vec<AddedOrder>,
    // How many were added.
    count: u64,
}

// Whether an added order stands, by the number of the one of its key that does.
fn stands(numbers: &HashMap<u64, u64, RandomState>, order: &AddedOrder) -> bool
    ensures { result ≡ stands_yet (get nat_eq numbers.now) order.now }
{
    match numbers.get(&order.key) {
        Some(number) => *number == order.number,
        None => false,
    }
}

impl StandingOrders {
    /// After no commits all loaded orders stand.
    pub(crate) fn new(alloc: Global, hashing: RandomState) -> StandingOrders
        ensures { (base : Tables) → Follows base [] result }
    {
        StandingOrders {
            gone: HashSet::with_hasher(alloc, hashing),
            numbers: HashMap::with_hasher(alloc, hashing),
            added: Vec::new(alloc),
            count: 0,
        }
    }

    /// Whether a loaded order stands.
    pub(crate) fn has_loaded(&self, key: u64) -> bool
        ensures { result ≡ not (contains nat_eq self.now.gone key) }
    {
        !self.gone.contains(&key)
    }

    /// Whether an added order stands.
    pub(crate) fn has_added(&self, order: &AddedOrder) -> bool
        ensures { result ≡ stands_yet (get nat_eq self.now.numbers) order.now }
    {
        stands(&self.numbers, order)
    }

    /// Orders that were added, as they came: all that stand, and others.
    pub(crate) fn added(&self) -> &[AddedOrder]
        ensures { result.now ≡ self.now.added.items }
    {
        self.added.as_slice()
    }

    // The order of a key goes: the added one, and else the loaded one.
    fn leave(&mut self, key: u64) -> Result<(), AllocError>
        ensures left { OnOk result ((loaded lines : List LineFields) → AreLeft loaded lines self.old
            → AreLeft loaded (lines_without key lines) self.new) }
        ensures count { self.new.count ≡ self.old.count }
    {
        if self.numbers.remove(&key).is_none() {
            self.gone.insert(key)?;
        }
        Ok(())
    }

    // The order of a key comes, by an action of a refresh; no line that stands has the key.
    fn join(&mut self, key: u64, refresh: &Arc<Refresh>, place: usize) -> Result<(), AllocError>
        requires few { self.old.count + 1 < 2 ^ 64 }
        requires own { AllByRecursion (λ line. line.order_key ≡ key) (lines_at refresh.now.value place) }
        ensures left { OnOk result ((loaded lines : List LineFields) → is_present key lines ≡ false
            → AreLeft loaded lines self.old → AreLeft loaded (lines ++ lines_at refresh.now.value place) self.new) }
        ensures count { OnOk result (self.new.count ≡ self.old.count + 1) }
    {
        let number = self.count + 1;
        let refresh = Arc::try_clone(refresh)?;
        self.added.push(AddedOrder {
            key,
            number,
            refresh,
            place,
        })?;
        self.numbers.insert(key, number)?;
        self.count = number;
        Ok(())
    }

    // The action at a place of a refresh.
    fn note(&mut self, refresh: &Arc<Refresh>, place: usize) -> Result<(), AllocError>
        requires few { self.old.count + 1 < 2 ^ 64 }
        requires within { place < length refresh.now.value }
        ensures left { OnOk result ((base : Tables) (lines : List LineFields) (action : ActionRecord)
            → slice_get refresh.now.value place ≡ Some action → cause_of base lines action ≡ None
            → AreLeft base.lines lines self.old → AreLeft base.lines (lines_after_action lines action) self.new) }
        ensures count { OnOk result (self.new.count ≤ self.old.count + 1) }
    {
        let action = &refresh.actions()[place];
        adds_order(action);
        match action {
            Action::Add(order) => self.join(order.key(), refresh, place),
            Action::Amend(order) | Action::Put(order) => {
                let key = order.key();
                self.leave(key)?;
                self.join(key, refresh, place)
            },
            Action::Withdraw(key) => self.leave(*key),
        }
    }

    // The actions of a refresh.
    fn note_all(&mut self, refresh: &Arc<Refresh>) -> Result<(), AllocError>
        requires few { self.old.count + length refresh.now.value < 2 ^ 64 }
        ensures left { OnOk result ((base : Tables) (lines : List LineFields)
            → first_refusal base 1 lines refresh.now.value ≡ None → AreLeft base.lines lines self.old
            → AreLeft base.lines (lines_after_refresh lines refresh.now.value) self.new) }
        ensures count { OnOk result (self.new.count ≤ self.old.count + length refresh.now.value) }
    {
        for place in 0..refresh.actions().len() {
            self.note(refresh, place)?;
        }
        Ok(())
    }

    // Forgets added orders that do not stand, where these are more than half.
    fn sweep(&mut self)
        ensures left { (loaded lines : List LineFields) → AreLeft loaded lines self.old
            → AreLeft loaded lines self.new }
        ensures count { self.new.count ≡ self.old.count }
    {
        if self.added.len() / 2 > self.numbers.len().max(FEW) {
            let numbers = &self.numbers;
            self.added.retain(|order| stands(numbers, order));
        }
    }

    /// Some commits more, which are legal.
    pub(crate) fn follow(&mut self, commits: &[Commit]) -> Result<(), AllocError>
        requires few { self.old.count + 64 * length commits.now < 2 ^ 64 }
        ensures { OnOk result ((base : Tables) (log : List CommitRecord) → IsLegal base (log ++ commits.now)
            → Follows base log self.old → Follows base (log ++ commits.now) self.new) }
    {
        for commit in commits {
            all_add_orders(commit.refresh.actions());
            self.note_all(&commit.refresh)?;
            self.sweep();
        }
        Ok(())
    }
}
