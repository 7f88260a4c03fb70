//! Where the lines of an order lie, and what an action does to the places.
ghost use Rattle.std.specs.Prelude.{◌≡◌, ◌+◌, ◌*◌, ◌^◌, ◌<◌, ◌≤◌, ℕ, List, All, length, nat_eq, None, OnOk};
ghost use Rattle.std.specs.HashMap.{get, spare};
ghost use Rattle.ssb_schema.specs.declared.line.LineFields.{LineFields};
ghost use Rattle.ssb_base.specs.Base.{Tables};
ghost use Rattle.row_store.specs.Lines.{added_by, lines_of, lines_after_action, lines_after_refresh};
ghost use Rattle.row_store.specs.Refusals.{cause_of, first_refusal};
ghost use Rattle.row_store.specs.Keyed.{Sources, IsWithin, Located, lines_from, order_at};

use ssb_schema::{Action, Line, Refresh};
use std::alloc::AllocError;
use std::collections::HashMap;
use std::hash::RandomState;
use std::sync::Arc;

/// Where the lines of an order lie, and how many they are.
#[derive(Drop)]
pub(crate) struct OrderPlace {
    pub(crate) lines: u32,
    pub(crate) source: Source,
}

/// A place in the base, or in a refresh, which it holds.
#[derive(Drop)]
pub(crate) enum Source {
    /// From this position on in the index of the loaded lines.
    Loaded(u32),
    /// In this action of the refresh.
    Added { refresh: Arc<Refresh>, action: u32 },
}

/// The places of the live orders, by key. A client picks the keys, so they hash with random keys.
pub(crate) type OrderPlaces = HashMap<u64, OrderPlace, RandomState>;

// The lines that an action adds.
pub(crate) fn added(action: &Action) -> &[Line]
    ensures { result.now ≡ added_by action.now }
{
    match action {
        Action::Add(order) | Action::Amend(order) | Action::Put(order) => order.lines(),
        Action::Withdraw(_) => &[],
    }
}

// The lines that an action of a refresh adds.
pub(crate) fn order_at(actions: &[Action], action: u32) -> &[Line]
    ensures { result.now ≡ order_at actions.now action }
{
    match actions.get(action as usize) {
        Some(action) => added(action),
        None => &[],
    }
}

// How many lines the order has after the action, where it had so many before it.
#[tactic(auto, using(crate::proofs::CountedLaws::counting))]
fn count_with(count: u64, action: &Action, key: u64) -> u64
    requires { count < 2 ^ 48 }
    ensures value { (lines : List LineFields) → length (lines_of key lines) ≡ count
        → result ≡ length (lines_of key (lines_after_action lines action.now)) }
    ensures bound { result ≤ count + 7 }
{
    match action {
        Action::Add(order) => {
            let lines = order.lines();
            if order.key() == key {
                count + lines.len() as u64
            } else {
                count
            }
        }
        Action::Amend(order) | Action::Put(order) => {
            let lines = order.lines();
            if order.key() == key {
                lines.len() as u64
            } else {
                count
            }
        }
        Action::Withdraw(gone) => { if *gone == key { 0 } else { count } }
    }
}

// How many lines the order has after the actions, where it had so many before them.
pub(crate) fn count_after(held: u32, earlier: &[Action], key: u64) -> u64
    requires { length earlier.now ≤ 64 }
    ensures value { (lines : List LineFields) → length (lines_of key lines) ≡ held
        → result ≡ length (lines_of key (lines_after_refresh lines earlier.now)) }
    ensures bound { result < 2 ^ 40 }
{
    let mut count = u64::from(held);
    for action in earlier {
        count = count_with(count, action, key);
    }
    count
}

// Puts an action into the orders by key. There is room for one more.
fn put(orders: &mut OrderPlaces, action: &Action, source: Source)
    requires { 0 < spare orders.old }
    ensures each { (base : Tables) (sources : Sources) (lines : List LineFields)
        → lines_from sources (length (added_by action.now)) source ≡ added_by action.now
        → IsWithin sources (length (added_by action.now)) source
        → Located sources (get nat_eq orders.old) lines
        → cause_of base lines action.now ≡ None
        → Located sources (get nat_eq orders.new) (lines_after_action lines action.now) }
    ensures room { spare orders.old ≤ spare orders.new + 1 }
{
    match action {
        Action::Add(order) => {
            let lines = order.lines().len() as u32;
            let _ = orders.insert(order.key(), OrderPlace { lines, source });
        }
        Action::Amend(order) | Action::Put(order) => {
            let lines = order.lines().len() as u32;
            let _ = orders.insert(order.key(), OrderPlace { lines, source });
        }
        Action::Withdraw(key) => {
            orders.remove(key);
        }
    }
}

// Makes a share of the refresh for each of its actions, in the place of those that are there.
pub(crate) fn share_all(
    refresh: &Arc<Refresh>,
    shares: &mut Vec<Arc<Refresh>>,
) -> Result<(), AllocError>
    ensures count { OnOk result (length shares.new.items ≡ length refresh.now.value) }
    ensures alike { OnOk result (All (λ share. share.value ≡ refresh.now.value) shares.new.items) }
{
    shares.clear();
    let count = refresh.actions().len();
    while shares.len() < count {
        shares.push(Arc::try_clone(refresh)?)?;
    }
    Ok(())
}

// Puts the actions of a refresh into the orders by key, each with a share of the refresh. There is room for all.
pub(crate) fn place_all(
    orders: &mut OrderPlaces,
    actions: &[Action],
    shares: &mut Vec<Arc<Refresh>>,
)
    requires room { length actions.now ≤ spare orders.old }
    requires few { length actions.now ≤ 64 }
    requires shares { length actions.now ≤ length shares.old.items }
    requires alike { All (λ share. share.value ≡ actions.now) shares.old.items }
    ensures { (base : Tables) (sources : Sources) (lines : List LineFields) (number : ℕ)
        → Located sources (get nat_eq orders.old) lines
        → first_refusal base number lines actions.now ≡ None
        → Located sources (get nat_eq orders.new) (lines_after_refresh lines actions.now) }
{
    for i in 0..actions.len() {
        let Some(refresh) = shares.pop() else {
            unreachable!()
        };
        let action = i as u32;
        put(orders, &actions[i], Source::Added { refresh, action });
    }
}
