//! The primary replica: the live orders by key, and the log.
ghost use Rattle.std.specs.Prelude.{◌≡◌, ◌+◌, ◌≤◌, ◌^◌, ◌↔◌, List, [], length, drop, None, Some, IsNone, IfSome};
ghost use Rattle.std.specs.Prelude.{MatchResult, OnOk, OnErr, IfOk, IfErr};
ghost use Rattle.std.specs.List.{list_any};
ghost use Rattle.ssb_schema.specs.declared.line.LineFields.{LineFields};
ghost use Rattle.row_store.specs.Lines.{lines_of, lines_after_action, lines_after_refresh};
ghost use Rattle.row_store.specs.History.{lines_after, with_commit};
ghost use Rattle.row_store.specs.Refusals.{lacks_customer, lacks_supplier, lacks_part, lacks_date, unknown_key};
ghost use Rattle.row_store.specs.Refusals.{order_cause, cause_of, refusal_of};
ghost use Rattle.row_store.specs.Legal.{Fails, IsLegal, IsRefreshReply};

use crate::commit::{Commit, Receipt};
use crate::index::{index_of, look_through, place_runs};
use crate::log::Log;
use crate::order_lines::OrderLines;
use crate::place::{OrderPlaces, Source, count_after, order_at, place_all, share_all};
use crate::refusal::{ApplyError, Cause, RefreshError, Refusal};
use ghost_list::GhostList;
use ssb_base::Base;
use ssb_schema::{Action, Line, Order, Refresh};
use std::alloc::{AllocError, Global};
use std::collections::HashMap;
use std::hash::RandomState;
use std::marker::Model;
use std::mem;
use std::sync::Arc;

/// The live orders by key, and the log of commits. Contracts see the base and the commits.
pub struct RowStore {
    base: Arc<Base>,
    // The positions of the loaded lines, in the order of their order keys.
    index: Vec<u32>,
    orders: OrderPlaces,
    line_count: usize,
    // All commits. No memory holds them.
    history: GhostList<Commit>,
    // How many commits there are.
    count: u64,
    // The last of them: those that were not forgotten.
    recent: Vec<Commit>,
    // The shares of a refresh that is being applied, one for each action.
    shares: Vec<Arc<Refresh>>,
}

impl Drop for RowStore {
    fn drop(self) {
        let RowStore {
            base: _,
            index: _,
            orders: _,
            line_count: _,
            history: _,
            count: _,
            recent: _,
            shares: _,
        } = self;
    }
}

impl Model for RowStore {
    ghost use Rattle.std.specs.Prelude.{nat_eq};
    ghost use Rattle.std.specs.HashMap.{get};
    ghost use Rattle.row_store.specs.History.{Warehouse};
    ghost use Rattle.row_store.specs.Keyed.{IsStore};

    ghost Value = { Warehouse };

    ghost view = { λ s. record { base = s.base.value; log = s.history.items } };

    ghost invariant = { λ s. IsStore s.base.value s.index.items s.history.items s.recent.items s.count
        (get nat_eq s.orders) s.line_count };
}

// Whether some line names a customer that the base lacks.
fn lacks_customer(base: &Base, lines: &[Line]) -> bool
    ensures { result ≡ list_any (lacks_customer base.now.dimensions) lines.now }
{
    lines
        .iter()
        .any(|line| !base.customers().contains(line.customer_key()))
}

// Whether some line names a supplier that the base lacks.
fn lacks_supplier(base: &Base, lines: &[Line]) -> bool
    ensures { result ≡ list_any (lacks_supplier base.now.dimensions) lines.now }
{
    lines
        .iter()
        .any(|line| !base.suppliers().contains(line.supplier_key()))
}

// Whether some line names a part that the base lacks.
fn lacks_part(base: &Base, lines: &[Line]) -> bool
    ensures { result ≡ list_any (lacks_part base.now.dimensions) lines.now }
{
    lines
        .iter()
        .any(|line| !base.parts().contains(line.part_key()))
}

// Whether some line names a date that the base lacks.
fn lacks_date(base: &Base, lines: &[Line]) -> bool
    ensures { result ≡ list_any (lacks_date base.now.dimensions) lines.now }
{
    lines
        .iter()
        .any(|line| !base.dates().contains(line.order_date()))
}

// The first of customer, supplier, part and date that some line names and the base lacks.
fn unknown_key(base: &Base, lines: &[Line]) -> Option<Cause>
    ensures { result ≡ unknown_key base.now.dimensions lines.now }
{
    if lacks_customer(base, lines) {
        return Some(Cause::UnknownCustomer);
    }
    if lacks_supplier(base, lines) {
        return Some(Cause::UnknownSupplier);
    }
    if lacks_part(base, lines) {
        return Some(Cause::UnknownPart);
    }
    if lacks_date(base, lines) {
        return Some(Cause::UnknownDate);
    }
    None
}

// Looks at an order's lines where so many lines are live. It answers how many are live with them.
fn lines_after_joining(base: &Base, order: &Order, live: usize) -> Result<usize, Cause>
    requires { live ≤ base.now.limits.lines }
    ensures { (lines : List LineFields) → length lines ≡ live →
        MatchResult result
        (λ n. (order_cause base.now lines order.now ≡ None) × (n ≡ length lines + length order.now)
        × (n ≤ base.now.limits.lines))
        (λ cause. order_cause base.now lines order.now ≡ Some cause) }
{
    let lines = order.lines();
    if let Some(cause) = unknown_key(base, lines) {
        return Err(cause);
    }
    let live = live + lines.len();
    if live > base.limits().lines {
        return Err(Cause::LinesFull);
    }
    Ok(live)
}

impl RowStore {
    /// The loaded orders, and no commits. Orders are found by their hashed keys: with a random `hashing`, as
    /// `RandomState::new(&rt)?`, no client can pick keys that collide.
    pub fn new(alloc: Global, base: Arc<Base>, hashing: RandomState) -> Result<RowStore, AllocError>
        ensures { IfOk result (λ store. store ≡ record { base = base.value; log = [] }) }
    {
        let lines = base.lines();
        look_through(lines);
        let index = index_of(alloc, lines)?;
        let mut orders = HashMap::with_hasher(alloc, hashing);
        place_runs(&mut orders, lines, &index)?;
        let line_count = lines.len();
        Ok(RowStore {
            base,
            index,
            orders,
            line_count,
            history: GhostList::new(),
            count: 0,
            recent: Vec::new(alloc),
            shares: Vec::new(alloc),
        })
    }

    /// Every row store is sound: its log is a legal history, and its live lines are no more than the limits allow. The
    /// law alone: it does nothing.
    pub fn soundness(&self)
        ensures legal { IsLegal self.now.base self.now.log }
        ensures few { length (lines_after self.now.base self.now.log) ≤ self.now.base.limits.lines }
    {
        let _log = self.log_from(0);
        let _count = self.line_count();
    }

    /// The commits from the one after the first `n` on; none where some of them are forgotten. `n` is at most `len()`.
    pub fn log_from(&self, n: u64) -> Option<&[Commit]>
        requires { n ≤ length self.now.log }
        ensures commits { IfSome result (λ commits. commits.now ≡ drop n self.now.log) }
        ensures legal { IsLegal self.now.base self.now.log }
    {
        let forgotten = self.count - self.recent.len() as u64;
        if n < forgotten {
            return None;
        }
        Some(&self.recent[(n - forgotten) as usize..])
    }

    /// The number of commits.
    pub fn len(&self) -> usize
        ensures count { result ≡ length self.now.log }
        ensures few { result ≤ self.now.base.limits.commits }
    {
        self.count as usize
    }

    /// Forgets the first `n` commits, or nothing where memory is wanting. They come back, to be dropped where nobody
    /// waits.
    pub fn forget(&mut self, n: u64) -> Vec<Commit>
        ensures same { self.new ≡ self.old }
    {
        let alloc = *self.recent.allocator();
        let forgotten = self.count - self.recent.len() as u64;
        if n <= forgotten || n > self.count {
            return Vec::new(alloc);
        }
        match self.recent.split_off((n - forgotten) as usize) {
            Ok(rest) => mem::replace(&mut self.recent, rest),
            Err(_) => Vec::new(alloc),
        }
    }

    /// The base, which the store shares.
    pub fn base(&self) -> &Base
        ensures { result.now ≡ self.now.base }
    {
        &*self.base
    }

    /// The number of live lines.
    pub fn line_count(&self) -> usize
        ensures count { result ≡ length (lines_after self.now.base self.now.log) }
        ensures few { result ≤ self.now.base.limits.lines }
    {
        self.line_count
    }

    /// The live lines of an order; none where no live line has the key.
    pub fn lines_of(&self, key: u64) -> Option<OrderLines<'_>>
        ensures absent { IsNone result ↔ (lines_of key (lines_after self.now.base self.now.log) ≡ []) }
        ensures lines { IfSome result (λ order. order ≡ lines_of key (lines_after self.now.base self.now.log)) }
    {
        let place = self.orders.get(&key)?;
        match &place.source {
            Source::Loaded(first) => {
                let first = *first as usize;
                let positions = &self.index[first..first + place.lines as usize];
                Some(OrderLines::loaded(self.base.lines(), positions))
            }
            Source::Added { refresh, action } => {
                Some(OrderLines::added(order_at(refresh.actions(), *action)))
            }
        }
    }

    /// The base and the commits.
    pub fn into_parts(self) -> (Arc<Base>, Log)
        ensures base { result.0.value ≡ self.base }
        ensures log { result.1 ≡ self.log }
    {
        let RowStore {
            base,
            index: _,
            orders: _,
            line_count: _,
            history,
            count,
            recent,
            shares: _,
        } = self;
        (base, Log::new(history, count, recent))
    }

    /// Whether the refresh would be accepted, or its refusal: a full log, or the first action that is refused, each
    /// looked at with the earlier ones in force. It takes no memory.
    pub fn check(&self, refresh: &Refresh) -> Result<(), Refusal>
        ensures { MatchResult result
            (λ _. refusal_of self.now.base self.now.log refresh.now ≡ None)
            (λ refusal. refusal_of self.now.base self.now.log refresh.now ≡ Some refusal) }
    {
        self.examine(refresh)?;
        Ok(())
    }

    /// Applies all of the refresh, which becomes the next commit, or nothing. Memory is wanting only where `check`
    /// accepts.
    pub fn apply(&mut self, client: u32, refresh: Arc<Refresh>) -> Result<Receipt, ApplyError>
        ensures accepted { OnOk result (refusal_of self.old.base self.old.log refresh.value ≡ None) }
        ensures log { OnOk result (self.new ≡ with_commit self.old
            (record { client = client; actions = refresh.value })) }
        ensures number { IfOk result (λ receipt. receipt.number ≡ length self.new.log) }
        ensures failed { IfErr result (λ error. Fails error (refusal_of self.old.base self.old.log refresh.value)) }
        ensures unchanged { OnErr result (self.new ≡ self.old) }
    {
        let line_count = match self.examine(&refresh) {
            Ok(count) => count,
            Err(refusal) => return Err(ApplyError::Refused(refusal)),
        };
        if share_all(&refresh, &mut self.shares).is_err() {
            return Err(ApplyError::OutOfMemory);
        }
        if self.recent.reserve(1).is_err() {
            return Err(ApplyError::OutOfMemory);
        }
        if self.orders.reserve(refresh.actions().len()).is_err() {
            return Err(ApplyError::OutOfMemory);
        }
        let number = self.count + 1;
        place_all(&mut self.orders, refresh.actions(), &mut self.shares);
        let commit = Commit { client, refresh };
        self.history.push(&commit);
        self.recent.push_reserved(commit);
        self.count = number;
        self.line_count = line_count;
        Ok(Receipt { number })
    }

    /// Applies all of a client's refresh as the next commit, or nothing. The result is what the client is told: the
    /// commit's number, or the refusal and how many commits there were.
    pub fn refresh(&mut self, client: u32, refresh: Arc<Refresh>) -> Result<Receipt, RefreshError>
        ensures reply { IsRefreshReply self.old.base self.old.log refresh.value result }
        ensures committed { OnOk result (self.new ≡ with_commit self.old
            (record { client = client; actions = refresh.value })) }
        ensures unchanged { OnErr result (self.new ≡ self.old) }
    {
        let at = self.count;
        match self.apply(client, refresh) {
            Ok(receipt) => Ok(receipt),
            Err(ApplyError::Refused(refusal)) => Err(RefreshError::Refused {
                at,
                action: refusal.action,
                cause: refusal.cause,
            }),
            Err(ApplyError::OutOfMemory) => Err(RefreshError::OutOfMemory),
        }
    }

    // The same as `check`, and how many lines are live after the refresh.
    fn examine(&self, refresh: &Refresh) -> Result<usize, Refusal>
        ensures { MatchResult result
            (λ n. (refusal_of self.now.base self.now.log refresh.now ≡ None)
            × (n ≡ length (lines_after_refresh (lines_after self.now.base self.now.log) refresh.now))
            × (n ≤ self.now.base.limits.lines))
            (λ refusal. refusal_of self.now.base self.now.log refresh.now ≡ Some refusal) }
    {
        if self.count >= self.base.limits().commits {
            return Err(Refusal {
                action: 0,
                cause: Cause::LogFull,
            });
        }
        let actions = refresh.actions();
        let mut lines = self.line_count;
        let mut number = 0;
        for i in 0..actions.len() {
            number += 1;
            match self.look(&actions[..i], &actions[i], lines) {
                Ok(count) => lines = count,
                Err(cause) => {
                    return Err(Refusal {
                        action: number,
                        cause,
                    });
                }
            }
        }
        Ok(lines)
    }

    // Looks at an action after the earlier ones, which leave so many lines. It answers how many lines are live then.
    fn look(&self, earlier: &[Action], action: &Action, live: usize) -> Result<usize, Cause>
        requires few { length earlier.now ≤ 64 }
        requires live { live ≡ length (lines_after_refresh (lines_after self.now.base self.now.log) earlier.now) }
        requires limit { live ≤ self.now.base.limits.lines }
        ensures { let now = lines_after_refresh (lines_after self.now.base self.now.log) earlier.now in
            MatchResult result
            (λ n. (cause_of self.now.base now action.now ≡ None)
            × (n ≡ length (lines_after_action now action.now))
            × (n ≤ self.now.base.limits.lines))
            (λ cause. cause_of self.now.base now action.now ≡ Some cause) }
    {
        match action {
            Action::Add(order) => {
                let key = order.key();
                let count = self.count(earlier, key);
                if count > 0 {
                    return Err(Cause::Present(key));
                }
                lines_after_joining(&self.base, order, live)
            }
            Action::Amend(order) => {
                let key = order.key();
                let count = self.count(earlier, key);
                if count == 0 {
                    return Err(Cause::AmendAbsent(key));
                }
                lines_after_joining(&self.base, order, live - count)
            }
            Action::Put(order) => {
                let gone = self.count(earlier, order.key());
                lines_after_joining(&self.base, order, live - gone)
            }
            Action::Withdraw(key) => {
                let count = self.count(earlier, *key);
                if count == 0 {
                    return Err(Cause::Absent(*key));
                }
                Ok(live - count)
            }
        }
    }

    // How many lines the order has after the earlier actions.
    fn count(&self, earlier: &[Action], key: u64) -> usize
        requires { length earlier.now ≤ 64 }
        ensures { result ≡ length (lines_of key (lines_after_refresh (lines_after self.now.base self.now.log)
            earlier.now)) }
    {
        let held = self.orders.get(&key).map_or(0, |place| place.lines);
        count_after(held, earlier, key) as usize
    }
}
