//! Reference, which no program runs: a replica that keeps the live lines as a list.
ghost use Rattle.std.specs.Prelude.{◌≡◌, ◌++◌, ◌≤◌, [], flat_map, vec_len, vec_capacity, IfOk, OnOk, OnErr};
ghost use Rattle.std.specs.Prelude.{MatchResult};
ghost use Rattle.row_store.specs.Absorbing.{gone_by, lines_without_all};
ghost use Rattle.row_store.specs.Lines.{lines_after_action, lines_after_refresh};
ghost use Rattle.row_store.specs.History.{lines_after, with_commit};
ghost use Rattle.row_store.specs.State.{state_of, state_after};

use crate::commit::Commit;
use crate::place::added;
use crate::replica::{Follower, Replica};
use ssb_base::Base;
use ssb_schema::{Action, Line};
use std::alloc::{AllocError, Global};
use std::marker::Model;
use std::sync::Arc;

/// The live lines as a list, and the commits that led to it. Contracts see the base and the commits.
#[derive(Drop)]
pub struct PlainLines {
    base: Arc<Base>,
    lines: Vec<Line>,
    log: Vec<Commit>,
}

impl Model for PlainLines {
    ghost use Rattle.std.specs.Prelude.{◌≡◌};
    ghost use Rattle.row_store.specs.History.{Warehouse, lines_after};

    ghost Value = { Warehouse };

    ghost view = { λ p. record { base = p.base.value; log = p.log.items } };

    ghost invariant = { λ p. p.lines.items ≡ lines_after p.base.value p.log.items };
}

// Appends clones of the lines.
fn clone_lines(fresh: &mut Vec<Line>, lines: &[Line]) -> Result<(), AllocError>
    ensures { OnOk result (fresh.new.items ≡ fresh.old.items ++ lines.now) }
{
    for line in lines {
        fresh.push(line.clone()?)?;
    }
    Ok(())
}

// Notes the order whose earlier lines go by the action.
fn note_gone(keys: &mut Vec<u64>, action: &Action) -> Result<(), AllocError>
    ensures { OnOk result (keys.new.items ≡ keys.old.items ++ gone_by action.now) }
{
    match action {
        Action::Add(_) => {}
        Action::Amend(order) | Action::Put(order) => keys.push(order.key())?,
        Action::Withdraw(key) => keys.push(*key)?,
    }
    Ok(())
}

// The orders whose earlier lines go by the actions.
fn gone_by_all(alloc: Global, actions: &[Action]) -> Result<Vec<u64>, AllocError>
    ensures { IfOk result (λ keys. keys.items ≡ flat_map gone_by actions.now) }
{
    let mut keys = Vec::new(alloc);
    for action in actions {
        note_gone(&mut keys, action)?;
    }
    Ok(keys)
}

// Drops the lines of these orders, in one pass.
fn drop_orders(lines: &mut Vec<Line>, keys: &[u64])
    ensures lines { lines.new.items ≡ lines_without_all keys.now lines.old.items }
    ensures len { vec_len lines.new ≤ vec_len lines.old }
    ensures capacity { vec_capacity lines.new ≡ vec_capacity lines.old }
{
    lines.retain(|line| !keys.contains(&line.order_key()));
}

// Takes an action.
fn act(lines: &mut Vec<Line>, action: &Action) -> Result<(), AllocError>
    ensures { OnOk result (lines.new.items ≡ lines_after_action lines.old.items action.now) }
{
    match action {
        Action::Add(order) => clone_lines(lines, order.lines()),
        Action::Amend(order) | Action::Put(order) => {
            drop_orders(lines, &[order.key()]);
            clone_lines(lines, order.lines())
        }
        Action::Withdraw(key) => {
            drop_orders(lines, &[*key]);
            Ok(())
        }
    }
}

// What the actions leave where there were no lines before them.
fn added_by_all(alloc: Global, actions: &[Action]) -> Result<Vec<Line>, AllocError>
    ensures { IfOk result (λ fresh. fresh.items ≡ lines_after_refresh [] actions.now) }
{
    let mut fresh = Vec::new(alloc);
    for action in actions {
        act(&mut fresh, action)?;
    }
    Ok(fresh)
}

impl PlainLines {
    /// The loaded lines, and no commits.
    pub fn new(alloc: Global, base: Arc<Base>) -> Result<PlainLines, AllocError>
        ensures { IfOk result (λ plain. plain ≡ record { base = base.value; log = [] }) }
    {
        let loaded = base.lines();
        let mut lines = Vec::with_capacity(alloc, loaded.len())?;
        clone_lines(&mut lines, loaded)?;
        Ok(PlainLines {
            base,
            lines,
            log: Vec::new(alloc),
        })
    }

    /// The live lines: the loaded ones first, and then in the order in which commits added them.
    pub fn lines(&self) -> &[Line]
        ensures { result.now ≡ lines_after self.now.base self.now.log }
    {
        self.lines.as_slice()
    }
}

impl Replica for PlainLines {
    ghost use Rattle.row_store.specs.State.{state_of};

    ghost state = { λ p. state_of p.base p.log };

    fn absorb(&mut self, commit: &Commit) -> Result<(), AllocError>
        ensures state { MatchResult result
            (λ _. state_of self.new.base self.new.log ≡ state_after (state_of self.old.base self.old.log) commit.now)
            (λ _. state_of self.new.base self.new.log ≡ state_of self.old.base self.old.log) }
        ensures taken { OnOk result (self.new ≡ with_commit self.old commit.now) }
        ensures unchanged { OnErr result (self.new ≡ self.old) }
    {
        let alloc = *self.lines.allocator();
        let actions = commit.refresh.actions();
        let gone = gone_by_all(alloc, actions)?;
        let mut fresh = added_by_all(alloc, actions)?;
        let commit = commit.clone()?;
        self.log.reserve(1)?;
        self.lines.reserve(fresh.len())?;
        drop_orders(&mut self.lines, &gone);
        let _ = self.lines.append(&mut fresh);
        self.log.push_reserved(commit);
        Ok(())
    }

    fn commits(&self) -> u64 {
        self.log.len() as u64
    }

    fn copy(&self) -> Result<PlainLines, AllocError>
        ensures state { IfOk result (λ plain. state_of plain.base plain.log ≡ state_of self.now.base self.now.log) }
        ensures same { IfOk result (λ plain. plain ≡ self.now) }
    {
        let alloc = *self.lines.allocator();
        Ok(PlainLines {
            base: Arc::try_clone(&self.base)?,
            lines: self.lines.to_vec(alloc)?,
            log: self.log.to_vec(alloc)?,
        })
    }
}

impl Follower for PlainLines {
    ghost base = { λ p. p.base };

    ghost commits = { λ p. p.log };

    fn taken(&self) -> u64 {
        self.commits()
    }
}
