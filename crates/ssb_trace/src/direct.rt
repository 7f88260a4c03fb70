//! The commits of a text, read directly off its bytes where nothing in them is odd.
//!
//! The records of csv stay the rule ([`crate::read_trace`]): what is read here is what they spell. Whatever is not
//! plainly a commit as [`crate::write_trace`] writes it is left to them; so no fault is known here.

ghost use Rattle.std.specs.Prelude.{◌≡◌, ◌++◌, ◌∷◌, [], All, IfSome, None, map};
ghost use Rattle.std.specs.List.{flat_map};
ghost use Rattle.ssb_schema.specs.Orders.{order_fault};
ghost use Rattle.ssb_schema.specs.Refreshes.{refresh_fault};
ghost use Rattle.ssb_script.specs.Lines as script;
ghost use Rattle.ssb_script.specs.Requests as requests;
ghost use Rattle.ssb_script.specs.Requests.{IsWholeAction, IsWholeRequest, lines_of_action};
ghost use Rattle.ssb_trace.specs.Direct.{BeginsWithLines, SpellsCommits, lines_in};
ghost use Rattle.ssb_trace.specs.Entries.{lines_of_commit};

use crate::heads::client_numbered;
use row_store::Commit;
use ssb_schema::{Action, Line, Order, Refresh};
use ssb_text::{may_be_marked, take_lined, take_numbered, take_word};
use std::alloc::Global;
use std::sync::Arc;

// Puts one more behind the items; none where memory runs out.
fn push<T: Drop>(items: &mut Vec<T>, item: T) -> Option<()>
    ensures { IfSome result (λ _. items.new.items ≡ items.old.items ++ item ∷ []) }
{
    items.push(item).ok()
}

// The lines of an order at the start of a text, and what stands behind their records.
fn take_lines(alloc: Global, text: &[u8]) -> Option<(Vec<Line>, &[u8])>
    ensures { IfSome result (λ taken. BeginsWithLines text.now (lines_in (map script.Line taken.0.items)) taken.1.now) }
{
    let mut lines = Vec::new(alloc);
    let mut rest = text;
    while let Some((line, behind)) = take_lined(alloc, rest, b"line") {
        push(&mut lines, line)?;
        rest = behind;
    }
    Some((lines, rest))
}

// The order of these lines, and what stands behind their records.
fn take_order(alloc: Global, text: &[u8]) -> Option<(Order, &[u8])>
    ensures { IfSome result (λ taken. (order_fault taken.0 ≡ None)
        × BeginsWithLines text.now (lines_in (map script.Line taken.0)) taken.1.now) }
{
    let (lines, behind) = take_lines(alloc, text)?;
    Some((Order::new(lines).ok()?, behind))
}

// The action at the start of a text, and what stands behind its records.
fn take_action(alloc: Global, text: &[u8]) -> Option<(Action, &[u8])>
    ensures { IfSome result (λ taken. IsWholeAction taken.0
        × BeginsWithLines text.now (lines_in (lines_of_action taken.0)) taken.1.now) }
{
    if let Some(rest) = take_word(text, b"add") {
        let (order, behind) = take_order(alloc, rest)?;
        return Some((Action::Add(order), behind));
    }
    if let Some(rest) = take_word(text, b"amend") {
        let (order, behind) = take_order(alloc, rest)?;
        return Some((Action::Amend(order), behind));
    }
    if let Some(rest) = take_word(text, b"put") {
        let (order, behind) = take_order(alloc, rest)?;
        return Some((Action::Put(order), behind));
    }
    let (key, behind) = take_numbered(text, b"withdraw")?;
    Some((Action::Withdraw(key), behind))
}

// The actions of a refresh at the start of a text, and what stands behind the record of its end.
fn take_actions(alloc: Global, text: &[u8]) -> Option<(Vec<Action>, &[u8])>
    ensures { IfSome result (λ taken. All IsWholeAction taken.0.items
        × BeginsWithLines text.now (lines_in (flat_map lines_of_action taken.0.items ++ script.Commit ∷ []))
        taken.1.now) }
{
    let mut actions = Vec::new(alloc);
    let mut rest = text;
    loop {
        if let Some(behind) = take_word(rest, b"end") {
            return Some((actions, behind));
        }
        let (action, behind) = take_action(alloc, rest)?;
        push(&mut actions, action)?;
        rest = behind;
    }
}

// The client's commit of these actions, where a refresh may have them.
fn commit_of(alloc: Global, client: u32, actions: Vec<Action>) -> Option<Commit>
    ensures { IfSome result (λ commit. (commit ≡ record { client = client; actions = actions.items })
        × (refresh_fault actions.items ≡ None)) }
{
    let refresh = Refresh::new(actions).ok()?;
    Some(Commit {
        client,
        refresh: Arc::new(alloc, refresh).ok()?,
    })
}

// The commit at the start of a text, and what stands behind its records.
fn take_commit(alloc: Global, text: &[u8]) -> Option<(Commit, &[u8])>
    ensures { IfSome result (λ taken. IsWholeRequest (requests.Refresh taken.0.actions)
        × BeginsWithLines text.now (lines_of_commit taken.0) taken.1.now) }
{
    let (number, rest) = take_numbered(text, b"commit")?;
    let client = client_numbered(number)?;
    let (actions, behind) = take_actions(alloc, rest)?;
    let commit = commit_of(alloc, client, actions)?;
    Some((commit, behind))
}

/// The commits that a text spells, and nothing else, where nothing in it is odd. None says nothing of the text.
pub fn read_directly(alloc: Global, text: &[u8]) -> Option<Vec<Commit>>
    ensures { IfSome result (λ commits. SpellsCommits text.now commits.items) }
{
    if may_be_marked(text) {
        return None;
    }
    let mut commits = Vec::new(alloc);
    let mut rest = text;
    while !rest.is_empty() {
        let (commit, behind) = take_commit(alloc, rest)?;
        push(&mut commits, commit)?;
        rest = behind;
    }
    Some(commits)
}
