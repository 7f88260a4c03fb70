//! What a commit changes, written.

ghost use Rattle.std.specs.Prelude.{◌≡◌, List, None, flat_map};
ghost use Rattle.row_store.specs.History.{lines_after};
ghost use Rattle.row_store.specs.Lines.{lines_after_action, lines_after_refresh, lines_of};
ghost use Rattle.row_store.specs.Refusals.{cause_of, first_refusal, refusal_of};
ghost use Rattle.ssb_base.specs.Base.{Tables};
ghost use Rattle.ssb_schema.specs.declared.line.LineFields.{LineFields};
ghost use Rattle.ssb_text.specs.Written.{Writes};
ghost use Rattle.changes_command.specs.Held.{IsHeldFrom};
ghost use Rattle.changes_command.specs.Signed.{changes_by, changes_by_all};
ghost use Rattle.changes_command.specs.SignedText.{lines_text, signed_text};

use crate::format::{ChangesFormat, write_signed};
use crate::signed::Sign;
use row_store::{OrderLines, RowStore};
use ssb_schema::{Action, Line};
use ssb_text::WriteFault;
use std::io::Write;

/// Writes lines with one commit and one sign.
pub(crate) fn write_lines<W: Write>(
    out: &mut W,
    format: ChangesFormat,
    commit: u64,
    sign: Sign,
    lines: &[Line],
) -> Result<(), WriteFault>
    ensures { Writes (W.contents out.old) (W.contents out.new) result (flat_map (signed_text format commit sign) lines.now) }
{
    for line in lines {
        write_signed(out, format, commit, sign, line)?;
    }
    Ok(())
}

// The same of the live lines of an order.
fn write_order<W: Write>(
    out: &mut W,
    format: ChangesFormat,
    commit: u64,
    sign: Sign,
    order: &OrderLines<'_>,
) -> Result<(), WriteFault>
    ensures { Writes (W.contents out.old) (W.contents out.new) result (flat_map (signed_text format commit sign) order.now) }
{
    for place in 0..order.len() {
        let Some(line) = order.get(place) else {
            unreachable!()
        };
        write_signed(out, format, commit, sign, line)?;
    }
    Ok(())
}

// What the order of a key has after one action more: the lines that an action of the refresh gave it, or none where no
// action did yet, and it has those that were live before the refresh.
fn held_after<'a>(held: Option<&'a [Line]>, action: &'a Action, key: u64) -> Option<&'a [Line]>
    ensures { (base : Tables) (before lines : List LineFields) → cause_of base lines action.now ≡ None
        → IsHeldFrom key before held.entry lines → IsHeldFrom key before result (lines_after_action lines action.now) }
{
    match action {
        Action::Add(order) => {
            let lines = order.lines();
            if order.key() == key {
                Some(lines)
            } else {
                held
            }
        }
        Action::Amend(order) | Action::Put(order) => {
            let lines = order.lines();
            if order.key() == key {
                Some(lines)
            } else {
                held
            }
        }
        Action::Withdraw(gone) => { if *gone == key { Some(&[]) } else { held } }
    }
}

// The same after the first actions of a refresh.
fn held_among<'a>(earlier: &'a [Action], key: u64) -> Option<&'a [Line]>
    ensures { (base : Tables) (lines : List LineFields) → first_refusal base 1 lines earlier.now ≡ None
        → IsHeldFrom key lines result (lines_after_refresh lines earlier.now) }
{
    let mut held = None;
    for action in earlier {
        held = held_after(held, action, key);
    }
    held
}

// The lines that an order has after the first actions of the next commit: they go.
fn write_taken<W: Write>(
    out: &mut W,
    format: ChangesFormat,
    store: &RowStore,
    commit: u64,
    earlier: &[Action],
    key: u64,
) -> Result<(), WriteFault>
    requires { first_refusal store.now.base 1 (lines_after store.now.base store.now.log) earlier.now ≡ None }
    ensures { Writes (W.contents out.old) (W.contents out.new) result (flat_map (signed_text format commit Sign.Went)
        (lines_of key (lines_after_refresh (lines_after store.now.base store.now.log) earlier.now))) }
{
    if let Some(lines) = held_among(earlier, key) {
        return write_lines(out, format, commit, Sign::Went, lines);
    }
    match store.lines_of(key) {
        Some(order) => write_order(out, format, commit, Sign::Went, &order),
        None => Ok(()),
    }
}

// What an action of the next commit changes, behind its first ones.
fn write_action<W: Write>(
    out: &mut W,
    format: ChangesFormat,
    store: &RowStore,
    commit: u64,
    earlier: &[Action],
    action: &Action,
) -> Result<(), WriteFault>
    requires { first_refusal store.now.base 1 (lines_after store.now.base store.now.log) earlier.now ≡ None }
    ensures { Writes (W.contents out.old) (W.contents out.new) result (lines_text format (changes_by commit
        (lines_after_refresh (lines_after store.now.base store.now.log) earlier.now) action.now)) }
{
    match action {
        Action::Add(order) => write_lines(out, format, commit, Sign::Came, order.lines()),
        Action::Amend(order) | Action::Put(order) => {
            write_taken(out, format, store, commit, earlier, order.key())?;
            write_lines(out, format, commit, Sign::Came, order.lines())
        }
        Action::Withdraw(key) => write_taken(out, format, store, commit, earlier, *key),
    }
}

/// Writes what the next commit changes, by its number; it is not refused. Each piece of a line is one `write`, so a
/// caller buffers. It takes no memory.
pub(crate) fn write_commit<W: Write>(
    out: &mut W,
    format: ChangesFormat,
    store: &RowStore,
    commit: u64,
    actions: &[Action],
) -> Result<(), WriteFault>
    requires { refusal_of store.now.base store.now.log actions.now ≡ None }
    ensures { Writes (W.contents out.old) (W.contents out.new) result (lines_text format (changes_by_all commit
        (lines_after store.now.base store.now.log) actions.now)) }
{
    for place in 0..actions.len() {
        write_action(
            out,
            format,
            store,
            commit,
            &actions[..place],
            &actions[place],
        )?;
    }
    Ok(())
}
