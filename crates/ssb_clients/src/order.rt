//! The lines of an order, copied out of the row store for a client.
ghost use Rattle.std.specs.Prelude.{◌≡◌, ℕ, IfOk};
ghost use Rattle.row_store.specs.History.{lines_after};
ghost use Rattle.row_store.specs.Lines.{lines_of};
ghost use Rattle.ssb_clients.specs.Clients.{IsClient, HandsBack};

use crate::server::Server;
use history::Token;
use row_store::{Follower, OrderLines, RowStore};
use ssb_schema::Line;
use std::alloc::{AllocError, Global};
use std::sync::Wait;

// Copies the lines of an order.
fn copy_lines(alloc: Global, order: &OrderLines<'_>) -> Result<Vec<Line>, AllocError>
    ensures { IfOk result (λ lines. lines.items ≡ order.now) }
{
    let mut lines = Vec::with_capacity(alloc, order.len())?;
    for place in 0..order.len() {
        let Some(line) = order.get(place) else {
            unreachable!()
        };
        lines.push(line.clone()?)?;
    }
    Ok(lines)
}

// Copies the live lines of the order of this key.
fn copy_live(alloc: Global, rows: &RowStore, key: u64) -> Result<Vec<Line>, AllocError>
    ensures { IfOk result (λ lines. lines.items ≡ lines_of key (lines_after rows.now.base rows.now.log)) }
{
    match rows.lines_of(key) {
        Some(order) => copy_lines(alloc, &order),
        None => Ok(Vec::new(alloc)),
    }
}

/// Waits until the row store is home, takes it, copies the live lines of the order of this key, and gives the rows back
/// as they were.
pub(crate) fn order_lines<K: Follower + Drop, R: Wait>(
    rt: &R,
    server: &Server<K>,
    token: &mut Token<K>,
    key: u64,
) -> Result<Vec<Line>, AllocError>
    requires { (number : ℕ) × IsClient server.now number token.old }
    ensures looks { HandsBack token.old token.new }
    ensures lines { IfOk result (λ lines. lines.items
        ≡ lines_of key (lines_after token.new.table.base token.new.seen)) }
{
    let rows = server.table.take_rows(rt, token);
    let lines = copy_live(server.alloc, &rows, key);
    server.table.put_rows(token, rows);
    lines
}
