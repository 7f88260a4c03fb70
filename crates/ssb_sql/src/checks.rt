//! What the grammar does not say: which tables are read and joined, and which columns they give.

use crate::piece::{Operand, SqlPiece};
use crate::piece_fault::PieceFault;
use ssb_schema::{Column, Table};

fn is_read(pieces: &[SqlPiece<'_>], table: Table) -> bool {
    pieces.iter().any(|piece| matches!(piece, SqlPiece::From(own) if *own == table))
}

fn is_joined(pieces: &[SqlPiece<'_>], table: Table) -> bool {
    pieces.iter().any(|piece| matches!(piece, SqlPiece::Joined(own) if *own == table))
}

// What is wrong with a table that is read behind these pieces.
fn source_fault(pieces: &[SqlPiece<'_>], number: usize, table: Table) -> Option<PieceFault> {
    let earlier = pieces.get(..number).unwrap_or(pieces);
    if is_read(earlier, table) {
        return Some(PieceFault::TooMany(number));
    }
    if !is_read(pieces, Table::Lineorder) {
        return Some(PieceFault::NotJoined(number));
    }
    if table != Table::Lineorder && !is_joined(pieces, table) {
        return Some(PieceFault::NotJoined(number));
    }
    None
}

fn join_fault(pieces: &[SqlPiece<'_>], number: usize, table: Table) -> Option<PieceFault> {
    let earlier = pieces.get(..number).unwrap_or(pieces);
    if !is_read(earlier, table) {
        return Some(PieceFault::NotJoined(number));
    }
    if is_joined(earlier, table) {
        return Some(PieceFault::TooMany(number));
    }
    None
}

// The column of a dimension that a piece names.
fn column_in(piece: &SqlPiece<'_>) -> Option<Column> {
    match piece {
        SqlPiece::Prints(column) | SqlPiece::GroupsBy(column) | SqlPiece::OrdersBy(column) => Some(
            *column,
        ),
        SqlPiece::Is(Operand::Dimension(column), _)
        | SqlPiece::OrIs(Operand::Dimension(column), _)
        | SqlPiece::Stands(Operand::Dimension(column), _, _)
        | SqlPiece::Between(Operand::Dimension(column), _, _) => Some(*column),
        _ => None,
    }
}

fn fault_at(pieces: &[SqlPiece<'_>], number: usize) -> Option<PieceFault> {
    let piece = pieces.get(number)?;
    match piece {
        SqlPiece::From(table) => source_fault(pieces, number, *table),
        SqlPiece::Joined(table) => join_fault(pieces, number, *table),
        piece => match column_in(piece) {
            Some(column) if !is_read(pieces, column.table) => Some(PieceFault::NotJoined(number)),
            _ => None,
        },
    }
}

/// The first piece whose table is not read or not joined, or is so twice.
pub(crate) fn table_fault(pieces: &[SqlPiece<'_>]) -> Option<PieceFault> {
    (0..pieces.len()).find_map(|number| fault_at(pieces, number))
}
