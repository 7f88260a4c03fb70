//! Several statements, parted by semicolons.

use crate::cutting::{behind_gaps, cut_off};
use crate::fault::{SqlFault, place_at};
use crate::lexeme::Lexeme;
use crate::sql_text::statement_of;
use crate::statement::Statement;
use crate::token::Mark;
use std::alloc::Global;

// How many bytes stand up to the first semicolon, that included; all where there is none, or something wrong before it.
fn first_len(text: &str) -> usize {
    let mut rest = text;
    for _ in 0..text.len() {
        let Some(own) = cut_off(rest) else {
            break;
        };
        rest = own.rest;
        if matches!(own.lexeme, Lexeme::Mark(Mark::Semicolon)) {
            return text.len().saturating_sub(rest.len());
        }
    }
    text.len()
}

/// The statements that a text spells, one or more. The place of a fault is one of the whole text.
pub fn statements_of(alloc: Global, text: &str) -> Result<Vec<Statement>, SqlFault> {
    let mut found = Vec::new(alloc);
    let mut rest = text;
    for _ in 0..text.len().saturating_add(1) {
        if !found.is_empty() && behind_gaps(rest).is_empty() {
            break;
        }
        let at = text.len().saturating_sub(rest.len());
        let (part, behind) = rest.split_at_checked(first_len(rest)).unwrap_or((rest, ""));
        match statement_of(alloc, part) {
            Ok(statement) => found.push(statement)?,
            Err(fault) => return Err(fault.behind(place_at(text, at))),
        }
        rest = behind;
    }
    Ok(found)
}
