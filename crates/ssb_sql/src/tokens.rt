//! The tokens of a text.
ghost use Rattle.std.specs.Prelude.{◌≡◌, Some, IfOk, IfErr, map};
ghost use Rattle.ssb_sql.specs.Refusals.{Refuses};
ghost use Rattle.ssb_sql.specs.Texts.{bare_token};
ghost use Rattle.ssb_sql.specs.Tokens.{tokens_in};

use crate::fault::{SqlFault, TextPlace, place_at};
use crate::found::{Found, found_in};
use crate::token::SqlToken;
use std::alloc::Global;

/// The tokens of a text, and how many of its bytes stand before each. A table and its other name are one token.
#[derive(Drop)]
pub(crate) struct Tokens<'a> {
    pub text: &'a str,
    pub tokens: Vec<SqlToken<'a>>,
    pub places: Vec<usize>,
}

impl<'a> Tokens<'a> {
    /// The tokens of this text.
    pub fn of(alloc: Global, text: &'a str) -> Result<Tokens<'a>, SqlFault>
        ensures read { IfOk result (λ own. tokens_in text.now ≡ Some (map bare_token own.tokens.items)) }
        ensures fault { IfErr result (Refuses (tokens_in text.now)) }
    {
        match found_in(alloc, text) {
            Ok(found) => match found.unnamed() {
                Some(at) => Err(SqlFault::UnknownName(place_at(text, at))),
                None => {
                    let Found {
                        tokens,
                        places,
                        sources: _,
                        qualifiers: _,
                        naming: _,
                    } = found;
                    Ok(Tokens {
                        text,
                        tokens,
                        places,
                    })
                }
            },
            Err(fault) => Err(fault),
        }
    }

    /// The place of a token, by its number from 0; that behind the last where there are not so many.
    pub fn place(&self, number: usize) -> TextPlace {
        let at = self.places.get(number).copied().unwrap_or(self.text.len());
        place_at(self.text, at)
    }

    /// What is wrong where a token may not come, of which this number is left, itself among them.
    pub fn unexpected(&self, left: usize) -> SqlFault {
        let number = self.tokens.len().saturating_sub(left);
        let place = self.place(number);
        match self.tokens.get(number) {
            Some(SqlToken::Foreign) => SqlFault::NotSupported(place),
            Some(SqlToken::Large(_)) => SqlFault::BadToken(place),
            _ => SqlFault::Unexpected(place),
        }
    }
}
