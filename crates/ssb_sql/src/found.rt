//! What the parts of a text have, one after another.
ghost use Rattle.std.specs.Prelude.{◌≡◌, Some, IfOk, IfErr, OnOk, MatchOption, true, false, map};
ghost use Rattle.ssb_sql.specs.Parts.{part_now};
ghost use Rattle.ssb_sql.specs.Refusals.{Refuses};
ghost use Rattle.ssb_sql.specs.Texts.{bare_token};
ghost use Rattle.ssb_sql.specs.Tokens as spec;
ghost use Rattle.ssb_sql.specs.declared.found.NotAdded.TheVariants.{OutOfMemory};

use crate::cutting::behind_gaps;
use crate::fault::{SqlFault, place_at};
use crate::part::{NoPart, Part, next_part};
use crate::token::{SqlToken, SqlWord};
use crate::token_parts::same_table;
use crate::words::same_word;
use ssb_schema::Table;
use std::alloc::{AllocError, Global};

/// A table, and a name for it.
#[derive(Clone, Copy)]
pub(crate) struct NamedTable<'a> {
    name: &'a str,
    table: Table,
}

/// A name before a column, with the table that has the column, and its place.
#[derive(Clone, Copy)]
pub(crate) struct Qualifier<'a> {
    named: NamedTable<'a>,
    at: usize,
}

/// Whether another name of a table may come.
#[derive(Clone, Copy)]
pub(crate) enum Naming<'a> {
    /// None.
    Outside,
    /// Behind the table.
    Behind(NamedTable<'a>),
    /// Behind AS.
    As(Table),
}

/// Tokens with their places, tables with their names, and the names before columns.
#[derive(Drop)]
pub(crate) struct Found<'a> {
    pub tokens: Vec<SqlToken<'a>>,
    pub places: Vec<usize>,
    pub sources: Vec<NamedTable<'a>>,
    pub qualifiers: Vec<Qualifier<'a>>,
    pub naming: Naming<'a>,
}

/// Why a part does not follow the others.
#[derive(Clone, Copy)]
enum NotAdded {
    Unexpected,
    OutOfMemory,
}

impl From<AllocError> for NotAdded {
    ghost from_gives = { λ _ e. e ≡ OutOfMemory };

    fn from(_: AllocError) -> NotAdded {
        NotAdded::OutOfMemory
    }
}

// Whether a table is that of a name before a column.
fn names(own: NamedTable<'_>, qualifier: NamedTable<'_>) -> bool
    ensures { result ≡ spec.names (spec.named_now qualifier.entry) (spec.named_now own.entry) }
{
    same_table(own.table, qualifier.table) && same_word(own.name, qualifier.name)
}

// Whether a table is read under the name before a column.
fn is_named(sources: &[NamedTable<'_>], qualifier: NamedTable<'_>) -> bool
    ensures { result ≡ spec.is_named (map spec.named_now sources.now) (spec.named_now qualifier.entry) }
{
    for own in sources {
        if names(*own, qualifier) {
            return true;
        }
    }
    false
}

// Behind a table another name of it may come.
fn naming_behind<'a>(first: &'a str, token: SqlToken<'a>) -> Naming<'a>
    ensures { spec.naming_now result ≡ spec.naming_behind first.now (bare_token token.entry) }
{
    match token {
        SqlToken::Table(table) => Naming::Behind(NamedTable { name: first, table }),
        _ => Naming::Outside,
    }
}

impl<'a> Found<'a> {
    fn nothing(alloc: Global) -> Found<'a>
        ensures { spec.found_now result ≡ spec.nothing }
    {
        Found {
            tokens: Vec::new(alloc),
            places: Vec::new(alloc),
            sources: Vec::new(alloc),
            qualifiers: Vec::new(alloc),
            naming: Naming::Outside,
        }
    }

    // A table with its name.
    fn push_source(&mut self, source: NamedTable<'a>) -> Result<(), AllocError>
        ensures { OnOk result (spec.found_now self.new
            ≡ spec.with_source (spec.found_now self.old) (spec.named_now source.entry)) }
    {
        self.sources.push(source)?;
        self.naming = Naming::Outside;
        Ok(())
    }

    fn push_qualifier(&mut self, part: Part<'a>, at: usize) -> Result<(), AllocError>
        ensures { OnOk result (spec.found_now self.new
            ≡ spec.with_qualifier (spec.found_now self.old) (part_now part.entry)) }
    {
        if let Some(table) = part.table {
            let named = NamedTable {
                name: part.first,
                table,
            };
            self.qualifiers.push(Qualifier { named, at })?;
        }
        Ok(())
    }

    fn push_part(&mut self, part: Part<'a>, at: usize) -> Result<(), AllocError>
        ensures { OnOk result (spec.found_now self.new
            ≡ spec.with_part (spec.found_now self.old) (part_now part.entry)) }
    {
        self.push_qualifier(part, at)?;
        self.tokens.push(part.token)?;
        self.places.push(at)?;
        self.naming = naming_behind(part.first, part.token);
        Ok(())
    }

    // Behind a table.
    fn add_behind(
        &mut self,
        source: NamedTable<'a>,
        part: Part<'a>,
        at: usize,
    ) -> Result<(), AllocError>
        ensures { OnOk result (spec.added_behind (spec.named_now source.entry) (bare_token part.entry.token)
            (spec.found_now self.old) (part_now part.entry) ≡ spec.found_now self.new) }
    {
        match part.token {
            SqlToken::Word(SqlWord::As) => {
                self.naming = Naming::As(source.table);
                Ok(())
            }
            SqlToken::Name(name) => {
                self.push_source(NamedTable {
                    name,
                    table: source.table,
                })
            }
            _ => {
                self.push_source(source)?;
                self.push_part(part, at)
            }
        }
    }

    // Behind AS.
    fn add_as(&mut self, table: Table, part: Part<'a>) -> Result<(), NotAdded>
        ensures added { OnOk result (spec.added_as table (bare_token part.entry.token) (spec.found_now self.old)
            ≡ Some (spec.found_now self.new)) }
        ensures refused { IfErr result (spec.IsRefused
            (spec.added_as table (bare_token part.entry.token) (spec.found_now self.old))) }
    {
        match part.token {
            SqlToken::Name(name) => {
                self.push_source(NamedTable { name, table })?;
                Ok(())
            }
            _ => Err(NotAdded::Unexpected),
        }
    }

    fn add(&mut self, part: Part<'a>, at: usize) -> Result<(), NotAdded>
        ensures added { OnOk result (spec.add (spec.found_now self.old) (part_now part.entry)
            ≡ Some (spec.found_now self.new)) }
        ensures refused { IfErr result (spec.IsRefused (spec.add (spec.found_now self.old) (part_now part.entry))) }
    {
        match self.naming {
            Naming::Outside => self.push_part(part, at)?,
            Naming::Behind(source) => self.add_behind(source, part, at)?,
            Naming::As(table) => return self.add_as(table, part),
        }
        Ok(())
    }

    // At the end of a text.
    fn end(&mut self) -> Result<(), NotAdded>
        ensures ended { OnOk result (spec.ended (spec.found_now self.old) ≡ Some (spec.found_now self.new)) }
        ensures refused { IfErr result (spec.IsRefused (spec.ended (spec.found_now self.old))) }
    {
        match self.naming {
            Naming::Outside => Ok(()),
            Naming::Behind(source) => {
                self.push_source(source)?;
                Ok(())
            }
            Naming::As(_) => Err(NotAdded::Unexpected),
        }
    }

    /// The place of the first name before a column that is none of the table that has the column.
    pub fn unnamed(&self) -> Option<usize>
        ensures { MatchOption result (spec.are_named (spec.found_now self.now) ≡ true)
            (λ _. spec.are_named (spec.found_now self.now) ≡ false) }
    {
        for qualifier in &self.qualifiers {
            if !is_named(self.sources.as_slice(), qualifier.named) {
                return Some(qualifier.at);
            }
        }
        None
    }
}

// What the parts of a text have.
fn parts_of<'a>(alloc: Global, text: &'a str) -> Result<Found<'a>, SqlFault>
    ensures found { IfOk result (λ found. spec.all_of text.now ≡ Some (spec.found_now found)) }
    ensures fault { IfErr result (Refuses (spec.all_of text.now)) }
{
    let mut found = Found::nothing(alloc);
    let mut rest = behind_gaps(text);
    for _number in 0..text.len() {
        if rest.is_empty() {
            return Ok(found);
        }
        let at = text.len().saturating_sub(rest.len());
        let part = match next_part(rest) {
            Ok(part) => part,
            Err(NoPart::Bad) => return Err(SqlFault::BadToken(place_at(text, at))),
            Err(NoPart::UnknownName) => return Err(SqlFault::UnknownName(place_at(text, at))),
        };
        match found.add(part, at) {
            Ok(()) => rest = behind_gaps(part.rest),
            Err(NotAdded::Unexpected) => return Err(SqlFault::Unexpected(place_at(text, at))),
            Err(NotAdded::OutOfMemory) => return Err(SqlFault::OutOfMemory),
        }
    }
    Ok(found)
}

/// What a text has.
pub(crate) fn found_in<'a>(alloc: Global, text: &'a str) -> Result<Found<'a>, SqlFault>
    ensures found { IfOk result (λ found. spec.found_in text.now ≡ Some (spec.found_now found)) }
    ensures fault { IfErr result (Refuses (spec.found_in text.now)) }
{
    match parts_of(alloc, text) {
        Ok(mut found) => match found.end() {
            Ok(()) => Ok(found),
            Err(NotAdded::Unexpected) => Err(SqlFault::Unexpected(place_at(text, text.len()))),
            Err(NotAdded::OutOfMemory) => Err(SqlFault::OutOfMemory),
        },
        Err(fault) => Err(fault),
    }
}
