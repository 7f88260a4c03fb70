//! The statement that pieces make.

ghost use Rattle.std.specs.Prelude.{◌≡◌, ◌++◌, IfOk, OnOk, option_to_list};
ghost use Rattle.ssb_sql.specs.Said.{group_said, groups_said, limit_said, most_said};

use crate::piece::{Aggregate, SqlPiece};
use crate::piece_fault::PieceFault;
use crate::statement::{GroupTest, MOST_SHOWN, Shown, SortKey};
use ssb_questions::Measure;
use ssb_questions::clauses::MOST_GROUPS;
use ssb_schema::{Column, Text};
use std::alloc::{AllocError, Global};

/// What is printed, under which heads, and what is summed for it, each once.
#[derive(Drop)]
pub(crate) struct Printed {
    pub shown: Vec<Shown>,
    pub heads: Vec<Text>,
    pub measures: Vec<Measure>,
}

// Adds the group column that the piece of this number says, where it says one.
fn push_group(
    groups: &mut Vec<Column>,
    piece: SqlPiece<'_>,
    number: usize,
) -> Result<(), PieceFault>
    ensures { OnOk result (groups.new.items ≡ groups.old.items ++ option_to_list (group_said piece.entry)) }
{
    if let SqlPiece::GroupsBy(column) = piece {
        if groups.len() >= MOST_GROUPS || groups.iter().any(|own| *own == column) {
            return Err(PieceFault::TooMany(number));
        }
        groups.push(column)?;
    }
    Ok(())
}

/// The group columns.
pub(crate) fn groups_in(alloc: Global, pieces: &[SqlPiece<'_>]) -> Result<Vec<Column>, PieceFault>
    ensures { IfOk result (λ groups. groups.items ≡ groups_said pieces.now) }
{
    let mut groups = Vec::new(alloc);
    for (number, piece) in pieces.iter().enumerate() {
        push_group(&mut groups, *piece, number)?;
    }
    Ok(groups)
}

// The place of a group column, from 0.
fn place_of(groups: &[Column], column: Column, number: usize) -> Result<usize, PieceFault> {
    match groups.iter().position(|own| *own == column) {
        Some(place) => Ok(place),
        None => Err(PieceFault::NotAGroup(number)),
    }
}

// The place of a measure among those that are summed; it is put behind them where it is not there yet.
fn measured(measures: &mut Vec<Measure>, measure: Measure) -> Result<usize, AllocError> {
    if let Some(place) = measures.iter().position(|own| *own == measure) {
        return Ok(place);
    }
    measures.push(measure)?;
    Ok(measures.len().saturating_sub(1))
}

// What an aggregate is of the answers to questions, whose measures are put behind the others where they lack.
fn shown_of(measures: &mut Vec<Measure>, aggregate: Aggregate) -> Result<Shown, AllocError> {
    match aggregate {
        Aggregate::Total(Measure::Lines) => Ok(Shown::Count(measured(measures, Measure::Lines)?)),
        Aggregate::Total(measure) => Ok(Shown::Sum(measured(measures, measure)?)),
        Aggregate::CountOrNull => Ok(Shown::Sum(measured(measures, Measure::Lines)?)),
        Aggregate::Average(measure) => {
            let sum = measured(measures, measure)?;
            Ok(Shown::Average(sum, measured(measures, Measure::Lines)?))
        }
    }
}

// The head of an aggregate without a name.
fn own_head(aggregate: Aggregate) -> &'static str {
    match aggregate {
        Aggregate::Total(measure) => measure.name(),
        Aggregate::CountOrNull => Measure::Lines.name(),
        Aggregate::Average(Measure::Revenue) => "AVG(LO_REVENUE)",
        Aggregate::Average(Measure::Profit) => "AVG(LO_REVENUE-LO_SUPPLYCOST)",
        Aggregate::Average(Measure::PriceTimesDiscount) => "AVG(LO_EXTENDEDPRICE*LO_DISCOUNT)",
        Aggregate::Average(Measure::Quantity) => "AVG(LO_QUANTITY)",
        Aggregate::Average(Measure::ExtendedPrice) => "AVG(LO_EXTENDEDPRICE)",
        Aggregate::Average(Measure::SupplyCost) => "AVG(LO_SUPPLYCOST)",
        Aggregate::Average(Measure::Lines) => "AVG(COUNT)",
    }
}

// The head of what the piece of this number prints: the name behind it, else its own.
fn head_of<'a>(pieces: &[SqlPiece<'a>], number: usize, own: &'static str) -> &'a str {
    match pieces.get(number.saturating_add(1)) {
        Some(SqlPiece::Called(name)) => name,
        _ => own,
    }
}

impl Printed {
    fn add(&mut self, shown: Shown, head: Text, number: usize) -> Result<(), PieceFault> {
        if self.shown.len() >= MOST_SHOWN {
            return Err(PieceFault::TooMany(number));
        }
        let name = head.as_str();
        if self
            .heads
            .iter()
            .any(|own| own.as_str().eq_ignore_ascii_case(name))
        {
            return Err(PieceFault::SameHead(number));
        }
        self.shown.push(shown)?;
        self.heads.push(head)?;
        Ok(())
    }

    /// What the pieces print.
    pub fn of(
        alloc: Global,
        pieces: &[SqlPiece<'_>],
        groups: &[Column],
    ) -> Result<Printed, PieceFault> {
        let mut printed = Printed {
            shown: Vec::new(alloc),
            heads: Vec::new(alloc),
            measures: Vec::new(alloc),
        };
        for (number, piece) in pieces.iter().enumerate() {
            match piece {
                SqlPiece::Prints(column) => {
                    let place = place_of(groups, *column, number)?;
                    let head = Text::from_str(alloc, head_of(pieces, number, column.name()))?;
                    printed.add(Shown::Group(place), head, number)?;
                }
                SqlPiece::Computes(aggregate) => {
                    let own = own_head(*aggregate);
                    let head = Text::from_str(alloc, head_of(pieces, number, own))?;
                    let shown = shown_of(&mut printed.measures, *aggregate)?;
                    printed.add(shown, head, number)?;
                }
                _ => {}
            }
        }
        Ok(printed)
    }

    /// What is summed; the number of lines where nothing is.
    pub fn asked(mut self) -> Result<Printed, AllocError> {
        if self.measures.is_empty() {
            self.measures.push(Measure::Lines)?;
        }
        Ok(self)
    }

    // What has this head.
    fn called(&self, name: &str, number: usize) -> Result<Shown, PieceFault> {
        let place = self
            .heads
            .iter()
            .position(|head| head.as_str().eq_ignore_ascii_case(name));
        match place.and_then(|place| self.shown.get(place)) {
            Some(shown) => Ok(*shown),
            None => Err(PieceFault::UnknownName(number)),
        }
    }

    // What is printed at this place, from 1.
    fn printed_at(&self, place: u64, number: usize) -> Result<Shown, PieceFault> {
        let place = (place as usize).checked_sub(1);
        match place.and_then(|place| self.shown.get(place)) {
            Some(shown) => Ok(*shown),
            None => Err(PieceFault::UnknownName(number)),
        }
    }

    // What rows stand by, where a piece says so.
    fn key_in(
        &mut self,
        piece: &SqlPiece<'_>,
        groups: &[Column],
        number: usize,
    ) -> Result<Option<Shown>, PieceFault> {
        match piece {
            SqlPiece::OrdersBy(column) => Ok(Some(Shown::Group(place_of(
                groups, *column, number,
            )?))),
            SqlPiece::OrdersByName(name) => Ok(Some(self.called(name, number)?)),
            SqlPiece::OrdersByPlace(place) => Ok(Some(self.printed_at(*place, number)?)),
            SqlPiece::OrdersByAggregate(aggregate) => {
                Ok(Some(shown_of(&mut self.measures, *aggregate)?))
            }
            _ => Ok(None),
        }
    }

    /// What each group must have.
    pub fn having_in(
        &mut self,
        alloc: Global,
        pieces: &[SqlPiece<'_>],
    ) -> Result<Vec<GroupTest>, AllocError> {
        let mut having = Vec::new(alloc);
        for piece in pieces {
            if let SqlPiece::Keeps(aggregate, comparison, number) = piece {
                having.push(GroupTest {
                    shown: shown_of(&mut self.measures, *aggregate)?,
                    comparison: *comparison,
                    number: *number,
                })?;
            }
        }
        Ok(having)
    }

    /// What rows stand by, the first key first.
    pub fn order_in(
        &mut self,
        alloc: Global,
        pieces: &[SqlPiece<'_>],
        groups: &[Column],
    ) -> Result<Vec<SortKey>, PieceFault> {
        let mut order = Vec::new(alloc);
        for (number, piece) in pieces.iter().enumerate() {
            if let Some(shown) = self.key_in(piece, groups, number)? {
                let behind = pieces.get(number.saturating_add(1));
                order.push(SortKey {
                    shown,
                    descending: matches!(behind, Some(SqlPiece::Descending)),
                })?;
            }
        }
        Ok(order)
    }
}

// How many rows are printed at most, where a piece says so.
fn most_in(piece: SqlPiece<'_>) -> Option<u64>
    ensures { result ≡ most_said piece.entry }
{
    match piece {
        SqlPiece::Limit(most) => Some(most),
        _ => None,
    }
}

/// How many rows are printed at most, where the pieces say so.
#[tactic(auto, using(crate::proofs::SaidLaws::nothing_more))]
pub(crate) fn limit_in(pieces: &[SqlPiece<'_>]) -> Option<u64>
    ensures { result ≡ limit_said pieces.now }
{
    match pieces {
        [] => None,
        [first, others @ ..] => match most_in(*first) {
            Some(most) => Some(most),
            None => limit_in(others),
        },
    }
}
