//! A column of a dimension in codes.
ghost use Rattle.std.specs.Prelude.{◌≡◌, ◌<◌, ◌^◌, [], map, length, IfOk, OnOk};
ghost use Rattle.ssb_questions.specs.Cond.{holds};
ghost use Rattle.dimension_index.specs.Codes.{distinct, codes_of};
ghost use Rattle.dimension_index.specs.Bitmaps.{narrowed};

use crate::dictionary::Dictionary;
use ssb_answers::{Cond, QueryFields, Value};
use ssb_schema::Row;
use std::alloc::{AllocError, Global};
use std::marker::Model;

/// A column of a dimension: its distinct values, and the code of each row's value. Contracts see the values, row by
/// row.
#[derive(Drop)]
pub struct CodedColumn {
    dictionary: Dictionary,
    codes: Vec<u32>,
}

impl Model for CodedColumn {
    ghost use Rattle.std.specs.Prelude.{List};
    ghost use Rattle.ssb_questions.specs.declared.value.Value.{Value as PlainValue};
    ghost use Rattle.dimension_index.specs.CodedColumns.{IsCoded, values_in};

    ghost Value = { List PlainValue };

    ghost view = { λ c. values_in c.dictionary c.codes.items };

    ghost invariant = { λ c. IsCoded c.dictionary c.codes.items };
}

impl CodedColumn {
    /// The column at a place of the rows.
    pub(crate) fn of<F: QueryFields>(
        alloc: Global,
        rows: &[Row<F>],
        place: usize,
    ) -> Result<CodedColumn, AllocError>
        requires { length rows.now < 2 ^ 32 }
        ensures { IfOk result (λ column. column ≡ map (F.value_of place) rows.now) }
    {
        let mut dictionary = Dictionary::new(alloc);
        let mut codes = Vec::new(alloc);
        codes.reserve(rows.len())?;
        for row in rows {
            let code = dictionary.enter(F::value(row, place))?;
            codes.push(code)?;
        }
        Ok(CodedColumn { dictionary, codes })
    }

    /// A column of no rows.
    pub(crate) fn none(alloc: Global) -> CodedColumn
        ensures { result ≡ [] }
    {
        CodedColumn {
            dictionary: Dictionary::new(alloc),
            codes: Vec::new(alloc),
        }
    }

    /// Takes away the rows whose value a test does not hold of.
    pub(crate) fn narrow(
        &self,
        alloc: Global,
        cond: &Cond,
        rows: &mut [bool],
    ) -> Result<(), AllocError>
        requires { length rows.old ≡ length self.now }
        ensures { OnOk result (rows.new ≡ narrowed rows.old (map (holds cond.now) self.now)) }
    {
        let passes = self.dictionary.passing(alloc, cond)?;
        for (row, code) in self.codes.iter().enumerate() {
            // Both sides are read, so that no branch is guessed wrong.
            rows[row] &= passes[*code as usize];
        }
        Ok(())
    }

    /// How many rows there are.
    pub fn len(&self) -> usize
        ensures { result ≡ length self.now }
    {
        self.codes.len()
    }

    /// The codes of the rows' values, by position.
    pub fn codes(&self) -> &[u32]
        ensures { result.now ≡ codes_of self.now }
    {
        self.codes.as_slice()
    }

    /// The distinct values, by code.
    pub fn dictionary(&self) -> &Dictionary
        ensures { result.now ≡ distinct self.now }
    {
        &self.dictionary
    }
}
