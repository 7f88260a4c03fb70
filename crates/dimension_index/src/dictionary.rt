//! The distinct values of a column, each with its code.
ghost use Rattle.std.specs.Prelude.{◌≡◌, ◌<◌, ◌^◌, [], map, length, slice_get, IfOk, OnOk, OnErr, Some};
ghost use Rattle.indexmap.specs.IndexSet.{insert_key};
ghost use Rattle.ssb_questions.specs.Cond.{column_value, holds};
ghost use Rattle.ssb_questions.specs.Queries.{number_of, text_of};
ghost use Rattle.dimension_index.specs.Codes.{is_same, hash_input_of};

use indexmap::IndexSet;
use ssb_answers::{ColumnValue, Cond, Value};
use std::alloc::{AllocError, Global};
use std::hash::{Hash, Hasher};
use std::marker::Model;

/// A value that can be hashed. Contracts see the value.
#[derive(Drop)]
struct Word {
    value: Value,
}

impl Model for Word {
    ghost use Rattle.ssb_questions.specs.declared.value.Value.{Value as PlainValue};

    ghost Value = { PlainValue };

    ghost view = { λ word. word.value };
}

impl PartialEq for Word {
    ghost use Rattle.ssb_questions.specs.ValueLaws.{value_cmp_total};
    ghost use Rattle.std.specs.Cmp.{partial_equiv_from_equiv, eq_by_cmp_equiv};

    ghost eq = { is_same };

    ghost laws = { partial_equiv_from_equiv (eq_by_cmp_equiv value_cmp_total) };

    fn eq(&self, other: &Word) -> bool {
        self.value == other.value
    }
}

impl Eq for Word {
    ghost use Rattle.ssb_questions.specs.ValueLaws.{value_cmp_total};
    ghost use Rattle.std.specs.Cmp.{eq_by_cmp_equiv};

    ghost laws = { eq_by_cmp_equiv value_cmp_total };
}

impl Hash for Word {
    ghost use Rattle.dimension_index.specs.HashLaws.{same_values_hash_alike};

    ghost hash_input = { hash_input_of };

    ghost respects_eq = { same_values_hash_alike };

    fn hash<H: Hasher>(&self, state: &mut H) {
        match &self.value {
            Value::Text(text) => text.as_str().hash(state),
            Value::Number(number) => number.hash(state),
        }
    }
}

/// Values with their codes, which count from 0 in the order of first sight. Contracts see the values by code.
#[derive(Drop)]
pub struct Dictionary {
    words: IndexSet<Word>,
}

impl Model for Dictionary {
    ghost use Rattle.std.specs.Prelude.{List};
    ghost use Rattle.ssb_questions.specs.declared.value.Value.{Value as PlainValue};

    ghost Value = { List PlainValue };

    ghost view = { λ dictionary. dictionary.words.keys };
}

// A value as it stands in a row.
fn lent(value: &Value) -> ColumnValue<'_>
    ensures { column_value result ≡ value.now }
{
    match value {
        Value::Text(text) => ColumnValue::Text(text),
        Value::Number(number) => ColumnValue::Number(*number),
    }
}

impl Dictionary {
    /// A dictionary of no values.
    pub fn new(alloc: Global) -> Dictionary
        ensures { result ≡ [] }
    {
        Dictionary {
            words: IndexSet::new(alloc),
        }
    }

    /// How many values there are.
    pub fn len(&self) -> usize
        ensures { result ≡ length self.now }
    {
        self.words.len()
    }

    /// The code of a value, which is entered where it is new.
    pub fn enter(&mut self, value: ColumnValue<'_>) -> Result<u32, AllocError>
        requires { length self.old < 2 ^ 32 }
        ensures values { OnOk result (self.new ≡ insert_key is_same self.old (column_value value.entry)) }
        ensures code { IfOk result (λ code. slice_get self.new code ≡ Some (column_value value.entry)) }
        ensures unchanged { OnErr result (self.new ≡ self.old) }
    {
        let word = Word {
            value: value.to_value()?,
        };
        match self.words.insert_full(word) {
            Ok((code, _)) => Ok(code as u32),
            Err(_) => Err(AllocError),
        }
    }

    /// Of each value, by code, whether a test holds of it.
    pub(crate) fn passing(&self, alloc: Global, cond: &Cond) -> Result<Vec<bool>, AllocError>
        ensures { IfOk result (λ passes. passes.items ≡ map (holds cond.now) self.now) }
    {
        let mut passes = Vec::with_capacity(alloc, self.len())?;
        for word in self.words.as_slice() {
            passes.push(cond.holds(lent(&word.value)))?;
        }
        Ok(passes)
    }

    /// The value of a code.
    pub fn value(&self, code: u32) -> &Value
        requires { code < length self.now }
        ensures { Some result.now ≡ slice_get self.now code }
    {
        let word = &self.words.as_slice()[code as usize];
        &word.value
    }

    /// The value of a code, as a row has it.
    pub fn column_value(&self, code: usize) -> ColumnValue<'_>
        requires { code < length self.now }
        ensures { Some (column_value result) ≡ slice_get self.now code }
    {
        let word = &self.words.as_slice()[code];
        lent(&word.value)
    }

    /// The text of a code; empty where it is the code of a number, or of nothing.
    pub fn text(&self, code: u32) -> &str
        ensures { result.now ≡ text_of (slice_get self.now code) }
    {
        match self.words.get_index(code as usize) {
            Some(word) => match &word.value {
                Value::Text(text) => text.as_str(),
                Value::Number(_) => "",
            },
            None => "",
        }
    }

    /// The number of a code; 0 where it is the code of a text, or of nothing.
    pub fn number(&self, code: u32) -> u64
        ensures { result ≡ number_of (slice_get self.now code) }
    {
        match self.words.get_index(code as usize) {
            Some(word) => match &word.value {
                Value::Text(_) => 0,
                Value::Number(number) => *number,
            },
            None => 0,
        }
    }
}
