//! The rows of a dimension, which are found by their keys.

ghost use Rattle.std.specs.Prelude.{◌≡◌, is_some, slice_get};
ghost use Rattle.std.specs.Option.{option_and_then, option_copied};
ghost use Rattle.ssb_base.specs.Base.{has_key, row_with};
ghost use Rattle.ssb_base.specs.Indexed.{IsIndexOf, place_of};

use crate::index::Index;
use ssb_schema::{Keyed, Row};
use std::marker::Model;

/// The rows of a dimension, in the order of its file. Contracts see their values.
#[derive(Drop)]
pub struct Dimension<F: Keyed> {
    rows: Vec<Row<F>>,
    index: Index,
}

impl<F: Keyed> Model for Dimension<F> {
    ghost use Rattle.std.specs.Prelude.{List};
    ghost use Rattle.ssb_base.specs.Indexed.{IsIndexOf, place_of};

    ghost Value = { List F };

    ghost view = { λ dimension. dimension.rows.items };

    ghost invariant = { λ dimension. IsIndexOf F.key_of dimension.rows.items dimension.rows.items
        (place_of dimension.index) };
}

impl<F: Keyed> Dimension<F> {
    // The dimension of these rows, which the index finds.
    pub(crate) fn new(rows: Vec<Row<F>>, index: Index) -> Dimension<F>
        requires { IsIndexOf F.key_of rows.items rows.items (place_of index) }
        ensures { result ≡ rows.items }
    {
        Dimension { rows, index }
    }

    /// The rows.
    pub fn rows(&self) -> &[Row<F>]
        ensures { result.now ≡ self.now }
    {
        self.rows.as_slice()
    }

    /// The row of this key, if there is one.
    pub fn row(&self, key: u64) -> Option<&Row<F>>
        ensures { option_copied result ≡ row_with F.key_of self.now key }
    {
        match self.index.position(key) {
            Some(place) => self.rows.get(place),
            None => None,
        }
    }

    /// The place of the row of this key among the rows, counted from 0, if there is one.
    pub fn position(&self, key: u64) -> Option<usize>
        ensures row { option_and_then (slice_get self.now) result ≡ row_with F.key_of self.now key }
        ensures found { is_some result ≡ has_key F.key_of self.now key }
    {
        self.index.position(key)
    }

    /// Whether there is a row of this key.
    pub fn contains(&self, key: u64) -> bool
        ensures { result ≡ has_key F.key_of self.now key }
    {
        self.index.contains(key)
    }
}
