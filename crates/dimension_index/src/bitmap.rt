//! Which rows of a dimension pass tests.
ghost use Rattle.std.specs.Prelude.{◌≡◌, ◌<◌, List, length, false, slice_index_or};

use std::marker::Model;

/// For each row of a dimension, by position, whether it passes all of some tests. Contracts see the list.
#[derive(Drop)]
pub struct Bitmap {
    bits: Vec<bool>,
}

impl Model for Bitmap {
    ghost use Rattle.std.specs.Prelude.{List, Bool};

    ghost Value = { List Bool };

    ghost view = { λ bitmap. bitmap.bits.items };
}

impl Bitmap {
    pub(crate) fn from_vec(bits: Vec<bool>) -> Bitmap
        ensures { result ≡ bits.items }
    {
        Bitmap { bits }
    }

    /// Whether the row at a position passes.
    pub fn has(&self, position: usize) -> bool
        requires { position < length self.now }
        ensures { result ≡ slice_index_or self.now position false }
    {
        self.bits[position]
    }

    /// How many rows there are.
    pub fn len(&self) -> usize
        ensures { result ≡ length self.now }
    {
        self.bits.len()
    }

    /// Whether each row passes, by position.
    pub fn as_slice(&self) -> &[bool]
        ensures { result.now ≡ self.now }
    {
        self.bits.as_slice()
    }
}
