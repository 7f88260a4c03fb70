//! Lists as contracts see them.

ghost use Rattle.std.specs.Prelude.{◌≡◌, length, OnSome, ◌<◌, slice_get};
ghost use Rattle.std.specs.Option.{option_copied};
ghost use Rattle.std.specs.Cmp.Lexicographic.{pointwise, slice_cmp, slice_partial_cmp, lists_equiv, lists_agrees};
ghost use Rattle.std.specs.Cmp.Lexicographic.{lists_total, lists_ties, lists_per, lists_po};

use std::cmp::Ordering;
use std::fmt;
use std::marker::Model;

/// A `Vec` that contracts see as the list of its elements.
pub struct Items<T> {
    items: Vec<T>,
}

impl<T: Drop> Drop for Items<T> {
    fn drop(self) {
        let Items { items: _ } = self;
    }
}

impl<T> Model for Items<T> {
    ghost use Rattle.std.specs.Prelude.{List};
    ghost use Rattle.std.specs.Coded.{coded_list};

    ghost Value = { List T };

    ghost coded = { coded_list T.code };

    ghost view = { λ it. it.items.items };
}

impl<T> Items<T> {
    /// The items of a vector; it takes no memory.
    pub fn from_vec(items: Vec<T>) -> Items<T>
        ensures { result ≡ items.items }
    {
        Items { items }
    }

    /// The vector of the items; it takes no memory.
    pub fn into_vec(self) -> Vec<T>
        ensures { result.items ≡ self }
    {
        let Items { items } = self;
        items
    }

    /// The items, in order.
    pub fn as_slice(&self) -> &[T]
        ensures { result.now ≡ self.now }
    {
        self.items.as_slice()
    }

    /// How many items there are.
    pub fn len(&self) -> usize
        ensures { result ≡ length self.now }
    {
        self.items.len()
    }

    /// The item at a place, counted from 0, if there is one.
    pub fn get(&self, at: usize) -> Option<&T>
        ensures value { option_copied result ≡ slice_get self.now at }
        ensures within { OnSome result (at < length self.now) }
    {
        self.items.get(at)
    }
}

impl<T: fmt::Debug> fmt::Debug for Items<T> {
    fn fmt<W: fmt::Write>(&self, f: &mut fmt::Formatter<W>) -> fmt::Result {
        f.debug_list().slice(self.as_slice()).finish()
    }
}

impl<T: PartialEq> PartialEq for Items<T> {
    ghost eq = { pointwise T.eq };

    ghost laws = { lists_per T.laws };

    fn eq(&self, other: &Items<T>) -> bool {
        self.as_slice() == other.as_slice()
    }
}

impl<T: Eq> Eq for Items<T> {
    ghost laws = { lists_equiv T.Eq.laws };
}

impl<T: PartialOrd> PartialOrd for Items<T> {
    ghost partial_cmp = { slice_partial_cmp T.partial_cmp };

    ghost laws = { lists_po T.PartialOrd.laws };

    fn partial_cmp(&self, other: &Items<T>) -> Option<Ordering> {
        self.as_slice().partial_cmp(&other.as_slice())
    }
}

impl<T: Ord> Ord for Items<T> {
    ghost cmp = { slice_cmp T.cmp };

    ghost total = { lists_total T.total };

    ghost matches_partial_cmp = { lists_agrees T.matches_partial_cmp };

    ghost matches_eq = { lists_ties T.cmp T.matches_eq };

    fn cmp(&self, other: &Items<T>) -> Ordering {
        self.as_slice().cmp(other.as_slice())
    }
}
