//! The questions of a batch, chunk by chunk.
ghost use Rattle.std.specs.Prelude.{◌≡◌, ◌≤◌, ◌-◌, length, vec_len};
ghost use Rattle.std.specs.List.{range_with_len};
ghost use Rattle.scan_kernel.specs.Dealt.{KeepRoom};
ghost use Rattle.scan_kernel.specs.Masks.{questions_a_pass};
ghost use Rattle.scan_kernel.specs.Room.{AreFound, HasDealtRoom};
ghost use Rattle.scan_kernel.specs.Totals.{CanSumAll, HaveSizes, AddsBatch};

use crate::adding::add_places;
use crate::columns::{Grouping, LineColumns};
use crate::masks::Masks;
use crate::selecting::deal_places;
use crate::totals::Totals;

/// The places from `from` up to `to` that some question takes, each with its mask.
#[derive(Clone, Copy)]
pub struct FoundPlaces<'a> {
    pub from: usize,
    pub to: usize,
    pub places: &'a [u32],
    pub masks: &'a [u16],
}

/// Room for the places that each question takes, and for the groups of those of one.
#[derive(Drop)]
pub struct Dealt {
    /// As many as a mask has bits.
    pub lists: Vec<Vec<u32>>,
    pub groups: Vec<u32>,
}

/// Adds to the totals of each question the places that it takes of those that were found.
pub fn add_found(
    lines: &LineColumns<'_>,
    masks: &Masks,
    groupings: &[Grouping<'_>],
    found: FoundPlaces<'_>,
    dealt: &mut Dealt,
    totals: &mut [Totals],
)
    requires few { length groupings.now ≤ questions_a_pass }
    requires found { AreFound lines.now masks.now found }
    requires room { HasDealtRoom (length found.places.now) dealt.old }
    requires can_sum { CanSumAll lines.now masks.now groupings.now }
    requires sizes { HaveSizes groupings.now totals.old }
    ensures lists { KeepRoom dealt.old.lists.items dealt.new.lists.items }
    ensures groups { vec_len dealt.new.groups ≡ vec_len dealt.old.groups }
    ensures sizes { HaveSizes groupings.now totals.new }
    ensures added { AddsBatch lines.now masks.now groupings.now
        (range_with_len found.entry.from (found.entry.to - found.entry.from)) totals.old totals.new }
{
    deal_places(found.places, found.masks, &mut dealt.lists);
    for number in 0..groupings.len() {
        let grouping = &groupings[number];
        let list = &dealt.lists[number];
        let places = list.as_slice();
        let sums = &mut totals[number];
        add_places(lines, grouping, places, &mut dealt.groups, sums);
    }
}
